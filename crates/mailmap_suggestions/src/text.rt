//! The text of suggestions.
ghost use Rattle.std.specs.Prelude.{◌≡◌, ◌++◌, ◌∷◌, [], OnOk, Some, if◌then◌else◌, map, nat_lt, unwrap_or};
ghost use Rattle.std.specs.Option.{option_copied};
ghost use Rattle.mailmap_contacts.specs.Answers.{tally_of};
ghost use Rattle.mailmap_entries.specs.Entries.{mapping_of};
ghost use Rattle.mailmap_entries.specs.Semantics.{last};
ghost use Rattle.mailmap_grammar.specs.Lines.{is_comment};
ghost use Rattle.mailmap_suggestions.specs.SuggestedText.{comment, comments, count_line, count_lines, cut_lines};
ghost use Rattle.mailmap_suggestions.specs.SuggestedText.{entry_line, entry_lines};
ghost use Rattle.mailmap_suggestions.specs.SuggestedText.{feed_after};
ghost use Rattle.mailmap_suggestions.specs.SuggestedText.{feed_unless, fields_text, kind_lines, mark, suggestion_text};
ghost use Rattle.mailmap_suggestions.specs.EntryLines.{is_cut_by_git};
ghost use Rattle.mailmap_suggestions.specs.Shortened.{shortened, shortened_to};
ghost use Rattle.shown_text.specs.Shown.{shown};
ghost use Rattle.mailmap_suggestions.specs.Suggestions.{needs_review};
ghost use Rattle.mailmap_suggestions.specs.Views.{kind_of, suggestion_of};

use crate::kinds::Kind;
use crate::shortened::{push_short_contact, push_shortened, push_shortened_to};
use crate::suggestions::Suggestion;
use itoa::Buffer;
use mailmap_contacts::answers::Tally;
use mailmap_entries::Entry;
use mailmap_grammar::writing::{len_with_line, push_email, push_name};
use shown_text::shown::{may_need_escapes, push_shown};
use std::alloc::AllocError;

/// The line feed that has to come before the text of suggestions, if there are any: none if the last mailmap is empty
/// or ends with one.
pub fn feed_after(buffers: &[&[u8]]) -> &'static [u8]
    ensures { result.now ≡ feed_after (map (λ b. b.now) buffers.now) }
{
    match buffers.last() {
        Some(buffer) => missing_feed(buffer),
        None => b"",
    }
}

/// Appends the lines of a suggestion: what its answers have in common, how often each comes, the entries, and an empty
/// line. Comments are escaped by [`push_shown`].
///
/// ```text
/// # alike
/// # 2 Jane Doe <jane@x>
/// # 1 Doe, Jane <jane@z>
/// #?Jane Doe <jane@x> <jane@z>
///
/// ```
pub fn push_suggestion(out: &mut Vec<u8>, suggestion: &Suggestion<'_>) -> Result<(), AllocError>
    ensures { OnOk result (out.new.items ≡ out.old.items
        ++ suggestion_text (needs_review (kind_of suggestion.now.kind)) (suggestion_of suggestion.now)) }
{
    push_comments(out, suggestion)?;
    let needs_review = suggestion.kind.needs_review();
    push_entries(out, suggestion.entries.as_slice(), needs_review)?;
    out.push(b'\n')?;
    Ok(())
}

fn push_comments(out: &mut Vec<u8>, suggestion: &Suggestion<'_>) -> Result<(), AllocError>
    ensures { OnOk result (out.new.items ≡ out.old.items ++ comments (suggestion_of suggestion.now)) }
{
    push_cut(out, suggestion.is_cut)?;
    push_kind(out, suggestion.kind)?;
    push_counts(out, suggestion.answers.as_slice(), false)?;
    push_counts(out, suggestion.git_answers.as_slice(), true)
}

// A line feed, if a text isn't empty and doesn't end with one.
fn missing_feed(text: &[u8]) -> &'static [u8]
    ensures { result.now ≡ feed_unless (last text.now) }
{
    match text.last() {
        Some(last) => feed_unless(*last),
        None => b"",
    }
}

fn feed_unless(last: u8) -> &'static [u8]
    ensures { result.now ≡ feed_unless (Some last) }
{
    if last == b'\n' { b"" } else { b"\n" }
}

fn push_cut(out: &mut Vec<u8>, is_cut: bool) -> Result<(), AllocError>
    ensures { OnOk result (out.new.items ≡ out.old.items ++ cut_lines is_cut) }
{
    if is_cut {
        out.extend_from_slice(b"# too long for git\n")?;
    }
    Ok(())
}

fn push_kind(out: &mut Vec<u8>, kind: Kind<'_>) -> Result<(), AllocError>
    ensures { OnOk result (out.new.items ≡ out.old.items ++ kind_lines (kind_of kind.entry)) }
{
    match kind {
        Kind::SharedEmail(email) => push_head(out, b"several people may share ", email),
        Kind::Alike => out.extend_from_slice(b"# alike\n"),
        Kind::Login(login) => push_head(out, b"login ", login),
        Kind::Email | Kind::Name => Ok(()),
    }
}

fn push_head(out: &mut Vec<u8>, head: &[u8], text: &[u8]) -> Result<(), AllocError>
    ensures { OnOk result (out.new.items ≡ out.old.items ++ (comment (head.now ++ shortened text.now) ++ 10 ∷ [])) }
{
    let mut said = Vec::from_slice(*out.allocator(), head)?;
    push_shortened(&mut said, text)?;
    push_comment(out, said.as_slice())
}

// Appends a comment with escapes, and its line feed.
fn push_comment(out: &mut Vec<u8>, text: &[u8]) -> Result<(), AllocError>
    ensures { OnOk result (out.new.items ≡ out.old.items ++ (comment text.now ++ 10 ∷ [])) }
{
    out.extend_from_slice(b"# ")?;
    push_comment_text(out, text)?;
    out.push(b'\n')?;
    Ok(())
}

#[tactic(auto, using(shown_text::proofs::Escapes::plain))]
fn push_comment_text(out: &mut Vec<u8>, text: &[u8]) -> Result<(), AllocError>
    ensures { OnOk result (out.new.items ≡ out.old.items ++ shortened_to 1000 (shown text.now)) }
{
    if !may_need_escapes(text) {
        return push_shortened_to(LONGEST_COMMENT, out, text);
    }
    let mut shown = Vec::new(*out.allocator());
    push_shown(&mut shown, text)?;
    push_shortened_to(LONGEST_COMMENT, out, shown.as_slice())
}

// A longer comment is cut, since git would read what comes after 1,023 bytes as a line of its own. Only escapes can make
// one that long.
const LONGEST_COMMENT: usize = 1000;

fn push_counts(out: &mut Vec<u8>, answers: &[Tally<'_>], are_gits: bool) -> Result<(), AllocError>
    ensures { OnOk result (out.new.items ≡ out.old.items ++ count_lines are_gits (map tally_of answers.now)) }
{
    for answer in answers {
        push_count(out, answer.seen.count, answer.name, answer.email, are_gits)?;
    }
    Ok(())
}

fn push_entries(
    out: &mut Vec<u8>,
    entries: &[Entry<'_>],
    need_review: bool,
) -> Result<(), AllocError>
    ensures { OnOk result (out.new.items ≡ out.old.items ++ entry_lines need_review (map mapping_of entries.now)) }
{
    for entry in entries {
        push_entry(out, entry, need_review)?;
    }
    Ok(())
}

/// Appends the line of a suggested entry, with its line feed.
///
/// ```text
/// Jane Doe <jane@x> <JD@y>
/// #?Jane Doe <jane@x> <jane@z>
/// ```
///
/// The second one needs a look first: whoever deletes the `#?` accepts it.
pub fn push_entry(
    out: &mut Vec<u8>,
    entry: &Entry<'_>,
    needs_review: bool,
) -> Result<(), AllocError>
    ensures { OnOk result (out.new.items
        ≡ out.old.items ++ mark needs_review ++ entry_line (mapping_of entry.now) ++ 10 ∷ []) }
{
    push_line(out, entry, needs_review)?;
    out.push(b'\n')?;
    Ok(())
}

/// The same without the line feed.
pub(crate) fn push_line(
    out: &mut Vec<u8>,
    entry: &Entry<'_>,
    needs_review: bool,
) -> Result<(), AllocError>
    ensures { OnOk result (out.new.items ≡ out.old.items ++ mark needs_review ++ entry_line (mapping_of entry.now)) }
{
    if needs_review {
        out.extend_from_slice(b"#?")?;
    }
    if begins_comment(entry.new_name()) {
        out.push(b' ')?;
    }
    push_fields(out, entry)
}

/// Whether git would cut the line of an entry: it reads a line in pieces of 1,023 bytes, of which a line feed is one.
#[tactic(auto, using(crate::proofs::Counting::cut_by, crate::proofs::Counting::cut_always))]
pub(crate) fn is_cut_by_git(entry: &Entry<'_>) -> bool
    ensures { result ≡ is_cut_by_git (mapping_of entry.now) }
{
    match len_with_line(0, entry) {
        Some(len) => is_long(begins_comment(entry.new_name()), len),
        None => true,
    }
}

// Whether a line is too long. Its length is given with a space at the start, which it needs only if it begins as a
// comment, and with a line feed.
fn is_long(begins_comment: bool, len: usize) -> bool
    ensures { result ≡ nat_lt (if begins_comment then 1023 else 1024) len }
{
    if begins_comment {
        1023 < len
    } else {
        1024 < len
    }
}

fn begins_comment(name: Option<&[u8]>) -> bool
    ensures { result ≡ is_comment (unwrap_or (option_copied name.entry) []) }
{
    matches!(name, Some([b'#', ..]))
}

fn push_fields(out: &mut Vec<u8>, entry: &Entry<'_>) -> Result<(), AllocError>
    ensures { OnOk result (out.new.items ≡ out.old.items ++ fields_text (mapping_of entry.now)) }
{
    push_name(out, entry.new_name())?;
    if let Some(new_email) = entry.new_email() {
        push_email(out, new_email)?;
        out.push(b' ')?;
    }
    push_name(out, entry.old_name())?;
    push_email(out, entry.old_email())
}

/// Appends the comment that says how often an answer comes, with its line feed. It is escaped by [`push_shown`].
///
/// ```text
/// # 2 Jane Doe <jane@x>
/// # 1 Jane Doe <JANE@x> by git
/// ```
pub fn push_count(
    out: &mut Vec<u8>,
    count: usize,
    name: &[u8],
    email: &[u8],
    is_gits: bool,
) -> Result<(), AllocError>
    ensures { OnOk result (out.new.items ≡ out.old.items
        ++ count_line is_gits count (record { name = name.now; email = email.now }) ++ 10 ∷ []) }
{
    let mut digits = Buffer::new();
    let mut said = Vec::from_slice(*out.allocator(), digits.format(count).as_bytes())?;
    said.push(b' ')?;
    push_short_contact(&mut said, name, email)?;
    if is_gits {
        said.extend_from_slice(b" by git")?;
    }
    push_comment(out, said.as_slice())
}

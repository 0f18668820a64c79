//! Answers lines with contacts such as `Jane <jane@x>`, much as `git check-mailmap` does, and merges mailmaps into one.
ghost use Rattle.std.specs.Prelude.{◌≡◌, ◌++◌, ◌↔◌, [], map, unwrap_or, IfOk, IsTrue, OnErr, OnOk};
ghost use Rattle.std.specs.Io.{StartsWith};
ghost use Rattle.std.specs.List.{flat_map};
ghost use Rattle.mailmap_snapshot.specs.Contacts.{answer, answers, answers_by};
ghost use Rattle.mailmap_entries.specs.Semantics.{IsNormal, fields_for};
ghost use Rattle.mailmap_grammar.specs.Lines.{mappings_of};
ghost use Rattle.mailmap_snapshot.specs.Parts.{IsDividerLine, IsSplit};
ghost use Rattle.mailmap_snapshot.specs.Writing.{IsCompacted};

mod stream;

use crate::snapshot::Snapshot;
use bstr::ByteSlice;
use mailmap_grammar::contacts::{ParsedContact, contact_of};
use mailmap_grammar::parse_ignore_errors;
pub use mailmap_grammar::writing::push_contact;
use std::alloc::{AllocError, Global};
pub use stream::{ContactStream, Taken};

/// Answers each line of `contacts`, using the mappings of the buffers, later ones after earlier ones.
///
/// A contact is a name and an email in brackets, as in `Jane <jane@x>`. Name and email are trimmed, either can be
/// empty, and text after the `>` is ignored. The answer is the name, a space and the email in brackets, after mapping
/// both. If the name is empty, there is no space. A line that isn't a contact is its own answer, without its line end;
/// `#` doesn't begin a comment here. Every answer ends with a line feed, even if the last line doesn't.
///
/// With the mailmap `Jane Doe <jane@x>`, the answers to `jane <JANE@x>\r\nplain` are `Jane Doe <jane@x>\nplain\n`.
#[tactic(auto, using(crate::proofs::Streams::same_answers))]
pub fn check(alloc: Global, buffers: &[&[u8]], contacts: &[u8]) -> Result<Vec<u8>, AllocError>
    ensures { IfOk result (λ text. text.items ≡ answers_by (map (λ b. b.now) buffers.now) contacts.now) }
{
    let snapshot = snapshot_of(alloc, buffers)?;
    let mut text = Vec::new(alloc);
    push_answers(&mut text, &snapshot, contacts)?;
    Ok(text)
}

/// Makes a snapshot of the entries in the buffers, one buffer after another.
pub fn snapshot_of(alloc: Global, buffers: &[&[u8]]) -> Result<Snapshot, AllocError>
    ensures { IfOk result (IsNormal (flat_map mappings_of (map (λ b. b.now) buffers.now))) }
{
    // One merge for all buffers: each merge of more than one entry copies the tables or builds new ones.
    let entries = buffers.iter().flat_map(|buf| parse_ignore_errors(buf));
    Snapshot::new(alloc, entries)
}

// Appends the answers to all lines. If this fails, the text stays as it was.
pub(crate) fn push_answers(
    text: &mut Vec<u8>,
    snapshot: &Snapshot,
    contacts: &[u8],
) -> Result<(), AllocError>
    ensures ok { OnOk result (text.new.items ≡ text.old.items ++ answers snapshot.now contacts.now) }
    ensures err { OnErr result (text.new.items ≡ text.old.items) }
{
    let begun = text.len();
    let pushed = push_each(text, snapshot, contacts);
    if pushed.is_err() {
        text.truncate(begun);
    }
    pushed
}

// Does what `push_answers` does, but if it fails, some of the answers may have been appended.
fn push_each(text: &mut Vec<u8>, snapshot: &Snapshot, contacts: &[u8]) -> Result<(), AllocError>
    ensures ok { OnOk result (text.new.items ≡ text.old.items ++ answers snapshot.now contacts.now) }
    ensures front { StartsWith text.new.items text.old.items }
{
    for line in contacts.lines() {
        push_answer(text, snapshot, line)?;
        text.push(b'\n')?;
    }
    Ok(())
}

fn push_answer(text: &mut Vec<u8>, snapshot: &Snapshot, line: &[u8]) -> Result<(), AllocError>
    ensures ok { OnOk result (text.new.items ≡ text.old.items ++ answer snapshot.now line.now) }
    ensures front { StartsWith text.new.items text.old.items }
{
    let ParsedContact::Closed { name, email, .. } = contact_of(line) else {
        return text.extend_from_slice(line);
    };
    let (name, email) = resolved(snapshot, name, email);
    push_contact(text, name, email)
}

/// Resolves a contact: the mapped name and email, or its own if they aren't mapped.
pub fn resolved<'a>(snapshot: &'a Snapshot, name: &'a [u8], email: &'a [u8]) -> (&'a [u8], &'a [u8])
    ensures name { result.0.now ≡ unwrap_or (fields_for snapshot.now name.now email.now).name name.now }
    ensures email { result.1.now ≡ unwrap_or (fields_for snapshot.now name.now email.now).email email.now }
{
    match snapshot.try_resolve_contact(name, email) {
        Some(found) => (found.name.unwrap_or(name), found.email.unwrap_or(email)),
        None => (name, email),
    }
}

/// A mailmap that maps the same as the buffers, one after another. It has one line for each key, in the order of
/// [`Snapshot::iter`](crate::snapshot::Snapshot::iter()).
///
/// Comments and lines with a fault are left out. `Err` if memory runs out.
///
/// The buffers `N <a@x>` and `M <A@x>` give ` M <a@x>` and a line feed.
pub fn compact(alloc: Global, buffers: &[&[u8]]) -> Result<Vec<u8>, AllocError>
    // the text of the normal list of what the buffers say
    ensures { IfOk result (λ v. IsCompacted (map (λ b. b.now) buffers.now) v.items) }
{
    let snapshot = snapshot_of(alloc, buffers)?;
    // a line can hold every entry that was parsed from one
    snapshot.write_lines(alloc)
}

/// Splits the input at its first line `--`. Returns the bytes before this line and the bytes after it.
///
/// Lines end as in a mailmap, with a line feed or with a carriage return and a line feed; the last line needs neither.
/// The line end after the dashes is in neither part. A line with spaces beside the dashes doesn't count. Without such a
/// line the first part is empty, and the second is the whole input.
///
/// `a\n--\nb` gives `a\n` and `b`.
#[tactic(auto, using(crate::proofs::Dividers::fits))]
pub fn split(input: &[u8]) -> (&[u8], &[u8])
    ensures { IsSplit input.now result.0.now result.1.now }
{
    let mut index = 0;
    let mut lines = input.lines_with_terminator();
    while let Some(line) = lines.next() {
        let after = index + line.len();
        if is_divider(line) {
            return (&input[..index], &input[after..]);
        }
        index = after;
    }
    (&[], input)
}

// Whether a line, with its line end, is just the two dashes.
fn is_divider(line: &[u8]) -> bool
    ensures { IsTrue result ↔ IsDividerLine line.now }
{
    line == b"--\n".as_slice() || line == b"--\r\n".as_slice() || line == b"--".as_slice()
}

//! Splits a text into a contact: a name, and an email in brackets.
ghost use Rattle.std.specs.Prelude.{◌≡◌, ◌<◌, ◌↔◌, IsTrue, true};
ghost use Rattle.std.specs.Char.{is_whitespace};
ghost use Rattle.std.specs.Option.{option_copied};
ghost use Rattle.mailmap_entries.specs.Entries.{mapping_of};
ghost use Rattle.mailmap_grammar.specs.Lines.{by_both, contact_in, cut, non_empty as spec_non_empty, parsed_contact_of, trimmed_contact};
ghost use Rattle.mailmap_grammar.specs.Trimming.{trim as spec_trim};

use bstr::ByteSlice;
use mailmap_entries::Entry;

/// The contact at the start of a text. Its email is between the first `<` and the first `>` after it.
#[derive(Clone, Copy)]
pub enum ParsedContact<'a> {
    /// There is no `<`.
    Absent,
    /// There is a `<`, but no `>` after it.
    Unclosed,
    /// Name and email are trimmed, and either can be empty. `rest` is all text after the `>`, not trimmed.
    Closed {
        name: &'a [u8],
        email: &'a [u8],
        rest: &'a [u8],
    },
}

/// Parses the contact at the start of a line, after trimming the line.
///
/// The line `jd <JD@x> and more` has the name `jd` and the email `JD@x`.
#[inline(always)]
pub fn contact_of(line: &[u8]) -> ParsedContact<'_>
    ensures { parsed_contact_of result ≡ contact_in line.now }
{
    parse_name_and_email(trim(line))
}

/// Splits a text at its first `<` and the first `>` after it. Both contacts of a mailmap line are parsed by this, and
/// also the contacts to look up.
#[inline(always)]
#[tactic(auto, using(crate::proofs::SplitOnce::split_laws))]
pub fn parse_name_and_email(text: &[u8]) -> ParsedContact<'_>
    ensures { parsed_contact_of result ≡ trimmed_contact (cut text.now) }
{
    let Some(start_bracket) = text.find_byte(b'<') else {
        return ParsedContact::Absent;
    };
    let after = &text[start_bracket + 1..];
    let Some(closing_bracket) = after.find_byte(b'>') else {
        return ParsedContact::Unclosed;
    };
    ParsedContact::Closed {
        name: trim(&text[..start_bracket]),
        email: trim(&after[..closing_bracket]),
        rest: &after[closing_bracket + 1..],
    }
}

/// The text without the Unicode white space at its ends. Bytes that aren't valid UTF-8 stay.
#[inline]
pub fn trim(text: &[u8]) -> &[u8]
    ensures { result.now ≡ spec_trim text.now }
{
    // The first and the last byte of most texts show that there is nothing to trim, or that nothing is left past the
    // white space of ASCII.
    if is_plain(text) {
        return text;
    }
    let inner = trim_end_blanks(trim_start_blanks(text));
    if is_plain(inner) {
        return inner;
    }
    trim_unicode(inner)
}

// Trims any text. It isn't inlined, so that `trim` saves no registers for it.
#[inline(never)]
#[tactic(auto, unfolding(crate::specs::Trimming::trim))]
fn trim_unicode(text: &[u8]) -> &[u8]
    ensures { result.now ≡ spec_trim text.now }
{
    text.trim()
}

#[inline(always)]
#[tactic(auto, using(crate::proofs::Plain::first_blank))]
fn trim_start_blanks(text: &[u8]) -> &[u8]
    ensures { spec_trim result.now ≡ spec_trim text.now }
{
    let mut start = 0;
    while start < text.len() && is_blank(text[start]) {
        start += 1;
    }
    &text[start..]
}

#[inline(always)]
#[tactic(auto, using(crate::proofs::Plain::last_blank))]
fn trim_end_blanks(text: &[u8]) -> &[u8]
    ensures { spec_trim result.now ≡ spec_trim text.now }
{
    let mut end = text.len();
    while end > 0 && is_blank(text[end - 1]) {
        end -= 1;
    }
    &text[..end]
}

// White space of ASCII.
#[inline(always)]
pub(crate) fn is_blank(byte: u8) -> bool
    ensures { IsTrue result → (is_whitespace byte ≡ true) × (byte < 128) }
{
    byte == b' ' || b'\t' <= byte && byte <= b'\r'
}

// Whether the first and the last byte show that there is nothing to trim.
#[inline(always)]
#[tactic(auto, using(crate::proofs::Plain::plain, crate::proofs::Plain::plain_nil))]
fn is_plain(text: &[u8]) -> bool
    ensures { IsTrue result → spec_trim text.now ≡ text.now }
{
    let len = text.len();
    len == 0 || is_visible(text[0]) && is_visible(text[len - 1])
}

// An ASCII byte above the space: a whole character, and not white space.
#[inline(always)]
fn is_visible(byte: u8) -> bool
    ensures { IsTrue result ↔ (32 < byte) × (byte < 128) }
{
    32 < byte && byte < 128
}

/// The entry of a line with two contacts. An empty name counts as missing.
#[inline]
pub fn change_by_both<'a>(
    name: &'a [u8],
    email: &'a [u8],
    old_name: &'a [u8],
    old_email: &'a [u8],
) -> Entry<'a>
    ensures { mapping_of result ≡ by_both name.now email.now old_name.now old_email.now }
{
    match (non_empty(name), non_empty(old_name)) {
        (None, None) => Entry::change_email_by_email(email, old_email),
        (None, Some(old_name)) => Entry::change_email_by_name_and_email(email, old_name, old_email),
        (Some(name), None) => Entry::change_name_and_email_by_email(name, email, old_email),
        (Some(name), Some(old_name)) => {
            Entry::change_name_and_email_by_name_and_email(name, email, old_name, old_email)
        }
    }
}

/// The text, `None` if it is empty.
#[inline]
pub fn non_empty(text: &[u8]) -> Option<&[u8]>
    ensures { option_copied result ≡ spec_non_empty text.now }
{
    if text.is_empty() { None } else { Some(text) }
}

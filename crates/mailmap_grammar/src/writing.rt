//! Writes contacts, and entries as lines that [parse](crate::parse()) as the same entries again, if a line can hold them.
ghost use Rattle.std.specs.Prelude.{◌≡◌, ◌≢◌, ◌++◌, ◌∷◌, ◌+◌, ◌≤◌, ◌^◌, ◌↔◌, [], length, IsTrue, OnOk, IfSome, IfNone};
ghost use Rattle.std.specs.Prelude.{MatchOption, option_map, unwrap_or};
ghost use Rattle.std.specs.Io.{StartsWith};
ghost use Rattle.std.specs.Option.{option_copied};
ghost use Rattle.mailmap_grammar.specs.CanonicalText.{IsWritable, IsWritableName, IsWritableEmail, name_part};
ghost use Rattle.mailmap_grammar.specs.CanonicalText.{bracketed_email, email_part, canonical_line, contact_line};
ghost use Rattle.mailmap_entries.specs.Entries.{mapping_of};
ghost use Rattle.mailmap_grammar.specs.Lines.{HoldsNo};
ghost use Rattle.mailmap_grammar.specs.Trimming.{trim as spec_trim};

use crate::contacts::trim;
use bstr::ByteSlice;
use mailmap_entries::Entry;
use std::alloc::AllocError;

/// Whether a line can hold the entry, so that parsing the line gives the same entry again.
pub fn is_writable(entry: &Entry<'_>) -> bool
    ensures { IsTrue result ↔ IsWritable (mapping_of entry.now) }
{
    is_writable_name(entry.new_name())
        && is_writable_name(entry.old_name())
        && are_writable_emails(entry.new_email(), entry.old_email())
}

// Whether a name is parsed unchanged in front of a `<`.
fn is_writable_name(name: Option<&[u8]>) -> bool
    ensures { IsTrue result ↔ IfSome (option_copied name.entry) IsWritableName }
{
    match name {
        Some(name) => !name.is_empty() && is_trimmed(name) && is_line_without(name, b'<'),
        None => true,
    }
}

// Whether the emails are parsed unchanged between brackets, and the first one isn't empty.
fn are_writable_emails(new_email: Option<&[u8]>, old_email: &[u8]) -> bool
    ensures { let new = option_copied new_email.entry in
        let old = old_email.now in
        IsTrue result ↔ (IfSome new IsWritableEmail × IsWritableEmail old
        × IfSome new (λ email. email ≢ []) × IfNone new (old ≢ [])) }
{
    match new_email {
        Some(new_email) => {
            !new_email.is_empty() && is_writable_email(new_email) && is_writable_email(old_email)
        }
        None => !old_email.is_empty() && is_writable_email(old_email),
    }
}

// Whether an email is parsed unchanged between brackets.
fn is_writable_email(email: &[u8]) -> bool
    ensures { IsTrue result ↔ IsWritableEmail email.now }
{
    is_trimmed(email) && is_line_without(email, b'>')
}

#[tactic(auto, using(crate::proofs::Trimmed::whole))]
fn is_trimmed(text: &[u8]) -> bool
    ensures { IsTrue result ↔ (text.now ≡ spec_trim text.now) }
{
    trim(text).len() == text.len()
}

// Whether the text has neither this byte nor a line feed.
fn is_line_without(text: &[u8], byte: u8) -> bool
    ensures { IsTrue result ↔ (HoldsNo byte text.now × HoldsNo 10 text.now) }
{
    holds_no(text, byte) && holds_no(text, b'\n')
}

#[tactic(auto, using(crate::proofs::SplitOnce::held_laws))]
fn holds_no(text: &[u8], byte: u8) -> bool
    ensures { IsTrue result ↔ HoldsNo byte text.now }
{
    text.find_byte(byte).is_none()
}

/// The sum of `len` and the length of the entry's line, `None` if it overflows.
pub fn len_with_line(len: usize, entry: &Entry<'_>) -> Option<usize>
    ensures { let all = len + length (canonical_line (mapping_of entry.now))
        in MatchOption result (2 ^ 64 ≤ all) (λ n. n ≡ all) }
{
    // What is written beside the texts: a space; brackets and a space; a space; brackets, the space at the start of the
    // line and the line feed.
    let len = len_with_part(len, entry.new_name(), 1)?;
    let len = len_with_part(len, entry.new_email(), 3)?;
    let len = len_with_part(len, entry.old_name(), 1)?;
    len_with_part(len, Some(entry.old_email()), 4)
}

// Adds `extra` and the length of the text to `len`, if there is a text. `None` if the sum overflows.
fn len_with_part(len: usize, text: Option<&[u8]>, extra: usize) -> Option<usize>
    ensures { let all = len + unwrap_or (option_map (λ t. length t + extra) (option_copied text.entry)) 0
        in MatchOption result (2 ^ 64 ≤ all) (λ n. n ≡ all) }
{
    match text {
        Some(text) => len.checked_add(text.len())?.checked_add(extra),
        None => Some(len),
    }
}

/// Appends the line of an entry to the output.
pub fn push_line(out: &mut Vec<u8>, entry: &Entry<'_>) -> Result<(), AllocError>
    ensures { OnOk result (out.new.items ≡ out.old.items ++ canonical_line (mapping_of entry.now)) }
{
    push_new_fields(out, entry)?;
    push_old_fields(out, entry)
}

// Starts the line with a space, so that a name that begins with `#` doesn't make it a comment.
fn push_new_fields(out: &mut Vec<u8>, entry: &Entry<'_>) -> Result<(), AllocError>
    ensures { let e = mapping_of entry.now
        in OnOk result (out.new.items ≡ out.old.items ++ 32 ∷ (name_part e.new_name ++ email_part e.new_email)) }
{
    out.push(b' ')?;
    push_name(out, entry.new_name())?;
    if let Some(new_email) = entry.new_email() {
        push_email(out, new_email)?;
        out.push(b' ')?;
    }
    Ok(())
}

fn push_old_fields(out: &mut Vec<u8>, entry: &Entry<'_>) -> Result<(), AllocError>
    ensures { let e = mapping_of entry.now
        in OnOk result (out.new.items
        ≡ out.old.items ++ (name_part e.old_name ++ bracketed_email e.old_email ++ 10 ∷ [])) }
{
    push_name(out, entry.old_name())?;
    push_email(out, entry.old_email())?;
    out.push(b'\n')?;
    Ok(())
}

/// Appends a name and a space to the output, if there is a name.
pub fn push_name(out: &mut Vec<u8>, name: Option<&[u8]>) -> Result<(), AllocError>
    ensures { OnOk result (out.new.items ≡ out.old.items ++ name_part (option_copied name.entry)) }
{
    if let Some(name) = name {
        out.extend_from_slice(name)?;
        out.push(b' ')?;
    }
    Ok(())
}

/// Appends an email in brackets to the output.
pub fn push_email(out: &mut Vec<u8>, email: &[u8]) -> Result<(), AllocError>
    ensures { OnOk result (out.new.items ≡ out.old.items ++ bracketed_email email.now) }
{
    out.push(b'<')?;
    out.extend_from_slice(email)?;
    out.push(b'>')?;
    Ok(())
}

/// Appends a contact in the form of a line: the name and a space, unless the name is empty, and the email in brackets.
///
/// The name `Jane` and the email `j@x` are `Jane <j@x>`. If memory runs out, a part of it may have been appended.
#[inline]
pub fn push_contact(text: &mut Vec<u8>, name: &[u8], email: &[u8]) -> Result<(), AllocError>
    ensures ok { OnOk result (text.new.items ≡ text.old.items ++ contact_line name.now email.now) }
    ensures front { StartsWith text.new.items text.old.items }
{
    text.extend_from_slice(name)?;
    if !name.is_empty() {
        text.push(b' ')?;
    }
    text.push(b'<')?;
    text.extend_from_slice(email)?;
    text.push(b'>')?;
    Ok(())
}

//! What findings in mailmaps say.
ghost use Rattle.std.specs.Prelude.{◌≡◌, ◌++◌, [], IfOk, OnOk, codes, unwrap_or};
ghost use Rattle.std.specs.List.{list_any};
ghost use Rattle.std.specs.Option.{option_copied, option_map};
ghost use Rattle.mailmap_entries.specs.Texts.{texts};
ghost use Rattle.mailmap_entries.specs.Entries.{mapping_of};
ghost use Rattle.mailmap_findings.specs.Findings.{contact_of, kind_of};
ghost use Rattle.mailmap_findings.specs.Git.{git_reading_of};
ghost use Rattle.mailmap_grammar.specs.CanonicalText.{bracketed_email, name_part};
ghost use Rattle.mailmap_grammar.specs.Lines.{fault_of};
ghost use Rattle.mailmap_report.specs.Report.{contact_text, cure_text, entry_text, fault_text, git_text, is_email_byte};
ghost use Rattle.mailmap_report.specs.Report.{message_text, says_text, shortened};

use crate::alike::push_alike;
use crate::places::{push_position, push_positions};
use crate::texts::push_text;
use itoa::Buffer;
use mailmap_entries::Entry;
use mailmap_findings::verify::{Contact, FindingKind, GitReading};
use mailmap_grammar::lines::Error;
use mailmap_grammar::writing::{push_email, push_name};
use mailmap_suggestions::shortened::{push_short_contact, push_shortened, shortened};
use std::alloc::{AllocError, Global};

/// What a finding says, without its place, its level and its kind.
pub(crate) fn message_of(
    alloc: Global,
    paths: &[Vec<u8>],
    kind: FindingKind<'_>,
) -> Result<Vec<u8>, AllocError>
    ensures { IfOk result (λ message. message.items ≡ message_text (texts paths.now) (kind_of kind.entry)) }
{
    let mut message = Vec::new(alloc);
    push_message(&mut message, paths, kind)?;
    Ok(message)
}

fn push_message(
    text: &mut Vec<u8>,
    paths: &[Vec<u8>],
    kind: FindingKind<'_>,
) -> Result<(), AllocError>
    ensures { OnOk result (text.new.items
        ≡ text.old.items ++ message_text (texts paths.now) (kind_of kind.entry)) }
{
    match kind {
        FindingKind::Fault(fault) => push_text(text, fault_name(fault).as_bytes()),
        FindingKind::IgnoredText(ignored) => push_ignored(text, ignored),
        FindingKind::ByteOrderMark => push_text(text, b"byte order mark: delete it"),
        FindingKind::CommentInLine => push_text(
            text,
            b"the name begins with #, which begins a comment only as the first byte of a line",
        ),
        FindingKind::GitReads(reading) => push_reading(text, reading),
        FindingKind::NoEffect { beside, is_same } => {
            push_text(text, b"no effect: ")?;
            push_position(text, paths, beside)?;
            push_text(text, says_text(is_same))
        }
        FindingKind::ItselfMapped {
            contact,
            to,
            first,
            second,
        } => {
            push_mapped(text, contact, to)?;
            push_positions(text, paths, first, second)?;
            push_alike(text, name_of(contact), name_of(to))
        }
    }
}

fn push_ignored(text: &mut Vec<u8>, ignored: &[u8]) -> Result<(), AllocError>
    ensures { OnOk result (text.new.items ≡ text.old.items
        ++ (codes "ignored text: " ++ shortened ignored.now ++ cure_text ignored.now)) }
{
    push_text(text, b"ignored text: ")?;
    push_shortened(text, ignored)?;
    push_text(text, cure_text(ignored))
}

// Appends which contact is mapped, to which one; what comes next are the lines that do so.
fn push_mapped(text: &mut Vec<u8>, contact: Contact<'_>, to: Contact<'_>) -> Result<(), AllocError>
    ensures { OnOk result (text.new.items ≡ text.old.items ++ (contact_text (contact_of contact.entry)
        ++ codes " is itself mapped, to " ++ contact_text (contact_of to.entry) ++ codes " by ")) }
{
    push_short_contact(text, name_of(contact), contact.email)?;
    push_text(text, b" is itself mapped, to ")?;
    push_short_contact(text, name_of(to), to.email)?;
    push_text(text, b" by ")
}

fn name_of(contact: Contact<'_>) -> &[u8]
    ensures { result.now ≡ unwrap_or (contact_of contact.entry).name [] }
{
    contact.name.unwrap_or(&[])
}

// Says what to do about a text that may be meant as a name, and not as an email or a comment.
#[tactic(auto, unfolding(crate::specs::Report::cure_text))]
fn cure_text(ignored: &[u8]) -> &'static [u8]
    ensures { result.now ≡ cure_text ignored.now }
{
    match ignored {
        [b'#', ..] => b"",
        _ if has_email_byte(ignored) => b"",
        _ => b" (an old name needs an email after it)",
    }
}

fn has_email_byte(text: &[u8]) -> bool
    ensures { result ≡ list_any is_email_byte text.now }
{
    text.iter()
        .any(|byte| *byte == b'<' || *byte == b'>' || *byte == b'@')
}

#[tactic(auto, unfolding(crate::specs::Report::says_text))]
fn says_text(is_same: bool) -> &'static [u8]
    ensures { result.now ≡ says_text is_same }
{
    if is_same {
        b" says the same"
    } else {
        b" says something else"
    }
}

fn fault_name(fault: Error<'_>) -> &'static str
    ensures { result.now ≡ fault_text (fault_of fault.entry).kind }
{
    match fault {
        Error::NoEmail { .. } => "no email in brackets",
        Error::MissingClosingBracket { .. } => "the first '<' has no '>'",
        Error::EmptyEmail { .. } => "the first email is empty",
        Error::NothingToMap { .. } => "an email alone maps nothing",
        Error::UnclosedSecond { .. } => "the second '<' has no '>'",
    }
}

// Appends what git reads, as in `git reads it as Joe < a@x >`.
fn push_reading(text: &mut Vec<u8>, reading: GitReading<'_>) -> Result<(), AllocError>
    ensures { OnOk result (text.new.items ≡ text.old.items ++ (codes "git reads " ++ git_text (git_reading_of reading.entry))) }
{
    match reading {
        GitReading::Nothing => push_text(text, b"git reads nothing here"),
        GitReading::Entry(entry) => {
            push_text(text, b"git reads it as ")?;
            push_entry(text, &entry)
        }
        GitReading::Lines(count) => {
            let mut digits = Buffer::new();
            push_text(text, b"git reads it as ")?;
            push_text(text, digits.format(count).as_bytes())?;
            push_text(text, b" lines")
        }
    }
}

// Appends an entry as a mailmap line, with its texts shortened.
fn push_entry(text: &mut Vec<u8>, entry: &Entry<'_>) -> Result<(), AllocError>
    ensures { OnOk result (text.new.items ≡ text.old.items ++ entry_text (mapping_of entry.now)) }
{
    push_short_name(text, entry.new_name())?;
    if let Some(email) = entry.new_email() {
        push_short_email(text, email)?;
        push_text(text, b" ")?;
    }
    push_short_name(text, entry.old_name())?;
    push_short_email(text, entry.old_email())
}

fn push_short_name(text: &mut Vec<u8>, name: Option<&[u8]>) -> Result<(), AllocError>
    ensures { OnOk result (text.new.items
        ≡ text.old.items ++ name_part (option_map shortened (option_copied name.entry))) }
{
    let Some(name) = name else {
        return Ok(());
    };
    let name = shortened(*text.allocator(), name)?;
    push_name(text, Some(name.as_slice()))
}

fn push_short_email(text: &mut Vec<u8>, email: &[u8]) -> Result<(), AllocError>
    ensures { OnOk result (text.new.items ≡ text.old.items ++ bracketed_email (shortened email.now)) }
{
    let email = shortened(*text.allocator(), email)?;
    push_email(text, &email)
}

//! What is reported at a line: a finding of any kind, in words.
ghost use Rattle.std.specs.Prelude.{◌≡◌, ◌++◌, IfOk, OnOk};
ghost use Rattle.std.specs.Option.{option_map};
ghost use Rattle.mailmap_entries.specs.Texts.{texts};
ghost use Rattle.mailmap_contacts.specs.Answers.{tally_of};
ghost use Rattle.mailmap_findings.specs.Findings.{contact_of, finding_of, kind_of};
ghost use Rattle.mailmap_findings.specs.Git.{git_reading_of};
ghost use Rattle.mailmap_findings.specs.Remarks.{remark_of};
ghost use Rattle.mailmap_report.specs.Report.{compared_line, contact_notice, contact_words, count_text, counted_contact};
ghost use Rattle.mailmap_report.specs.Report.{finding_notice, likeness_text, place_at, referred_line, remark_notice};
ghost use Rattle.mailmap_report.specs.Report.{beside_by_git as spec_beside_by_git, beside_in as spec_beside_in};
ghost use Rattle.mailmap_report.specs.Report.{compared_contact as spec_compared_contact, named_by_git as spec_named_by_git};
ghost use Rattle.mailmap_report.specs.Report.{named_contact as spec_named_contact, named_contact_in as spec_named_contact_in};
ghost use Rattle.mailmap_report.specs.Report.{named_in as spec_named_in, named_tally as spec_named_tally};
ghost use Rattle.mailmap_report.specs.Json.{file_line_of, named_of, notice_of};
ghost use Rattle.mailmap_suggestions.specs.ContactFindings.{first_line_of};
ghost use Rattle.mailmap_suggestions.specs.FindingViews.{finding_view};

use crate::alike::push_alike;
use crate::kinds::Kind;
use crate::message::message_of;
use crate::places::{Place, place_at};
use crate::texts::push_text;
use itoa::Buffer;
use mailmap_contacts::answers::Tally;
use mailmap_findings::remarks::Remark;
use mailmap_findings::verify::{Contact, Finding, FindingKind, GitReading, Position};
use mailmap_suggestions::findings::{ContactFinding, Likeness};
use mailmap_suggestions::shortened::{push_short_contact, push_shortened};
use std::alloc::{AllocError, Global};

/// What is reported at a line.
#[derive(Drop)]
pub struct Notice<'a> {
    pub kind: Kind,
    pub place: Place<'a>,
    /// What is said, without escapes.
    pub message: Vec<u8>,
    /// The other line that the message refers to.
    pub other: Option<Place<'a>>,
    /// What the message names, whole even if it is cut there.
    pub named: Named<'a>,
    /// What it names second.
    pub beside: Option<Named<'a>>,
}

/// A name, an email and a number, each if a message has it. The number says how often they come, or of what git reads,
/// how many lines it is.
#[derive(Clone, Copy)]
pub struct Named<'a> {
    pub name: Option<&'a [u8]>,
    pub email: Option<&'a [u8]>,
    pub count: Option<usize>,
}

/// For a message that names nothing.
pub const NO_NAME: Named<'static> = Named {
    name: None,
    email: None,
    count: None,
};

/// The notice of a finding in mailmaps with these names.
pub fn finding_notice<'n>(
    alloc: Global,
    names: &'n [Vec<u8>],
    finding: &Finding<'n>,
) -> Result<Notice<'n>, AllocError>
    ensures { IfOk result (λ notice. notice_of notice ≡ finding_notice (texts names.now) (finding_of finding.now)) }
{
    let message = message_of(alloc, names, finding.kind)?;
    Ok(Notice {
        kind: Kind::of_finding(finding.kind),
        place: place_at(names, finding.position),
        message,
        other: referred_line(names, finding.kind),
        named: named_in(finding.kind),
        beside: beside_in(finding.kind),
    })
}

/// The notice of a remark on mailmaps.
pub fn remark_notice<'n>(
    alloc: Global,
    names: &'n [Vec<u8>],
    remark: &Remark<'n>,
) -> Result<Notice<'n>, AllocError>
    ensures { IfOk result (λ notice. notice_of notice ≡ remark_notice (texts names.now) (remark_of remark.now)) }
{
    match remark {
        Remark::Found(finding) => finding_notice(alloc, names, finding),
        Remark::Unneeded(position) => Ok(Notice {
            kind: Kind::Unneeded,
            place: place_at(names, *position),
            message: Vec::from_slice(alloc, b"no contact needs it")?,
            other: None,
            named: NO_NAME,
            beside: None,
        }),
    }
}

/// The notice of a finding about contacts; `file` is the name of the file of contacts. Its lines are
///
/// ```text
/// history:5: error: no contact [no-contact]
/// history:7: warning: jane <JANE@x> (2) has the email of Jane Doe <jane@x> (9) [same-email]
/// history:8: note: Jane Doe <jd@y> (1) has the name of Jane Doe <jane@x> (9) [same-name]
/// history:8: note: Doe, Jane <jd@z> (1) has a name like Jane Doe <jane@x> (9) [similar-name]
/// history:9: warning: git answers Jane Doe <JANE@x> [git-answers]
/// history:9: note: devnull@localhost is the email of several people (5) [shared-email]
/// ```
///
/// The numbers in brackets say how often each answer comes, and each email. Names and emails of more than 256 bytes are
/// cut.
pub fn contact_notice<'n>(
    alloc: Global,
    file: &'n [u8],
    finding: &ContactFinding<'n>,
) -> Result<Notice<'n>, AllocError>
    ensures { IfOk result (λ notice. notice_of notice ≡ contact_notice file.now (finding_view finding.now)) }
{
    let mut message = Vec::new(alloc);
    push_contact_words(&mut message, finding)?;
    let (line, other) = line_and_other(file, finding);
    Ok(Notice {
        kind: Kind::of_contact_finding(finding),
        place: Place { file, line },
        message,
        other,
        named: named_contact_in(finding),
        beside: compared_contact(finding),
    })
}

// The other line that a finding refers to, the first one if there are two.
fn referred_line<'a>(names: &'a [Vec<u8>], kind: FindingKind<'_>) -> Option<Place<'a>>
    ensures { option_map file_line_of result ≡ referred_line (texts names.now) (kind_of kind.entry) }
{
    match kind {
        FindingKind::NoEffect { beside, .. } => Some(place_at(names, beside)),
        FindingKind::ItselfMapped { first, .. } => Some(place_at(names, first)),
        _ => None,
    }
}

fn named_in<'a>(kind: FindingKind<'a>) -> Named<'a>
    ensures { named_of result ≡ spec_named_in (kind_of kind.entry) }
{
    match kind {
        FindingKind::GitReads(reading) => named_by_git(reading),
        FindingKind::ItselfMapped { contact, .. } => named_contact(contact),
        _ => NO_NAME,
    }
}

fn beside_in<'a>(kind: FindingKind<'a>) -> Option<Named<'a>>
    ensures { option_map named_of result ≡ spec_beside_in (kind_of kind.entry) }
{
    match kind {
        FindingKind::GitReads(reading) => beside_by_git(reading),
        FindingKind::ItselfMapped { to, .. } => Some(named_contact(to)),
        _ => None,
    }
}

fn named_by_git<'a>(reading: GitReading<'a>) -> Named<'a>
    ensures { named_of result ≡ spec_named_by_git (git_reading_of reading.entry) }
{
    match reading {
        GitReading::Nothing => NO_NAME,
        GitReading::Entry(entry) => Named {
            name: entry.new_name(),
            email: entry.new_email(),
            count: None,
        },
        GitReading::Lines(count) => Named {
            name: None,
            email: None,
            count: Some(count),
        },
    }
}

fn beside_by_git<'a>(reading: GitReading<'a>) -> Option<Named<'a>>
    ensures { option_map named_of result ≡ spec_beside_by_git (git_reading_of reading.entry) }
{
    match reading {
        GitReading::Entry(entry) => Some(Named {
            name: entry.old_name(),
            email: Some(entry.old_email()),
            count: None,
        }),
        _ => None,
    }
}

fn named_contact(contact: Contact<'_>) -> Named<'_>
    ensures { named_of result ≡ spec_named_contact (contact_of contact.entry) }
{
    Named {
        name: contact.name,
        email: Some(contact.email),
        count: None,
    }
}

fn named_contact_in<'a>(finding: &ContactFinding<'a>) -> Named<'a>
    ensures { named_of result ≡ spec_named_contact_in (finding_view finding.now) }
{
    match finding {
        ContactFinding::NoContact(_) => NO_NAME,
        ContactFinding::SharedEmail(email, seen) => Named {
            name: None,
            email: Some(*email),
            count: Some(seen.count),
        },
        ContactFinding::IsLike(_, answer, _) => named_tally(answer),
        ContactFinding::GitAnswers(answer) => named_tally(answer),
    }
}

fn compared_contact<'a>(finding: &ContactFinding<'a>) -> Option<Named<'a>>
    ensures { option_map named_of result ≡ spec_compared_contact (finding_view finding.now) }
{
    match finding {
        ContactFinding::IsLike(_, _, best) => Some(named_tally(best)),
        _ => None,
    }
}

fn named_tally<'a>(answer: &Tally<'a>) -> Named<'a>
    ensures { named_of result ≡ spec_named_tally (tally_of answer.now) }
{
    Named {
        name: Some(answer.name),
        email: Some(answer.email),
        count: Some(answer.seen.count),
    }
}

// The first line of what a finding is about, and that of the answer that it is compared with, if there is one.
fn line_and_other<'a>(file: &'a [u8], finding: &ContactFinding<'_>) -> (usize, Option<Place<'a>>)
    ensures line { result.0 ≡ first_line_of (finding_view finding.now) }
    ensures other { option_map file_line_of result.1 ≡ compared_line file.now (finding_view finding.now) }
{
    match finding {
        ContactFinding::NoContact(line) => (*line, None),
        ContactFinding::SharedEmail(_, seen) => (seen.first_line, None),
        ContactFinding::GitAnswers(answer) => (answer.seen.first_line, None),
        ContactFinding::IsLike(_, answer, best) => {
            let line = best.seen.first_line;
            (answer.seen.first_line, Some(Place { file, line }))
        }
    }
}

// Appends what a finding says, without its place, its level and its kind.
fn push_contact_words(text: &mut Vec<u8>, finding: &ContactFinding<'_>) -> Result<(), AllocError>
    ensures { OnOk result (text.new.items ≡ text.old.items ++ contact_words (finding_view finding.now)) }
{
    match finding {
        ContactFinding::NoContact(_) => push_text(text, b"no contact"),
        ContactFinding::SharedEmail(email, seen) => {
            push_shortened(text, email)?;
            push_text(text, b" is the email of several people")?;
            push_count(text, seen.count)
        }
        ContactFinding::IsLike(likeness, answer, best) => {
            push_counted(text, answer)?;
            push_text(text, likeness_text(*likeness))?;
            push_counted(text, best)?;
            push_alike(text, answer.name, best.name)
        }
        ContactFinding::GitAnswers(answer) => {
            push_text(text, b"git answers ")?;
            push_short_contact(text, answer.name, answer.email)
        }
    }
}

fn likeness_text(likeness: Likeness) -> &'static [u8]
    ensures { result.now ≡ likeness_text likeness }
{
    match likeness {
        Likeness::Email => b" has the email of ",
        Likeness::Name => b" has the name of ",
        Likeness::AlikeName | Likeness::Login => b" has a name like ",
    }
}

// Appends an answer, and how often it comes.
fn push_counted(text: &mut Vec<u8>, answer: &Tally<'_>) -> Result<(), AllocError>
    ensures { OnOk result (text.new.items ≡ text.old.items ++ counted_contact (tally_of answer.now)) }
{
    push_short_contact(text, answer.name, answer.email)?;
    push_count(text, answer.seen.count)
}

fn push_count(text: &mut Vec<u8>, count: usize) -> Result<(), AllocError>
    ensures { OnOk result (text.new.items ≡ text.old.items ++ count_text count) }
{
    let mut digits = Buffer::new();
    push_text(text, b" (")?;
    push_text(text, digits.format(count).as_bytes())?;
    push_text(text, b")")
}

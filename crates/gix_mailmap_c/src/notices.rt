//! Calls that say in words what is wrong with several mailmaps and with contacts.
ghost use Rattle.std.specs.Prelude.{◌≡◌, ◌++◌, IfOk, List, OnErr, OnOk, length, map};
ghost use Rattle.std.specs.Slice.Iter.{iter_rest};
ghost use Rattle.mailmap_contacts.specs.Counts.{AreContactsOf};
ghost use Rattle.mailmap_entries.specs.Folding.{Text};
ghost use Rattle.mailmap_findings.specs.Needs.{AreUnneeded};
ghost use Rattle.mailmap_findings.specs.Positions.{whole_lines};
ghost use Rattle.mailmap_findings.specs.Remarks.{AreRemarks, Remark};
ghost use Rattle.mailmap_report.specs.Json.{named_of, notice_of};
ghost use Rattle.mailmap_report.specs.Report.{contact_notice as the_contact_notice, finding_notice as the_finding_notice};
ghost use Rattle.mailmap_report.specs.Report.{remark_notice as the_remark_notice};
ghost use Rattle.mailmap_suggestions.specs.ContactFindings.{AreContactFindings};
ghost use Rattle.mailmap_suggestions.specs.FindingViews.{finding_view};
ghost use Rattle.gix_mailmap_c.specs.Notices.{mention, no_words, other_file, other_line, placed};
ghost use Rattle.gix_mailmap_c.specs.Notices.{with_both, with_notice, with_notices, words_of};
ghost use Rattle.gix_mailmap_c.specs.Notices.{ArePutWords, AreWordsBeside, AreWordsOf, NoWords, PutsWords};
ghost use Rattle.gix_mailmap_c.specs.Several.{names_in, texts_in};

use crate::parsing::Place;
use crate::several::{Lengths, counted_in, names_of, texts_of};
use crate::status::{OK, OUT_OF_MEMORY, TOO_SHORT};
use mailmap_contacts::counter::Contacts;
use mailmap_findings::remarks::Remarks;
use mailmap_findings::verify::{Findings, Mailmaps, Verification};
use mailmap_redundancy::Position;
use mailmap_report::notice::{
    NO_NAME, Named, Notice, contact_notice, finding_notice, remark_notice,
};
use mailmap_suggestions::findings::{ContactFinding, contact_findings};
use mailmap_suggestions::unneeded::unneeded_by;
use std::alloc::{AllocError, Global};

/// A finding in words: the number of its line, from 1, and the places of its texts: the name of its file, its level, its
/// kind, and what is said.
///
/// `other_line` and `other_file` are the other line that the message refers to; without one they are 0 and empty. `named`
/// is what the message names, and `beside` what it names second.
#[repr(C)]
#[derive(Clone, Copy)]
pub struct Noticed {
    pub line: usize,
    pub other_line: usize,
    pub file: Place,
    pub level: Place,
    pub kind: Place,
    pub message: Place,
    pub other_file: Place,
    pub named: Mention,
    pub beside: Mention,
}

/// The places of a name and an email, and how often they come. What isn't mentioned is empty, and the number 0.
#[repr(C)]
#[derive(Clone, Copy)]
pub struct Mention {
    pub name: Place,
    pub email: Place,
    pub count: usize,
}

// Findings in words, and the buffer of their texts.
#[derive(Drop)]
pub(crate) struct Words {
    listed: Vec<Noticed>,
    texts: Vec<u8>,
}

impl Words {
    fn new(alloc: Global) -> Words
        ensures { words_of result ≡ no_words }
    {
        Words {
            listed: Vec::new(alloc),
            texts: Vec::new(alloc),
        }
    }
}

/// Lists the findings in several mailmaps in words, and copies their texts.
///
/// Takes the names and texts of mailmaps as [`gix_mailmap_text_report`](crate::several) does.
///
/// Returns `OK`: the findings are at the front of `out`, and their texts at the front of `out_texts`. `TOO_SHORT`: one of
/// the buffers is too short, and both are unchanged. With these two `needed` and `texts_needed` are the lengths.
/// `OUT_OF_MEMORY`: both are 0. The rest of each buffer is unchanged.
#[unsafe(no_mangle)]
pub extern "C" fn gix_mailmap_text_notices(
    alloc: Global,
    lengths: &[Lengths],
    names: &[u8],
    texts: &[u8],
    out: &mut [Noticed],
    out_texts: &mut [u8],
    needed: &mut usize,
    texts_needed: &mut usize,
) -> u32
    ensures { ArePutWords (AreWordsOf (names_in lengths.now names.now) (texts_in lengths.now texts.now))
        out.old out.new out_texts.old out_texts.new needed.new texts_needed.new result }
{
    let mut words = Words::new(alloc);
    let made = push_alone(alloc, &mut words, lengths, names, texts);
    hand_words(made, &words, out, out_texts, needed, texts_needed)
}

/// Lists the findings in several mailmaps and in contacts in words, those of
/// [`PiecesBeside`](mailmap_report::pieces::PiecesBeside). `file` is the name of the contacts.
///
/// Takes the names and texts of mailmaps, and returns what [`gix_mailmap_text_notices`] does.
#[unsafe(no_mangle)]
pub extern "C" fn gix_mailmap_text_notices_beside(
    alloc: Global,
    lengths: &[Lengths],
    names: &[u8],
    texts: &[u8],
    file: &[u8],
    contacts: &[u8],
    out: &mut [Noticed],
    out_texts: &mut [u8],
    needed: &mut usize,
    texts_needed: &mut usize,
) -> u32
    ensures { ArePutWords (AreWordsBeside (names_in lengths.now names.now) (texts_in lengths.now texts.now) file.now
        contacts.now) out.old out.new out_texts.old out_texts.new needed.new texts_needed.new result }
{
    let mut words = Words::new(alloc);
    let made = push_beside(alloc, &mut words, lengths, names, texts, file, contacts);
    hand_words(made, &words, out, out_texts, needed, texts_needed)
}

fn push_alone(
    alloc: Global,
    words: &mut Words,
    lengths: &[Lengths],
    names: &[u8],
    texts: &[u8],
) -> Result<(), AllocError>
    ensures { words_of words.old ≡ no_words → OnOk result
        (AreWordsOf (names_in lengths.now names.now) (texts_in lengths.now texts.now) (words_of words.new)) }
{
    let names = names_of(alloc, lengths, names)?;
    let buffers = texts_of(alloc, lengths, texts)?;
    push_found(alloc, words, names.as_slice(), buffers.as_slice())
}

fn push_found(
    alloc: Global,
    words: &mut Words,
    names: &[Vec<u8>],
    buffers: &[&[u8]],
) -> Result<(), AllocError>
    ensures { words_of words.old ≡ no_words → OnOk result (AreWordsOf (map (λ name. name.items) names.now)
        (map (λ b. b.now) buffers.now) (words_of words.new)) }
{
    let mailmaps = Mailmaps::read(alloc, buffers)?;
    let verification = Verification::new(alloc, &mailmaps)?;
    push_findings(alloc, words, names, verification.findings())
}

fn push_beside(
    alloc: Global,
    words: &mut Words,
    lengths: &[Lengths],
    names: &[u8],
    texts: &[u8],
    file: &[u8],
    contacts: &[u8],
) -> Result<(), AllocError>
    ensures { words_of words.old ≡ no_words → OnOk result
        (AreWordsBeside (names_in lengths.now names.now) (texts_in lengths.now texts.now) file.now contacts.now
        (words_of words.new)) }
{
    let names = names_of(alloc, lengths, names)?;
    let buffers = texts_of(alloc, lengths, texts)?;
    let counted = counted_in(alloc, contacts)?;
    push_counted(
        alloc,
        words,
        names.as_slice(),
        buffers.as_slice(),
        file,
        &counted,
    )
}

fn push_counted(
    alloc: Global,
    words: &mut Words,
    names: &[Vec<u8>],
    buffers: &[&[u8]],
    file: &[u8],
    counted: &Contacts,
) -> Result<(), AllocError>
    ensures { (contacts : Text) → AreContactsOf (whole_lines contacts) counted.now → words_of words.old ≡ no_words
        → OnOk result (AreWordsBeside (map (λ name. name.items) names.now) (map (λ b. b.now) buffers.now) file.now contacts
        (words_of words.new)) }
{
    let findings = contact_findings(alloc, buffers, counted)?;
    let mailmaps = Mailmaps::read(alloc, buffers)?;
    let unneeded = unneeded_by(alloc, &mailmaps, counted)?;
    push_all(
        alloc,
        words,
        names,
        file,
        &mailmaps,
        unneeded.as_slice(),
        findings.as_slice(),
    )
}

fn push_all(
    alloc: Global,
    words: &mut Words,
    names: &[Vec<u8>],
    file: &[u8],
    mailmaps: &Mailmaps<'_, '_>,
    unneeded: &[Position],
    findings: &[ContactFinding<'_>],
) -> Result<(), AllocError>
    ensures { (contacts : Text) → AreUnneeded mailmaps.now contacts unneeded.now
        → AreContactFindings mailmaps.now (whole_lines contacts) (map finding_view findings.now)
        → words_of words.old ≡ no_words
        → OnOk result (AreWordsBeside (map (λ name. name.items) names.now) mailmaps.now file.now contacts
        (words_of words.new)) }
{
    push_lines(alloc, words, names, mailmaps, unneeded)?;
    push_contact_findings(alloc, words, file, findings)
}

fn push_lines(
    alloc: Global,
    words: &mut Words,
    names: &[Vec<u8>],
    mailmaps: &Mailmaps<'_, '_>,
    unneeded: &[Position],
) -> Result<(), AllocError>
    ensures { (contacts : Text) → AreUnneeded mailmaps.now contacts unneeded.now
        → OnOk result ((remarks : List Remark) × AreRemarks mailmaps.now contacts remarks
        × (words_of words.new ≡ with_notices (words_of words.old)
        (map (the_remark_notice (map (λ name. name.items) names.now)) remarks))) }
{
    let verification = Verification::new(alloc, mailmaps)?;
    push_remarks(
        alloc,
        words,
        names,
        Remarks::new(verification.findings(), unneeded),
    )
}

fn push_findings(
    alloc: Global,
    words: &mut Words,
    names: &[Vec<u8>],
    findings: Findings<'_, '_>,
) -> Result<(), AllocError>
    ensures { OnOk result (words_of words.new ≡ with_notices (words_of words.old)
        (map (the_finding_notice (map (λ name. name.items) names.now)) findings.entry)) }
{
    for finding in findings {
        let notice = finding_notice(alloc, names, &finding)?;
        push_notice(words, &notice)?;
    }
    Ok(())
}

fn push_remarks(
    alloc: Global,
    words: &mut Words,
    names: &[Vec<u8>],
    remarks: Remarks<'_, '_>,
) -> Result<(), AllocError>
    ensures { OnOk result (words_of words.new ≡ with_notices (words_of words.old)
        (map (the_remark_notice (map (λ name. name.items) names.now)) remarks.entry)) }
{
    for remark in remarks {
        let notice = remark_notice(alloc, names, &remark)?;
        push_notice(words, &notice)?;
    }
    Ok(())
}

fn push_contact_findings(
    alloc: Global,
    words: &mut Words,
    file: &[u8],
    findings: &[ContactFinding<'_>],
) -> Result<(), AllocError>
    ensures { OnOk result (words_of words.new ≡ with_notices (words_of words.old)
        (map (the_contact_notice file.now) (map finding_view findings.now))) }
{
    for finding in findings {
        let notice = contact_notice(alloc, file, finding)?;
        push_notice(words, &notice)?;
    }
    Ok(())
}

fn push_notice(words: &mut Words, notice: &Notice<'_>) -> Result<(), AllocError>
    ensures { OnOk result (words_of words.new ≡ with_notice (words_of words.old) (notice_of notice.now)) }
{
    let (other_file, other_line) = other_of(notice);
    let texts = &mut words.texts;
    let file = put_text(texts, notice.place.file)?;
    let level = put_text(texts, notice.kind.level().name().as_bytes())?;
    let kind = put_text(texts, notice.kind.name().as_bytes())?;
    let message = put_text(texts, notice.message.as_slice())?;
    let other_file = put_text(texts, other_file)?;
    let named = put_mention(texts, notice.named)?;
    let beside = put_mention(texts, notice.beside.unwrap_or(NO_NAME))?;
    words.listed.push(Noticed {
        line: notice.place.line,
        other_line,
        file,
        level,
        kind,
        message,
        other_file,
        named,
        beside,
    })?;
    Ok(())
}

// The other line that a notice refers to.
fn other_of<'a>(notice: &'a Notice<'_>) -> (&'a [u8], usize)
    ensures file { result.0.now ≡ other_file (notice_of notice.now).other }
    ensures line { result.1 ≡ other_line (notice_of notice.now).other }
{
    let none: &[u8] = b"";
    match notice.other {
        Some(other) => (other.file, other.line),
        None => (none, 0),
    }
}

fn put_mention(texts: &mut Vec<u8>, named: Named<'_>) -> Result<Mention, AllocError>
    ensures { IfOk result (λ m. (m ≡ mention texts.old.items (named_of named.entry))
        × (texts.new.items ≡ with_both texts.old.items (named_of named.entry))) }
{
    let name = put_text(texts, named.name.unwrap_or(b""))?;
    let email = put_text(texts, named.email.unwrap_or(b""))?;
    Ok(Mention {
        name,
        email,
        count: named.count.unwrap_or(0),
    })
}

fn put_text(texts: &mut Vec<u8>, text: &[u8]) -> Result<Place, AllocError>
    ensures { IfOk result (λ place. (place ≡ placed (length texts.old.items) text.now)
        × (texts.new.items ≡ texts.old.items ++ text.now)) }
{
    let place = Place {
        start: texts.len(),
        len: text.len(),
    };
    texts.extend_from_slice(text)?;
    Ok(place)
}

// Hands words to the caller, if they could be made.
fn hand_words(
    made: Result<(), AllocError>,
    words: &Words,
    out: &mut [Noticed],
    out_texts: &mut [u8],
    needed: &mut usize,
    texts_needed: &mut usize,
) -> u32
    ensures ok { OnOk made (PutsWords (words_of words.now) out.old out.new out_texts.old out_texts.new needed.new
        texts_needed.new result) }
    ensures err { OnErr made (NoWords out.old out.new out_texts.old out_texts.new needed.new texts_needed.new result) }
{
    if made.is_err() {
        *needed = 0;
        *texts_needed = 0;
        return OUT_OF_MEMORY;
    }
    let (count, len) = (words.listed.len(), words.texts.len());
    *needed = count;
    *texts_needed = len;
    if count > out.len() || len > out_texts.len() {
        return TOO_SHORT;
    }
    out[..count].copy_from_slice(words.listed.as_slice());
    out_texts[..len].copy_from_slice(words.texts.as_slice());
    OK
}

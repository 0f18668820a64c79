//! Calls that take the texts of several mailmaps, one after another in a buffer, and keep nothing.
ghost use Rattle.std.specs.Prelude.{◌≡◌, IfOk, List, Some, map};
ghost use Rattle.mailmap_contacts.specs.Counts.{AreContactsOf};
ghost use Rattle.mailmap_entries.specs.Folding.{Text};
ghost use Rattle.mailmap_findings.specs.Needs.{AreUnneeded};
ghost use Rattle.mailmap_findings.specs.Positions.{whole_lines};
ghost use Rattle.mailmap_suggestions.specs.ContactFindings.{AreContactFindings};
ghost use Rattle.mailmap_suggestions.specs.FindingViews.{finding_view};
ghost use Rattle.mailmap_suggestions.specs.Printed.{IsSuggested};
ghost use Rattle.mailmap_report.specs.Explained.{ExplainsAll, each_line, explained_line};
ghost use Rattle.mailmap_report.specs.Settings.{choices_of};
ghost use Rattle.gix_mailmap_c.specs.Buffers.{IsOutput};
ghost use Rattle.gix_mailmap_c.specs.Several.{c_position, choices_in, format_in, names_in, texts_in};
ghost use Rattle.gix_mailmap_c.specs.Several.{AreUnneededOf, IsReportBesideOf, IsReportOf};

use crate::buffers::hand;
use bstr::ByteSlice;
use mailmap_contacts::counter::{ContactCounter, Contacts};
use mailmap_findings::remarks::Remarks;
use mailmap_findings::verify::{Mailmaps, Verification};
use mailmap_findings::{needs, verify};
use mailmap_report::explanation::Explainer;
use mailmap_report::pieces::{self, FindingPieces, PiecesBeside};
use mailmap_report::settings::{Format, Settings};
use mailmap_report::suggested::SuggestionPieces;
use mailmap_suggestions::findings::{ContactFinding, contact_findings};
use mailmap_suggestions::suggestions::suggest;
use mailmap_suggestions::text::feed_after;
use mailmap_suggestions::unneeded::unneeded_by;
use std::alloc::{AllocError, Global};

pub(crate) type Made<T> = Result<Vec<T>, AllocError>;

// The numbers of the formats in which findings are objects of JSON, and annotations of GitHub.
const JSON: u32 = 1;

const GITHUB: u32 = 2;

/// The lengths of a mailmap's name and text.
#[repr(C)]
#[derive(Clone, Copy)]
pub struct Lengths {
    pub name: usize,
    pub text: usize,
}

/// The position of a line: the index of its mailmap, from 0, and its line number there, from 1.
#[repr(C)]
#[derive(Clone, Copy)]
pub struct Position {
    pub buffer: usize,
    pub line: usize,
}

/// Writes each finding in several mailmaps, as [`FindingPieces`] has them: as objects of JSON if `format` is 1, as
/// annotations of GitHub if it is 2, and otherwise as lines.
///
/// `names` has the mailmaps' names, one after another, and `texts` their texts. If either has fewer bytes than
/// `lengths` adds up to, the last ones are short or empty.
///
/// Returns what [`gix_mailmap_text_check`](crate::texts) does.
#[unsafe(no_mangle)]
pub extern "C" fn gix_mailmap_text_report(
    alloc: Global,
    format: u32,
    lengths: &[Lengths],
    names: &[u8],
    texts: &[u8],
    out: &mut [u8],
    needed: &mut usize,
) -> u32
    ensures { IsOutput (IsReportOf (choices_in format) (names_in lengths.now names.now)
        (texts_in lengths.now texts.now)) out.old out.new needed.new result }
{
    hand(report(alloc, format, lengths, names, texts), out, needed)
}

fn report(alloc: Global, format: u32, lengths: &[Lengths], names: &[u8], texts: &[u8]) -> Made<u8>
    ensures { IfOk result (λ text. IsReportOf (choices_in format) (names_in lengths.now names.now)
        (texts_in lengths.now texts.now) text.items) }
{
    let names = names_of(alloc, lengths, names)?;
    let buffers = texts_of(alloc, lengths, texts)?;
    let settings = settings_in(alloc, format);
    report_in(alloc, &settings, names.as_slice(), buffers.as_slice())
}

fn report_in(alloc: Global, settings: &Settings, names: &[Vec<u8>], buffers: &[&[u8]]) -> Made<u8>
    ensures { IfOk result (λ text. IsReportOf (choices_of settings.now) (map (λ name. name.items) names.now)
        (map (λ b. b.now) buffers.now) text.items) }
{
    let mailmaps = Mailmaps::read(alloc, buffers)?;
    let verification = Verification::new(alloc, &mailmaps)?;
    pieces::text_of(
        alloc,
        FindingPieces {
            settings,
            names,
            findings: verification.findings(),
        },
    )
}

/// Writes each finding in several mailmaps and in contacts, as [`PiecesBeside`] has them. `file` is the name of the
/// contacts.
///
/// Takes a format, the names and texts of mailmaps, and returns what [`gix_mailmap_text_report`] does.
#[unsafe(no_mangle)]
pub extern "C" fn gix_mailmap_text_report_beside(
    alloc: Global,
    format: u32,
    lengths: &[Lengths],
    names: &[u8],
    texts: &[u8],
    file: &[u8],
    contacts: &[u8],
    out: &mut [u8],
    needed: &mut usize,
) -> u32
    ensures { IsOutput (IsReportBesideOf (choices_in format) (names_in lengths.now names.now)
        (texts_in lengths.now texts.now) file.now contacts.now) out.old out.new needed.new result }
{
    let made = report_beside(alloc, format, lengths, names, texts, file, contacts);
    hand(made, out, needed)
}

fn report_beside(
    alloc: Global,
    format: u32,
    lengths: &[Lengths],
    names: &[u8],
    texts: &[u8],
    file: &[u8],
    contacts: &[u8],
) -> Made<u8>
    ensures { IfOk result (λ text. IsReportBesideOf (choices_in format) (names_in lengths.now names.now)
        (texts_in lengths.now texts.now) file.now contacts.now text.items) }
{
    let names = names_of(alloc, lengths, names)?;
    let buffers = texts_of(alloc, lengths, texts)?;
    let counted = counted_in(alloc, contacts)?;
    let settings = settings_in(alloc, format);
    report_counted(
        alloc,
        &settings,
        names.as_slice(),
        buffers.as_slice(),
        file,
        &counted,
    )
}

fn report_counted(
    alloc: Global,
    settings: &Settings,
    names: &[Vec<u8>],
    buffers: &[&[u8]],
    file: &[u8],
    counted: &Contacts,
) -> Made<u8>
    ensures { (contacts : Text) → AreContactsOf (whole_lines contacts) counted.now
        → IfOk result (λ text. IsReportBesideOf (choices_of settings.now) (map (λ name. name.items) names.now)
        (map (λ b. b.now) buffers.now) file.now contacts text.items) }
{
    let findings = contact_findings(alloc, buffers, counted)?;
    let mailmaps = Mailmaps::read(alloc, buffers)?;
    let unneeded = unneeded_by(alloc, &mailmaps, counted)?;
    let (unneeded, findings) = (unneeded.as_slice(), findings.as_slice());
    report_remarks(alloc, settings, names, file, &mailmaps, unneeded, findings)
}

fn report_remarks(
    alloc: Global,
    settings: &Settings,
    names: &[Vec<u8>],
    file: &[u8],
    mailmaps: &Mailmaps<'_, '_>,
    unneeded: &[mailmap_redundancy::Position],
    findings: &[ContactFinding<'_>],
) -> Made<u8>
    ensures { (contacts : Text) → AreUnneeded mailmaps.now contacts unneeded.now
        → AreContactFindings mailmaps.now (whole_lines contacts) (map finding_view findings.now)
        → IfOk result (λ text. IsReportBesideOf (choices_of settings.now) (map (λ name. name.items) names.now)
        mailmaps.now file.now contacts text.items) }
{
    let verification = Verification::new(alloc, mailmaps)?;
    pieces::text_of(
        alloc,
        PiecesBeside {
            settings,
            names,
            file,
            remarks: Remarks::new(verification.findings(), unneeded),
            findings: findings.iter(),
        },
    )
}

fn settings_in(alloc: Global, format: u32) -> Settings
    ensures { choices_of result ≡ choices_in format }
{
    let mut settings = Settings::new(alloc);
    settings.format = format_in(format);
    settings
}

fn format_in(format: u32) -> Option<Format>
    ensures { result ≡ format_in format }
{
    match format {
        JSON => Some(Format::Json),
        GITHUB => Some(Format::Github),
        _ => None,
    }
}

/// Explains each line of `contacts` using several mailmaps, as [`Explainer::explained_line`] does.
///
/// Takes the names and texts of mailmaps and returns what [`gix_mailmap_text_report`] does.
#[unsafe(no_mangle)]
pub extern "C" fn gix_mailmap_text_explain(
    alloc: Global,
    lengths: &[Lengths],
    names: &[u8],
    texts: &[u8],
    contacts: &[u8],
    out: &mut [u8],
    needed: &mut usize,
) -> u32
    ensures { IsOutput (ExplainsAll (names_in lengths.now names.now) (texts_in lengths.now texts.now) contacts.now)
        out.old out.new needed.new result }
{
    let made = explained(alloc, lengths, names, texts, contacts);
    hand(made, out, needed)
}

fn explained(
    alloc: Global,
    lengths: &[Lengths],
    names: &[u8],
    texts: &[u8],
    contacts: &[u8],
) -> Made<u8>
    ensures { IfOk result (λ text. ExplainsAll (names_in lengths.now names.now) (texts_in lengths.now texts.now)
        contacts.now text.items) }
{
    let names = names_of(alloc, lengths, names)?;
    let buffers = texts_of(alloc, lengths, texts)?;
    let mailmaps = Mailmaps::read(alloc, buffers.as_slice())?;
    let explainer = Explainer::new(alloc, names.as_slice(), &mailmaps)?;
    explained_by(alloc, &explainer, contacts)
}

fn explained_by(alloc: Global, explainer: &Explainer<'_, '_, '_>, contacts: &[u8]) -> Made<u8>
    ensures { IfOk result (λ text. text.items ≡ each_line (explained_line explainer.now) contacts.now) }
{
    let mut text = Vec::new(alloc);
    for line in contacts.lines_with_terminator() {
        let said = explainer.explained_line(line)?;
        text.extend_from_slice(said.as_slice())?;
    }
    Ok(text)
}

/// Lists the lines of several mailmaps that have an effect but that no contact needs, in their order, as
/// [`unneeded`](needs::unneeded()) does.
///
/// Takes texts and returns what [`gix_mailmap_text_report`] does, with the number of positions in place of a length.
/// The lengths of names aren't used.
#[unsafe(no_mangle)]
pub extern "C" fn gix_mailmap_text_unneeded(
    alloc: Global,
    lengths: &[Lengths],
    texts: &[u8],
    contacts: &[u8],
    out: &mut [Position],
    needed: &mut usize,
) -> u32
    ensures { IsOutput (AreUnneededOf (texts_in lengths.now texts.now) contacts.now) out.old out.new needed.new result }
{
    hand(unneeded(alloc, lengths, texts, contacts), out, needed)
}

fn unneeded(alloc: Global, lengths: &[Lengths], texts: &[u8], contacts: &[u8]) -> Made<Position>
    ensures { IfOk result (λ found. AreUnneededOf (texts_in lengths.now texts.now) contacts.now found.items) }
{
    let buffers = texts_of(alloc, lengths, texts)?;
    positions(
        alloc,
        &needs::unneeded(alloc, buffers.as_slice(), contacts)?,
    )
}

fn positions(alloc: Global, found: &[verify::Position]) -> Made<Position>
    ensures { IfOk result (λ each. each.items ≡ map c_position found.now) }
{
    let of = |p: &verify::Position| Position {
        buffer: p.buffer,
        line: p.line,
    };
    found.iter().map(of).collect(alloc)
}

/// Writes the lines that several mailmaps lack for the contacts of a history, as [`suggest`] suggests them.
///
/// Takes texts and returns what [`gix_mailmap_text_report`] does. The lengths of names aren't used.
#[unsafe(no_mangle)]
pub extern "C" fn gix_mailmap_text_suggest(
    alloc: Global,
    lengths: &[Lengths],
    texts: &[u8],
    contacts: &[u8],
    out: &mut [u8],
    needed: &mut usize,
) -> u32
    ensures { IsOutput (IsSuggested (texts_in lengths.now texts.now) (whole_lines contacts.now))
        out.old out.new needed.new result }
{
    hand(suggested(alloc, lengths, texts, contacts), out, needed)
}

fn suggested(alloc: Global, lengths: &[Lengths], texts: &[u8], contacts: &[u8]) -> Made<u8>
    ensures { IfOk result (λ text. IsSuggested (texts_in lengths.now texts.now) (whole_lines contacts.now) text.items) }
{
    let buffers = texts_of(alloc, lengths, texts)?;
    let counted = counted_in(alloc, contacts)?;
    suggested_by(alloc, buffers.as_slice(), &counted)
}

fn suggested_by(alloc: Global, buffers: &[&[u8]], counted: &Contacts) -> Made<u8>
    ensures { (lines : List Text) → AreContactsOf lines counted.now
        → IfOk result (λ text. IsSuggested (map (λ b. b.now) buffers.now) lines text.items) }
{
    let suggestions = suggest(alloc, buffers, counted)?;
    pieces::text_of(
        alloc,
        SuggestionPieces {
            start: feed_after(buffers),
            suggestions: suggestions.as_slice().iter(),
        },
    )
}

pub(crate) fn counted_in(alloc: Global, contacts: &[u8]) -> Result<Contacts, AllocError>
    ensures { IfOk result (AreContactsOf (whole_lines contacts.now)) }
{
    let mut counter = ContactCounter::new(alloc)?;
    counter.add_lines(contacts)?;
    counter.into_contacts()
}

pub(crate) fn names_of(alloc: Global, lengths: &[Lengths], names: &[u8]) -> Made<Vec<u8>>
    ensures { IfOk result (λ each. map (λ name. name.items) each.items ≡ names_in lengths.now names.now) }
{
    let mut each = Vec::new(alloc);
    let mut rest = names;
    for part in lengths {
        let (name, after) = rest.split_at(part.name.min(rest.len()));
        each.push(Vec::from_slice(alloc, name)?)?;
        rest = after;
    }
    Ok(each)
}

pub(crate) fn texts_of<'a>(alloc: Global, lengths: &[Lengths], texts: &'a [u8]) -> Made<&'a [u8]>
    ensures { IfOk result (λ each. map (λ text. text.now) each.items ≡ texts_in lengths.now texts.now) }
{
    let mut each = Vec::new(alloc);
    let mut rest = texts;
    for part in lengths {
        let (text, after) = rest.split_at(part.text.min(rest.len()));
        each.push(text)?;
        rest = after;
    }
    Ok(each)
}

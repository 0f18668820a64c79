//! Counts contacts, and reports on them together with mailmaps, or suggests lines for them.
ghost use Rattle.std.specs.Prelude.{◌≡◌, ◌⊎◌, IfErr, IfOk, OnOk, false, map, true};
ghost use Rattle.std.specs.Io.KnownBytes.{IsAtEnd};
ghost use Rattle.bstr.specs.Text.{lines_of};
ghost use Rattle.mailmap_entries.specs.Folding.{Text};
ghost use Rattle.mailmap_contacts.specs.Counts.{AreContactsOf};
ghost use Rattle.mailmap_findings.specs.Needs.{AreUnneeded};
ghost use Rattle.mailmap_findings.specs.Positions.{whole_lines};
ghost use Rattle.mailmap_suggestions.specs.ContactFindings.{AreContactFindings};
ghost use Rattle.mailmap_suggestions.specs.FindingViews.{finding_view};
ghost use Rattle.verify_command.specs.Task.{AreContacts, AreLog, AreSuggested, EndsPrinting, FailsForContacts, FromContacts};
ghost use Rattle.verify_command.specs.Task.{IsReportBeside, Leaves, is_dash, wanted_of};

use crate::asked::Request;
use crate::failure::TaskFailure;
use crate::report::print_pieces;
use command_line::counting::count_contacts;
use command_line::failure::Failure;
use command_line::files::FileSystem;
use command_line::outcome::Outcome;
use mailmap_contacts::counter::Contacts;
use mailmap_findings::remarks::Remarks;
use mailmap_findings::verify::{Mailmaps, Verification};
use mailmap_redundancy::Position;
use mailmap_report::pieces::PiecesBeside;
use mailmap_report::suggested::SuggestionPieces;
use mailmap_suggestions::findings::{ContactFinding, contact_findings};
use mailmap_suggestions::suggestions::suggest;
use mailmap_suggestions::text::feed_after;
use mailmap_suggestions::unneeded::unneeded_by;
use std::alloc::{AllocError, Global};
use std::io::{Read, Write};

/// Reads the contacts, and prints the findings in the mailmaps in buffers and in them, and the lines that none needs.
pub(crate) fn report_contacts<F: FileSystem, R: Read, W: Write>(
    system: &F,
    alloc: Global,
    request: &Request,
    buffers: &[&[u8]],
    input: &mut R,
    output: &mut W,
) -> Result<Outcome, TaskFailure>
    ensures leaves { Leaves true (FromContacts (IsReportBeside (wanted_of request.now) (map (λ b. b.now) buffers.now)) (F.at system.now)
        request.now.contacts.items (R.remaining input.old)) W.contents output.old output.new result }
    ensures reads_all { is_dash request.now.contacts.items ≡ true → OnOk result (IsAtEnd (R.remaining input.new)) }
    ensures unread { is_dash request.now.contacts.items ≡ false → input.new ≡ input.old }
    ensures refuses { OnOk result (AreLog (F.at system.now) request.now.contacts.items (R.remaining input.old) false) }
    ensures fails { IfErr result (λ e. EndsPrinting e
        ⊎ FailsForContacts (F.at system.now) request.now.contacts.items (R.remaining input.old) e) }
{
    let counted = read_contacts(system, alloc, request, input)?;
    print_report(alloc, request, buffers, &counted, output)
}

/// Reads the contacts, and prints the lines that the mailmaps in buffers lack for them.
pub(crate) fn suggest_lines<F: FileSystem, R: Read, W: Write>(
    system: &F,
    alloc: Global,
    request: &Request,
    buffers: &[&[u8]],
    input: &mut R,
    output: &mut W,
) -> Result<Outcome, TaskFailure>
    ensures leaves { Leaves true (FromContacts (AreSuggested (map (λ b. b.now) buffers.now)) (F.at system.now)
        request.now.contacts.items (R.remaining input.old)) W.contents output.old output.new result }
    ensures reads_all { is_dash request.now.contacts.items ≡ true → OnOk result (IsAtEnd (R.remaining input.new)) }
    ensures unread { is_dash request.now.contacts.items ≡ false → input.new ≡ input.old }
    ensures refuses { OnOk result (AreLog (F.at system.now) request.now.contacts.items (R.remaining input.old) false) }
    ensures fails { IfErr result (λ e. EndsPrinting e
        ⊎ FailsForContacts (F.at system.now) request.now.contacts.items (R.remaining input.old) e) }
{
    let counted = read_contacts(system, alloc, request, input)?;
    print_suggestions(alloc, buffers, &counted, output)
}

// Counts the contacts of a file in parts; `-` is the input.
//
// Memory grows with the distinct contacts, with the number of lines that are no contacts, and with the longest line,
// but not with the number of contacts.
fn read_contacts<F: FileSystem, R: Read>(
    system: &F,
    alloc: Global,
    request: &Request,
    input: &mut R,
) -> Result<Contacts, TaskFailure>
    ensures counts { IfOk result (λ counted. (text : Text) × AreContacts (F.at system.now) request.now.contacts.items
        (R.remaining input.old) text × AreContactsOf (lines_of text) counted) }
    ensures reads_all { is_dash request.now.contacts.items ≡ true → OnOk result (IsAtEnd (R.remaining input.new)) }
    ensures unread { is_dash request.now.contacts.items ≡ false → input.new ≡ input.old }
    ensures refuses { OnOk result (AreLog (F.at system.now) request.now.contacts.items (R.remaining input.old) false) }
    ensures fails { IfErr result (FailsForContacts (F.at system.now) request.now.contacts.items (R.remaining input.old)) }
{
    let contacts = request.contacts.as_slice();
    if contacts == b"-".as_slice() {
        return Ok(count_contacts(alloc, input)?);
    }
    let mut file = match system.open(contacts) {
        Ok(file) => file,
        Err(e) => return Err(TaskFailure::Contacts { cause: e.kind() }),
    };
    match count_contacts(alloc, &mut file) {
        Ok(counted) => Ok(counted),
        Err(Failure::Input { cause }) => Err(TaskFailure::Contacts { cause }),
        Err(Failure::GitLog) => Err(TaskFailure::Run(Failure::GitLog)),
        Err(_) => Err(TaskFailure::Run(Failure::Memory)),
    }
}

// Prints the findings in mailmaps and in the contacts that were counted, and the lines that no contact needs.
fn print_report<W: Write>(
    alloc: Global,
    request: &Request,
    buffers: &[&[u8]],
    counted: &Contacts,
    output: &mut W,
) -> Result<Outcome, TaskFailure>
    ensures leaves { (taken : Text) → AreContactsOf (lines_of taken) counted.now
        → Leaves true (IsReportBeside (wanted_of request.now) (map (λ b. b.now) buffers.now) taken)
        W.contents output.old output.new result }
    ensures only { IfErr result EndsPrinting }
{
    // First, so that what it looks up is freed before the rest is built.
    let findings = contact_findings(alloc, buffers, counted)?;
    let mailmaps = Mailmaps::read(alloc, buffers)?;
    let unneeded = unneeded_by(alloc, &mailmaps, counted)?;
    print_remarks(
        alloc,
        request,
        &mailmaps,
        unneeded.as_slice(),
        findings.as_slice(),
        output,
    )
}

// Prints the findings in mailmaps, the lines that are unneeded, and the findings in contacts.
fn print_remarks<W: Write>(
    alloc: Global,
    request: &Request,
    mailmaps: &Mailmaps<'_, '_>,
    unneeded: &[Position],
    findings: &[ContactFinding<'_>],
    output: &mut W,
) -> Result<Outcome, TaskFailure>
    ensures leaves { (taken : Text) → AreUnneeded mailmaps.now taken unneeded.now
        → AreContactFindings mailmaps.now (whole_lines taken) (map finding_view findings.now)
        → Leaves true (IsReportBeside (wanted_of request.now) mailmaps.now taken)
        W.contents output.old output.new result }
    ensures only { IfErr result EndsPrinting }
{
    let verification = Verification::new(alloc, mailmaps)?;
    let settings = &request.settings;
    let names = settings.mailmap_names(request.paths.as_slice());
    let file = request.contacts_name();
    let remarks = Remarks::new(verification.findings(), unneeded);
    let findings = findings.iter();
    let pieces = PiecesBeside {
        settings,
        names,
        file,
        remarks,
        findings,
    };
    print_pieces(alloc, pieces, output)
}

// Prints the lines that the mailmaps in buffers lack for the contacts that were counted.
fn print_suggestions<W: Write>(
    alloc: Global,
    buffers: &[&[u8]],
    counted: &Contacts,
    output: &mut W,
) -> Result<Outcome, TaskFailure>
    ensures leaves { (taken : Text) → AreContactsOf (lines_of taken) counted.now
        → Leaves true (AreSuggested (map (λ b. b.now) buffers.now) taken) W.contents output.old output.new result }
    ensures only { IfErr result EndsPrinting }
{
    let suggestions = suggest(alloc, buffers, counted)?;
    let lines = SuggestionPieces {
        start: feed_after(buffers),
        suggestions: suggestions.as_slice().iter(),
    };
    print_pieces(alloc, lines, output)
}

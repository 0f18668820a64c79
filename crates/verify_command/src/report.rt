//! Prints the findings in mailmaps, and other output in pieces.
ghost use Rattle.std.specs.Prelude.{◌≡◌, IfErr, if◌then◌else◌, map, true};
ghost use Rattle.command_line.specs.declared.outcome.Outcome.TheVariants.{Found as TheFound};
ghost use Rattle.verify_command.specs.Task.{EndsPrinting, IsReport, Leaves, Says, wanted_of};

use crate::asked::Request;
use crate::failure::TaskFailure;
use command_line::outcome::Outcome;
use command_line::printer::Printer;
use mailmap_findings::verify::{Mailmaps, Verification};
use mailmap_report::pieces::{FindingPieces, Pieces};
use std::alloc::Global;
use std::io::Write;

/// Prints the findings in the mailmaps in buffers.
pub(crate) fn verify<W: Write>(
    alloc: Global,
    request: &Request,
    buffers: &[&[u8]],
    output: &mut W,
) -> Result<Outcome, TaskFailure>
    ensures leaves { Leaves true (IsReport (wanted_of request.now) (map (λ b. b.now) buffers.now))
        W.contents output.old output.new result }
    ensures only { IfErr result EndsPrinting }
{
    let mailmaps = Mailmaps::read(alloc, buffers)?;
    print_findings(alloc, request, &mailmaps, output)
}

fn print_findings<W: Write>(
    alloc: Global,
    request: &Request,
    mailmaps: &Mailmaps<'_, '_>,
    output: &mut W,
) -> Result<Outcome, TaskFailure>
    ensures leaves { Leaves true (IsReport (wanted_of request.now) mailmaps.now)
        W.contents output.old output.new result }
    ensures only { IfErr result EndsPrinting }
{
    let verification = Verification::new(alloc, mailmaps)?;
    let settings = &request.settings;
    let names = settings.mailmap_names(request.paths.as_slice());
    let pieces = FindingPieces {
        settings,
        names,
        findings: verification.findings(),
    };
    print_pieces(alloc, pieces, output)
}

/// Prints all pieces, and returns whether one counts. On an error, a prefix of their text was written.
///
/// Each piece is made just before it is printed, so apart from the printer's buffer only one is in memory.
pub(crate) fn print_pieces<S: Pieces + Drop, W: Write>(
    alloc: Global,
    mut pieces: S,
    output: &mut W,
) -> Result<Outcome, TaskFailure>
    ensures leaves { Leaves true (λ outcome text. Says outcome text (S.left pieces))
        W.contents output.old output.new result }
    ensures only { IfErr result EndsPrinting }
{
    let mut printer = Printer::new(alloc)?;
    let mut outcome = Outcome::Clean;
    while let Some(piece) = pieces.next_piece(alloc)? {
        outcome = outcome_with(outcome, piece.counts);
        printer.print(output, piece.text.as_slice())?;
    }
    printer.flush(output)?;
    Ok(outcome)
}

fn outcome_with(outcome: Outcome, counts: bool) -> Outcome
    ensures { result ≡ (if counts then TheFound else outcome) }
{
    if counts {
        return Outcome::Found;
    }
    outcome
}

//! Explains contacts line by line, while they are read.
ghost use Rattle.std.specs.Prelude.{◌≡◌, ◌⊎◌, IfErr, List, OnOk, Option, ℕ, false, map};
ghost use Rattle.std.specs.Io.KnownBytes.{Consumes, IsAtEnd};
ghost use Rattle.command_line.specs.Answering.{LeavesLines};
ghost use Rattle.command_line.specs.Failures.{IsOfInput};
ghost use Rattle.command_line.specs.Files.{AreRead, AtPath};
ghost use Rattle.mailmap_entries.specs.Texts.{texts};
ghost use Rattle.mailmap_entries.specs.Folding.{Text};
ghost use Rattle.mailmap_findings.proofs.WholeLines.{whole_in_order};
ghost use Rattle.mailmap_report.specs.Explained.{each_line, explained_line};
ghost use Rattle.verify_command.specs.Task.{FailsToExplain, IsLog, LeavesExplained};

use crate::failure::TaskFailure;
use bstr::ByteSlice;
use command_line::answering::{LineAnswers, answer_lines};
use command_line::failure::Failure;
use command_line::outcome::Outcome;
use command_line::start::read_start;
use mailmap_findings::verify::Mailmaps;
use mailmap_report::explanation::Explainer;
use std::alloc::{AllocError, Global};
use std::io::{Read, Write};

/// Explains the contacts on the input by the mailmaps in buffers.
pub(crate) fn explain_contacts<R: Read, W: Write>(
    alloc: Global,
    paths: &[Vec<u8>],
    buffers: &[&[u8]],
    input: &mut R,
    output: &mut W,
) -> Result<Outcome, TaskFailure>
    ensures leaves { (at : Text → AtPath) → AreRead at (texts paths.now) (map (λ b. b.now) buffers.now)
        → LeavesExplained at (texts paths.now) (R.remaining input.old) (R.remaining input.new)
        W.contents output.old output.new result }
    ensures reads_all { OnOk result (IsAtEnd (R.remaining input.new)) }
    ensures refuses { OnOk result (IsLog (R.remaining input.old) false) }
    ensures fails { IfErr result (FailsToExplain (R.remaining input.old)) }
{
    let mailmaps = Mailmaps::read(alloc, buffers)?;
    let explainer = Explainer::new(alloc, paths, &mailmaps)?;
    let start = read_start(alloc, input)?;
    explain(alloc, explainer, start.as_slice(), input, output)?;
    Ok(Outcome::Clean)
}

// Explains the contacts on the input, of which `start` was read before, with `explainer`.
//
// Output is written as lines come in, as [`answer_lines`] does. The first failure ends the run.
fn explain<R: Read, W: Write>(
    alloc: Global,
    explainer: Explainer<'_, '_, '_>,
    start: &[u8],
    input: &mut R,
    output: &mut W,
) -> Result<(), Failure>
    // All of the input is read, and exactly its explanations are written. After a failure, those of the first whole
    // lines are, or a prefix of them.
    ensures leaves { (unread : Option (List ℕ)) → Consumes unread (R.remaining input.old) start.now
        → LeavesLines (each_line (explained_line explainer.entry)) unread
        (R.remaining input.new) (W.contents output.old) (W.contents output.new) result }
    ensures only { IfErr result (λ e. IsOfInput e ⊎ (e ≡ Failure.Memory) ⊎ (e ≡ Failure.Output)) }
{
    let partial = Vec::new(alloc);
    let mut lines = ExplainedLines { explainer, partial };
    answer_lines(alloc, &mut lines, start, input, output)
}

// The lines of an input, which an explainer explains.
#[derive(Drop)]
struct ExplainedLines<'p, 'm, 'a> {
    explainer: Explainer<'p, 'm, 'a>,
    // the start of a line that hasn't ended yet
    partial: Vec<u8>,
}

impl LineAnswers for ExplainedLines<'_, '_, '_> {
    ghost answers = { λ s. each_line (explained_line s.explainer) };

    ghost partial = { λ s. s.partial.items };

    fn push(&mut self, part: &[u8], text: &mut Vec<u8>) -> Result<usize, AllocError> {
        let Some(feed) = part.find_byte(b'\n') else {
            self.partial.extend_from_slice(part)?;
            return Ok(part.len());
        };
        let begun = self.partial.len();
        self.partial.extend_from_slice(&part[..feed + 1])?;
        let Ok(()) = self
            .explainer
            .push_explained_line(text, self.partial.as_slice())
        else {
            self.partial.truncate(begun);
            return Err(AllocError);
        };
        self.partial.clear();
        Ok(feed + 1)
    }

    fn finish(&mut self, text: &mut Vec<u8>) -> Result<(), AllocError> {
        self.explainer
            .push_explained_line(text, self.partial.as_slice())
    }

    ghost in_order = { λ s. whole_in_order (explained_line s.explainer) };
}

//! Answers the lines of an input while they are read.
ghost use Rattle.std.specs.Prelude.{◌≡◌, ◌<◌, ◌≤◌, ◌⊎◌, ◌++◌, [], ℕ, List, IfErr, IfOk, OnErr, OnOk, Option, length, take};
ghost use Rattle.std.specs.Io.KnownBytes.{Appends, Consumes};
ghost use Rattle.mailmap_grammar.specs.LineParts.{AreInOrder, HasAnswered};
ghost use Rattle.mailmap_grammar.specs.Lines.{HoldsNo};
ghost use Rattle.command_line.specs.Answering.{LeavesLines, StopsIn};
ghost use Rattle.command_line.specs.Failures.{IsOfInput};

use crate::failure::Failure;
use crate::streams::{PART, endless, flush, read_part, write_all, write_unflushed};
use std::alloc::{AllocError, Global};
use std::io::{Read, Write};

// Answers are written once they are this long, even if a part has more lines.
const ENOUGH: usize = 65536;

/// Makes answers to lines that arrive in parts.
pub trait LineAnswers {
    // the answers to lines
    ghost answers: { Self → List ℕ → List ℕ };

    // the start of a line that hasn't ended yet
    ghost partial: { Self → List ℕ };

    /// Takes bytes from the start of `part`, appends the answers to all lines that end in these bytes to `text`, and
    /// returns the number of bytes. If it fails, it took nothing, and `text` stays as it was.
    fn push(&mut self, part: &[u8], text: &mut Vec<u8>) -> Result<usize, AllocError>
        requires { HoldsNo 10 (partial self.old) }
        ensures takes { IfOk result (λ taken. (taken ≤ length part.now) × (0 < length part.now → 0 < taken)) }
        ensures answers { IfOk result (λ taken. HasAnswered (answers self.old) (partial self.old) (take taken part.now)
            (partial self.new) (λ made. text.new.items ≡ text.old.items ++ made)) }
        ensures err { OnErr result ((partial self.new ≡ partial self.old) × (text.new.items ≡ text.old.items)) }
        ensures same { answers self.new ≡ answers self.old };

    /// Appends the answer to a last line without a line feed, if there is one. This ends the input: the partial line
    /// need not be forgotten, so nothing is pushed after it.
    fn finish(&mut self, text: &mut Vec<u8>) -> Result<(), AllocError>
        requires { HoldsNo 10 (partial self.old) }
        ensures { OnOk result (text.new.items ≡ text.old.items ++ answers self.old (partial self.old)) };

    // the answers to whole lines come before those to the lines after them
    ghost in_order: { (s : Self) → AreInOrder (answers s) };
}

/// Answers all lines of an input, of which `start` was read before.
///
/// Answers are written as lines come in: before the next read, all lines that have ended are answered. So a program that
/// talks through pipes gets its answer after each line.
pub fn answer_lines<A: LineAnswers, R: Read, W: Write>(
    alloc: Global,
    answerer: &mut A,
    start: &[u8],
    input: &mut R,
    output: &mut W,
) -> Result<(), Failure>
    requires { A.partial answerer.old ≡ [] }
    ensures leaves { (unread : Option (List ℕ)) → Consumes unread (R.remaining input.old) start.now
        → LeavesLines (A.answers answerer.old) unread (R.remaining input.new)
        (W.contents output.old) (W.contents output.new) result }
    ensures only { IfErr result (λ e. IsOfInput e ⊎ (e ≡ Failure.Memory) ⊎ (e ≡ Failure.Output)) }
{
    let mut text = Vec::new(alloc);
    answer_part(answerer, start, &mut text, output)?;
    let mut part = [0; PART];
    for _ in 0..u64::MAX {
        let count = read_part(input, &mut part)?;
        if count == 0 {
            text.clear();
            answerer.finish(&mut text)?;
            return write_all(output, text.as_slice());
        }
        answer_part(answerer, &part[..count], &mut text, output)?;
    }
    Err(endless())
}

// Writes the answers to all lines that end in a part; nothing, not even by flushing, if it is empty. `text` is a buffer
// that is reused from call to call.
fn answer_part<A: LineAnswers, W: Write>(
    answerer: &mut A,
    part: &[u8],
    text: &mut Vec<u8>,
    output: &mut W,
) -> Result<(), Failure>
    requires { HoldsNo 10 (A.partial answerer.old) }
    ensures ok { OnOk result (HasAnswered (A.answers answerer.old) (A.partial answerer.old) part.now
        (A.partial answerer.new) (Appends (W.contents output.old) (W.contents output.new))) }
    ensures err { IfErr result (StopsIn (A.answers answerer.old) (A.partial answerer.old ++ part.now)
        (W.contents output.old) (W.contents output.new)) }
    ensures same { A.answers answerer.new ≡ A.answers answerer.old }
{
    if part.is_empty() {
        return Ok(());
    }
    let mut taken = 0;
    while taken < part.len() {
        text.clear();
        taken += push_lines(answerer, &part[taken..], text)?;
        write_unflushed(output, text.as_slice())?;
    }
    flush(output)
}

// Takes lines of a part as `push` does, until the part ends or the text is long enough: `push` may take a single line.
// If memory runs out after some lines, these are written, and the caller tries the rest again with an empty text, whose
// memory may suffice.
fn push_lines<A: LineAnswers>(
    answerer: &mut A,
    part: &[u8],
    text: &mut Vec<u8>,
) -> Result<usize, AllocError>
    requires { HoldsNo 10 (A.partial answerer.old) }
    ensures takes { IfOk result (λ taken. (taken ≤ length part.now) × (0 < length part.now → 0 < taken)) }
    ensures answers { IfOk result (λ taken. HasAnswered (A.answers answerer.old) (A.partial answerer.old)
        (take taken part.now) (A.partial answerer.new) (λ made. text.new.items ≡ text.old.items ++ made)) }
    ensures same { A.answers answerer.new ≡ A.answers answerer.old }
{
    let mut taken = answerer.push(part, text)?;
    while taken < part.len() && text.len() < ENOUGH {
        match answerer.push(&part[taken..], text) {
            Ok(count) => taken += count,
            Err(_) => return Ok(taken),
        }
    }
    Ok(taken)
}

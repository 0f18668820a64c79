//! The two modes of the program, reading from any reader and writing to any writer.
ghost use Rattle.std.specs.Prelude.{◌≡◌, ◌⊎◌, IfErr, IsNone, None, map};
ghost use Rattle.mailmap_snapshot.specs.Contacts.{answers, answers_by};
ghost use Rattle.mailmap_snapshot.specs.Writing.{IsCompacted};
ghost use Rattle.mailmap_snapshot.proofs.Streams.{answers-append};
ghost use Rattle.command_line.specs.Answering.{LeavesLines};
ghost use Rattle.command_line.specs.Failures.{IsOfInput};
ghost use Rattle.command_line.specs.Printing.{LeavesText};
ghost use Rattle.mailmap_check.specs.Task.{Leaves, file_bytes};

use crate::task::Mode;
use command_line::answering::{LineAnswers, answer_lines};
use command_line::failure::Failure;
use command_line::streams::{read_input, write_all};
use mailmap_snapshot::check::{ContactStream, check, compact, split};
use std::alloc::{AllocError, Global};
use std::io::{Read, Write};

/// Answers contact lines using mailmaps.
///
/// With `files`, the bytes of the mailmaps, all of `input` is contact lines. Answers are written as lines come in:
/// before the next read, all lines that have ended are answered. With `None`, a line `--` separates one mailmap from
/// the contact lines in `input`, which is then read to its end first. The first failure ends the run.
pub fn run<R: Read, W: Write>(
    alloc: Global,
    files: Option<&[&[u8]]>,
    input: &mut R,
    output: &mut W,
) -> Result<(), Failure>
    ensures leaves { Leaves Mode.Answer (file_bytes files.entry) R.remaining W.contents input.old input.new
        output.old output.new result }
    ensures only { IfErr result (λ e. IsOfInput e ⊎ (e ≡ Failure.Memory) ⊎ (e ≡ Failure.Output)) }
{
    match files {
        Some(buffers) => answer_parts(alloc, buffers, input, output),
        None => answer_whole(alloc, input, output),
    }
}

fn answer_parts<R: Read, W: Write>(
    alloc: Global,
    buffers: &[&[u8]],
    input: &mut R,
    output: &mut W,
) -> Result<(), Failure>
    ensures leaves { LeavesLines (answers_by (map (λ file. file.now) buffers.now)) (R.remaining input.old)
        (R.remaining input.new) (W.contents output.old) (W.contents output.new) result }
    ensures only { IfErr result (λ e. IsOfInput e ⊎ (e ≡ Failure.Memory) ⊎ (e ≡ Failure.Output)) }
{
    let stream = ContactStream::new(alloc, buffers)?;
    let mut lines = ContactLines { stream };
    answer_lines(alloc, &mut lines, &[], input, output)
}

// The lines of an input, whose contacts a stream answers.
#[derive(Drop)]
struct ContactLines {
    stream: ContactStream,
}

impl LineAnswers for ContactLines {
    ghost answers = { λ s. answers s.stream.mappings };

    ghost partial = { λ s. s.stream.partial };

    fn push(&mut self, part: &[u8], text: &mut Vec<u8>) -> Result<usize, AllocError> {
        Ok(self.stream.push(part, text)?.count)
    }

    fn finish(&mut self, text: &mut Vec<u8>) -> Result<(), AllocError> {
        self.stream.finish_line(text)
    }

    ghost in_order = { λ s. answers-append s.stream.mappings };
}

// Reads all of the input, and answers the contacts after its mailmap.
fn answer_whole<R: Read, W: Write>(
    alloc: Global,
    input: &mut R,
    output: &mut W,
) -> Result<(), Failure>
    ensures leaves { Leaves Mode.Answer None R.remaining W.contents input.old input.new output.old output.new result }
    ensures only { IfErr result (λ e. IsOfInput e ⊎ (e ≡ Failure.Memory) ⊎ (e ≡ Failure.Output)) }
{
    let bytes = read_input(alloc, input)?;
    let (mailmap, contacts) = split(bytes.as_slice());
    let answers = check(alloc, &[mailmap], contacts)?;
    write_all(output, answers.as_slice())
}

/// Writes mailmaps as one compact mailmap.
///
/// With `files`, the bytes of the mailmaps, `input` isn't read. With `None`, `input` is the one mailmap. The first
/// failure ends the run.
pub fn run_compact<R: Read, W: Write>(
    alloc: Global,
    files: Option<&[&[u8]]>,
    input: &mut R,
    output: &mut W,
) -> Result<(), Failure>
    ensures leaves { Leaves Mode.Compact (file_bytes files.entry) R.remaining W.contents input.old input.new
        output.old output.new result }
    ensures input { IfErr result (λ e. IsOfInput e → IsNone files.entry) }
    ensures only { IfErr result (λ e. IsOfInput e ⊎ (e ≡ Failure.Memory) ⊎ (e ≡ Failure.Output)) }
{
    match files {
        Some(buffers) => write_compact(alloc, buffers, output),
        None => compact_whole(alloc, input, output),
    }
}

fn write_compact<W: Write>(alloc: Global, buffers: &[&[u8]], output: &mut W) -> Result<(), Failure>
    ensures leaves { LeavesText (IsCompacted (map (λ file. file.now) buffers.now)) W.contents output.old output.new
        result }
    ensures only { IfErr result (λ e. (e ≡ Failure.Memory) ⊎ (e ≡ Failure.Output)) }
{
    let mailmap = compact(alloc, buffers)?;
    write_all(output, mailmap.as_slice())
}

// Reads all of the input, and writes it as a compact mailmap.
fn compact_whole<R: Read, W: Write>(
    alloc: Global,
    input: &mut R,
    output: &mut W,
) -> Result<(), Failure>
    ensures leaves { Leaves Mode.Compact None R.remaining W.contents input.old input.new output.old output.new result }
    ensures only { IfErr result (λ e. IsOfInput e ⊎ (e ≡ Failure.Memory) ⊎ (e ≡ Failure.Output)) }
{
    let bytes = read_input(alloc, input)?;
    write_compact(alloc, &[bytes.as_slice()], output)
}

//! Parses the arguments of `mailmap_check`, and runs what they ask for.
ghost use Rattle.std.specs.Prelude.{◌≡◌, ◌⊎◌, IfErr, IsNone};
ghost use Rattle.command_line.specs.Failures.{IsOfInput};
ghost use Rattle.mailmap_entries.specs.Texts.{texts};
ghost use Rattle.mailmap_check.specs.Task.{FailsFor, Leaves, LeavesBy, asked, file_bytes};

use crate::run::{run, run_compact};
use command_line::failure::Failure;
use command_line::files::{FileSystem, list_of, read_files};
use std::alloc::Global;
use std::io::{Read, Write};

#[derive(Clone, Copy, Debug, PartialEq, Eq)]
pub enum Mode {
    /// Answer contact lines.
    Answer,
    /// Write the mailmaps as one.
    Compact,
}

#[derive(Clone, Copy)]
pub struct Task<'a> {
    pub mode: Mode,
    /// The paths of the mailmaps. If there are none, standard input has the mailmap.
    pub paths: &'a [Vec<u8>],
}

/// Parses arguments, of which the first is the program's own name.
///
/// `--compact` is an option only as the next one; anywhere else it is a path.
pub fn task_of(arguments: &[Vec<u8>]) -> Task<'_>
    ensures { (result.mode, texts result.paths.now) ≡ asked (texts arguments.now) }
{
    let mode = Mode::Answer;
    match arguments {
        [_, first, paths @ ..] if first.as_slice() == b"--compact".as_slice() => Task {
            mode: Mode::Compact,
            paths,
        },
        [_, paths @ ..] => Task { mode, paths },
        [] => Task {
            mode,
            paths: arguments,
        },
    }
}

/// Runs a task.
///
/// Reads all files, in order, before anything else. The first failure ends the run.
pub fn perform<F: FileSystem, R: Read, W: Write>(
    system: &F,
    alloc: Global,
    task: Task<'_>,
    input: &mut R,
    output: &mut W,
) -> Result<(), Failure>
    ensures leaves { LeavesBy (F.at system.now) task.entry.mode (texts task.entry.paths.now) R.remaining W.contents
        input.old input.new output.old output.new result }
    ensures fails { IfErr result (FailsFor (F.at system.now) task.entry.mode (texts task.entry.paths.now)) }
{
    if task.paths.is_empty() {
        return run_mode(alloc, task.mode, None, input, output);
    }
    let contents = read_files(system, alloc, task.paths)?;
    let buffers = list_of(alloc, contents.as_slice())?;
    run_mode(alloc, task.mode, Some(buffers.as_slice()), input, output)
}

fn run_mode<R: Read, W: Write>(
    alloc: Global,
    mode: Mode,
    files: Option<&[&[u8]]>,
    input: &mut R,
    output: &mut W,
) -> Result<(), Failure>
    ensures leaves { Leaves mode (file_bytes files.entry) R.remaining W.contents input.old input.new
        output.old output.new result }
    ensures input { IfErr result (λ e. IsOfInput e → (mode ≡ Mode.Answer) ⊎ IsNone files.entry) }
    ensures only { IfErr result (λ e. IsOfInput e ⊎ (e ≡ Failure.Memory) ⊎ (e ≡ Failure.Output)) }
{
    match mode {
        Mode::Answer => run(alloc, files, input, output),
        Mode::Compact => run_compact(alloc, files, input, output),
    }
}

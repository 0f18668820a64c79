//! Counts contacts using mailmaps, as `git shortlog -s` counts commits by author.
//!
//! `mailmap_shortlog MAILMAP..` counts the contacts on standard input by the names that the mailmaps map them to. With
//! `-e` it counts by names and emails, and with `-n` the greatest count comes first. The module `task` parses the
//! arguments.
//!
//! A failure prints a line on standard error, unless nobody reads the output any more, and the exit status is 2. Lines
//! that weren't counted are no failure: a line on standard error says how many.
#![tactic(auto)]

pub mod answer;
pub mod shortlog;
pub mod task;

use command_line::arguments::arguments;
use command_line::failure::Failure;
use command_line::files::{DEFAULT_PATH, System};
use command_line::messages::{self, failure_line, misuse_lines};
use command_line::piped::Piped;
use command_line::streams::write_all;
use std::alloc::{AllocError, Global};
use std::io::IsTerminal;
use std::process::ExitCode;
use std::slice;
use task::{Mode, Skipped, Task, UnknownOption, perform, skipped_line, task_of};

const PROGRAM: &[u8] = b"mailmap_shortlog";

const READS: &str = "mailmap_shortlog: reading contacts from standard input\n";

// Follows the message for an unknown option, which may be one of `git shortlog`.
const USAGE_LINES: &str = "\
usage: mailmap_shortlog [-n] [-e] [-s] [--] [MAILMAP..]
git's options select what is piped: git log OPTIONS --format='%an <%ae>' | mailmap_shortlog .mailmap
";

fn main(rt: HostRuntime) -> ExitCode {
    let arguments = match arguments(&rt, rt.alloc()) {
        Ok(arguments) => arguments,
        Err(_) => return failed(&rt, &[], Failure::Memory),
    };
    match task_of(arguments.as_slice()) {
        Ok(task) => done(&rt, task),
        Err(UnknownOption(option)) => {
            let usage = USAGE_LINES.as_bytes();
            say(
                &rt,
                misuse_lines(rt.alloc(), PROGRAM, b"unknown option: ", option, usage),
            );
            ExitCode::from(2)
        }
    }
}

fn done(rt: &HostRuntime, task: Task<'_>) -> ExitCode {
    let system = System { files: rt };
    let mut input = rt.stdin();
    // At a terminal, a program that waits looks as if it hung.
    if matches!(task.mode, Mode::Shortlog(_)) && input.is_terminal() {
        let _ = write_all(&mut rt.stderr(), READS.as_bytes());
    }
    let mut output = Piped::new(rt.stdout());
    match perform(&system, rt.alloc(), task, &mut input, &mut output) {
        Ok(None) => ExitCode::SUCCESS,
        Ok(Some(skipped)) => told(rt, skipped),
        Err(_) if output.is_closed => ExitCode::from(2),
        Err(failure) => failed(rt, task.paths, failure),
    }
}

// Says which lines weren't counted.
fn told(rt: &HostRuntime, skipped: Skipped) -> ExitCode {
    match skipped_line(rt.alloc(), skipped) {
        Ok(line) => {
            say(rt, Ok(line));
            ExitCode::SUCCESS
        }
        Err(_) => failed(rt, &[], Failure::Memory),
    }
}

// Reports a failure, also by the exit status.
fn failed(rt: &HostRuntime, paths: &[Vec<u8>], failure: Failure) -> ExitCode {
    say(rt, line_for(rt.alloc(), paths, failure));
    ExitCode::from(2)
}

// The message for a failure. Without paths, the only file is git's own.
fn line_for(alloc: Global, paths: &[Vec<u8>], failure: Failure) -> Result<Vec<u8>, AllocError> {
    if !paths.is_empty() {
        return failure_line(alloc, PROGRAM, paths, failure);
    }
    let own = Vec::from_slice(alloc, DEFAULT_PATH)?;
    failure_line(alloc, PROGRAM, slice::from_ref(&own), failure)
}

// If standard error fails as well, the exit status still reports the failure.
fn say(rt: &HostRuntime, lines: Result<Vec<u8>, AllocError>) {
    let _ = messages::say(
        &mut rt.stderr(),
        lines,
        b"mailmap_shortlog: out of memory\n",
    );
}

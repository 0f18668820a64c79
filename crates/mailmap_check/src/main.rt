//! Maps the contacts on standard input using mailmaps, or writes mailmaps as one.
//!
//! `mailmap_check FILE..` reads each FILE as a mailmap, and answers each line of standard input. Without a FILE, the
//! first line `--` on standard input separates a mailmap from the lines to answer. With `--compact` as the first argument it
//! prints the mailmaps as one; without a FILE, standard input is the mailmap.
//!
//! `-h` or `--help` as the first argument prints the usage, and `--version` the version.
//!
//! A failure prints one line on standard error, and the exit status is 2.
#![tactic(auto)]

pub mod run;
pub mod task;

use command_line::VERSION;
use command_line::arguments::arguments;
use command_line::failure::Failure;
use command_line::files::System;
use command_line::outcome::{Outcome, exit_code};
use command_line::streams::write_all;
use std::process::ExitCode;
use task::{perform, task_of};

const USAGE: &str = "\
usage: mailmap_check [FILE..]            maps the contacts on standard input with the mailmaps
       mailmap_check --compact [FILE..]  prints the mailmaps as one
       mailmap_check -h | --help         prints this
       mailmap_check --version           prints the version
Without a FILE, standard input has the mailmap, a line with only --, and the contacts;
with --compact all of it is the mailmap.
";

fn main(rt: HostRuntime) -> ExitCode {
    let ended = start(&rt);
    if let Err(failure) = ended {
        // If standard error fails as well, the exit status still reports the failure.
        let _ = eprintln!(rt; "mailmap_check: {failure}");
    }
    exit_code(ended.map(|()| Outcome::Clean))
}

fn start(rt: &HostRuntime) -> Result<(), Failure> {
    let arguments = arguments(rt, rt.alloc())?;
    let first = arguments
        .get(1)
        .map_or(b"".as_slice(), |first| first.as_slice());
    match first {
        b"-h" | b"--help" => write_all(&mut rt.stdout(), USAGE.as_bytes()),
        b"--version" => print_version(rt),
        _ => run_task(rt, arguments.as_slice()),
    }
}

fn print_version(rt: &HostRuntime) -> Result<(), Failure> {
    println!(rt; "mailmap_check {VERSION}").map_err(|_| Failure::Output)
}

fn run_task(rt: &HostRuntime, arguments: &[Vec<u8>]) -> Result<(), Failure> {
    let system = System { files: rt };
    perform(
        &system,
        rt.alloc(),
        task_of(arguments),
        &mut rt.stdin(),
        &mut rt.stdout(),
    )
}

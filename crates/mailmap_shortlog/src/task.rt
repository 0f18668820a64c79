//! Parses the arguments of `mailmap_shortlog`, and runs what they ask for.
ghost use Rattle.std.specs.Prelude.{◌≡◌, ◌⊎◌, IfErr, IfOk, Ok, drop};
ghost use Rattle.std.specs.List.{list_all};
ghost use Rattle.command_line.specs.Failures.{IsOfFile};
ghost use Rattle.mailmap_entries.specs.Texts.{texts};
ghost use Rattle.command_line.specs.Printing.{LeavesText};
ghost use Rattle.mailmap_shortlog.specs.Task.{AreMailmaps, FailsFor, IsAnswer, IsSkipped, NamesMailmap, Reads, asked, asked_of};
ghost use Rattle.mailmap_shortlog.specs.Task.{is_option, no_options, options_with, skipped_line, skipped_of};

use crate::shortlog::print_shortlog;
use command_line::VERSION;
use command_line::counting::count_contacts;
use command_line::failure::Failure;
use command_line::files::{FileSystem, list_of, read_default, read_files};
use command_line::streams::write_all;
use itoa::Buffer;
use mailmap_contacts::counter::Contacts;
use std::alloc::{AllocError, Global};
use std::io::{Read, Write};

pub const USAGE: &str = "\
usage: mailmap_shortlog [-n] [-e] [-s] [--] [MAILMAP..]
       mailmap_shortlog -h | --help  prints this
       mailmap_shortlog --version    prints the version
Counts the contacts of standard input by the names that the mailmaps give them. Without a MAILMAP, that is .mailmap in
the current folder, if it is there.
  -n  the greatest count first
  -e  by names and emails
  -s  ignored, for compatibility with git shortlog
";

#[derive(Clone, Copy, Debug, PartialEq, Eq)]
pub struct Options {
    /// `-n`: sorts by descending count. Without it, lines are sorted by text.
    pub by_count: bool,
    /// `-e`: counts contacts by name and email. Without it, by name alone.
    pub with_email: bool,
}

#[derive(Clone, Copy, Debug, PartialEq, Eq)]
pub enum Mode {
    /// Print the usage.
    Help,
    /// Print the version.
    Version,
    /// Count the contacts on standard input.
    Shortlog(Options),
}

#[derive(Clone, Copy, Debug, PartialEq, Eq)]
pub struct Task<'a> {
    pub mode: Mode,
    /// The paths of the mailmaps. Without any, the mailmap is git's own, if it is there.
    pub paths: &'a [Vec<u8>],
}

/// The lines of the input that are neither blank nor contacts: how many, and the number of the first.
#[derive(Clone, Copy, Debug, PartialEq, Eq)]
pub struct Skipped {
    pub count: usize,
    pub first: usize,
}

/// An unknown option, or letters of which one is no option.
#[derive(Clone, Copy, Debug, PartialEq, Eq)]
pub struct UnknownOption<'a>(pub &'a [u8]);

/// Parses arguments, of which the first is the program's own name.
///
/// Options are parsed from left to right, up to the first path or `--`. Parsing ends at the first of `-h`, `--help`,
/// `--version`, and an unknown option: `-n --help` asks for help, and `-x --help` is an error. Short options can be
/// joined, as in `-ne`, but not with `-h`. A single `-` is a path.
pub fn task_of(arguments: &[Vec<u8>]) -> Result<Task<'_>, UnknownOption<'_>>
    ensures { asked_of result ≡ asked no_options (drop 1 (texts arguments.now)) }
{
    match arguments {
        [] => Ok(task_for(Mode::Shortlog(NO_OPTIONS), arguments)),
        [_, words @ ..] => read_options(words),
    }
}

const NO_OPTIONS: Options = Options {
    by_count: false,
    with_email: false,
};

// Parses arguments without the program's name.
fn read_options(arguments: &[Vec<u8>]) -> Result<Task<'_>, UnknownOption<'_>>
    ensures { asked_of result ≡ asked no_options (texts arguments.now) }
{
    let mut options = NO_OPTIONS;
    let mut left = arguments;
    while let [argument, rest @ ..] = left {
        let argument = argument.as_slice();
        if argument == b"--".as_slice() {
            return Ok(task_for(Mode::Shortlog(options), rest));
        }
        if argument == b"-h".as_slice() || argument == b"--help".as_slice() {
            return Ok(task_for(Mode::Help, &[]));
        }
        if argument == b"--version".as_slice() {
            return Ok(task_for(Mode::Version, &[]));
        }
        match argument {
            [b'-', _, ..] if are_options(&argument[1..]) => options = with_letters(
                options, argument,
            ),
            [b'-', _, ..] => return Err(UnknownOption(argument)),
            _ => return Ok(task_for(Mode::Shortlog(options), left)),
        }
        left = rest;
    }
    Ok(task_for(Mode::Shortlog(options), left))
}

fn task_for(mode: Mode, paths: &[Vec<u8>]) -> Task<'_>
    ensures { asked_of (Ok result) ≡ Ok (mode, texts paths.now) }
{
    Task { mode, paths }
}

fn are_options(letters: &[u8]) -> bool
    ensures { result ≡ list_all is_option letters.now }
{
    letters.iter().all(|letter| *letter == b'n' || *letter == b'e' || *letter == b's')
}

// Adds the options in the letters of an argument.
fn with_letters(options: Options, argument: &[u8]) -> Options
    ensures { result ≡ options_with options argument.now }
{
    Options {
        by_count: options.by_count || argument.contains(&b'n'),
        with_email: options.with_email || argument.contains(&b'e'),
    }
}

/// Runs a task: prints the shortlog of the contacts on the input, the usage, or the version. Returns which lines of the
/// input weren't counted.
///
/// For a shortlog, the mailmaps are read first, in order, and then all of the input. The first failure ends the run.
pub fn perform<F: FileSystem, R: Read, W: Write>(
    system: &F,
    alloc: Global,
    task: Task<'_>,
    input: &mut R,
    output: &mut W,
) -> Result<Option<Skipped>, Failure>
    // Exactly the answer is written; if writing fails, a prefix of it, and after any other failure nothing.
    ensures leaves { LeavesText (IsAnswer (F.at system.now) (R.remaining input.old) task.entry.mode
        (texts task.entry.paths.now)) W.contents output.old output.new result }
    ensures reads { Reads task.entry.mode R.remaining input.old input.new result }
    ensures skipped { IfOk result (IsSkipped (R.remaining input.old) task.entry.mode) }
    ensures fails { IfErr result (FailsFor (F.at system.now) (R.remaining input.old) task.entry.mode
        (texts task.entry.paths.now)) }
{
    match task.mode {
        Mode::Help => {
            write_all(output, USAGE.as_bytes())?;
            Ok(None)
        }
        Mode::Version => {
            let line = format!(in alloc; "mailmap_shortlog {VERSION}\n")?;
            write_all(output, line.as_bytes())?;
            Ok(None)
        }
        Mode::Shortlog(options) => {
            let mailmaps = read_mailmaps(system, alloc, task.paths)?;
            let list = list_of(alloc, mailmaps.as_slice())?;
            let buffers = list.as_slice();
            let contacts = count_contacts(alloc, input)?;
            print_shortlog(alloc, buffers, &contacts, options, output)?;
            Ok(skipped_of(&contacts))
        }
    }
}

// Reads the mailmaps at the paths, or without a path git's own, if it is there.
fn read_mailmaps<F: FileSystem>(
    system: &F,
    alloc: Global,
    paths: &[Vec<u8>],
) -> Result<Vec<Vec<u8>>, Failure>
    ensures ok { IfOk result (λ mailmaps. AreMailmaps (F.at system.now) (texts paths.now) (texts mailmaps.items)) }
    ensures file { IfErr result (NamesMailmap (F.at system.now) (texts paths.now)) }
    ensures only { IfErr result (λ e. IsOfFile e ⊎ (e ≡ Failure.Memory)) }
{
    if paths.is_empty() {
        return read_default(system, alloc);
    }
    read_files(system, alloc, paths)
}

fn skipped_of(contacts: &Contacts) -> Option<Skipped>
    ensures { result ≡ skipped_of contacts.now.lines_without_contact }
{
    match contacts.lines_without_contact() {
        [] => None,
        [first, rest @ ..] => Some(Skipped {
            count: rest.len() + 1,
            first: *first,
        }),
    }
}

/// The message about the lines that weren't counted.
pub fn skipped_line(alloc: Global, skipped: Skipped) -> Result<Vec<u8>, AllocError>
    ensures { IfOk result (λ line. line.items ≡ skipped_line skipped) }
{
    let mut buffer = Buffer::new();
    let mut line = Vec::from_slice(alloc, b"mailmap_shortlog: lines without a contact: ")?;
    line.extend_from_slice(buffer.format(skipped.count).as_bytes())?;
    line.extend_from_slice(b"; the first is line ")?;
    line.extend_from_slice(buffer.format(skipped.first).as_bytes())?;
    line.push(b'\n')?;
    Ok(line)
}

//! Prints what is wrong with mailmaps and with contacts line by line, or a mailmap without its redundant lines, or the
//! lines behind the answers to contacts, or the lines that mailmaps lack.
//!
//! `USAGE` of `verify_command` has the modes and the options, and `verify_command::request` parses them.
//!
//! The exit status is 0 if no finding counts, which notes don't without `--severity`, and else 1. A failure prints a
//! line on standard error, unless nobody reads the output any more, and the status is 2.
#![tactic(auto)]

use command_line::arguments::arguments;
use command_line::files::System;
use command_line::messages::{self, cause_text, push_failure};
use command_line::outcome::exit_code;
use command_line::piped::Piped;
use command_line::streams::write_all;
use mailmap_report::kinds::push_kind_names;
use mailmap_report::places::push_position;
use shown_text::shown::push_shown;
use std::alloc::{AllocError, Global};
use std::io::{ErrorKind, IsTerminal};
use std::process::ExitCode;
use verify_command::failure::TaskFailure;
use verify_command::task::{Mode, ParseError, Request, Setting, perform, request_of};

const PROGRAM: &[u8] = b"mailmap_verify";

// Follows the message for a wrong argument.
const USAGE_LINE: &str = "\
usage: mailmap_verify [--prune [--in-place] | --explain | --contacts CONTACTS | --suggest CONTACTS]
     [-S LEVEL] [-e KIND,..] [-f FORMAT] [--stdin-name NAME] [--] [FILE..] | --help | --version
";

fn main(rt: HostRuntime) -> ExitCode {
    let asked = match arguments(&rt, rt.alloc()) {
        Ok(arguments) => request_of(rt.alloc(), arguments),
        Err(_) => Err(ParseError::Memory),
    };
    match asked {
        Ok(request) => done(&rt, &request),
        Err(error) => {
            say(&rt, misuse_lines(rt.alloc(), &error));
            ExitCode::from(2)
        }
    }
}

fn done(rt: &HostRuntime, request: &Request) -> ExitCode {
    let system = System { files: rt };
    let mut input = rt.stdin();
    // At a terminal, a program that waits looks as if it hung.
    if input.is_terminal() {
        let _ = write_all(&mut rt.stderr(), reads(request).as_bytes());
    }
    let mut output = Piped::new(rt.stdout());
    let mut folder = System { files: rt };
    let ended = perform(
        &system,
        &mut folder,
        rt.alloc(),
        request,
        &mut input,
        &mut output,
    );
    if let Err(failure) = ended {
        if !output.is_closed {
            say(rt, failure_line(rt.alloc(), request, failure));
        }
    }
    exit_code(ended)
}

// What is said if standard input is read.
fn reads(request: &Request) -> &'static str {
    if request.reads_mailmap() {
        return "mailmap_verify: reading the mailmap from standard input\n";
    }
    if request.reads_contacts() {
        return "mailmap_verify: reading contacts from standard input\n";
    }
    ""
}

// If standard error fails as well, the exit status still reports the failure.
fn say(rt: &HostRuntime, line: Result<Vec<u8>, AllocError>) {
    let _ = messages::say(&mut rt.stderr(), line, b"mailmap_verify: out of memory\n");
}

// The message for a wrong argument, and the usage. Fails if there was no memory for the arguments.
fn misuse_lines(alloc: Global, error: &ParseError) -> Result<Vec<u8>, AllocError> {
    let (words, argument) = match error {
        ParseError::UnknownOption(option) => (["unknown option: ", "", ""], option.as_slice()),
        ParseError::SecondMode(option) => (["a second mode: ", "", ""], option.as_slice()),
        ParseError::NoValue(setting, option) => {
            (["no ", value_of(*setting), " after "], option.as_slice())
        }
        ParseError::UnknownValue(setting, value) => {
            (["unknown ", value_of(*setting), ": "], value.as_slice())
        }
        ParseError::Unused(mode, setting) => {
            (
                [name_of(*mode), " takes no ", ""],
                setting.name().as_bytes(),
            )
        }
        ParseError::InPlaceAlone => (["--in-place needs --prune", "", ""], b"".as_slice()),
        ParseError::Memory => return Err(AllocError),
    };
    let what = words.concat(alloc)?;
    let help = help_lines(alloc, error)?;
    messages::misuse_lines(alloc, PROGRAM, what.as_bytes(), argument, help.as_slice())
}

// What there is in place of an unknown value, and the usage.
fn help_lines(alloc: Global, error: &ParseError) -> Result<Vec<u8>, AllocError> {
    let mut lines = Vec::new(alloc);
    match error {
        ParseError::UnknownValue(Setting::Severity, _) => {
            lines.extend_from_slice(b"levels: error warning note\n")?
        }
        ParseError::UnknownValue(Setting::Format, _) => {
            lines.extend_from_slice(b"formats: gcc json github\n")?
        }
        ParseError::UnknownValue(Setting::Exclude, _) => {
            lines.extend_from_slice(b"kinds:")?;
            push_kind_names(&mut lines)?;
            lines.push(b'\n')?;
        }
        _ => {}
    }
    lines.extend_from_slice(USAGE_LINE.as_bytes())?;
    Ok(lines)
}

// What an option needs after it.
fn value_of(setting: Setting) -> &'static str {
    match setting {
        Setting::Contacts | Setting::Suggest => "file",
        Setting::Severity => "level",
        Setting::Exclude => "kind",
        Setting::Format => "format",
        Setting::StdinName => "name",
    }
}

fn name_of(mode: Mode) -> &'static str {
    match mode {
        Mode::Prune => "--prune",
        Mode::PruneInPlace => "--prune --in-place",
        Mode::Explain => "--explain",
        Mode::Suggest => "--suggest",
        // These modes use all options, or end the parse.
        Mode::Help | Mode::Version | Mode::Verify | Mode::Contacts => "this mode",
    }
}

// The message for a failure: the file or stream, and the cause.
fn failure_line(
    alloc: Global,
    request: &Request,
    failure: TaskFailure,
) -> Result<Vec<u8>, AllocError> {
    let mut line = Vec::from_slice(alloc, b"mailmap_verify: ")?;
    push_cause(&mut line, request, failure)?;
    line.push(b'\n')?;
    Ok(line)
}

fn push_cause(
    line: &mut Vec<u8>,
    request: &Request,
    failure: TaskFailure,
) -> Result<(), AllocError> {
    let paths = request.paths.as_slice();
    match failure {
        TaskFailure::Run(failure) => push_failure(line, paths, failure),
        TaskFailure::Contacts { cause } => {
            push_shown(line, request.contacts.as_slice())?;
            line.extend_from_slice(b": ")?;
            line.extend_from_slice(cause_text(cause).as_bytes())
        }
        TaskFailure::TooManyFiles => line.extend_from_slice(b"--prune takes one FILE at most"),
        TaskFailure::ReadOtherwise { position } => {
            let mut place = Vec::new(*line.allocator());
            push_position(&mut place, request.settings.mailmap_names(paths), position)?;
            line.extend_from_slice(b"git reads ")?;
            push_shown(line, place.as_slice())?;
            line.extend_from_slice(b" otherwise")
        }
        TaskFailure::Unreplaced { index, cause } => {
            if let Some(path) = paths.get(index) {
                push_shown(line, path.as_slice())?;
            }
            line.extend_from_slice(b": cannot be replaced: ")?;
            line.extend_from_slice(unreplaced_text(cause).as_bytes())
        }
    }
}

// Why a file can't be replaced.
fn unreplaced_text(cause: ErrorKind) -> &'static str {
    match cause {
        ErrorKind::AlreadyExists => "the file of its name and .lock exists",
        ErrorKind::InvalidInput => "Not a regular file",
        ErrorKind::ReadOnlyFilesystem => "Read-only file system",
        ErrorKind::StorageFull => "No space left on device",
        ErrorKind::QuotaExceeded => "Disk quota exceeded",
        ErrorKind::FileTooLarge => "File too large",
        ErrorKind::NotFound
        | ErrorKind::PermissionDenied
        | ErrorKind::IsADirectory
        | ErrorKind::NotADirectory
        | ErrorKind::InvalidFilename
        | ErrorKind::FilesystemLoop
        | ErrorKind::InvalidData => cause_text(cause),
        _ => "cannot be written",
    }
}

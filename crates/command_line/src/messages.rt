//! Error messages of the programs.
ghost use Rattle.std.specs.Prelude.{◌≡◌, ◌-◌, ◌++◌, [], IfOk, IsOkUnless, OnOk, codes, slice_index_or};
ghost use Rattle.mailmap_entries.specs.Texts.{texts};
ghost use Rattle.command_line.specs.Messages.{cause_text, failure_text, messages_or, program_message};
ghost use Rattle.command_line.specs.Printing.{WritesText};
ghost use Rattle.shown_text.specs.Shown.{shown};

use crate::failure::Failure;
use crate::streams::write_all;
use shown_text::shown::push_shown;
use std::alloc::{AllocError, Global};
use std::io::{ErrorKind, Write};

/// The message for a failure, as in `mailmap_verify: team: No such file or directory`.
pub fn failure_line(
    alloc: Global,
    program: &[u8],
    paths: &[Vec<u8>],
    failure: Failure,
) -> Result<Vec<u8>, AllocError>
    ensures { IfOk result (λ line. line.items
        ≡ program_message program.now (failure_text (texts paths.now) failure)) }
{
    let mut line = begun(alloc, program)?;
    push_failure(&mut line, paths, failure)?;
    line.push(b'\n')?;
    Ok(line)
}

/// The message for a wrong argument, as in `mailmap_shortlog: unknown option: -x`, followed by the usage. The
/// argument is escaped by [`push_shown`].
pub fn misuse_lines(
    alloc: Global,
    program: &[u8],
    what: &[u8],
    argument: &[u8],
    usage: &[u8],
) -> Result<Vec<u8>, AllocError>
    ensures { IfOk result (λ lines. lines.items
        ≡ program_message program.now (what.now ++ shown argument.now) ++ usage.now) }
{
    let mut lines = begun(alloc, program)?;
    lines.extend_from_slice(what)?;
    push_shown(&mut lines, argument)?;
    lines.push(b'\n')?;
    lines.extend_from_slice(usage)?;
    Ok(lines)
}

// Each message starts with the program's name.
fn begun(alloc: Global, program: &[u8]) -> Result<Vec<u8>, AllocError>
    ensures { IfOk result (λ line. line.items ≡ program.now ++ codes ": ") }
{
    let mut line = Vec::from_slice(alloc, program)?;
    line.extend_from_slice(b": ")?;
    Ok(line)
}

/// Appends the message for a failure, without the program's name and the line feed.
pub fn push_failure(
    line: &mut Vec<u8>,
    paths: &[Vec<u8>],
    failure: Failure,
) -> Result<(), AllocError>
    ensures { OnOk result (line.new.items
        ≡ line.old.items ++ failure_text (texts paths.now) failure) }
{
    match failure {
        Failure::File { number, cause } => {
            push_shown(line, path_of(paths, number))?;
            line.extend_from_slice(b": ")?;
            line.extend_from_slice(cause_text(cause).as_bytes())
        }
        Failure::Input { cause } => {
            line.extend_from_slice(b"standard input: ")?;
            line.extend_from_slice(cause_text(cause).as_bytes())
        }
        Failure::GitLog => line.extend_from_slice(
            b"the contacts are git log's own format: use git log --format='%an <%ae>'",
        ),
        Failure::Memory => line.extend_from_slice(b"out of memory"),
        Failure::Output => line.extend_from_slice(b"cannot write output"),
    }
}

// The path of a file by its number, the first of which is 1.
fn path_of(paths: &[Vec<u8>], number: usize) -> &[u8]
    ensures { result.now ≡ slice_index_or (texts paths.now) (number - 1) [] }
{
    match paths.get(number.saturating_sub(1)) {
        Some(path) => path.as_slice(),
        None => &[],
    }
}

/// The cause of a failure, worded as other programs word it.
pub fn cause_text(cause: ErrorKind) -> &'static str
    ensures { result.now ≡ cause_text cause }
{
    match cause {
        ErrorKind::NotFound => "No such file or directory",
        ErrorKind::PermissionDenied => "Permission denied",
        ErrorKind::IsADirectory => "Is a directory",
        ErrorKind::NotADirectory => "Not a directory",
        ErrorKind::InvalidFilename => "File name too long",
        ErrorKind::FilesystemLoop => "Too many levels of symbolic links",
        ErrorKind::OutOfMemory => "out of memory",
        // `System` returns this for a path that isn't UTF-8.
        ErrorKind::InvalidData => "the name is not UTF-8",
        _ => "cannot be read",
    }
}

/// Writes messages to standard error; if there was no memory to make them, writes `without`, which says so.
///
/// On an error, which is always `Failure::Output`, only a prefix was written. Then nothing but the exit status tells
/// what went wrong.
pub fn say<W: Write>(
    output: &mut W,
    lines: Result<Vec<u8>, AllocError>,
    without: &[u8],
) -> Result<(), Failure>
    ensures writes { WritesText (messages_or lines without.now) W.contents output.old output.new result }
    ensures only { IsOkUnless result Failure.Output }
{
    match lines {
        Ok(text) => write_all(output, text.as_slice()),
        Err(_) => write_all(output, without),
    }
}

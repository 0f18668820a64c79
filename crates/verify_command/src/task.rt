//! Runs what the arguments of `mailmap_verify` ask for.
ghost use Rattle.std.specs.Prelude.{◌≡◌, ◌<◌, ◌⊎◌, IfErr, IfOk, IsErrOf, OnOk, false, length, map, true};
ghost use Rattle.std.specs.Io.KnownBytes.{IsAtEnd};
ghost use Rattle.command_line.specs.Failures.{IsOfFile};
ghost use Rattle.mailmap_entries.specs.Texts.{texts};
ghost use Rattle.verify_command.specs.Task.{AreInFiles, AreMailmaps, EndsPrinting, FailsFor, FailsToPrune, FailsToRead, HasLog, IsKnown};
ghost use Rattle.verify_command.specs.Task.{IsOfMailmap, IsPrunedFrom, Leaves, LeavesFor, NamesMailmap, ReadsInput, ReplacesFor, reads_contacts};
ghost use Rattle.verify_command.specs.Task.{reads_mailmap, version_line, wanted_of};

pub use crate::asked::{Mode, ParseError, Request, Setting, USAGE};
use crate::contacts::{report_contacts, suggest_lines};
use crate::explanation::explain_contacts;
use crate::failure::TaskFailure;
use crate::in_place::prune_in_place;
pub use crate::replacing::Replacer;
use crate::report::verify;
pub use crate::request::request_of;
use command_line::VERSION;
use command_line::failure::Failure;
use command_line::files::{FileSystem, list_of, read_default, read_files};
use command_line::outcome::Outcome;
use command_line::streams::{read_input, write_all};
use mailmap_findings::verify::{first_read_otherwise, prune};
use std::alloc::{AllocError, Global};
use std::io::{Read, Write};

/// Does what is asked for, and returns the outcome, which makes the exit status.
///
/// All input is read before anything is written, except with `Mode::Explain`, which answers contacts as they come. The
/// first failure ends the run. Findings and suggestions are written as they are formatted, so memory can run out after a
/// prefix of them was written. A mailmap is not pruned if git reads one of its lines in another way; this is a failure,
/// too. `Mode::PruneInPlace` writes nothing, and is the only one that replaces files.
pub fn perform<F: FileSystem, D: Replacer, R: Read, W: Write>(
    system: &F,
    folder: &mut D,
    alloc: Global,
    request: &Request,
    input: &mut R,
    output: &mut W,
) -> Result<Outcome, TaskFailure>
    // Exactly the text of the mode is written; after a failure, a prefix of it or nothing.
    ensures leaves { LeavesFor request.now.mode (F.at system.now) (R.remaining input.old) (R.remaining input.new)
        (wanted_of request.now) W.contents output.old output.new result }

    // Mailmaps are pruned in their files, or no file is replaced.
    ensures replaces { ReplacesFor request.now.mode D.has_replaced (F.at system.now) (wanted_of request.now)
        folder.old folder.new result }

    // Standard input is read to its end if it has the contacts or the mailmap, and else not at all. It isn't read
    // either if a mailmap can't be.
    ensures reads_all { ReadsInput (wanted_of request.now) → OnOk result (IsAtEnd (R.remaining input.new)) }
    ensures unread { reads_contacts request.now.mode request.now.contacts.items ≡ false
        → reads_mailmap (wanted_of request.now) ≡ false → input.new ≡ input.old }
    ensures unread_at_files { IfErr result (λ e. IsOfMailmap e → input.new ≡ input.old) }

    // Contacts in git log's own format are refused.
    ensures refuses { OnOk result (HasLog request.now.mode (F.at system.now) request.now.contacts.items
        (R.remaining input.old) false) }

    // Which requests can fail in which way. Only one mailmap can be pruned, which is checked before anything is read.
    ensures fails { IfErr result (FailsFor (F.at system.now) (R.remaining input.old) (wanted_of request.now)) }
    ensures too_many { request.now.mode ≡ Mode.Prune → 1 < length request.now.paths.items
        → IsErrOf result TaskFailure.TooManyFiles }
{
    match request.mode {
        Mode::Help => print_text(output, USAGE.as_bytes()),
        Mode::Version => print_version(alloc, output),
        Mode::Prune if 1 < request.paths.len() => Err(TaskFailure::TooManyFiles),
        Mode::PruneInPlace => prune_in_place(system, folder, alloc, request.paths.as_slice()),
        _ => {
            let mailmaps = read_mailmaps(system, alloc, request, input)?;
            let list = list_of(alloc, mailmaps.as_slice())?;
            let buffers = list.as_slice();
            match request.mode {
                Mode::Prune => print_pruned(alloc, buffers, output),
                Mode::Explain => {
                    explain_contacts(alloc, request.paths.as_slice(), buffers, input, output)
                }
                Mode::Contacts => report_contacts(system, alloc, request, buffers, input, output),
                Mode::Suggest => suggest_lines(system, alloc, request, buffers, input, output),
                _ => verify(alloc, request, buffers, output),
            }
        }
    }
}

/// Reads the mailmaps of a request. Stops at the first failure.
fn read_mailmaps<F: FileSystem, R: Read>(
    system: &F,
    alloc: Global,
    request: &Request,
    input: &mut R,
) -> Result<Vec<Vec<u8>>, Failure>
    ensures ok { IfOk result (λ mailmaps. AreMailmaps (F.at system.now) (R.remaining input.old) (wanted_of request.now)
        (texts mailmaps.items)) }
    ensures reads_all { reads_mailmap (wanted_of request.now) ≡ true → OnOk result (IsAtEnd (R.remaining input.new)) }
    ensures unread { reads_mailmap (wanted_of request.now) ≡ false → input.new ≡ input.old }
    ensures fails { IfErr result (FailsToRead (F.at system.now) (wanted_of request.now)) }
{
    if !request.reads_mailmap() {
        return read_mailmap_files(system, alloc, request);
    }
    let mut mailmaps = Vec::new(alloc);
    mailmaps.push(read_input(alloc, input)?)?;
    Ok(mailmaps)
}

// Reads the files of the mailmaps, of which git's own needn't be there for contacts.
fn read_mailmap_files<F: FileSystem>(
    system: &F,
    alloc: Global,
    request: &Request,
) -> Result<Vec<Vec<u8>>, Failure>
    ensures ok { IfOk result (λ mailmaps. AreInFiles (F.at system.now) (wanted_of request.now) (texts mailmaps.items)) }
    ensures file { IfErr result (NamesMailmap (F.at system.now) (wanted_of request.now)) }
    ensures only { IfErr result (λ e. IsOfFile e ⊎ (e ≡ Failure.Memory)) }
{
    if request.reads_default() {
        return read_default(system, alloc);
    }
    read_files(system, alloc, request.paths.as_slice())
}

// Prints a mailmap without its lines that have no effect, if git reads each of its lines as the library does.
fn print_pruned<W: Write>(
    alloc: Global,
    buffers: &[&[u8]],
    output: &mut W,
) -> Result<Outcome, TaskFailure>
    ensures leaves { Leaves false (IsPrunedFrom (map (λ b. b.now) buffers.now)) W.contents output.old output.new result }
    ensures fails { IfErr result (FailsToPrune (map (λ b. b.now) buffers.now)) }
{
    let [mailmap] = buffers else {
        // Not reached, since `perform` refuses several paths: it is the input, or the file at the only path.
        return Err(TaskFailure::Run(Failure::Memory));
    };
    if let Some(position) = first_read_otherwise(buffers) {
        return Err(TaskFailure::ReadOtherwise { position });
    }
    let text = prune(alloc, mailmap)?;
    print_text(output, text.as_slice())
}

/// Writes a text in which nothing is found.
fn print_text<W: Write>(output: &mut W, text: &[u8]) -> Result<Outcome, TaskFailure>
    ensures leaves { Leaves false (IsKnown text.now) W.contents output.old output.new result }
    ensures only { IfErr result EndsPrinting }
{
    write_all(output, text)?;
    Ok(Outcome::Clean)
}

fn print_version<W: Write>(alloc: Global, output: &mut W) -> Result<Outcome, TaskFailure>
    ensures leaves { Leaves false (IsKnown version_line) W.contents output.old output.new result }
    ensures only { IfErr result EndsPrinting }
{
    let line = version_line(alloc)?;
    print_text(output, line.as_slice())
}

fn version_line(alloc: Global) -> Result<Vec<u8>, AllocError>
    ensures { IfOk result (λ line. line.items ≡ version_line) }
{
    let mut line = Vec::from_slice(alloc, b"mailmap_verify ")?;
    line.extend_from_slice(VERSION.as_bytes())?;
    line.push(b'\n')?;
    Ok(line)
}

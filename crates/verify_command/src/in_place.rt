//! Prunes mailmaps in their files.
ghost use Rattle.std.specs.Prelude.{◌≡◌, ◌++◌, [], IfErr, IfOk, List, OnErr, OnOk, map, slice_index_or};
ghost use Rattle.mailmap_entries.specs.Texts.{texts};
ghost use Rattle.command_line.specs.declared.outcome.Outcome.TheVariants.{Clean as TheClean};
ghost use Rattle.mailmap_entries.specs.Folding.{Text};
ghost use Rattle.mailmap_findings.specs.Findings.{IsPruned};
ghost use Rattle.verify_command.specs.InPlace.{FailsInPlace, FailsToReplace, PrunesAll, PrunesFiles, Replaced, unless_same};

use crate::failure::TaskFailure;
use crate::replacing::Replacer;
use command_line::failure::Failure;
use command_line::files::{FileSystem, list_of, read_files};
use command_line::outcome::Outcome;
use mailmap_findings::verify::{first_read_otherwise, prune};
use std::alloc::Global;
use std::io::ErrorKind;

/// Replaces each mailmap by its text without its lines that have no effect. A file without such lines isn't touched.
///
/// Each mailmap is pruned by itself. All files are read before one is replaced, and none is if git reads a line of one in
/// another way. Files are replaced one after another, up to the first that can't be.
pub(crate) fn prune_in_place<F: FileSystem, D: Replacer>(
    system: &F,
    folder: &mut D,
    alloc: Global,
    paths: &[Vec<u8>],
) -> Result<Outcome, TaskFailure>
    ensures prunes { PrunesFiles D.has_replaced (F.at system.now) (texts paths.now) folder.old folder.new result }
    ensures clean { IfOk result (λ outcome. outcome ≡ TheClean) }
    ensures fails { IfErr result (FailsInPlace (F.at system.now) (texts paths.now)) }
{
    let mailmaps = read_files(system, alloc, paths)?;
    let list = list_of(alloc, mailmaps.as_slice())?;
    let buffers = list.as_slice();
    if let Some(position) = first_read_otherwise(buffers) {
        return Err(TaskFailure::ReadOtherwise { position });
    }
    replace_all(folder, alloc, paths, buffers)?;
    Ok(Outcome::Clean)
}

// Prunes the mailmaps in buffers in the files at their paths.
fn replace_all<D: Replacer>(
    folder: &mut D,
    alloc: Global,
    paths: &[Vec<u8>],
    buffers: &[&[u8]],
) -> Result<(), TaskFailure>
    ensures { PrunesAll D.has_replaced (texts paths.now) (map (λ b. b.now) buffers.now) folder.old folder.new result }
{
    for (index, buffer) in buffers.iter().enumerate() {
        let path = path_at(paths, index);
        replace_pruned(folder, alloc, path, buffer, index)?;
    }
    Ok(())
}

fn path_at(paths: &[Vec<u8>], index: usize) -> &[u8]
    ensures { result.now ≡ slice_index_or (texts paths.now) index [] }
{
    match paths.get(index) {
        Some(path) => path.as_slice(),
        // Not reached, since each mailmap has a path.
        None => &[],
    }
}

// Prunes a mailmap in the file at its path. On an error the file is as it was.
fn replace_pruned<D: Replacer>(
    folder: &mut D,
    alloc: Global,
    path: &[u8],
    mailmap: &[u8],
    index: usize,
) -> Result<(), TaskFailure>
    ensures ok { (before : List Replaced) → D.has_replaced folder.old before → OnOk result ((text : Text)
        × IsPruned mailmap.now text × D.has_replaced folder.new (before ++ unless_same path.now mailmap.now text)) }
    ensures err { (before : List Replaced) → D.has_replaced folder.old before
        → OnErr result (D.has_replaced folder.new before) }
    ensures fails { IfErr result (FailsToReplace index) }
{
    let text = prune(alloc, mailmap)?;
    if text.as_slice() == mailmap {
        return Ok(());
    }
    match folder.replace(alloc, path, text.as_slice()) {
        Ok(()) => Ok(()),
        Err(ErrorKind::OutOfMemory) => Err(TaskFailure::Run(Failure::Memory)),
        Err(cause) => Err(TaskFailure::Unreplaced { index, cause }),
    }
}

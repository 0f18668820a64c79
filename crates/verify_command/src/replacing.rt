//! Replaces files in one step.
ghost use Rattle.std.specs.Prelude.{◌++◌, ◌∷◌, [], List, OnErr, OnOk};
ghost use Rattle.verify_command.specs.InPlace.{Replaced};

use command_line::files::System;
use std::alloc::Global;
use std::fs::{File, Metadata, OpenOptions};
use std::io::{ErrorKind, Write};
use std::os::unix::fs::{MetadataExt, OpenOptionsExt, fchown};
use std::rt::Files;
use std::{fs, io, str};

/// Replaces files by their paths. Programs use [`System`]; tests have their own.
pub trait Replacer {
    // These files were replaced, in this order.
    ghost has_replaced: { Self → List Replaced → Type 0 };

    /// Replaces the file at a path by one with this text. If it fails, the file is as it was.
    fn replace(&mut self, alloc: Global, path: &[u8], text: &[u8]) -> Result<(), ErrorKind>
        ensures ok { (before : List Replaced) → has_replaced self.old before
            → OnOk result (has_replaced self.new (before ++ record { path = path.now; text = text.now } ∷ [])) }
        ensures err { (before : List Replaced) → has_replaced self.old before
            → OnErr result (has_replaced self.new before) };
}

/// The operating system's files, of which contracts know nothing.
///
/// The new file is written beside the old one, under its name with `.lock` at the end, as git's own lock files are, and
/// then renamed. So whoever reads the file at any time sees all of the old text or all of the new one, also after the
/// power fails. It has the old one's permissions and, as far as the system lets it, its owner and group. At a symbolic
/// link, the file that it leads to is replaced. A file that can't be written isn't replaced, even if its folder could be.
impl<F: Files<File = File>> Replacer for System<'_, F> {
    ghost use Rattle.std.specs.Prelude.{⊤};

    ghost has_replaced = { λ _ _. ⊤ };

    fn replace(&mut self, alloc: Global, path: &[u8], text: &[u8]) -> Result<(), ErrorKind> {
        match replace_file(self.files, alloc, path, text) {
            Ok(()) => Ok(()),
            Err(e) => Err(e.kind()),
        }
    }
}

fn replace_file<F: Files<File = File>>(
    files: &F,
    alloc: Global,
    path: &[u8],
    text: &[u8],
) -> io::Result<()> {
    let Ok(path) = str::from_utf8(path) else {
        return Err(io::Error::from(ErrorKind::InvalidData));
    };
    let file = files.canonicalize(alloc, path)?.into_string();
    let known = metadata_of_writable(files, &file)?;
    let mut beside = String::from_str(alloc, &file)?;
    beside.push_str(".lock")?;
    let mut new = OpenOptions::new()
        .write(true)
        .create_new(true)
        .mode(0o600)
        .open(files, &beside)?;
    let ended = match write_new(&mut new, &known, text) {
        Ok(()) => fs::rename(files, &beside, &file),
        Err(e) => Err(e),
    };
    if ended.is_err() {
        let _ = fs::remove_file(files, &beside);
    }
    ended
}

// The metadata of a regular file that can be opened for writing.
fn metadata_of_writable<F: Files>(files: &F, path: &str) -> io::Result<Metadata> {
    let known = fs::metadata(files, path)?;
    if !known.is_file() {
        return Err(io::Error::from(ErrorKind::InvalidInput));
    }
    let _file = OpenOptions::new().write(true).open(files, path)?;
    Ok(known)
}

// Gives a new file the old one's permissions and this text, and waits until the disk has both.
fn write_new(new: &mut File, old: &Metadata, text: &[u8]) -> io::Result<()> {
    // Only root can give a file away, and others only to their own groups.
    let _ = fchown(&*new, Some(old.uid()), Some(old.gid()));
    new.set_permissions(old.permissions())?;
    new.write_all(text)?;
    new.sync_all()
}

//! Files in memory. Contracts know their bytes, and which were replaced.
ghost use Rattle.std.specs.Prelude.{◌≡◌, ◌++◌, ◌∷◌, [], map, OnErr, OnOk};
ghost use Rattle.command_line.specs.Files.{Bytes};
ghost use Rattle.caller_promises.specs.Shelf.{replaced_of};

use command_line::files::FileSystem;
use std::alloc::{AllocError, Global};
use std::io;
use std::io::ErrorKind;
use verify_command::task::Replacer;

/// Has the same file at each path.
#[derive(Clone, Copy)]
pub struct Shelf {
    pub bytes: &'static [u8],
}

impl FileSystem for Shelf {
    type Reader = &'static [u8];

    ghost at = { λ shelf _. Bytes shelf.bytes.now };

    fn open(&self, _path: &[u8]) -> io::Result<&'static [u8]> {
        Ok(self.bytes)
    }

    fn read(&self, alloc: Global, _path: &[u8]) -> Result<Vec<u8>, ErrorKind> {
        match Vec::from_slice(alloc, self.bytes) {
            Ok(contents) => Ok(contents),
            Err(_) => Err(ErrorKind::OutOfMemory),
        }
    }
}

/// A file that was replaced.
#[derive(Drop)]
pub struct Replacement {
    pub path: Vec<u8>,
    pub text: Vec<u8>,
}

/// The files that were replaced, in this order.
#[derive(Drop)]
pub struct Replacements {
    pub files: Vec<Replacement>,
}

impl Replacer for Replacements {
    ghost use Rattle.std.specs.Prelude.{◌≡◌, map};
    ghost use Rattle.caller_promises.specs.Shelf.{replaced_of};

    ghost has_replaced = { λ r replaced. map replaced_of r.files.items ≡ replaced };

    fn replace(&mut self, alloc: Global, path: &[u8], text: &[u8]) -> Result<(), ErrorKind> {
        match self.push(alloc, path, text) {
            Ok(()) => Ok(()),
            Err(_) => Err(ErrorKind::OutOfMemory),
        }
    }
}

impl Replacements {
    fn push(&mut self, alloc: Global, path: &[u8], text: &[u8]) -> Result<(), AllocError>
        ensures ok { OnOk result (map replaced_of self.new.files.items
            ≡ map replaced_of self.old.files.items ++ record { path = path.now; text = text.now } ∷ []) }
        ensures err { OnErr result (self.new.files.items ≡ self.old.files.items) }
    {
        let path = Vec::from_slice(alloc, path)?;
        let text = Vec::from_slice(alloc, text)?;
        self.files.push(Replacement { path, text })?;
        Ok(())
    }
}

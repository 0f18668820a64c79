//! Files named by the arguments.
ghost use Rattle.std.specs.Prelude.{◌≡◌, ◌⊎◌, ℕ, List, Err, IfErr, IfOk, IfSome, map};
ghost use Rattle.std.specs.IoError.{error_kind};
ghost use Rattle.command_line.specs.Failures.{IsOfFile};
ghost use Rattle.command_line.specs.Files.{AreRead, AtPath, FailsForDefault, FailsWith, Gives, IsDefault, IsOfNumber, NamesFile};
ghost use Rattle.command_line.specs.Files.{Opens, Unknown, default_path};
ghost use Rattle.mailmap_entries.specs.Texts.{texts};

use crate::failure::Failure;
use crate::streams::read_to_end;
use std::alloc::{AllocError, Global};
use std::io::{ErrorKind, Read};
use std::rt::Files;
use std::{fs, io, str};

/// Where git looks for a mailmap, in the current folder.
pub const DEFAULT_PATH: &[u8] = b".mailmap";

/// Opens and reads files by their paths. Programs use [`System`]; tests have their own.
pub trait FileSystem {
    type Reader: Read + Drop;

    // What is at each path.
    ghost at: { Self → List ℕ → AtPath };

    /// Opens a file for reading from its first byte.
    fn open(&self, path: &[u8]) -> io::Result<Self::Reader>
        ensures opened { IfOk result (λ file. Opens (at self.now path.now) (Self.Reader.remaining file)) }
        ensures failed { IfErr result (λ e. FailsWith (at self.now path.now) (error_kind e)) };

    /// Reads a file to its end. The contract of a reader lets each read fail. If the ghost member `at` says what is at
    /// the path, this fails only if no file can be opened there, or if there is too little memory.
    fn read(&self, alloc: Global, path: &[u8]) -> Result<Vec<u8>, ErrorKind>
        ensures contents { IfOk result (λ contents. Gives (at self.now path.now) contents.items) }
        ensures failed { IfErr result (λ cause. FailsWith (at self.now path.now) cause
            ⊎ (cause ≡ ErrorKind.OutOfMemory)) };
}

/// The operating system's files. Contracts know nothing about which exist or what they contain.
///
/// The toolchain can't open a path that isn't UTF-8. This is reported as `ErrorKind::InvalidData`, which has no other
/// meaning here.
#[derive(Drop)]
pub struct System<'a, F> {
    pub files: &'a F,
}

impl<F: Files> FileSystem for System<'_, F> {
    type Reader = F::File;

    ghost at = { λ _ _. Unknown };

    fn open(&self, path: &[u8]) -> io::Result<F::File> {
        match str::from_utf8(path) {
            Ok(path) => fs::open(self.files, path),
            Err(_) => Err(io::Error::from(ErrorKind::InvalidData)),
        }
    }

    fn read(&self, alloc: Global, path: &[u8]) -> Result<Vec<u8>, ErrorKind> {
        read_opened(alloc, self.open(path))
    }
}

/// Reads a file that was opened to its end. The error is what kept it from being opened or read, including too little
/// memory for its bytes.
pub fn read_opened<R: Read + Drop>(
    alloc: Global,
    opened: io::Result<R>,
) -> Result<Vec<u8>, ErrorKind>
    ensures all { IfOk result (λ contents. IfOk opened (λ file. IfSome (R.remaining file)
        (λ bytes. contents.items ≡ bytes))) }
    ensures failed { IfErr opened (λ e. result ≡ Err (error_kind e)) }
{
    match opened {
        Ok(mut file) => read_to_end(alloc, &mut file),
        Err(e) => Err(e.kind()),
    }
}

/// Reads the files, in order, and stops at the first that can't be read: it doesn't exist, is a directory, or fails
/// before its end. `Failure::Memory` means that there is no memory for the list or for a file's bytes.
pub fn read_files<F: FileSystem>(
    system: &F,
    alloc: Global,
    paths: &[Vec<u8>],
) -> Result<Vec<Vec<u8>>, Failure>
    ensures ok { IfOk result (λ contents. AreRead (F.at system.now) (texts paths.now) (texts contents.items)) }
    ensures file { IfErr result (NamesFile (F.at system.now) (texts paths.now)) }
    ensures only { IfErr result (λ e. IsOfFile e ⊎ (e ≡ Failure.Memory)) }
{
    let mut contents = Vec::new(alloc);
    for (index, path) in paths.iter().enumerate() {
        let number = index + 1;
        let file = read_file(system, alloc, path.as_slice(), number)?;
        contents.push(file)?;
    }
    Ok(contents)
}

/// Reads the file with this number, which its failure has.
pub fn read_file<F: FileSystem>(
    system: &F,
    alloc: Global,
    path: &[u8],
    number: usize,
) -> Result<Vec<u8>, Failure>
    ensures ok { IfOk result (λ contents. Gives (F.at system.now path.now) contents.items) }
    ensures err { IfErr result (IsOfNumber (F.at system.now path.now) number) }
{
    match system.read(alloc, path) {
        Ok(contents) => Ok(contents),
        Err(ErrorKind::OutOfMemory) => Err(Failure::Memory),
        Err(cause) => Err(Failure::File { number, cause }),
    }
}

/// Reads the mailmap at [`DEFAULT_PATH`], as git does: without that file there is none.
pub fn read_default<F: FileSystem>(system: &F, alloc: Global) -> Result<Vec<Vec<u8>>, Failure>
    ensures ok { IfOk result (λ contents. IsDefault (F.at system.now default_path) (texts contents.items)) }
    ensures err { IfErr result (FailsForDefault (F.at system.now default_path)) }
{
    let mut contents = Vec::new(alloc);
    match read_file(system, alloc, DEFAULT_PATH, 1) {
        Ok(file) => {
            contents.push(file)?;
            Ok(contents)
        }
        Err(
            Failure::File {
                cause: ErrorKind::NotFound,
                ..
            },
        ) => Ok(contents),
        Err(failure) => Err(failure),
    }
}

/// Borrows the contents of the files as slices.
pub fn list_of(alloc: Global, contents: &[Vec<u8>]) -> Result<Vec<&[u8]>, AllocError>
    ensures { IfOk result (λ buffers. map (λ buffer. buffer.now) buffers.items ≡ texts contents.now) }
{
    let mut buffers = Vec::new(alloc);
    for file in contents {
        buffers.push(file.as_slice())?;
    }
    Ok(buffers)
}

//! Reads from a reader, and writes a text to a writer.
ghost use Rattle.std.specs.Prelude.{◌≡◌, ◌≢◌, ◌⊎◌, ◌<◌, ◌≤◌, IfErr, IfOk, IsErrOf, IsOkUnless, OnErr, OnOk, length};
ghost use Rattle.std.specs.Prelude.{take};
ghost use Rattle.std.specs.Io.KnownBytes.{Consumes, IsAtEnd, Keeps};
ghost use Rattle.command_line.specs.Failures.{IsOfInput};
ghost use Rattle.command_line.specs.Printing.{WritesText};

use crate::failure::Failure;
use std::alloc::Global;
use std::io::{ErrorKind, Read, Write};

// The bytes per read, at most.
pub const PART: usize = 16384;

/// Reads the rest of standard input. `Failure::Memory` means that there is no memory for its bytes.
pub fn read_input<R: Read>(alloc: Global, input: &mut R) -> Result<Vec<u8>, Failure>
    ensures all { IfOk result (λ bytes. Consumes (R.remaining input.old) (R.remaining input.new) bytes.items) }
    ensures end { OnOk result (IsAtEnd (R.remaining input.new)) }
    ensures only { IfErr result (λ e. IsOfInput e ⊎ (e ≡ Failure.Memory)) }
    ensures no_memory { ¬ IsErrOf result (Failure.Input ErrorKind.OutOfMemory) }
{
    match read_to_end(alloc, input) {
        Ok(bytes) => Ok(bytes),
        Err(ErrorKind::OutOfMemory) => Err(Failure::Memory),
        Err(cause) => Err(Failure::Input { cause }),
    }
}

/// Reads the rest of a reader. The error is what kept it from being read to its end, including too little memory.
pub fn read_to_end<R: Read>(alloc: Global, reader: &mut R) -> Result<Vec<u8>, ErrorKind>
    ensures all { IfOk result (λ bytes. Consumes (R.remaining reader.old) (R.remaining reader.new) bytes.items) }
    ensures end { OnOk result (IsAtEnd (R.remaining reader.new)) }
{
    let mut bytes = Vec::new(alloc);
    match reader.read_to_end(&mut bytes) {
        Ok(_) => Ok(bytes),
        Err(e) => Err(e.kind()),
    }
}

/// Reads into the front of a buffer, and returns how many bytes. If the buffer isn't empty, 0 means the end.
///
/// Interrupted reads are repeated. On an error nothing was read.
pub fn read_part<R: Read>(reader: &mut R, buffer: &mut [u8]) -> Result<usize, Failure>
    ensures within { IfOk result (λ count. count ≤ length buffer.new) }
    ensures part { IfOk result (λ count. Consumes (R.remaining reader.old) (R.remaining reader.new)
        (take count buffer.new)) }
    ensures end { IfOk result (λ count. count ≡ 0 → 0 < length buffer.old → IsAtEnd (R.remaining reader.new)) }
    ensures err { OnErr result (Keeps (R.remaining reader.old) (R.remaining reader.new)) }
    ensures only { IfErr result IsOfInput }
    ensures repeated { ¬ IsErrOf result (Failure.Input ErrorKind.Interrupted) }
{
    for _ in 0..u64::MAX {
        match reader.read(buffer) {
            Ok(count) => return Ok(count),
            Err(e) if e.kind() == ErrorKind::Interrupted => {}
            Err(e) => return Err(Failure::Input { cause: e.kind() }),
        }
    }
    Err(endless())
}

/// The failure after more reads than any input has. Loops over reads are bounded, since they have to end.
pub fn endless() -> Failure
    ensures { result ≡ Failure.Input ErrorKind.Other }
{
    Failure::Input {
        cause: ErrorKind::Other,
    }
}

/// Writes all of a text, and flushes.
///
/// On an error, only a prefix of the text was written. `write_all` of std doesn't promise that.
pub fn write_all<W: Write>(writer: &mut W, text: &[u8]) -> Result<(), Failure>
    ensures writes { WritesText text.now W.contents writer.old writer.new result }
    ensures only { IsOkUnless result Failure.Output }
{
    write_unflushed(writer, text)?;
    flush(writer)
}

/// Writes all of a text without flushing. On an error, only a prefix of the text was written.
pub fn write_unflushed<W: Write>(writer: &mut W, text: &[u8]) -> Result<(), Failure>
    ensures writes { WritesText text.now W.contents writer.old writer.new result }
    ensures only { IsOkUnless result Failure.Output }
{
    let mut written = 0;
    for _ in 0..u64::MAX {
        if written == text.len() {
            return Ok(());
        }
        match writer.write(&text[written..]) {
            Ok(0) => return Err(Failure::Output),
            Ok(count) => written += count,
            Err(e) if e.kind() == ErrorKind::Interrupted => {}
            Err(_) => return Err(Failure::Output),
        }
    }
    Err(Failure::Output)
}

pub fn flush<W: Write>(writer: &mut W) -> Result<(), Failure>
    ensures keeps { Keeps (W.contents writer.old) (W.contents writer.new) }
    ensures only { IsOkUnless result Failure.Output }
{
    writer.flush().map_err(|_| Failure::Output)
}

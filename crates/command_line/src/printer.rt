//! Buffered output.
ghost use Rattle.std.specs.Prelude.{◌≡◌, ◌++◌, [], ℕ, IfOk, IsFalse, IsOkUnless, IsTrue, List, OnErr, OnOk};
ghost use Rattle.command_line.specs.Printing.{AppendsFront, IsUnderway, WritesText};

use crate::failure::Failure;
use crate::streams::{write_all, write_unflushed};
use std::alloc::{AllocError, Global};
use std::io::Write;
use std::marker::Model;

/// The capacity of a printer's buffer in bytes.
pub const CAPACITY: usize = 64 * 1024;

/// A buffer for small pieces of output, so that they are written together.
///
/// ```text
/// let mut printer = Printer::new(alloc)?;
/// printer.print(output, b"one line\n")?;
/// printer.print(output, b"another\n")?;
/// printer.flush(output)
/// ```
///
/// Contracts see it as the buffered bytes, which are printed but not written. Dropping the printer before it is flushed
/// loses them.
#[derive(Drop)]
pub struct Printer {
    held: Vec<u8>,
}

impl Model for Printer {
    ghost Value = { List ℕ };

    ghost view = { λ printer. printer.held.items };
}

impl Printer {
    /// Starts with an empty buffer. Allocates [`CAPACITY`] bytes; no other call allocates.
    pub fn new(alloc: Global) -> Result<Printer, AllocError>
        ensures { IfOk result (λ printer. printer ≡ []) }
    {
        Ok(Printer {
            held: Vec::with_capacity(alloc, CAPACITY)?,
        })
    }

    /// Prints a piece. If it doesn't fit into the buffer, the buffered bytes are written first; a piece longer than
    /// [`CAPACITY`] is then written directly.
    ///
    /// On an error, which is always `Failure::Output`, only a prefix of the buffered bytes and the piece was written,
    /// and the buffer is empty.
    pub fn print<W: Write>(&mut self, output: &mut W, piece: &[u8]) -> Result<(), Failure>
        ensures ok { OnOk result (IsUnderway (self.old ++ piece.now) (W.contents output.old) (W.contents output.new)
            self.new) }
        ensures err { OnErr result (AppendsFront (W.contents output.old) (W.contents output.new)
            (self.old ++ piece.now)) }
        ensures lost { OnErr result (self.new ≡ []) }
        ensures only { IsOkUnless result Failure.Output }
    {
        if self.hold(piece) {
            return Ok(());
        }
        let written = write_unflushed(output, self.held.as_slice());
        self.held.clear();
        written?;
        if self.hold(piece) {
            return Ok(());
        }
        write_unflushed(output, piece)
    }

    /// Writes the buffered bytes, and flushes the output. The buffer is empty afterwards, even after an error; then
    /// only a prefix was written.
    pub fn flush<W: Write>(&mut self, output: &mut W) -> Result<(), Failure>
        ensures writes { WritesText self.old W.contents output.old output.new result }
        ensures empty { self.new ≡ [] }
        ensures only { IsOkUnless result Failure.Output }
    {
        let written = write_all(output, self.held.as_slice());
        self.held.clear();
        written
    }

    // Buffers the piece if it fits, and returns whether it did.
    fn hold(&mut self, piece: &[u8]) -> bool
        ensures held { IsTrue result → self.new ≡ self.old ++ piece.now }
        ensures no_room { IsFalse result → self.new ≡ self.old }
    {
        // Appending within the capacity doesn't allocate, so it can't fail.
        piece.len() <= self.held.capacity() - self.held.len()
            && self.held.extend_from_slice(piece).is_ok()
    }
}

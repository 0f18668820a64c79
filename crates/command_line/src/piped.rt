//! A writer whose other end may be closed.
ghost use Rattle.std.specs.Prelude.{◌≡◌, ◌⊎◌, ◌↔◌, false, true};
ghost use Rattle.std.specs.Io.{WritesAtMost};
ghost use Rattle.std.specs.Io.KnownBytes.{Keeps, WriteAppends};
ghost use Rattle.command_line.specs.Failures.{IsBroken};

use std::io::{self, ErrorKind, Write};

/// A writer, and whether a write failed because nobody reads the pipe any more, as after `| head -1`. That is no mistake
/// to report.
#[derive(Drop)]
pub struct Piped<W> {
    pub writer: W,
    pub is_closed: bool,
}

impl<W> Piped<W> {
    pub fn new(writer: W) -> Piped<W>
        ensures writer { result.writer ≡ writer }
        ensures open { result.is_closed ≡ false }
    {
        Piped {
            writer,
            is_closed: false,
        }
    }
}

impl<W: Write> Write for Piped<W> {
    ghost contents = { λ s. W.contents s.writer };

    fn write(&mut self, buf: &[u8]) -> io::Result<usize>
        ensures bound { WritesAtMost result buf.now }
        ensures bytes { WriteAppends (W.contents self.old.writer) (W.contents self.new.writer) result buf.now }
        ensures closed { (self.new.is_closed ≡ true) ↔ ((self.old.is_closed ≡ true) ⊎ IsBroken result) }
    {
        let written = self.writer.write(buf);
        self.is_closed = self.is_closed || is_broken(&written);
        written
    }

    fn flush(&mut self) -> io::Result<()>
        ensures bytes { Keeps (W.contents self.old.writer) (W.contents self.new.writer) }
        ensures closed { (self.new.is_closed ≡ true) ↔ ((self.old.is_closed ≡ true) ⊎ IsBroken result) }
    {
        let flushed = self.writer.flush();
        self.is_closed = self.is_closed || is_broken(&flushed);
        flushed
    }
}

fn is_broken<T>(written: &io::Result<T>) -> bool
    ensures { (result ≡ true) ↔ IsBroken written.now }
{
    match written {
        Ok(_) => false,
        Err(e) => e.kind() == ErrorKind::BrokenPipe,
    }
}

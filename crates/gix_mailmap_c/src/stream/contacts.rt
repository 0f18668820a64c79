//! Buffers the answers to streamed contacts until they are read.
ghost use Rattle.std.specs.Prelude.{◌≡◌, IfOk, OnErr, OnOk};
ghost use Rattle.gix_mailmap_c.specs.Streamed.{AreTaken, HasTakenOf, IsNew, ended};

use crate::copies::copy;
use mailmap_snapshot::check::ContactStream;
use std::alloc::{AllocError, Global};
use std::marker::Model;

// A capacity above this is freed once all answers are read, so that one long answer doesn't use memory forever.
const MOST_ROOM: usize = 262144;

/// A stream of contacts, and the answers that haven't been read yet.
#[derive(Drop)]
pub struct ContactQueue {
    stream: ContactStream,
    answers: Vec<u8>,
    read: usize,
}

impl Model for ContactQueue {
    ghost use Rattle.gix_mailmap_c.specs.Streamed.{Pending};

    ghost Value = { Pending };

    ghost use Rattle.std.specs.Prelude.{◌≤◌, drop, length};

    ghost view = { λ c. record {
      mappings = c.stream.mappings;
      partial = c.stream.partial;
      unread = drop c.read c.answers.items;
    } };

    ghost invariant = { λ c. c.read ≤ length c.answers.items };
}

impl ContactQueue {
    /// A stream whose contacts are answered using a mailmap.
    pub fn new(alloc: Global, mailmap: &[u8]) -> Result<ContactQueue, AllocError>
        ensures { IfOk result (IsNew mailmap.now) }
    {
        Ok(ContactQueue {
            stream: ContactStream::new(alloc, &[mailmap])?,
            answers: Vec::new(alloc),
            read: 0,
        })
    }

    /// Takes bytes from the front of `part`, answers the lines that end in them, and returns how many bytes it took.
    pub fn push(&mut self, part: &[u8]) -> Result<usize, AllocError>
        ensures ok { IfOk result (λ taken. HasTakenOf part.now taken self.old self.new) }
        ensures err { OnErr result (self.new ≡ self.old) }
    {
        let taken = self.stream.push(part, &mut self.answers)?;
        Ok(taken.count)
    }

    /// Answers the last line, which no line feed ended.
    pub fn finish(&mut self) -> Result<(), AllocError>
        ensures ok { OnOk result (self.new ≡ ended self.old) }
        ensures err { OnErr result (self.new ≡ self.old) }
    {
        self.stream.finish_line(&mut self.answers)
    }

    /// Moves unread answers to the front of `out`, as many bytes as fit, and returns how many.
    pub fn read(&mut self, out: &mut [u8]) -> usize
        ensures { AreTaken self.old self.new out.old out.new result }
    {
        let unread = &self.answers[self.read..];
        let count = unread.len().min(out.len());
        copy(&unread[..count], out);
        self.read += count;
        if self.read == self.answers.len() {
            self.answers.clear();
            self.read = 0;
            if self.answers.capacity() > MOST_ROOM {
                self.answers.shrink_to(0);
            }
        }
        count
    }
}

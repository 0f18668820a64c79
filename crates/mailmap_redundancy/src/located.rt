//! Entries with their positions.
ghost use Rattle.std.specs.Prelude.{◌≡◌};
ghost use Rattle.std.specs.Option.{option_and_then, option_copied, option_map};
ghost use Rattle.mailmap_entries.specs.Entries.{mapping_of};
ghost use Rattle.mailmap_redundancy.specs.Summaries.{referred};

use mailmap_batches::indexed::HasEntry;
use mailmap_entries::Entry;

/// Where a line is: its buffer and its line number there.
///
/// The first line of the second of two buffers is `Position { buffer: 1, line: 1 }`. Positions are ordered by buffer,
/// then by line.
#[derive(Clone, Copy, Debug, PartialEq, Eq, PartialOrd, Ord)]
pub struct Position {
    /// The index of the buffer, from 0.
    pub buffer: usize,
    /// The line number in the buffer, from 1.
    pub line: usize,
}

/// An entry, and the position of its line.
#[derive(Clone, Copy, Debug)]
pub struct LocatedEntry<'a> {
    pub position: Position,
    pub entry: Entry<'a>,
}

impl<'a> HasEntry<'a> for LocatedEntry<'a> {
    ghost mapping = { λ x. mapping_of x.entry };

    #[inline(always)]
    fn entry(&self) -> &Entry<'a> {
        &self.entry
    }
}

// These read a field of an entry, if there is an entry.

pub(crate) fn new_name<'a>(origin: Option<&LocatedEntry<'a>>) -> Option<&'a [u8]>
    ensures { option_copied result ≡ option_and_then (λ x. x.entry.new_name) (referred origin.entry) }
{
    origin?.entry.new_name()
}

pub(crate) fn new_email<'a>(origin: Option<&LocatedEntry<'a>>) -> Option<&'a [u8]>
    ensures { option_copied result ≡ option_and_then (λ x. x.entry.new_email) (referred origin.entry) }
{
    origin?.entry.new_email()
}

pub(crate) fn old_name<'a>(origin: Option<&LocatedEntry<'a>>) -> Option<&'a [u8]>
    ensures { option_copied result ≡ option_and_then (λ x. x.entry.old_name) (referred origin.entry) }
{
    origin?.entry.old_name()
}

pub(crate) fn old_email<'a>(origin: Option<&LocatedEntry<'a>>) -> Option<&'a [u8]>
    ensures { option_copied result ≡ option_map (λ x. x.entry.old_email) (referred origin.entry) }
{
    Some(origin?.entry.old_email())
}

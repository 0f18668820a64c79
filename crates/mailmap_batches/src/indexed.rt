//! Entries with their index in a batch and the key prefix of their email.
ghost use Rattle.std.specs.Prelude.{◌≡◌};
ghost use Rattle.std.proofs.Props.{props};
ghost use Rattle.mailmap_entries.specs.Entries.{Mapping, mapping_of};
ghost use Rattle.mailmap_entries.specs.Folding.{folded};
ghost use Rattle.mailmap_entries.specs.Prefixes.{IsKeyPrefix};

use mailmap_entries::Entry;
use mailmap_entries::fold::prefix::{Prefixed, key_prefix};

/// An entry, its index in the batch before the sort, and the key prefix of its old email, which is computed once.
#[derive(Clone, Copy)]
pub struct IndexedEntry<'e, 'a> {
    pub index: usize,
    pub entry: &'e Entry<'a>,
    pub prefix: u128,
    ghost is_prefix: { IsKeyPrefix prefix (folded (mapping_of entry.now).old_email) } by { Prim.hlevel props },
}

impl<'e, 'a> IndexedEntry<'e, 'a> {
    pub(crate) fn new(index: usize, entry: &'e Entry<'a>) -> Self
        ensures index { result.index ≡ index }
        ensures entry { mapping_of result.entry.now ≡ mapping_of entry.now }
    {
        IndexedEntry {
            index,
            entry,
            prefix: key_prefix(entry.old_email()),
        }
    }

    /// The old email with its prefix.
    pub fn email(self) -> Prefixed<'a>
        ensures { result.text.now ≡ (mapping_of self.entry.entry.now).old_email }
    {
        Prefixed::with_prefix(self.entry.old_email(), self.prefix)
    }
}

/// A type that has an entry: the entry itself, or an entry with more data.
pub trait HasEntry<'a> {
    ghost mapping: { Self → Mapping };

    fn entry(&self) -> &Entry<'a>
        ensures { mapping_of result.now ≡ mapping self.now };
}

impl<'a> HasEntry<'a> for Entry<'a> {
    ghost mapping = { λ e. mapping_of e };

    #[inline(always)]
    fn entry(&self) -> &Entry<'a> {
        self
    }
}

//! Builds snapshots, and merges entries into them.
ghost use Rattle.std.specs.Prelude.{◌≡◌, ◌≢◌, [], List, map, IfOk, OnOk, OnErr};
ghost use Rattle.std.specs.Iterator.{IsFinite, Drains, Yields};
ghost use Rattle.mailmap_entries.specs.Entries.{mapping_of};
ghost use Rattle.mailmap_entries.specs.Building.{IsMerged};
ghost use Rattle.mailmap_entries.specs.Semantics.{IsNormal, accepted};
ghost use Rattle.mailmap_grammar.specs.Lines.{mappings_of};
ghost use Rattle.mailmap_entries.specs.declared.entry.Entry.{Entry as Item};

use crate::snapshot::{Snapshot, Source};
use mailmap_entries::Entry;
use std::alloc::{AllocError, Global};

impl Snapshot {
    /// Makes a snapshot of the entries in `buf`. Skips lines with a fault, which `parse` reports.
    pub fn from_bytes(alloc: Global, buf: &[u8]) -> Result<Snapshot, AllocError>
        ensures ok { IfOk result (IsNormal (mappings_of buf.now)) }

        // out of memory is reported only after an entry was accepted
        ensures out_of_memory { OnErr result (accepted (mappings_of buf.now) ≢ []) }
    {
        let mut snapshot = Snapshot::empty(alloc);
        snapshot.merge_source(&Source::Buffer(buf))?;
        Ok(snapshot)
    }

    /// Makes a snapshot of `entries`.
    pub fn new<'a, I: Iterator<Item = Entry<'a>> + Drop>(
        alloc: Global,
        entries: I,
    ) -> Result<Snapshot, AllocError>
        requires can { I.can_next entries }
        requires finite { IsFinite (I.remaining entries) }
        ensures ok { IfOk result
            (λ made. (xs : List Item) × Drains I.next_gives entries xs × IsNormal (map mapping_of xs) made) }
        ensures out_of_memory { OnErr result
            ((xs : List Item) × (rest : I) × Yields I.next_gives entries xs rest
            × (accepted (map mapping_of xs) ≢ [])) }
    {
        let mut snapshot = Snapshot::empty(alloc);
        snapshot.merge(entries)?;
        Ok(snapshot)
    }

    /// Merges `entries` after those that the snapshot has. Entries with neither a new name nor a
    /// new email have no effect.
    pub fn merge<'a, I: Iterator<Item = Entry<'a>> + Drop>(
        &mut self,
        entries: I,
    ) -> Result<(), AllocError>
        requires can { I.can_next entries }
        requires finite { IsFinite (I.remaining entries) }
        // the new entries come after the listing, and after any mappings with this normal list; if none is accepted,
        // nothing changes
        ensures ok { OnOk result
            ((xs : List Item) × Drains I.next_gives entries xs × IsMerged self.old (map mapping_of xs) self.new) }
        ensures err { OnErr result (self.new ≡ self.old) }

        // out of memory is reported only after an entry was accepted
        ensures out_of_memory { OnErr result
            ((xs : List Item) × (rest : I) × Yields I.next_gives entries xs rest
            × (accepted (map mapping_of xs) ≢ [])) }
    {
        self.tables.merge(entries)
    }
}

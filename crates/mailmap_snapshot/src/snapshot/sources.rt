//! Merges several sources. If memory runs out, a source is skipped, and this is reported.
ghost use Rattle.std.specs.Prelude.{◌≡◌, ◌≢◌, [], false, length, OnOk, OnErr};
ghost use Rattle.std.specs.List.{All};
ghost use Rattle.mailmap_entries.specs.Building.{IsMerged};
ghost use Rattle.mailmap_entries.specs.Semantics.{accepted};
ghost use Rattle.mailmap_snapshot.specs.Sources.{AreMarks, merged_mappings, source_mappings};

use crate::snapshot::Snapshot;
use mailmap_entries::Entry;
use mailmap_grammar::parse_ignore_errors;
use std::alloc::AllocError;

/// A source of entries.
#[derive(Drop)]
pub enum Source<'a> {
    /// The text of a mailmap. Lines with a fault are skipped.
    Buffer(&'a [u8]),
    /// Entries from elsewhere, such as the constructors of `Entry`.
    Entries(&'a [Entry<'a>]),
}

impl Snapshot {
    /// Merges each source after the ones before it. This always succeeds: `made` says for each source whether it was
    /// merged. If memory ran out, the source changed nothing, and the next one is merged nevertheless.
    pub fn merge_sources(&mut self, sources: &[Source<'_>], made: &mut [bool])
        requires { length sources.now ≡ length made.old }
        // the entries of the sources that are marked as made come after the listing, and after any mappings with this
        // normal list; if none of them is accepted, nothing changes
        ensures merged { IsMerged self.old (merged_mappings sources.now made.new) self.new }
        ensures none_made { All (λ is_made. is_made ≡ false) made.new → self.new ≡ self.old }

        // memory can run out only for a source with an accepted entry, so all others are marked as made
        ensures never_out_of_memory { AreMarks sources.now made.new }
        ensures marks { length made.new ≡ length made.old }
    {
        // This shows the prover the invariant of the tables: the listing is its own normal list.
        let _ = &self.tables;
        for (i, source) in sources.iter().enumerate() {
            made[i] = self.merge_source(source).is_ok();
        }
    }

    /// Merges a source after those before it. `Err` if memory runs out: then the snapshot stays as it was.
    pub fn merge_source(&mut self, source: &Source<'_>) -> Result<(), AllocError>
        ensures ok { OnOk result (IsMerged self.old (source_mappings source.now) self.new) }
        ensures err { OnErr result (self.new ≡ self.old) }
        ensures out_of_memory { OnErr result (accepted (source_mappings source.now) ≢ []) }
    {
        match source {
            Source::Buffer(buf) => self.merge(parse_ignore_errors(buf)),
            Source::Entries(entries) => self.merge(entries.iter().copied()),
        }
    }
}

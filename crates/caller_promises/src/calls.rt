//! Snapshots built by any calls that merge, and what holds for them whichever merges run out of memory.
ghost use Rattle.std.specs.Prelude.{◌≡◌, ◌≢◌, ◌++◌, [], List, IfOk, OnErr, OnOk};
ghost use Rattle.std.specs.List.{flat_map};
ghost use Rattle.gix_mailmap.specs.Building.{IsHeadline};
ghost use Rattle.gix_mailmap.specs.Entries.{Mapping};
ghost use Rattle.gix_mailmap.specs.Semantics.{IsNormal, accepted};
ghost use Rattle.gix_mailmap.specs.Sources.{AreMarks, IsMarked, merged_mappings, source_mappings};
ghost use Rattle.mailmap_snapshot.specs.declared.snapshot.sources.Source.{Source as AnySource};
ghost use Rattle.caller_promises.specs.Calls.{sources_of};

use gix_mailmap::Snapshot;
use gix_mailmap::laws::{law_condense, law_headline, law_reorder, law_shortest};
use gix_mailmap::snapshot::Source;
use std::alloc::{AllocError, Global};

/// A call that merges.
#[derive(Clone, Copy)]
pub enum Call<'a> {
    /// `merge_source`.
    Merge(&'a Source<'a>),
    /// `merge_sources`.
    MergeSources(&'a [Source<'a>]),
    /// `merge` of what `iter` lists of a snapshot of one source, made by `from_bytes` or `new`.
    MergeSnapshot(&'a Source<'a>),
}

/// A snapshot, and for each source of all calls whether it was merged.
#[derive(Drop)]
pub struct Built {
    pub snapshot: Snapshot,
    pub made: Vec<bool>,
}

/// Builds a snapshot by calls. A source whose merge runs out of memory is skipped. Fails if there is no memory for the
/// marks.
pub fn build(alloc: Global, calls: &[Call<'_>]) -> Result<Built, AllocError>
    ensures headline { IfOk result
        (λ built. IsHeadline (merged_mappings (flat_map sources_of calls.now) built.made.items) built.snapshot) }
    ensures marks { IfOk result (λ built. AreMarks (flat_map sources_of calls.now) built.made.items) }
{
    law_headline();
    let mut snapshot = Snapshot::empty(alloc);
    let mut made = Vec::new(alloc);
    for call in calls {
        make(alloc, &mut snapshot, call, &mut made)?;
    }
    Ok(Built { snapshot, made })
}

// Makes a call, and marks which of its sources were merged.
fn make(
    alloc: Global,
    snapshot: &mut Snapshot,
    call: &Call<'_>,
    made: &mut Vec<bool>,
) -> Result<(), AllocError>
    ensures { (sources : List AnySource) → IsMarked [] sources made.old.items snapshot.old
        → OnOk result (IsMarked [] (sources ++ sources_of call.now) made.new.items snapshot.new) }
{
    match call {
        Call::Merge(source) => Ok(made.push(snapshot.merge_source(source).is_ok())?),
        Call::MergeSources(sources) => {
            let mut marks = vec![in alloc; false; sources.len()]?;
            snapshot.merge_sources(sources, marks.as_mut_slice());
            made.extend_from_slice(marks.as_slice())?;
            Ok(())
        }
        Call::MergeSnapshot(source) => {
            Ok(made.push(merge_snapshot(alloc, snapshot, source).is_ok())?)
        }
    }
}

fn merge_snapshot(
    alloc: Global,
    snapshot: &mut Snapshot,
    source: &Source<'_>,
) -> Result<(), AllocError>
    ensures ok { OnOk result ((h : List Mapping) → IsNormal h snapshot.old
        → IsNormal (h ++ source_mappings source.now) snapshot.new) }
    ensures err { OnErr result (snapshot.new ≡ snapshot.old) }
    ensures out_of_memory { OnErr result (accepted (source_mappings source.now) ≢ []) }
{
    law_condense();
    law_reorder();
    law_shortest();
    let apart = snapshot_of(alloc, source)?;
    snapshot.merge(apart.iter())
}

fn snapshot_of(alloc: Global, source: &Source<'_>) -> Result<Snapshot, AllocError>
    ensures ok { IfOk result (IsNormal (source_mappings source.now)) }
    ensures out_of_memory { OnErr result (accepted (source_mappings source.now) ≢ []) }
{
    match source {
        Source::Buffer(buf) => Snapshot::from_bytes(alloc, buf),
        Source::Entries(entries) => Snapshot::new(alloc, entries.iter().copied()),
    }
}

//! Merges, and what refused ones leave.

use crate::call::Call;
use crate::run::{Run, Wrong};
use crate::samples::{name, named};
use crate::values::{build, clone};
use mailmap_entries::Entry;
use mailmap_snapshot::Snapshot;
use mailmap_snapshot::snapshot::Source;
use std::alloc::Global;

/// Merges entries in each way that there is, and sources.
pub fn judge(run: &mut Run, alloc: Global, team: &Snapshot) {
    build_anew(run, alloc, team);
    put_few(run, alloc);
    put_one(run, alloc);
    merge_sources(run, alloc);
}

// Builds new tables: there is a new email, and a known one with an overridden field, an overridden name and a new name.
fn build_anew(run: &mut Run, alloc: Global, team: &Snapshot) {
    let later = [
        name(b"Ann", b"ann@example.com"),
        name(b"Joseph", b"BUGS@example.com"),
        named(b"jd@example.com", b"JANE", b"bugs@example.com"),
        named(b"bob@example.com", b"Bob", b"bugs@example.com"),
    ];
    merge(run, alloc, Call::Merge, team, &later);
}

// Puts a few entries into a copy of the tables: a new name and a new email, before existing emails.
fn put_few(run: &mut Run, alloc: Global) {
    let three = [
        name(b"Ann", b"a@x"),
        name(b"Bob", b"b@x"),
        name(b"Cid", b"c@x"),
    ];
    let two = [named(b"anna@x", b"Anna", b"A@x"), name(b"Abe", b"aa@x")];
    if let Some(stood) = build(run, alloc, &three) {
        merge(run, alloc, Call::MergeFew, &stood, &two);
    }
}

static LONG: [u8; 3_000] = [b'N'; 3_000];

static LONGER: [u8; 9_000] = [b'N'; 9_000];

// Puts a single entry into the tables. It replaces a text by one so long that the tables are built anew after it, if
// there is memory for that.
fn put_one(run: &mut Run, alloc: Global) {
    if let Some(worn) = build(run, alloc, &[name(&LONG, b"a")]) {
        merge(run, alloc, Call::MergeOne, &worn, &[name(&LONGER, b"a")]);
    }
}

// Merges entries into a copy of a snapshot. If the merge is refused, the copy must stay as it was.
fn merge(run: &mut Run, alloc: Global, call: Call, snapshot: &Snapshot, entries: &[Entry<'_>]) {
    if let Some(mut copy) = clone(run, alloc, snapshot) {
        if !accepts(&mut copy, entries) {
            run.refuse(call);
            run.ensure(copy == *snapshot, Wrong::Change(call));
            run.ensure(accepts(&mut copy, entries), Wrong::Want(call));
        }
    }
}

/// Merges entries, if there is memory.
pub fn accepts(snapshot: &mut Snapshot, entries: &[Entry<'_>]) -> bool {
    snapshot.merge(entries.iter().copied()).is_ok()
}

// Merges three sources. The one in the middle has no entry, so it is always merged.
fn merge_sources(run: &mut Run, alloc: Global) {
    let sources = [
        Source::Buffer(b"N <a@x>"),
        Source::Buffer(b""),
        Source::Buffer(b"M <a@x>"),
    ];
    let mut snapshot = Snapshot::empty(alloc);
    let mut made = [false; 3];
    snapshot.merge_sources(&sources, &mut made);
    judge_sources(run, &snapshot, made);
}

// The last source that was merged must have named the email.
fn judge_sources(run: &mut Run, snapshot: &Snapshot, made: [bool; 3]) {
    match made {
        [true, true, true] if lists_only(snapshot, b"M") => (),
        [false, true, true] if lists_only(snapshot, b"M") => run.refuse(Call::FirstSource),
        [true, true, false] if lists_only(snapshot, b"N") => run.refuse(Call::ThirdSource),
        _ => run.ensure(false, Wrong::Change(Call::MergeSources)),
    }
}

// Whether a snapshot lists just this name for `a@x`.
fn lists_only(snapshot: &Snapshot, new_name: &[u8]) -> bool {
    lists(snapshot, &[name(new_name, b"a@x")])
}

/// Whether a snapshot lists just these entries.
pub fn lists(snapshot: &Snapshot, entries: &[Entry<'_>]) -> bool {
    snapshot.iter().eq(entries.iter().copied())
}

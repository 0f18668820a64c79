//! The calls that could allocate, and don't. This program allocates right before and right after them. In the run that
//! refuses the allocation after them, each of these calls is made when the next allocation will be refused. If one of
//! them allocated, it would be refused in some run, but no run has its refusal in between.
//!
//! Parsing, comparing and cutting texts, and signatures that borrow, have no allocator.

use crate::call::Call;
use crate::merges::{accepts, lists};
use crate::run::{Request, Run, Wrong};
use crate::samples::{FAULTY, JANE, NOBODY, TEAM, name, named, team};
use crate::values::{
    build, clone, explain_mailmaps, read_mailmaps, resolve_jane, snapshot_of, verify_mailmaps,
};
use mailmap_entries::Entry;
use mailmap_entries::fold::Steps;
use mailmap_findings::explain::Explanations;
use mailmap_findings::verify::{Findings, Mailmaps, prune, verify};
use mailmap_snapshot::actor::SignatureRef;
use mailmap_snapshot::snapshot::{Source, WriteError};
use mailmap_snapshot::{Snapshot, actor};
use std::alloc::Global;
use std::hash::{DefaultHasher, Hash};

/// Makes the last allocations before these calls, and then the calls.
pub fn judge(run: &mut Run, alloc: Global, team: &Snapshot) {
    if let Some(respelled) = build(run, alloc, &[named(b"n@y", b"Jane", b"x@y")]) {
        judge_jane(run, alloc, team);
        let succeeded = looks_up(team)
            && finds_nothing(team, NOBODY, alloc)
            && finds_nothing(&respelled, OTHER, alloc)
            && has_no_line(alloc);
        run.ensure(succeeded, Wrong::Want(Call::NoMemory));
    }
}

/// A signature whose email has an entry, but only for another name.
const OTHER: SignatureRef<'static> = SignatureRef {
    name: b"Bob",
    email: b"x@y",
    time: "5 +0000",
};

fn judge_jane(run: &mut Run, alloc: Global, team: &Snapshot) {
    if let Some(jane) = resolve_jane(run, alloc, team) {
        judge_mailmaps(run, alloc, team);
        let succeeded = actor::Signature::from_cow(alloc, jane).is_ok();
        run.ensure(succeeded, Wrong::Want(Call::NoMemory));
    }
}

fn judge_mailmaps(run: &mut Run, alloc: Global, team: &Snapshot) {
    let buffers: [&[u8]; 2] = [TEAM, FAULTY];
    if let Some(mailmaps) = read_mailmaps(run, alloc, &buffers) {
        judge_verification(run, alloc, team, &mailmaps);
    }
}

fn judge_verification(run: &mut Run, alloc: Global, team: &Snapshot, mailmaps: &Mailmaps<'_, '_>) {
    if let Some(verification) = verify_mailmaps(run, alloc, mailmaps) {
        judge_explanations(run, alloc, team, mailmaps);
        run.ensure(
            walks(&mut verification.findings()),
            Wrong::Want(Call::NoMemory),
        );
    }
}

fn judge_explanations(run: &mut Run, alloc: Global, team: &Snapshot, mailmaps: &Mailmaps<'_, '_>) {
    if let Some(explanations) = explain_mailmaps(run, alloc, mailmaps) {
        accept_and_write_nothing(run, alloc, team);
        run.ensure(explains(&explanations), Wrong::Want(Call::NoMemory));
    }
}

fn explains(explanations: &Explanations<'_, '_>) -> bool {
    explanations.of(JANE.name, JANE.email).is_some()
        && explanations.needs(JANE.name, JANE.email).first.is_some()
}

// Builds and merges nothing, and fails to write a snapshot with an entry that no line can hold, between two requests.
fn accept_and_write_nothing(run: &mut Run, alloc: Global, team: &Snapshot) {
    if let Some(mut copy) = clone(run, alloc, team) {
        judge_copy(run, alloc, &mut copy);
    }
}

fn judge_copy(run: &mut Run, alloc: Global, copy: &mut Snapshot) {
    let entries = [
        name(b"N", b"a@x"),
        Entry::change_email_by_email(b"n>y", b"b@x"),
    ];
    if let Some(unwritable) = build(run, alloc, &entries) {
        run.judge(alloc, Call::AheadOfNothing, &mut Request);
        let succeeded = builds_nothing(alloc)
            && merges_nothing(copy)
            && writes_nothing(alloc, &unwritable);
        run.ensure(succeeded, Wrong::Want(Call::Nothing));
        run.judge(alloc, Call::AfterNothing, &mut Request);
    }
}

fn builds_nothing(alloc: Global) -> bool {
    snapshot_of(alloc, &[Entry::default()]).is_ok() && Snapshot::from_bytes(alloc, b"plain").is_ok()
}

fn merges_nothing(snapshot: &mut Snapshot) -> bool {
    let sources = [Source::Buffer(b"plain"), Source::Entries(&[])];
    let mut made = [false; 2];
    snapshot.merge_sources(&sources, &mut made);
    made == [true, true] && accepts(snapshot, &[Entry::default()])
}

fn writes_nothing(alloc: Global, unwritable: &Snapshot) -> bool {
    unwritable.write(alloc) == Err(WriteError::Unwritable { place: 1 })
}

fn looks_up(snapshot: &Snapshot) -> bool {
    let entries = team();
    let mut steps = Steps::new();
    snapshot.hash(&mut DefaultHasher::new());
    snapshot.try_resolve_ref(JANE).is_some()
        && snapshot
            .try_resolve_contact(JANE.name, JANE.email)
            .is_some()
        && snapshot.try_resolve_ref_counted(JANE, &mut steps).is_some()
        && lists(snapshot, &entries)
        && snapshot.len() == entries.len()
        && *snapshot == *snapshot
}

// Goes over the five findings.
fn walks(findings: &mut Findings<'_, '_>) -> bool {
    finds(findings)
        && finds(findings)
        && finds(findings)
        && finds(findings)
        && finds(findings)
        && !finds(findings)
}

fn finds(findings: &mut Findings<'_, '_>) -> bool {
    findings.next().is_some()
}

fn finds_nothing(snapshot: &Snapshot, signature: SignatureRef<'_>, alloc: Global) -> bool {
    let Ok(kept) = snapshot.resolve_cow(alloc, signature) else {
        return false;
    };
    snapshot.try_resolve(alloc, signature) == Ok(None) && kept.try_clone(alloc).is_ok()
}

// Buffers without lines have no findings, and pruning them leaves nothing.
fn has_no_line(alloc: Global) -> bool {
    verify(alloc, &[b"", b""]).is_ok() && prune(alloc, b"").is_ok()
}

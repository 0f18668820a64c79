//! Values that other calls are made on. Each is made again if its call ran out of memory.

use crate::call::Call;
use crate::run::Run;
use crate::samples::{HISTORY, JANE, TEAM};
use mailmap_contacts::counter::{ContactCounter, Contacts};
use mailmap_entries::Entry;
use mailmap_findings::explain::Explanations;
use mailmap_findings::verify::{Mailmaps, Verification};
use mailmap_snapshot::Snapshot;
use mailmap_snapshot::check::ContactStream;
use mailmap_snapshot::snapshot::Signature;
use std::alloc::{AllocError, Global};

/// A snapshot of some entries.
pub fn build(run: &mut Run, alloc: Global, entries: &[Entry<'_>]) -> Option<Snapshot> {
    match snapshot_of(alloc, entries) {
        Ok(made) => Some(made),
        Err(_) => run.repeated(Call::New, snapshot_of(alloc, entries)),
    }
}

pub fn snapshot_of(alloc: Global, entries: &[Entry<'_>]) -> Result<Snapshot, AllocError> {
    Snapshot::new(alloc, entries.iter().copied())
}

/// A copy of a snapshot.
pub fn clone(run: &mut Run, alloc: Global, snapshot: &Snapshot) -> Option<Snapshot> {
    match snapshot.try_clone(alloc) {
        Ok(made) => Some(made),
        Err(_) => run.repeated(Call::TryClone, snapshot.try_clone(alloc)),
    }
}

/// A signature whose texts are mapped.
pub fn resolve_jane(run: &mut Run, alloc: Global, team: &Snapshot) -> Option<Signature<'static>> {
    match team.resolve_cow(alloc, JANE) {
        Ok(made) => Some(made),
        Err(_) => run.repeated(Call::ResolveCow, team.resolve_cow(alloc, JANE)),
    }
}

/// A stream that answers with the team's mailmap.
pub fn open_stream(run: &mut Run, alloc: Global) -> Option<ContactStream> {
    match ContactStream::new(alloc, &[TEAM]) {
        Ok(made) => Some(made),
        Err(_) => run.repeated(Call::NewStream, ContactStream::new(alloc, &[TEAM])),
    }
}

/// The contacts of a history.
pub fn count_contacts(run: &mut Run, alloc: Global) -> Option<Contacts> {
    match counted(alloc) {
        Ok(made) => Some(made),
        Err(_) => run.repeated(Call::CountContacts, counted(alloc)),
    }
}

fn counted(alloc: Global) -> Result<Contacts, AllocError> {
    let mut counter = ContactCounter::new(alloc)?;
    for line in &HISTORY {
        counter.add_line(line)?;
    }
    counter.into_contacts()
}

/// Mailmaps that are read.
pub fn read_mailmaps<'b, 'a>(
    run: &mut Run,
    alloc: Global,
    buffers: &'b [&'a [u8]],
) -> Option<Mailmaps<'b, 'a>> {
    match Mailmaps::read(alloc, buffers) {
        Ok(made) => Some(made),
        Err(_) => run.repeated(Call::ReadMailmaps, Mailmaps::read(alloc, buffers)),
    }
}

/// The verification of these mailmaps.
pub fn verify_mailmaps<'m, 'a>(
    run: &mut Run,
    alloc: Global,
    mailmaps: &'m Mailmaps<'_, 'a>,
) -> Option<Verification<'m, 'a>> {
    match Verification::new(alloc, mailmaps) {
        Ok(made) => Some(made),
        Err(_) => run.repeated(Call::Verification, Verification::new(alloc, mailmaps)),
    }
}

/// The explanations of their answers.
pub fn explain_mailmaps<'m, 'a>(
    run: &mut Run,
    alloc: Global,
    mailmaps: &'m Mailmaps<'_, 'a>,
) -> Option<Explanations<'m, 'a>> {
    match Explanations::new(alloc, mailmaps) {
        Ok(made) => Some(made),
        Err(_) => run.repeated(Call::Explanations, Explanations::new(alloc, mailmaps)),
    }
}

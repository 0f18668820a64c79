//! The calls whose values are dropped at once, and whether each answers what it does with ample memory.

use crate::call::Call;
use crate::run::Subject;
use crate::samples::{
    ANSWERS, CONTACTS, FAULTY, JANE, JANE_DOE, NOBODY, PARTS, TEAM, WRITTEN, team,
};
use mailmap_findings::needs::unneeded;
use mailmap_findings::verify::{prune, verify};
use mailmap_snapshot::actor::SignatureRef;
use mailmap_snapshot::check::{self, ContactStream};
use mailmap_snapshot::snapshot::WriteError;
use mailmap_snapshot::{Snapshot, actor};
use std::alloc::{AllocError, Global};

/// A snapshot that these calls are made on. None of them changes it.
#[derive(Clone, Copy)]
pub struct Shared<'a>(pub &'a Snapshot);

impl Subject for Shared<'_> {
    fn make(&mut self, alloc: Global, call: Call) -> Result<bool, AllocError> {
        match call {
            Call::FromBytes => is_read(alloc, self.0),
            Call::Entries => is_listed(alloc, self.0),
            Call::TryClone => is_cloned(alloc, self.0),
            Call::Write => is_written(alloc, self.0),
            Call::TryResolve => is_mapped(alloc, self.0),
            Call::Resolve => is_resolved(alloc, self.0, JANE, JANE_DOE),
            Call::ResolveNothing => is_resolved(alloc, self.0, NOBODY, NOBODY),
            Call::FromCow => is_owned(alloc),
            Call::Check => is_answered(alloc),
            Call::Compact => is_compacted(alloc),
            Call::Stream => is_streamed(alloc),
            Call::Verify => is_verified(alloc),
            Call::Prune => is_pruned(alloc),
            Call::Unneeded => has_unneeded(alloc),
            _ => Ok(false),
        }
    }
}

fn is_read(alloc: Global, team: &Snapshot) -> Result<bool, AllocError> {
    Ok(Snapshot::from_bytes(alloc, TEAM)? == *team)
}

fn is_listed(alloc: Global, snapshot: &Snapshot) -> Result<bool, AllocError> {
    Ok(snapshot.entries(alloc)?.as_slice() == team().as_slice())
}

fn is_cloned(alloc: Global, team: &Snapshot) -> Result<bool, AllocError> {
    Ok(team.try_clone(alloc)? == *team)
}

fn is_written(alloc: Global, team: &Snapshot) -> Result<bool, AllocError> {
    match team.write(alloc) {
        Ok(text) => Ok(text.as_slice() == WRITTEN),
        Err(WriteError::Unwritable { .. }) => Ok(false),
        Err(WriteError::Memory(error)) => Err(error),
    }
}

fn is_mapped(alloc: Global, team: &Snapshot) -> Result<bool, AllocError> {
    match team.try_resolve(alloc, JANE)? {
        Some(found) => Ok(owns(&found, JANE_DOE)),
        None => Ok(false),
    }
}

fn is_resolved(
    alloc: Global,
    team: &Snapshot,
    asked: SignatureRef<'_>,
    wanted: SignatureRef<'_>,
) -> Result<bool, AllocError> {
    Ok(owns(&team.resolve(alloc, asked)?, wanted))
}

fn is_owned(alloc: Global) -> Result<bool, AllocError> {
    Ok(owns(&actor::Signature::from_cow(alloc, NOBODY.into())?, NOBODY))
}

// Whether a signature has the texts and the time of another one.
fn owns(signature: &actor::Signature, wanted: SignatureRef<'_>) -> bool {
    signature.name.as_slice() == wanted.name
        && signature.email.as_slice() == wanted.email
        && signature.time == wanted.time().unwrap_or_default()
}

fn is_answered(alloc: Global) -> Result<bool, AllocError> {
    Ok(check::check(alloc, &[TEAM], CONTACTS)?.as_slice() == ANSWERS)
}

fn is_compacted(alloc: Global) -> Result<bool, AllocError> {
    Ok(check::compact(alloc, &[TEAM])?.as_slice() == WRITTEN)
}

fn is_streamed(alloc: Global) -> Result<bool, AllocError> {
    let mut text = Vec::new(alloc);
    stream_parts(ContactStream::new(alloc, &[TEAM])?, &mut text)?;
    Ok(text.as_slice() == ANSWERS)
}

fn stream_parts(stream: ContactStream, text: &mut Vec<u8>) -> Result<(), AllocError> {
    let mut stream = stream;
    push_parts(&mut stream, text)?;
    stream.finish(text)
}

fn push_parts(stream: &mut ContactStream, text: &mut Vec<u8>) -> Result<(), AllocError> {
    for part in &PARTS {
        let _taken = stream.push(part, text)?;
    }
    Ok(())
}

// The findings, the pruned mailmap and the unneeded lines are not looked at.
fn is_verified(alloc: Global) -> Result<bool, AllocError> {
    let _findings = verify(alloc, &[TEAM, FAULTY])?;
    Ok(true)
}

fn is_pruned(alloc: Global) -> Result<bool, AllocError> {
    let _mailmap = prune(alloc, FAULTY)?;
    Ok(true)
}

fn has_unneeded(alloc: Global) -> Result<bool, AllocError> {
    let _lines = unneeded(alloc, &[TEAM, FAULTY], CONTACTS)?;
    Ok(true)
}

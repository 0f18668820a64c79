//! Each call that resolves a signature answers as a plain scan of the merged entries does.
ghost use Rattle.std.specs.Prelude.{List, IfOk};
ghost use Rattle.gix_mailmap.specs.Building.{IsHeadline};
ghost use Rattle.gix_mailmap.specs.Entries.{Mapping};
ghost use Rattle.caller_promises.specs.Answers.{AreLookups, AreSignatures};

use gix_mailmap::actor::SignatureRef;
use gix_mailmap::fold::Steps;
use gix_mailmap::snapshot::{ResolvedSignature, Signature};
use gix_mailmap::{Snapshot, actor};
use std::alloc::{AllocError, Global};

/// The answers of the lookups for a signature.
#[derive(Drop)]
pub struct Lookups<'s> {
    pub found: Option<ResolvedSignature<'s>>,
    /// From the lookup that takes a name and an email.
    pub of_contact: Option<ResolvedSignature<'s>>,
    pub counted: Option<ResolvedSignature<'s>>,
    /// The number of comparisons that the counted lookup made.
    pub comparisons: usize,
}

/// The results of the calls that resolve a signature.
#[derive(Drop)]
pub struct Signatures<'a> {
    /// `None` if nothing is mapped.
    pub changed: Option<actor::Signature>,
    pub owned: actor::Signature,
    pub copied_on_write: Signature<'a>,
}

/// Looks up a signature with each call that does so.
pub fn look_up<'s>(snapshot: &'s Snapshot, signature: SignatureRef<'_>) -> Lookups<'s>
    ensures { (h : List Mapping) → IsHeadline h snapshot.now → AreLookups h snapshot.now signature.entry result }
{
    let mut steps = Steps::new();
    let counted = snapshot.try_resolve_ref_counted(signature, &mut steps);
    Lookups {
        found: snapshot.try_resolve_ref(signature),
        of_contact: snapshot.try_resolve_contact(signature.name, signature.email),
        counted,
        comparisons: steps.count(),
    }
}

/// Resolves a signature with each call that does so.
pub fn resolve<'a>(
    alloc: Global,
    snapshot: &Snapshot,
    signature: SignatureRef<'a>,
) -> Result<Signatures<'a>, AllocError>
    ensures { (h : List Mapping) → IsHeadline h snapshot.now → IfOk result (AreSignatures h signature.entry) }
{
    Ok(Signatures {
        changed: snapshot.try_resolve(alloc, signature)?,
        owned: snapshot.resolve(alloc, signature)?,
        copied_on_write: snapshot.resolve_cow(alloc, signature)?,
    })
}

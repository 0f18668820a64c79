//! Signatures with mapped names and emails, owned or copied on write.
ghost use Rattle.std.specs.Prelude.{◌≡◌, ◌↔◌, List, IsSome, IfOk, IfSome, MatchOption, OnErr};
ghost use Rattle.std.specs.Cow.{cow_slice_items, IsOwnedSlice};
ghost use Rattle.std.specs.Option.{option_copied};
ghost use Rattle.mailmap_snapshot.specs.SignatureFields.{owned_fields, cow_fields};
ghost use Rattle.mailmap_snapshot.specs.Answers.{signature_answer, IsResolved, OwnsMapped, IsEnriched, OwnsJust};
ghost use Rattle.mailmap_entries.specs.Entries.{Mapping};
ghost use Rattle.mailmap_entries.specs.Semantics.{IsNormal};
ghost use Rattle.mailmap_snapshot.specs.Signatures.{resolved_fields};

use crate::actor;
use crate::actor::SignatureRef;
use crate::snapshot::{ResolvedSignature, Signature, Snapshot};
use std::alloc::{AllocError, Global};
use std::borrow::CowSlice;

/// Resolving signatures: names and emails that the mailmap maps are replaced, and others stay as they are. A time that
/// can't be parsed becomes the default time.
///
/// Contracts state each answer twice: by the entries of the snapshot, and by any entries whose merge gives these, such
/// as all that were merged, in order.
impl Snapshot {
    /// Resolves the signature. `None` if the mailmap maps neither its name nor its email.
    ///
    /// That is so if there is no entry for the email, or only entries for other names and the mailmap spells the email
    /// as the signature does. If the email differs from the mailmap's spelling only in the case of its letters, it is
    /// mapped to that spelling. This runs out of memory only if something is mapped.
    ///
    /// ```rust
    /// let mailmap = Snapshot::from_bytes(alloc, b"Jane Doe <jane@x> <jd@y>")?;
    /// let author = SignatureRef { name: b"jd", email: b"jd@y", time: "1711398853 +0800" };
    /// if let Some(proper) = mailmap.try_resolve(alloc, author)? {
    ///     assert_eq!(rt; proper.name.as_slice(), b"Jane Doe".as_slice());
    ///     assert_eq!(rt; proper.email.as_slice(), b"jane@x".as_slice());
    /// }
    /// ```
    pub fn try_resolve(
        &self,
        alloc: Global,
        signature: SignatureRef<'_>,
    ) -> Result<Option<actor::Signature>, AllocError>
        // `None` exactly if nothing is mapped
        ensures none { (result ≡ Ok None) ↔ (signature_answer self.now signature.entry ≡ None) }
        ensures some { IfOk result
            (λ answer. IfSome answer (λ s. IsResolved self.now signature.entry (owned_fields s))) }
        // memory runs out only if something is mapped
        ensures out_of_memory { OnErr result (IsSome (signature_answer self.now signature.entry)) }
        // all this holds for any mappings with this normal list
        ensures history_none { (h : List Mapping) → IsNormal h self.now → (result ≡ Ok None)
            ↔ (signature_answer h signature.entry ≡ None) }
        ensures history_some { (h : List Mapping) → IsNormal h self.now →
            IfOk result (λ answer. IfSome answer (λ s. IsResolved h signature.entry (owned_fields s))) }
    {
        match self.try_resolve_ref(signature) {
            Some(found) => {
                let enriched = enriched_signature(alloc, signature, found)?;
                Ok(Some(actor::Signature::from_cow(alloc, enriched)?))
            }
            None => Ok(None),
        }
    }

    /// Resolves the signature. Returns a copy of `signature` if nothing is mapped.
    ///
    /// ```rust
    /// let mailmap = Snapshot::from_bytes(alloc, b"Jane Doe <jane@x> <jd@y>")?;
    /// let author = SignatureRef { name: b"Bob", email: b"bob@z", time: "1711398853 +0800" };
    /// let proper = mailmap.resolve(alloc, author)?;
    /// assert_eq!(rt; proper.name.as_slice(), b"Bob".as_slice());
    /// assert_eq!(rt; proper.time.seconds, 1711398853);
    /// ```
    pub fn resolve(
        &self,
        alloc: Global,
        signature: SignatureRef<'_>,
    ) -> Result<actor::Signature, AllocError>
        ensures view { IfOk result (λ s. IsResolved self.now signature.entry (owned_fields s)) }
        // this holds for any mappings with this normal list
        ensures history { (h : List Mapping) → IsNormal h self.now
            → IfOk result (λ s. IsResolved h signature.entry (owned_fields s)) }
    {
        match self.try_resolve(alloc, signature)? {
            Some(resolved) => Ok(resolved),
            None => actor::Signature::from_cow(alloc, signature.into()),
        }
    }

    /// Resolves the signature, and copies only what changes: mapped texts are owned, the others borrow from
    /// `signature`.
    ///
    /// If nothing is mapped, both texts are borrowed, and this can't run out of memory. Use it to show many signatures
    /// of which the mailmap changes few:
    ///
    /// ```rust
    /// let mailmap = Snapshot::from_bytes(alloc, b"Jane Doe <jd@y>")?;
    /// let author = SignatureRef { name: b"jd", email: b"jd@y", time: "1711398853 +0800" };
    /// let proper = mailmap.resolve_cow(alloc, author)?;
    /// assert_eq!(rt; proper.name.as_slice(), b"Jane Doe".as_slice());
    /// assert!(rt; matches!(proper.email, CowSlice::Borrowed(_)));
    /// ```
    pub fn resolve_cow<'a>(
        &self,
        alloc: Global,
        signature: SignatureRef<'a>,
    ) -> Result<Signature<'a>, AllocError>
        ensures view { IfOk result (λ s. IsResolved self.now signature.entry (cow_fields s)) }
        ensures owned { IfOk result (OwnsMapped self.now signature.entry) }
        // memory runs out only if something is mapped
        ensures out_of_memory { OnErr result (IsSome (signature_answer self.now signature.entry)) }
        // this holds for any mappings with this normal list
        ensures history { (h : List Mapping) → IsNormal h self.now
            → IfOk result (λ s. IsResolved h signature.entry (cow_fields s)) }
        ensures history_owned { (h : List Mapping) → IsNormal h self.now → IfOk result (OwnsMapped h signature.entry) }
    {
        match self.try_resolve_ref(signature) {
            Some(found) => enriched_signature(alloc, signature, found),
            None => Ok(signature.into()),
        }
    }
}

/// The signature, with copies of the fields that a lookup found in place of its own.
fn enriched_signature<'a>(
    alloc: Global,
    signature: SignatureRef<'a>,
    found: ResolvedSignature<'_>,
) -> Result<Signature<'a>, AllocError>
    ensures fields { IfOk result (λ s. IsEnriched (resolved_fields found.entry) signature.entry (cow_fields s)) }
    ensures owned { IfOk result (OwnsJust (resolved_fields found.entry)) }
{
    let Signature { name, email, time } = signature.into();
    Ok(Signature {
        email: mapped(alloc, found.email, email)?,
        name: mapped(alloc, found.name, name)?,
        time,
    })
}

// A copy of the new text, or without one the signature's own.
fn mapped<'a>(
    alloc: Global,
    new: Option<&[u8]>,
    own: CowSlice<'a, u8>,
) -> Result<CowSlice<'a, u8>, AllocError>
    ensures { IfOk result (λ text. MatchOption (option_copied new.entry) (text ≡ own.entry)
        (λ t. (cow_slice_items text ≡ t) × IsOwnedSlice text)) }
{
    match new {
        Some(text) => Ok(CowSlice::Owned(Vec::from_slice(alloc, text)?)),
        None => Ok(own),
    }
}

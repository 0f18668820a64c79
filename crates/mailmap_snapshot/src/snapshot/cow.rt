//! Signatures that own only the texts that were mapped, and borrow the others.
ghost use Rattle.std.specs.Prelude.{◌≡◌, ◌⊎◌, IfOk, OnErr};
ghost use Rattle.std.specs.Cow.{cow_slice_items, IsOwnedSlice, IsBorrowedSlice};
ghost use Rattle.mailmap_snapshot.specs.SignatureFields.{owned_fields, cow_fields, empty_fields, BorrowsBoth};
ghost use Rattle.mailmap_snapshot.specs.SignatureFields.{BorrowsTextsOf, HasOwnershipOf};

use crate::actor;
use crate::actor::SignatureRef;
use crate::date::Time;
use std::alloc::{AllocError, Global};
use std::borrow::CowSlice;

/// A signature like [`actor::Signature`] that copies only what changed: a mapped text is owned, and a text that stayed
/// as it was is borrowed from the signature that was looked up.
///
/// Signatures are ordered by name, email and time. Comparisons and hashes depend on the bytes of the texts, owned or
/// borrowed. The default has two empty borrowed texts and the default time.
#[derive(PartialEq, Eq, PartialOrd, Ord, Hash, Debug, Drop)]
pub struct Signature<'a> {
    /// The name, mapped or unchanged.
    pub name: CowSlice<'a, u8>,
    /// The email, mapped or unchanged, without its brackets.
    pub email: CowSlice<'a, u8>,
    /// The time of the signature.
    pub time: Time,
}

impl Default for Signature<'_> {
    ghost is_default = { λ s. (cow_fields s ≡ empty_fields) × BorrowsBoth s };

    fn default() -> Self {
        Signature {
            name: CowSlice::Borrowed(&[]),
            email: CowSlice::Borrowed(&[]),
            time: Time::default(),
        }
    }
}

/// Borrows the texts, and parses the time. A time that can't be parsed becomes the default time.
impl<'a> From<SignatureRef<'a>> for Signature<'a> {
    ghost from_gives = { BorrowsTextsOf };

    fn from(signature: SignatureRef<'a>) -> Self {
        Signature {
            name: CowSlice::Borrowed(signature.name),
            email: CowSlice::Borrowed(signature.email),
            time: signature.time_or_default(),
        }
    }
}

impl<'a> Signature<'a> {
    /// A copy of the signature, in which a text is owned if it is owned here.
    ///
    /// Only owned texts need memory, so copying a signature with two borrowed texts always succeeds.
    pub fn try_clone(&self, alloc: Global) -> Result<Signature<'a>, AllocError>
        ensures equal { IfOk result (λ copy. cow_fields copy ≡ cow_fields self.now) }
        ensures name { IfOk result (λ copy. HasOwnershipOf self.now.name copy.name) }
        ensures email { IfOk result (λ copy. HasOwnershipOf self.now.email copy.email) }
        ensures out_of_memory { OnErr result (IsOwnedSlice self.now.name ⊎ IsOwnedSlice self.now.email) }
    {
        Ok(Signature {
            name: clone_text(alloc, &self.name)?,
            email: clone_text(alloc, &self.email)?,
            time: self.time,
        })
    }
}

impl actor::Signature {
    /// Makes a signature that owns its texts.
    ///
    /// Only borrowed texts need memory, so this can't fail if both texts are owned. If it fails, the signature is
    /// dropped.
    pub fn from_cow(alloc: Global, s: Signature<'_>) -> Result<actor::Signature, AllocError>
        ensures same { IfOk result (λ owned. owned_fields owned ≡ cow_fields s.entry) }
        ensures out_of_memory { OnErr result (IsBorrowedSlice s.entry.name ⊎ IsBorrowedSlice s.entry.email) }
    {
        Ok(actor::Signature {
            name: s.name.into_owned(alloc)?,
            email: s.email.into_owned(alloc)?,
            time: s.time,
        })
    }
}

fn clone_text<'a>(alloc: Global, text: &CowSlice<'a, u8>) -> Result<CowSlice<'a, u8>, AllocError>
    ensures equal { IfOk result (λ copy. cow_slice_items copy ≡ cow_slice_items text.now) }
    ensures held { IfOk result (HasOwnershipOf text.now) }
    ensures out_of_memory { OnErr result (IsOwnedSlice text.now) }
{
    match text {
        CowSlice::Borrowed(lent) => Ok(CowSlice::Borrowed(*lent)),
        CowSlice::Owned(owned) => Ok(CowSlice::Owned(Vec::from_slice(alloc, owned)?)),
    }
}

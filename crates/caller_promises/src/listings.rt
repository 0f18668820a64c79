//! The calls that list, copy and compare snapshots, by the merged entries.
ghost use Rattle.std.specs.Prelude.{◌≡◌, ◌↔◌, ◌++◌, IfOk, List, true};
ghost use Rattle.gix_mailmap.specs.Building.{IsHeadline};
ghost use Rattle.gix_mailmap.specs.Entries.{Mapping};
ghost use Rattle.gix_mailmap.specs.Folding.{Text};
ghost use Rattle.gix_mailmap.specs.Semantics.{IsNormal, accepted, of_email};
ghost use Rattle.caller_promises.specs.Listings.{AreListings};

use gix_mailmap::laws::law_unique;
use gix_mailmap::{Entry, Snapshot};
use std::alloc::{AllocError, Global};

/// What the calls that list a snapshot return.
#[derive(Drop)]
pub struct Listings<'s> {
    /// The items of `iter`.
    pub iterated: Vec<Entry<'s>>,
    pub entries: Vec<Entry<'s>>,
    pub len: usize,
}

/// Lists a snapshot with each call that does so.
pub fn list(alloc: Global, snapshot: &Snapshot) -> Result<Listings<'_>, AllocError>
    ensures { (h : List Mapping) → IsHeadline h snapshot.now → IfOk result (AreListings h) }
{
    let iterated = snapshot.iter().collect(alloc)?;
    let entries = snapshot.entries(alloc)?;
    Ok(Listings {
        iterated,
        entries,
        len: snapshot.len(),
    })
}

/// Copies a snapshot. All that holds for it holds for the copy.
pub fn copy(alloc: Global, snapshot: &Snapshot) -> Result<Snapshot, AllocError>
    ensures { (h : List Mapping) → IsHeadline h snapshot.now → IfOk result (IsHeadline h) }
{
    snapshot.try_clone(alloc)
}

/// Whether two snapshots are equal: exactly if the entries merged into one have the normal list of those merged into
/// the other. So they are if any part of the accepted entries was replaced by the listing of a snapshot of that part,
/// or if entries with different emails were reordered.
pub fn are_equal(one: &Snapshot, other: &Snapshot) -> bool
    ensures exactly { (h g : List Mapping) → IsHeadline h one.now → IsHeadline g other.now
        → (result ≡ true) ↔ ((n : List Mapping) → IsNormal h n ↔ IsNormal g n) }
    ensures condensed { (h a b c m : List Mapping) → IsHeadline h one.now → accepted h ≡ a ++ b ++ c → IsNormal b m
        → IsHeadline (a ++ m ++ c) other.now → result ≡ true }
    ensures reordered { (h g : List Mapping) → IsHeadline h one.now → IsHeadline g other.now
        → ((email : Text) → of_email g email ≡ of_email h email) → result ≡ true }
{
    law_unique();
    *one == *other
}

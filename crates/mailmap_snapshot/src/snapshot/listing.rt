//! The listing of a snapshot, and what depends only on it: equality, the hash, the debug text and a copy.
ghost use Rattle.std.specs.Prelude.{◌≡◌, ◌↔◌, length, map, IsTrue, IfOk};
ghost use Rattle.mailmap_entries.specs.Entries.{mapping_of};
ghost use Rattle.mailmap_entries.specs.Building.{IsListing};
ghost use Rattle.mailmap_tables.specs.Groups.{listing};

use crate::snapshot::Snapshot;
use mailmap_entries::Entry;
pub use mailmap_tables::listing::Iter;
use std::alloc::{AllocError, Global};
use std::fmt;
use std::hash::{Hash, Hasher};

impl Snapshot {
    /// Iterates over entries that together map what the snapshot maps, one for each key: for each old email, if it has
    /// fields for all names, and for each old name with it.
    ///
    /// They are in ascending order of the old emails, and for each email of the old names, both without regard to the
    /// case of ASCII letters. An email's entry for all names comes first. All entries of an email have the stored
    /// spelling of it. Their texts borrow from the snapshot. Allocates nothing.
    pub fn iter(&self) -> Iter<'_>
        ensures listing { result ≡ self.now }

        // whatever was merged, the listing is its own normal list
        ensures own { IsListing self.now }
    {
        Iter::new(self.tables.view())
    }

    /// The number of entries that [`iter`](Snapshot::iter()) yields. Counts them all, and allocates nothing.
    pub fn len(&self) -> usize
        ensures { result ≡ length self.now }
    {
        // no listing has more entries than the tables have rows, so the count can't overflow
        let _rows = self.tables.view().row_count();
        self.iter().count()
    }

    /// The entries of [`iter`](Snapshot::iter()) in a vector. `Err` if memory runs out.
    pub fn entries(&self, alloc: Global) -> Result<Vec<Entry<'_>>, AllocError>
        ensures listing { IfOk result (λ v. map mapping_of v.items ≡ self.now) }

        // whatever was merged, the listing is its own normal list
        ensures own { IsListing self.now }
    {
        self.iter().collect(alloc)
    }

    /// An equal snapshot that shares nothing with this one. `Err` if memory runs out.
    pub fn try_clone(&self, alloc: Global) -> Result<Snapshot, AllocError>
        ensures { IfOk result (λ s. s ≡ self.now) }
    {
        Ok(Snapshot {
            tables: self.tables.try_clone(alloc)?,
        })
    }
}

impl PartialEq for Snapshot {
    ghost use Rattle.std.specs.Prelude.{◌≡◌, ◌↔◌, IsTrue};
    ghost use Rattle.mailmap_entries.specs.Listings.{same_entries};
    ghost use Rattle.mailmap_entries.proofs.EqualListings.{partly_equal_entries};

    ghost eq = { same_entries };

    ghost laws = { partly_equal_entries };

    /// Whether the listings are equal. It doesn't matter how the snapshots were built.
    #[tactic(auto, using(mailmap_entries::proofs::EqualListings::entries_decide))]
    fn eq(&self, other: &Snapshot) -> bool
        ensures value { result ≡ same_entries self.now other.now }
        ensures same { IsTrue result ↔ (self.now ≡ other.now) }
    {
        let mut others = other.iter();
        for entry in self.iter() {
            match others.next() {
                Some(found) if found == entry => {}
                _ => return false,
            }
        }
        others.next().is_none()
    }
}

impl Eq for Snapshot {
    ghost use Rattle.mailmap_entries.proofs.EqualListings.{equal_entries};

    ghost laws = { equal_entries };
}

impl Hash for Snapshot {
    ghost use Rattle.mailmap_entries.specs.Listings.{entries_hashed};
    ghost use Rattle.mailmap_entries.proofs.EqualListings.{equal_hashes};

    ghost hash_input = { entries_hashed };

    ghost respects_eq = { equal_hashes };

    fn hash<H: Hasher>(&self, state: &mut H) {
        for entry in self.iter() {
            entry.hash(state);
        }
    }
}

impl fmt::Debug for Snapshot {
    fn fmt<W: fmt::Write>(&self, f: &mut fmt::Formatter<W>) -> fmt::Result {
        f.debug_list().entries(self.iter()).finish()
    }
}

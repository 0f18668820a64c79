//! Any snapshot, however it was built, is rebuilt by its entries, and its text parses to an equal one.
ghost use Rattle.std.specs.Prelude.{◌≡◌, Err, IfOk, List, ℕ};
ghost use Rattle.std.specs.List.{All, flat_map};
ghost use Rattle.gix_mailmap.specs.CanonicalText.{IsWritable, canonical_text};
ghost use Rattle.gix_mailmap.specs.Entries.{Mapping};
ghost use Rattle.gix_mailmap.specs.Folding.{Text};
ghost use Rattle.gix_mailmap.specs.Lines.{mappings_of};
ghost use Rattle.gix_mailmap.specs.Semantics.{IsNormal};
ghost use Rattle.mailmap_snapshot.specs.declared.snapshot.text.WriteError.TheVariants.{Unwritable};

use gix_mailmap::Snapshot;
use gix_mailmap::laws::{law_own_entries, law_text, law_unique};
use gix_mailmap::snapshot::WriteError;
use std::alloc::{AllocError, Global};

/// A snapshot of the entries that another lists. Both are equal.
pub fn rebuilt(alloc: Global, snapshot: &Snapshot) -> Result<Snapshot, AllocError>
    ensures { IfOk result (λ again. again ≡ snapshot.now) }
{
    law_unique();
    let entries = snapshot.entries(alloc)?;
    Snapshot::new(alloc, entries.iter().copied())
}

/// Merges the entries of a copy into a snapshot, which stays equal, also if memory runs out.
pub fn merge_copied(alloc: Global, snapshot: &mut Snapshot) -> Result<(), AllocError>
    ensures { snapshot.new ≡ snapshot.old }
{
    law_unique();
    law_own_entries();
    let copy = snapshot.try_clone(alloc)?;
    let entries = copy.entries(alloc)?;
    snapshot.merge(entries.iter().copied())
}

/// A snapshot of the text that another is written as. Both are equal.
pub fn read_back(alloc: Global, snapshot: &Snapshot) -> Result<Snapshot, WriteError>
    ensures { IfOk result (λ again. again ≡ snapshot.now) }
{
    law_unique();
    law_text();
    let text = snapshot.write(alloc)?;
    Ok(Snapshot::from_bytes(alloc, text.as_slice())?)
}

/// The text of a snapshot. Another snapshot with this text is equal. A snapshot is unwritable exactly if no buffers build
/// an equal one.
pub fn written(alloc: Global, snapshot: &Snapshot) -> Result<Vec<u8>, WriteError>
    ensures distinct { (other : List Mapping) → IsNormal other other → All IsWritable other
        → IfOk result (λ text. text.items ≡ canonical_text other → snapshot.now ≡ other) }
    ensures built { IfOk result (λ text. IsNormal (mappings_of text.items) snapshot.now) }
    ensures unwritable { (place : ℕ) → result ≡ Err (Unwritable place)
        → (buffers : List Text) → IsNormal (flat_map mappings_of buffers) snapshot.now → ⊥ }
{
    law_text();
    snapshot.write(alloc)
}

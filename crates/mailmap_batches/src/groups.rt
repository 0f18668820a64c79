//! Groups in a sorted batch: the entries for one email, which are neighbours.
ghost use Rattle.std.specs.Prelude.{◌≢◌, ◌<◌, ◌≤◌, All, Contains, IsTrue, ◌↔◌, ◌≡◌, length, slice_index_or, take};
ghost use Rattle.mailmap_batches.specs.Batches.{folded_email_at};
ghost use Rattle.mailmap_batches.specs.declared.indexed.IndexedEntry.{IndexedEntry as SpecEntry};

use crate::indexed::IndexedEntry;
use mailmap_entries::fold::prefix::compare_after_prefix;

// Whether the old emails of two entries are equal. Those of most neighbours differ in their prefixes, and most of the
// others are spelled the same.
fn have_same_email(a: IndexedEntry<'_, '_>, b: IndexedEntry<'_, '_>) -> bool
    ensures { IsTrue result ↔ (folded_email_at a.entry ≡ folded_email_at b.entry) }
{
    let (email, other) = (a.entry.old_email(), b.entry.old_email());
    a.prefix == b.prefix && (email == other || compare_after_prefix(email, other).is_eq())
}

/// The number of entries at the start with the old email of the first entry.
pub fn email_group_len(batch: &[IndexedEntry<'_, '_>]) -> usize
    requires { 0 < length batch.now }
    ensures some { 0 < result }
    ensures within { result ≤ length batch.now }
    ensures same { (d : SpecEntry) → All (λ p. folded_email_at p ≡ folded_email_at (slice_index_or batch.now 0 d))
        (take result batch.now) }
    ensures other { (d : SpecEntry) → result < length batch.now
        → folded_email_at (slice_index_or batch.now result d) ≢ folded_email_at (slice_index_or batch.now 0 d) }
{
    let first = batch[0];
    for i in 1..batch.len() {
        if !have_same_email(batch[i], first) {
            return i;
        }
    }
    batch.len()
}

/// The entry that came first before the sort.
pub fn earliest<'e, 'a>(batch: &[IndexedEntry<'e, 'a>]) -> IndexedEntry<'e, 'a>
    requires { 0 < length batch.now }
    ensures among { Contains batch.now result }
    ensures least { All (λ p. result.index ≤ p.index) batch.now }
{
    match batch.iter().min_by_key(|indexed| indexed.index) {
        Some(first) => *first,
        None => unreachable!(),
    }
}

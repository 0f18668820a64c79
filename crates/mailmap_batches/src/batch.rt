//! A stable sort of entries by key.
//!
//! First the entries are sorted by the prefixes of their emails, unless these ascend already, as in a mailmap that is
//! sorted by email. A prefix is the first sixteen bytes of a text as a number, as `key_prefix` makes it. Emails whose
//! prefixes differ are in the order of these, so only a run of entries with the same prefix is then compared by texts.
ghost use Rattle.std.specs.Prelude.{◌≡◌, ◌<◌, ◌≤◌, ◌-◌, [], IfOk, OnOk, length, map, slice_index_or};
ghost use Rattle.std.specs.Option.{option_cmp, option_copied, option_map};
ghost use Rattle.std.specs.List.{enumerate_from};
ghost use Rattle.std.specs.List.Sorted.{IsNonDecreasingBy};
ghost use Rattle.mailmap_entries.specs.Folding.{folded, text_cmp};
ghost use Rattle.mailmap_entries.specs.Semantics.{key_cmp};
ghost use Rattle.mailmap_batches.specs.Batches.{IsSorted, IsSortedFrom, KeepsOrder, email_prefix, indexed_mapping, key_at};
ghost use Rattle.mailmap_batches.specs.Batches.{name_prefix};
ghost use Rattle.mailmap_batches.specs.declared.indexed.IndexedEntry.{IndexedEntry as SpecEntry};

use crate::groups::email_group_len;
use crate::indexed::{HasEntry, IndexedEntry};
use mailmap_entries::fold::cmp_ignore_ascii_case;
use mailmap_entries::fold::prefix::key_prefix;
use std::alloc::{AllocError, Global};
use std::cmp::Ordering;

/// The entries in ascending order of their keys. Accepted entries with equal keys keep their order.
pub fn sorted<'e, 'a, T: HasEntry<'a>>(
    alloc: Global,
    entries: &'e [T],
) -> Result<Vec<IndexedEntry<'e, 'a>>, AllocError>
    ensures { IfOk result (λ batch. IsSorted (map T.mapping entries.now) (map indexed_mapping batch.items)) }
{
    // before the sort frees its buffer: what glibc allocates after that goes back to the system only as a whole
    let sorted = Vec::with_capacity(alloc, entries.len())?;
    let mut batch = sorted_by_prefix(indexed(alloc, entries)?)?;
    sorted_runs(alloc, &mut batch, sorted)
}

fn indexed<'e, 'a, T: HasEntry<'a>>(
    alloc: Global,
    entries: &'e [T],
) -> Result<Vec<IndexedEntry<'e, 'a>>, AllocError>
    ensures { IfOk result (λ batch. map indexed_mapping batch.items ≡ enumerate_from 0 (map T.mapping entries.now)) }
{
    let mut batch = Vec::with_capacity(alloc, entries.len())?;
    for (index, item) in entries.iter().enumerate() {
        batch.push(IndexedEntry::new(index, item.entry()))?;
    }
    Ok(batch)
}

fn email_prefix(indexed: &IndexedEntry) -> u128
    ensures { result ≡ email_prefix indexed.now }
{
    indexed.prefix
}

// The entries in the order of their prefixes. If they are in it already, as in a mailmap that is sorted by email, this
// takes no memory.
fn sorted_by_prefix<'e, 'a>(
    mut batch: Vec<IndexedEntry<'e, 'a>>,
) -> Result<Vec<IndexedEntry<'e, 'a>>, AllocError>
    ensures kept { IfOk result (λ sorted. KeepsOrder batch.entry.items sorted.items) }
    ensures ascending { IfOk result (λ sorted. IsNonDecreasingBy email_prefix sorted.items) }
{
    if batch.is_sorted_by_key(email_prefix) {
        return Ok(batch);
    }
    batch.sort_by_key(email_prefix)?;
    Ok(batch)
}

// Sorts entries by key that are in the order of their prefixes already, and copies them. No contract says what a vector
// has after a slice of it was changed, if its elements borrow.
fn sorted_runs<'e, 'a>(
    alloc: Global,
    batch: &mut [IndexedEntry<'e, 'a>],
    mut sorted: Vec<IndexedEntry<'e, 'a>>,
) -> Result<Vec<IndexedEntry<'e, 'a>>, AllocError>
    requires ascending { IsNonDecreasingBy email_prefix batch.old }
    requires empty { sorted.items ≡ [] }
    ensures { IfOk result (λ made. IsSortedFrom batch.old made.items) }
{
    sort_runs(alloc, batch)?;
    sorted.extend_from_slice(batch)?;
    Ok(sorted)
}

// Sorts them in place, run by run.
fn sort_runs(alloc: Global, batch: &mut [IndexedEntry<'_, '_>]) -> Result<(), AllocError>
    requires { IsNonDecreasingBy email_prefix batch.old }
    ensures { OnOk result (IsSortedFrom batch.old batch.new) }
{
    let mut start = 0;
    while start < batch.len() {
        let end = run_end(batch, start);
        sort_run(alloc, &mut batch[start..end])?;
        start = end;
    }
    Ok(())
}

// The index after the run of entries with the prefix of the entry at an index. As prefixes ascend, none is smaller.
fn run_end(entries: &[IndexedEntry], start: usize) -> usize
    requires { start < length entries.now }
    ensures after { start < result }
    ensures within { result ≤ length entries.now }
    ensures greater { (d : SpecEntry) → result < length entries.now
        → email_prefix (slice_index_or entries.now (result - 1) d) < email_prefix (slice_index_or entries.now result d) }
{
    let (len, prefix) = (entries.len(), prefix_at(entries, start));
    let mut end = start + 1;
    while end < len && prefix_at(entries, end) <= prefix {
        end += 1;
    }
    end
}

fn prefix_at(entries: &[IndexedEntry], index: usize) -> u128
    requires { index < length entries.now }
    ensures { (d : SpecEntry) → result ≡ email_prefix (slice_index_or entries.now index d) }
{
    email_prefix(at(entries, index))
}

// An element, with the one equation about it that the proofs of all callers use.
fn at<T>(entries: &[T], index: usize) -> &T
    requires { index < length entries.now }
    ensures { result.now ≡ slice_index_or entries.now index result.now }
{
    &entries[index]
}

// The standard library sorts so few entries by insertion alone.
const FEW: usize = 20;

// Sorts many entries by the prefixes of their old names, so that few texts are compared after it.
fn sort_name_prefixes(alloc: Global, run: &mut [IndexedEntry<'_, '_>]) -> Result<(), AllocError>
    ensures { KeepsOrder run.old run.new }
{
    if run.len() <= FEW {
        return Ok(());
    }
    run.sort_by_cached_key(alloc, name_prefix)
}

// The prefix of an old name, 0 if there is none.
fn name_prefix(indexed: &IndexedEntry) -> u128
    ensures { result ≡ name_prefix indexed.now }
{
    let name = indexed.entry.old_name().unwrap_or(&[]);
    key_prefix(name)
}

// Sorts entries by key. If all have the same email, as most with the same prefix do, only their names are compared.
fn sort_run(alloc: Global, run: &mut [IndexedEntry<'_, '_>]) -> Result<(), AllocError>
    requires { 0 < length run.old }
    ensures { OnOk result (IsSortedFrom run.old run.new) }
{
    if run.len() == 1 {
        return Ok(());
    }
    sort_name_prefixes(alloc, run)?;
    if email_group_len(run) == run.len() {
        return run.sort_by(alloc, compare_old_names);
    }
    run.sort_by(alloc, compare_keys)
}

// Compares keys: the old emails, then the old names.
fn compare_keys(a: &IndexedEntry, b: &IndexedEntry) -> Ordering
    ensures { result ≡ key_cmp (key_at a.now) (key_at b.now) }
{
    match cmp_ignore_ascii_case(a.entry.old_email(), b.entry.old_email()) {
        Ordering::Equal => compare_old_names(a, b),
        unequal => unequal,
    }
}

fn compare_old_names(a: &IndexedEntry, b: &IndexedEntry) -> Ordering
    ensures { result ≡ option_cmp text_cmp (key_at a.now).1 (key_at b.now).1 }
{
    compare_names(a.entry.old_name(), b.entry.old_name())
}

/// Compares names without the case of ASCII letters. A missing one comes first.
pub fn compare_names(a: Option<&[u8]>, b: Option<&[u8]>) -> Ordering
    ensures { result ≡ option_cmp text_cmp (option_map folded (option_copied a.entry))
        (option_map folded (option_copied b.entry)) }
{
    match (a, b) {
        (None, None) => Ordering::Equal,
        (None, Some(_)) => Ordering::Less,
        (Some(_), None) => Ordering::Greater,
        (Some(a), Some(b)) => cmp_ignore_ascii_case(a, b),
    }
}

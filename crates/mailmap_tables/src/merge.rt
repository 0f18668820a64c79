//! Merges entries into tables.
ghost use Rattle.std.specs.Prelude.{◌≡◌, ◌≢◌, ◌++◌, ◌∷◌, [], All, List, IfOk, None, OnErr, OnOk, length, map};
ghost use Rattle.std.specs.Prelude.{◌<◌, ◌≤◌, drop, take, true};
ghost use Rattle.std.specs.Iterator.{IsFinite, Drains, Yields};
ghost use Rattle.mailmap_entries.specs.Alike.{Alike};
ghost use Rattle.mailmap_entries.specs.Entries.{Mapping, mapping_of};
ghost use Rattle.mailmap_entries.specs.Folding.{Text};
ghost use Rattle.mailmap_entries.specs.declared.entry.Entry.{Entry as Item};
ghost use Rattle.mailmap_entries.specs.Semantics.{IsNormal, accepted, is_accepted};
ghost use Rattle.mailmap_batches.specs.Batches.{IsSorted, indexed_mapping, mapping_at};
ghost use Rattle.mailmap_tables.specs.Groups.{AreGroups, listing};
ghost use Rattle.mailmap_tables.specs.Put.{AreAccepted, Represent, with_old_email};

use crate::listing::Iter;
use crate::tables::Tables;
use mailmap_batches::batch::sorted;
use mailmap_batches::groups::{earliest, email_group_len};
use mailmap_batches::indexed::IndexedEntry;
use mailmap_entries::fold::prefix::Prefixed;
use mailmap_entries::{Entry, entry_of};
use std::alloc::{AllocError, Global};

// With more entries, moving the rows of large tables for each entry costs more than building new tables.
const MOST_ONE_BY_ONE: usize = 16;

impl Tables {
    /// Appends the accepted entries of an iterator to those that the tables represent. One entry is put into the
    /// tables, for programs that add entries one by one. For more, a changed copy or new tables replace these. If
    /// memory runs out, the entries of the tables stay as they were.
    pub fn merge<'a, I: Iterator<Item = Entry<'a>> + Drop>(
        &mut self,
        entries: I,
    ) -> Result<(), AllocError>
        requires can { I.can_next entries }
        requires finite { IsFinite (I.remaining entries) }
        requires groups { AreGroups self.old.groups }
        ensures groups { AreGroups self.new.groups }
        ensures ok { OnOk result ((xs : List Item) × Drains I.next_gives entries xs
            × IsNormal (listing self.old.groups ++ map mapping_of xs) (listing self.new.groups)) }
        ensures err { OnErr result (self.new.groups ≡ self.old.groups) }

        // out of memory is reported only after an entry was accepted
        ensures out_of_memory { OnErr result
            ((xs : List Item) × (rest : I) × Yields I.next_gives entries xs rest
            × (accepted (map mapping_of xs) ≢ [])) }
    {
        let alloc = self.allocator();
        let batch = accepted_of(alloc, entries)?;
        if batch.is_empty() {
            return Ok(());
        }
        self.merge_accepted(batch)?;
        self.drop_unused();
        Ok(())
    }

    // Does what `merge` does, for entries that are accepted.
    fn merge_accepted(&mut self, entries: Vec<Entry<'_>>) -> Result<(), AllocError>
        requires groups { AreGroups self.old.groups }
        requires accepted { AreAccepted (map mapping_of entries.items) }
        ensures ok { OnOk result
            (Represent (listing self.old.groups ++ map mapping_of entries.entry.items) self.new.groups) }
        ensures err { OnErr result (self.new.groups ≡ self.old.groups) }
    {
        if let [entry] = entries.as_slice() {
            self.put(Prefixed::new(entry.old_email()), entry)?;
            return Ok(());
        }
        let alloc = self.allocator();
        *self = joined(alloc, self, entries)?;
        Ok(())
    }

    // Rebuilds the tables if the pool has become more than twice as long as it was when they were built. Otherwise
    // merges that replace texts would let it grow without bound. Without memory for that, the tables stay as they are.
    fn drop_unused(&mut self)
        requires { AreGroups self.old.groups }
        ensures groups { AreGroups self.new.groups }
        ensures same { listing self.new.groups ≡ listing self.old.groups }
    {
        if self.is_twice_as_built() {
            let alloc = self.allocator();
            if let Ok(rebuilt) = rebuilt(alloc, self) {
                *self = rebuilt;
            }
        }
    }
}

// The accepted entries of an iterator.
fn accepted_of<'a, I: Iterator<Item = Entry<'a>> + Drop>(
    alloc: Global,
    entries: I,
) -> Result<Vec<Entry<'a>>, AllocError>
    requires can { I.can_next entries }
    requires finite { IsFinite (I.remaining entries) }
    ensures ok { IfOk result (λ batch. (xs : List Item) × Drains I.next_gives entries xs
        × (map mapping_of batch.items ≡ accepted (map mapping_of xs))) }

    // out of memory is reported only after an entry was accepted
    ensures out_of_memory { OnErr result
        ((xs : List Item) × (rest : I) × Yields I.next_gives entries xs rest × (accepted (map mapping_of xs) ≢ [])) }
{
    let mut batch = Vec::new(alloc);
    for entry in entries {
        if has_new_name_or_email(&entry) {
            batch.push(entry)?;
        }
    }
    Ok(batch)
}

// Whether the entry is accepted: it has a new name or a new email.
fn has_new_name_or_email(entry: &Entry) -> bool
    ensures { result ≡ is_accepted (mapping_of entry.now) }
{
    entry.new_name().is_some() || entry.new_email().is_some()
}

// New tables with these entries after those of the existing ones.
fn joined<'a>(
    alloc: Global,
    existing_tables: &'a Tables,
    entries: Vec<Entry<'a>>,
) -> Result<Tables, AllocError>
    requires groups { AreGroups existing_tables.now.groups }
    requires accepted { AreAccepted (map mapping_of entries.items) }
    ensures { IfOk result (λ made.
        Represent (listing existing_tables.now.groups ++ map mapping_of entries.entry.items) made.groups) }
{
    let rows = existing_tables.view().row_count();
    if rows == 0 {
        return built(alloc, &entries);
    }
    if entries.len() <= MOST_ONE_BY_ONE.min(rows) {
        return put_each(existing_tables.try_clone(alloc)?, &entries);
    }
    let mut all = listed(alloc, existing_tables)?;
    all.extend_from_slice(&entries)?;
    drop(entries);
    built(alloc, &all)
}

// Tables with the same listing, and a pool without unused bytes.
fn rebuilt(alloc: Global, tables: &Tables) -> Result<Tables, AllocError>
    requires { AreGroups tables.now.groups }
    ensures { IfOk result (λ made. AreGroups made.groups × (listing made.groups ≡ listing tables.now.groups)) }
{
    built(alloc, &listed(alloc, tables)?)
}

fn listed(alloc: Global, tables: &Tables) -> Result<Vec<Entry<'_>>, AllocError>
    ensures { IfOk result (λ v. map mapping_of v.items ≡ listing tables.now.groups) }
{
    Iter::new(tables.view()).collect(alloc)
}

// Tables of these entries.
fn built(alloc: Global, entries: &[Entry<'_>]) -> Result<Tables, AllocError>
    requires { AreAccepted (map mapping_of entries.now) }
    ensures { IfOk result (λ made. Represent (map mapping_of entries.now) made.groups) }
{
    let mut batch = sorted(alloc, entries)?;
    let mut tables = Tables::new(alloc);
    tables.reserve(batch.len(), texts_len(entries))?;
    put_groups(&mut tables, &mut batch)?;
    Ok(tables.as_newly_built())
}

// Puts the entries of a sorted batch into empty tables, email by email. The batch is freed meanwhile, since the tables
// take as much memory.
fn put_groups(tables: &mut Tables, batch: &mut Vec<IndexedEntry<'_, '_>>) -> Result<(), AllocError>
    requires empty { tables.old.groups ≡ [] }
    requires sorted { (xs : List Mapping) × AreAccepted xs × IsSorted xs (map indexed_mapping batch.old.items) }
    ensures { (xs : List Mapping) → AreAccepted xs → IsSorted xs (map indexed_mapping batch.old.items)
        → OnOk result (Represent xs tables.new.groups) }
{
    let mut start = 0;
    while start < batch.len() {
        let left = &batch[start..];
        let len = email_group_len(left);
        let group = &left[..len];
        put_group(tables, earliest(group).email(), group)?;
        start = free_first(batch, start + len);
    }
    Ok(())
}

// Frees so many entries at the front once they are more than half of the batch, so that fewer are moved than it had at
// first. Returns where the others begin.
fn free_first(batch: &mut Vec<IndexedEntry<'_, '_>>, count: usize) -> usize
    requires { count ≤ length batch.old.items }
    ensures within { result ≤ length batch.new.items }
    ensures others { drop result batch.new.items ≡ drop count batch.old.items }
{
    let len = batch.len() - count;
    if count <= len {
        return count;
    }
    batch.copy_within(count.., 0);
    batch.truncate(len);
    batch.shrink_to_fit();
    0
}

// The number of bytes in the texts of entries, at most `usize::MAX`.
fn texts_len(entries: &[Entry<'_>]) -> usize {
    let mut len: usize = 0;
    for entry in entries {
        len = len.saturating_add(entry_len(entry));
    }
    len
}

fn entry_len(entry: &Entry<'_>) -> usize {
    let (name, email) = (
        entry.new_name().unwrap_or(&[]),
        entry.new_email().unwrap_or(&[]),
    );
    let new_len = name.len().saturating_add(email.len());
    let old_name = entry.old_name().unwrap_or(&[]);
    let old_len = old_name.len().saturating_add(entry.old_email().len());
    new_len.saturating_add(old_len)
}

// Puts the entries for one email into tables, with this spelling of it.
fn put_group(
    tables: &mut Tables,
    email: Prefixed<'_>,
    group: &[IndexedEntry<'_, '_>],
) -> Result<(), AllocError>
    requires groups { AreGroups tables.old.groups }
    requires some { 0 < length group.now }
    requires accepted { All (λ p. is_accepted (mapping_at p) ≡ true) group.now }
    ensures { OnOk result (Represent
        (listing tables.old.groups ++ map (λ p. with_old_email email.entry.text.now (mapping_at p)) group.now) tables.new.groups) }
{
    if let [only] = group {
        tables.put(email, only.entry)?;
        return Ok(());
    }
    let (start, count) = combined_start(group);
    let index = tables.put(email, &start)?;
    for i in count..group.len() {
        tables.put_at(index, email.text, group[i].entry)?;
    }
    Ok(())
}

// The entries without an old name, which come first, as one, and their number; if there are none, the first entry and 1.
// Put one by one, each would copy the texts that it leaves as they are into the pool again.
fn combined_start<'a>(group: &[IndexedEntry<'_, 'a>]) -> (Entry<'a>, usize)
    requires some { 0 < length group.now }
    requires accepted { All (λ p. is_accepted (mapping_at p) ≡ true) group.now }
    ensures some { 0 < result.1 }
    ensures within { result.1 ≤ length group.now }
    ensures accepted { is_accepted (mapping_of result.0) ≡ true }
    ensures alike { (spelling : Text)
        → Alike (map (λ p. with_old_email spelling (mapping_at p)) (take result.1 group.now))
        (with_old_email spelling (mapping_of result.0) ∷ []) }
{
    let mut start = *group[0].entry;
    for i in 1..group.len() {
        let next = group[i].entry;
        if start.old_name().is_some() || next.old_name().is_some() {
            return (start, i);
        }
        start = combined(&start, next);
    }
    (start, group.len())
}

// Two entries without an old name as one: what the second doesn't give, the first does.
fn combined<'a>(first: &Entry<'a>, second: &Entry<'a>) -> Entry<'a>
    requires accepted { AreAccepted (mapping_of first.now ∷ mapping_of second.now ∷ []) }
    requires first_unnamed { (mapping_of first.now).old_name ≡ None }
    requires second_unnamed { (mapping_of second.now).old_name ≡ None }
    ensures accepted { is_accepted (mapping_of result) ≡ true }
    ensures alike { (spelling : Text) → Alike
        (with_old_email spelling (mapping_of first.now) ∷ with_old_email spelling (mapping_of second.now) ∷ [])
        (with_old_email spelling (mapping_of result) ∷ []) }
{
    let new_name = second.new_name().or(first.new_name());
    let new_email = second.new_email().or(first.new_email());
    entry_of(new_name, new_email, None, second.old_email())
}

// The tables with these entries after those that they have.
fn put_each(mut tables: Tables, entries: &[Entry<'_>]) -> Result<Tables, AllocError>
    requires groups { AreGroups tables.groups }
    requires accepted { AreAccepted (map mapping_of entries.now) }
    ensures { IfOk result (λ made. Represent (listing tables.groups ++ map mapping_of entries.now) made.groups) }
{
    for entry in entries {
        tables.put(Prefixed::new(entry.old_email()), entry)?;
    }
    Ok(tables)
}

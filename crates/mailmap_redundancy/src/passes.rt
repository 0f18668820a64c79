//! The passes that drop redundant entries, until one of them drops none.
ghost use Rattle.std.specs.Prelude.{◌≡◌, ◌<◌, All, [], IfOk, List, map, vec_len};
ghost use Rattle.std.specs.List.Sorted.{IsStrictlySortedBy};
ghost use Rattle.mailmap_entries.specs.Semantics.{Key as SpecKey, key_cmp};
ghost use Rattle.mailmap_redundancy.specs.Redundancy.{IsPass, AreEffective, LocatedMapping, located_of};
ghost use Rattle.mailmap_redundancy.specs.Summaries.{IsNumbered, IsTable, IsTried, changes_no_new_field, is_redundant, keeps_new_fields, keeps_spellings, later_of, later_of_each, located_mapping_of, located_mappings, summary_of, value_of};

use crate::keys::{Key, NumberedEntry};
use crate::located::LocatedEntry;
use crate::table::{Summary, Table, Value};
use std::alloc::{AllocError, Global};

/// Repeats passes until one drops nothing, and returns the entries that are left. `after_one_pass` has those that the
/// first pass over all entries left.
pub(crate) fn drop_until_stable<'p, 'a>(
    alloc: Global,
    keys: &[Key<'_>],
    entries: &[LocatedEntry<'_>],
    after_one_pass: Vec<NumberedEntry<'p, 'a>>,
) -> Result<Vec<NumberedEntry<'p, 'a>>, AllocError>
    requires ascending { IsStrictlySortedBy key_cmp keys.now }
    requires numbered { All (IsNumbered keys.now) after_one_pass.items }
    requires passed { IsPass [] (map located_of entries.now) (located_mappings after_one_pass.items) }
    ensures effective { IfOk result (λ kept. AreEffective (map located_of entries.now) (located_mappings kept.items)) }
    ensures numbered { IfOk result (λ kept. All (IsNumbered keys.now) kept.items) }
{
    let mut len = entries.len();
    let mut kept = after_one_pass;
    while kept.len() < len {
        len = kept.len();
        kept = drop_redundant_once(alloc, keys, &kept)?;
    }
    Ok(kept)
}

/// Makes one pass, and returns the entries that are left.
pub(crate) fn drop_redundant_once<'p, 'a>(
    alloc: Global,
    keys: &[Key<'_>],
    entries: &[NumberedEntry<'p, 'a>],
) -> Result<Vec<NumberedEntry<'p, 'a>>, AllocError>
    requires ascending { IsStrictlySortedBy key_cmp keys.now }
    requires numbered { All (IsNumbered keys.now) entries.now }
    ensures passed { IfOk result (λ kept. IsPass [] (located_mappings entries.now) (located_mappings kept.items)) }
    ensures numbered { IfOk result (λ kept. All (IsNumbered keys.now) kept.items) }
{
    let mut later_ones = each_later(alloc, keys, entries)?;
    let mut table = Table::none(alloc, keys)?;
    let mut kept = Vec::with_capacity(alloc, entries.len())?;
    for x in entries {
        let Some(later) = later_ones.pop() else {
            unreachable!()
        };
        if append_unless_redundant(&mut table, x, later) {
            kept.push(*x)?;
        }
    }
    Ok(kept)
}

// Extends the table's range by an entry, unless that is redundant. Returns whether it did.
fn append_unless_redundant<'p, 'a>(
    table: &mut Table<'p, 'a>,
    x: &NumberedEntry<'p, 'a>,
    later: Later,
) -> bool
    requires key { x.now.key_number < vec_len table.old.key_summaries }
    requires email { x.now.email_number < vec_len table.old.email_summaries }
    ensures { (keys : List SpecKey) (xs : List LocatedMapping) → IsStrictlySortedBy key_cmp keys
        → IsNumbered keys x.now → IsTable keys xs table.old → IsTried keys xs (located_mapping_of x.now) later result table.new }
{
    if is_redundant(table.summary(x), x.located, later) {
        return false;
    }
    table.append(x);
    true
}

// What the redundancy of an entry depends on in the entries after it. A summary of these would take sixteen times the
// memory, and each pass keeps one for each entry.
#[derive(Clone, Copy)]
pub(crate) struct Later {
    has_key: bool,
    // whether one of them counts for the new name, or for the new email, in place of this entry
    overrides_name: bool,
    overrides_email: bool,
    // whether the first of them spells the key's old name, or the email, as this entry does
    same_old_name: bool,
    same_old_email: bool,
}

impl Later {
    // From the summary of the entries after this one.
    fn of(located: &LocatedEntry<'_>, after: Summary<'_, '_>) -> Later
        ensures { result ≡ later_of (located_of located.now) (summary_of after.entry) }
    {
        let is_named = located.entry.old_name().is_some();
        let (name, email) = after.of_key.origins(is_named);
        let value = after.value(is_named);
        Later {
            has_key: after.of_key.last.is_some(),
            overrides_name: name.is_some(),
            overrides_email: email.is_some(),
            same_old_name: located.entry.old_name() == value.old_name,
            same_old_email: located.entry.old_email() == value.old_email,
        }
    }

    // Whether the new fields are the same with and without the entry: a later one overrides them, or it changes nothing of
    // what the entries before it give.
    fn keeps_new_fields(self, with: Value<'_>, without: Value<'_>) -> bool
        ensures { result ≡ keeps_new_fields self (value_of with.entry) (value_of without.entry) }
    {
        (self.overrides_name || with.new_name == without.new_name)
            && (self.overrides_email || with.new_email == without.new_email)
    }

    // Whether an earlier entry spells the old name and the email, or the next one spells them alike.
    #[tactic(auto, using(crate::proofs::Redundant::has_referred))]
    fn keeps_spellings(self, before: Summary<'_, '_>) -> bool
        ensures { result ≡ keeps_spellings self (summary_of before.entry) }
    {
        (before.of_key.first.is_some() || self.same_old_name)
            && (before.of_email.first.is_some() || self.same_old_email)
    }
}

// For each entry, what matters of those after it. In reverse: the last entry's comes first, so that a pass can pop them.
fn each_later(
    alloc: Global,
    keys: &[Key<'_>],
    entries: &[NumberedEntry<'_, '_>],
) -> Result<Vec<Later>, AllocError>
    requires ascending { IsStrictlySortedBy key_cmp keys.now }
    requires numbered { All (IsNumbered keys.now) entries.now }
    ensures { IfOk result (λ later_ones. later_ones.items ≡ later_of_each (located_mappings entries.now)) }
{
    let mut table = Table::none(alloc, keys)?;
    let mut later_ones = Vec::with_capacity(alloc, entries.len())?;
    let mut left = entries.len();
    while left > 0 {
        left -= 1;
        let x = &entries[left];
        later_ones.push(Later::of(x.located, table.summary(x)))?;
        table.prepend(x);
    }
    Ok(later_ones)
}

// Whether an entry is redundant between the entries kept before it and those after it: without it, its key is still
// there, and has the same value. That decides for the whole normal list, since the value has the spelling of the email,
// and nothing else of this entry reaches other keys.
#[tactic(auto, using(crate::proofs::Redundant::has_referred))]
fn is_redundant(before: Summary<'_, '_>, located: &LocatedEntry<'_>, later: Later) -> bool
    ensures { result ≡ is_redundant (summary_of before.entry) (located_of located.now) later }
{
    (later.has_key || before.of_key.last.is_some())
        && changes_no_new_field(before, located, later)
        && later.keeps_spellings(before)
}

// Whether the new fields are the same with and without an entry between those kept before it and those after it.
fn changes_no_new_field(before: Summary<'_, '_>, located: &LocatedEntry<'_>, later: Later) -> bool
    ensures { result ≡ changes_no_new_field (summary_of before.entry) (located_of located.now) later }
{
    let is_named = located.entry.old_name().is_some();
    let without = before.value(is_named);
    let with = before.then(Summary::of(located)).value(is_named);
    later.keeps_new_fields(with, without)
}

//! The keys of entries, and entries with the numbers of their keys. A key's number is its index in a sorted list of
//! distinct keys. The key of each email without a name is among them, even if no entry has it, so that an email has a
//! number, too.
ghost use Rattle.std.specs.Prelude.{◌≡◌, ℕ, All, Contains, IfNone, IfOk, IfSome, OnOk, Some, map, true};
ghost use Rattle.std.specs.List.Sorted.{IsStrictlySortedBy};
ghost use Rattle.std.specs.Option.{option_copied, option_map};
ghost use Rattle.mailmap_entries.specs.Entries.{mapping_of};
ghost use Rattle.mailmap_entries.specs.Folding.{folded};
ghost use Rattle.mailmap_entries.specs.Semantics.{Key as SpecKey, key, key_cmp, is_accepted};
ghost use Rattle.mailmap_redundancy.specs.Redundancy.{located_of};
ghost use Rattle.mailmap_redundancy.specs.Summaries.{AreAscending, IsNumber, IsNumbered, IsPushed, IsNotBelowLast, last_key, located_mappings};

use crate::located::LocatedEntry;
use mailmap_batches::batch::{compare_names, sorted};
use mailmap_entries::Entry;
use mailmap_entries::fold::prefix::Prefixed;
use std::alloc::{AllocError, Global};
use std::cmp::Ordering;
use std::marker::Model;

/// An old email, and an old name if there is one. ASCII case is ignored.
#[derive(Drop)]
pub(crate) struct Key<'a> {
    email: Prefixed<'a>,
    name: Option<&'a [u8]>,
}

impl<'a> Model for Key<'a> {
    ghost Value = { SpecKey };

    ghost view = { λ k. (folded k.email.text.now, option_map folded (option_copied k.name)) };
}

impl<'a> Key<'a> {
    pub(crate) fn new(email: &'a [u8], name: Option<&'a [u8]>) -> Key<'a>
        ensures { result ≡ (folded email.now, option_map folded (option_copied name.entry)) }
    {
        Key {
            email: Prefixed::new(email),
            name,
        }
    }

    pub(crate) fn of(entry: &Entry<'a>) -> Key<'a>
        ensures { result ≡ key (mapping_of entry.now) }
    {
        Key::new(entry.old_email(), entry.old_name())
    }
}

pub(crate) fn compare(a: &Key, b: &Key) -> Ordering
    ensures { result ≡ key_cmp a.now b.now }
{
    match a.email.compare(b.email) {
        Ordering::Equal => compare_names(a.name, b.name),
        unequal => unequal,
    }
}

/// The number of a key, `None` if it isn't in `keys`.
pub(crate) fn find(keys: &[Key<'_>], key: &Key<'_>) -> Option<usize>
    requires { IsStrictlySortedBy key_cmp keys.now }
    ensures some { IfSome result (IsNumber keys.now key.now) }
    ensures none { IfNone result (Contains keys.now key.now → ⊥) }
{
    keys.binary_search_by(
        |other: &Key<'_>| -> Ordering
            ensures { result ≡ key_cmp other.now key.entry.now }
        { compare(other, key) },
    )
    .ok()
}

/// An entry, the number of its key, and the number of its email's key.
#[derive(Clone, Copy)]
pub(crate) struct NumberedEntry<'p, 'a> {
    pub(crate) located: &'p LocatedEntry<'a>,
    pub(crate) key_number: usize,
    pub(crate) email_number: usize,
}

/// A row for each entry, with numbers that [`number_entries`] overwrites.
pub(crate) fn unnumbered<'p, 'a>(
    alloc: Global,
    entries: &'p [LocatedEntry<'a>],
) -> Result<Vec<NumberedEntry<'p, 'a>>, AllocError>
    ensures { IfOk result (λ rows. located_mappings rows.items ≡ map located_of entries.now) }
{
    let mut rows = Vec::with_capacity(alloc, entries.len())?;
    for located in entries {
        rows.push(NumberedEntry {
            located,
            key_number: 0,
            email_number: 0,
        })?;
    }
    Ok(rows)
}

/// The distinct keys of the entries and of their emails, in ascending order. Writes each entry's numbers into its row.
/// The entries are sorted once, so it suffices to compare neighbours.
pub(crate) fn number_entries<'p, 'a>(
    alloc: Global,
    entries: &'p [LocatedEntry<'a>],
    rows: &mut [NumberedEntry<'p, 'a>],
) -> Result<Vec<Key<'a>>, AllocError>
    requires accepted { All (λ x. is_accepted (mapping_of x.entry) ≡ true) entries.now }
    requires located { located_mappings rows.old ≡ map located_of entries.now }
    ensures ascending { IfOk result (λ keys. IsStrictlySortedBy key_cmp keys.items) }
    ensures located { OnOk result (located_mappings rows.new ≡ map located_of entries.now) }
    ensures numbered { IfOk result (λ keys. All (IsNumbered keys.items) rows.new) }
{
    let order = sorted(alloc, entries)?;
    let mut keys = AscendingKeys {
        keys: Vec::with_capacity(alloc, entries.len())?,
        email_number: 0,
    };
    for at in &order {
        keys.add(at.entry)?;
        let row = &mut rows[at.index];
        row.key_number = keys.keys.len() - 1;
        row.email_number = keys.email_number;
    }
    Ok(keys.keys)
}

// Distinct keys of entries and of their emails, built from entries in key order.
#[derive(Drop)]
struct AscendingKeys<'a> {
    keys: Vec<Key<'a>>,
    // of the last email's key
    email_number: usize,
}

impl<'a> AscendingKeys<'a> {
    // Adds the entry's key and its email's key, unless they are there already.
    fn add(&mut self, entry: &Entry<'a>) -> Result<(), AllocError>
        requires ascending { AreAscending self.old.keys.items self.old.email_number }
        requires up { IsNotBelowLast self.old.keys.items (key (mapping_of entry.now)) }
        ensures ascending { OnOk result (AreAscending self.new.keys.items self.new.email_number) }
        ensures last { OnOk result (last_key self.new.keys.items ≡ Some (key (mapping_of entry.now))) }
        ensures keeps { OnOk result ((k : SpecKey) (i : ℕ) → IsNumber self.old.keys.items k i
            → IsNumber self.new.keys.items k i) }
    {
        let email = Key::new(entry.old_email(), None);
        self.email_number = push_above(&mut self.keys, email)?.unwrap_or(self.email_number);
        push_above(&mut self.keys, Key::of(entry))?;
        Ok(())
    }
}

// Appends a key if it is above the last one, and returns its number if it did.
fn push_above<'a>(keys: &mut Vec<Key<'a>>, key: Key<'a>) -> Result<Option<usize>, AllocError>
    ensures { IfOk result (λ number. IsPushed keys.old.items key.entry number keys.new.items) }
{
    if let Some(last) = keys.last() {
        if !compare(last, &key).is_lt() {
            return Ok(None);
        }
    }
    let number = keys.len();
    keys.push(key)?;
    Ok(Some(number))
}

//! Counts the contacts of a history, of which a few may come very often.
ghost use Rattle.std.specs.Prelude.{◌≡◌, ◌++◌, ◌∷◌, [], IfOk, IsFalse, IsTrue, List, OnOk, ℕ, length, map};
ghost use Rattle.std.specs.List.{AllByRecursion, flat_map};
ghost use Rattle.std.specs.Option.{option_map};
ghost use Rattle.bstr.specs.Text.{lines_of};
ghost use Rattle.mailmap_entries.specs.Folding.{Text};
ghost use Rattle.mailmap_contacts.specs.Contacts.{once, raw_contact, raw_line_tally, unless_contact};
ghost use Rattle.mailmap_contacts.specs.Counts.{AreContactsOf, HasCounted, SameTallies, key_tally, slot_tally};

use crate::occurrences::{Occurrences, add_to, sum_of};
use bstr::ByteSlice;
use mailmap_grammar::contacts::trim;
use mailmap_grammar::hashing::hash_of;
use std::alloc::{AllocError, Global};
use std::collections::BTreeMap;
use std::marker::Model;
use std::mem;

// The number of slots: a power of two, because the low bits of a line's hash select its slot.
const SLOTS: usize = 16384;

// The length of the longest line that is kept in a slot.
const LONGEST: usize = 256;

/// The distinct contacts of a history as they are, with the white space around their texts, each with its occurrences;
/// and the numbers of the lines that are neither blank nor contacts.
#[derive(Drop)]
pub struct Contacts {
    pub(crate) tallies: BTreeMap<(Vec<u8>, Vec<u8>), Occurrences>,
    pub(crate) lines_without_contact: Vec<usize>,
}

impl Model for Contacts {
    ghost use Rattle.std.specs.Prelude.{map};
    ghost use Rattle.mailmap_contacts.specs.Counts.{Tallied, key_tally};

    ghost Value = { Tallied };

    ghost view = { λ s. record { tallies = map key_tally s.tallies.entries; lines_without_contact = s.lines_without_contact.items } };
}

// A line with a contact, the last but for long ones whose hashes select this slot, and its occurrences that aren't in
// the map yet. An unused slot has an empty line.
#[derive(Drop)]
pub(crate) struct Slot {
    pub(crate) line: Vec<u8>,
    pub(crate) seen: Occurrences,
}

/// Counts contacts line by line.
///
/// A line that recurs is usually counted in its hash's slot, which is faster than the map. If another line takes the
/// slot, its occurrences move into the map. So lines made to collide cost no more than the map. Memory grows with the
/// distinct contacts, and with the number of lines that are neither blank nor contacts.
#[derive(Drop)]
pub struct ContactCounter {
    contacts: Contacts,
    slots: Vec<Slot>,
    // how many lines were added
    lines: usize,
}

impl Model for ContactCounter {
    ghost use Rattle.std.specs.Prelude.{◌≡◌, ◌++◌, [], ℕ, length};
    ghost use Rattle.std.specs.List.{AllByRecursion, flat_map};
    ghost use Rattle.mailmap_contacts.specs.Contacts.{unless_contact};
    ghost use Rattle.mailmap_contacts.specs.Counts.{Counter, slot_tally};

    ghost Value = { Counter };

    ghost view = { λ s. record {
      contacts = record {
        tallies = s.contacts.tallies ++ flat_map slot_tally s.slots.items;
        lines_without_contact = s.contacts.lines_without_contact;
      };
      lines = s.lines;
    } };

    ghost invariant = { λ s. AllByRecursion (λ slot. (n : ℕ) → unless_contact n slot.line.items ≡ []) s.slots.items
        × (length s.slots.items ≡ 16384) };
}

impl ContactCounter {
    pub fn new(alloc: Global) -> Result<ContactCounter, AllocError>
        ensures { IfOk result (HasCounted []) }
    {
        let slots = empty_slots(alloc)?;
        Ok(ContactCounter {
            contacts: Contacts {
                tallies: BTreeMap::new(alloc),
                lines_without_contact: Vec::new(alloc),
            },
            slots,
            lines: 0,
        })
    }

    /// Adds a line, with or without its line end.
    pub fn add_line(&mut self, line: &[u8]) -> Result<(), AllocError>
        ensures { OnOk result ((lines : List Text) → HasCounted lines self.old
            → HasCounted (lines ++ line.now ∷ []) self.new) }
    {
        // Not reached: no input has so many lines.
        let Some(number) = self.lines.checked_add(1) else {
            return Err(AllocError);
        };
        let slot = &mut self.slots[hash_of(line) as usize & (SLOTS - 1)];
        self.contacts.add_line(slot, line, number)?;
        self.lines = number;
        Ok(())
    }

    /// Adds the lines of a text.
    pub fn add_lines(&mut self, text: &[u8]) -> Result<(), AllocError>
        ensures { OnOk result ((lines : List Text) → HasCounted lines self.old
            → HasCounted (lines ++ lines_of text.now) self.new) }
    {
        for line in text.lines_with_terminator() {
            self.add_line(line)?;
        }
        Ok(())
    }

    /// The contacts that were counted.
    pub fn into_contacts(self) -> Result<Contacts, AllocError>
        ensures { (lines : List Text) → HasCounted lines self → IfOk result (AreContactsOf lines) }
    {
        let mut contacts = self.contacts;
        for slot in self.slots {
            contacts.add_slot(slot)?;
        }
        Ok(contacts)
    }
}

impl Contacts {
    /// The occurrences of each contact, by the texts before its brackets and in them.
    pub fn tallies(&self) -> &BTreeMap<(Vec<u8>, Vec<u8>), Occurrences>
        ensures { map key_tally result.now.entries ≡ self.now.tallies }
    {
        &self.tallies
    }

    /// The numbers of the lines that are neither blank nor contacts.
    pub fn lines_without_contact(&self) -> &[usize]
        ensures { result.now ≡ self.now.lines_without_contact }
    {
        self.lines_without_contact.as_slice()
    }

    // Adds a line. A contact that isn't in its slot takes it, unless its line is long.
    fn add_line(&mut self, slot: &mut Slot, line: &[u8], number: usize) -> Result<(), AllocError>
        ensures tallies { OnOk result (SameTallies (self.new.tallies ++ slot_tally slot.new)
            ((self.old.tallies ++ slot_tally slot.old) ++ raw_line_tally number line.now)) }
        ensures lines_without_contact { ((n : ℕ) → unless_contact n slot.old.line.items ≡ [])
            → OnOk result (self.new.lines_without_contact
            ≡ self.old.lines_without_contact ++ unless_contact number line.now) }
        ensures contact { ((n : ℕ) → unless_contact n slot.old.line.items ≡ [])
            → (n : ℕ) → unless_contact n slot.new.line.items ≡ [] }
    {
        if count_again(slot, line, number) {
            return Ok(());
        }
        let Some((name, email)) = raw_contact(line) else {
            if !trim(line).is_empty() {
                self.lines_without_contact.push(number)?;
            }
            return Ok(());
        };
        let seen = once_on(number);
        if line.len() > LONGEST {
            return self.add_contact(name, email, seen);
        }
        let line = Vec::from_slice(*self.lines_without_contact.allocator(), line)?;
        let before = mem::replace(slot, Slot { line, seen });
        self.add_slot(before)
    }

    // Adds the occurrences in a slot.
    fn add_slot(&mut self, slot: Slot) -> Result<(), AllocError>
        ensures tallies { OnOk result (SameTallies self.new.tallies (self.old.tallies ++ slot_tally slot)) }
        ensures lines_without_contact { self.new.lines_without_contact ≡ self.old.lines_without_contact }
    {
        match raw_contact(slot.line.as_slice()) {
            Some((name, email)) => self.add_contact(name, email, slot.seen),
            None => Ok(()),
        }
    }

    fn add_contact(
        &mut self,
        name: &[u8],
        email: &[u8],
        seen: Occurrences,
    ) -> Result<(), AllocError>
        ensures tallies { OnOk result (SameTallies self.new.tallies (self.old.tallies
            ++ record { contact = record { name = name.now; email = email.now }; seen = seen } ∷ [])) }
        ensures lines_without_contact { self.new.lines_without_contact ≡ self.old.lines_without_contact }
    {
        let alloc = *self.lines_without_contact.allocator();
        let name = Vec::from_slice(alloc, name)?;
        let email = Vec::from_slice(alloc, email)?;
        add_to(&mut self.tallies, (name, email), seen)
    }
}

// The texts before the brackets of a line and in them.
#[tactic(auto, using(mailmap_grammar::proofs::SplitOnce::split_laws))]
fn raw_contact(line: &[u8]) -> Option<(&[u8], &[u8])>
    ensures { option_map (λ c. record { name = c.0.now; email = c.1.now }) result ≡ raw_contact line.now }
{
    let opening = line.find_byte(b'<')?;
    let after = &line[opening + 1..];
    let closing = after.find_byte(b'>')?;
    Some((&line[..opening], &after[..closing]))
}

fn once_on(line: usize) -> Occurrences
    ensures { result ≡ once line }
{
    Occurrences {
        count: 1,
        first_line: line,
    }
}

fn empty_slots(alloc: Global) -> Result<Vec<Slot>, AllocError>
    ensures none { IfOk result (λ slots. flat_map slot_tally slots.items ≡ []) }
    ensures contacts { IfOk result (λ slots. AllByRecursion
        (λ slot. (n : ℕ) → unless_contact n slot.line.items ≡ []) slots.items) }
    ensures len { IfOk result (λ slots. length slots.items ≡ SLOTS) }
{
    let mut slots = Vec::with_capacity(alloc, SLOTS)?;
    for _ in 0..SLOTS {
        slots.push(Slot {
            line: Vec::new(alloc),
            seen: once_on(0),
        })?;
    }
    Ok(slots)
}

// Increments a slot's count, unless the slot is another line's or the count would overflow. Returns whether it did.
#[inline(always)]
fn count_again(slot: &mut Slot, line: &[u8], number: usize) -> bool
    ensures own { IsTrue result → slot.old.line.items ≡ line.now }
    ensures again { IsTrue result → SameTallies (slot_tally slot.new)
        (slot_tally slot.old ++ raw_line_tally number line.now) }
    ensures line { slot.new.line.items ≡ slot.old.line.items }
    ensures other { IsFalse result → slot.new ≡ slot.old }
{
    if slot.line.as_slice() != line {
        return false;
    }
    let Some(sum) = sum_of(slot.seen, once_on(number)) else {
        return false;
    };
    slot.seen = sum;
    true
}

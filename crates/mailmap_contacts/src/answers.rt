//! Contacts and answers with their occurrences.
ghost use Rattle.std.specs.Prelude.{◌≡◌, IfOk, List, map};
ghost use Rattle.mailmap_entries.specs.Folding.{Text};
ghost use Rattle.mailmap_contacts.specs.Contacts as contacts;
ghost use Rattle.mailmap_contacts.specs.Contacts.{AreTallies, contacts_from, raw_contacts_from, read_by, tallied};
ghost use Rattle.mailmap_contacts.specs.Counts.{AreContactsOf, SameTallies, answer_key_tally, tally_of};

use crate::counter::Contacts;
use crate::occurrences::{Occurrences, add_to};
use mailmap_grammar::contacts::trim;
use std::alloc::{AllocError, Global};
use std::collections::BTreeMap;

/// A contact, or what contacts map to, with its occurrences. The texts are borrowed from the mailmaps and the contacts.
#[derive(Clone, Copy)]
pub struct Tally<'a> {
    pub name: &'a [u8],
    pub email: &'a [u8],
    pub seen: Occurrences,
}

impl Contacts {
    /// The distinct contacts without the white space around their texts, in the order of their first lines. No text is
    /// copied.
    pub fn in_order<'c>(&'c self, alloc: Global) -> Result<Vec<Tally<'c>>, AllocError>
        ensures { (lines : List Text) → AreContactsOf lines self.now
            → IfOk result (λ all. map tally_of all.items ≡ tallied (contacts_from 1 lines)) }
    {
        let mut tallies = BTreeMap::new(alloc);
        for ((name, email), seen) in self.tallies.iter() {
            let contact = (trim(name.as_slice()), trim(email.as_slice()));
            add_to(&mut tallies, contact, *seen)?;
        }
        by_first_lines(alloc, tallies)
    }
}

/// Contacts that were read in some way, in the order of their first lines.
pub fn by_first_lines<'c>(
    alloc: Global,
    tallies: BTreeMap<(&'c [u8], &'c [u8]), Occurrences>,
) -> Result<Vec<Tally<'c>>, AllocError>
    ensures { (read : contacts.Contact → contacts.Contact) (lines : List Text)
        → let ts = map (read_by read) (raw_contacts_from 1 lines) in
        SameTallies (map answer_key_tally tallies.entry.entries) ts
        → IfOk result (λ all. map tally_of all.items ≡ tallied ts) }
{
    let mut all = answers_in(alloc, tallies)?;
    all.sort_unstable_by_key(|tally| tally.seen.first_line);
    Ok(all)
}

/// The answers in a map, sorted by name and email.
pub fn answers_in<'c>(
    alloc: Global,
    tallies: BTreeMap<(&'c [u8], &'c [u8]), Occurrences>,
) -> Result<Vec<Tally<'c>>, AllocError>
    ensures { (ts : List contacts.Tally) → SameTallies (map answer_key_tally tallies.entry.entries) ts
        → IfOk result (λ answers. AreTallies ts (map tally_of answers.items)) }
{
    let mut answers = Vec::with_capacity(alloc, tallies.len())?;
    for ((name, email), seen) in tallies {
        answers.push(Tally { name, email, seen })?;
    }
    Ok(answers)
}

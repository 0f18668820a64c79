//! What entries for one old email change when they are appended.
ghost use Rattle.std.specs.Prelude.{◌≡◌, ◌++◌, ◌∷◌, [], List, OnOk};
ghost use Rattle.std.specs.List.{AllByRecursion, list_all};
ghost use Rattle.std.specs.Option.{option_copied};
ghost use Rattle.mailmap_entries.specs.Entries.{Mapping};
ghost use Rattle.mailmap_entries.specs.Folding.{Text, folded};
ghost use Rattle.mailmap_contacts.specs.Contacts.{Contact};
ghost use Rattle.mailmap_contacts.specs.Answers.{tally_of};
ghost use Rattle.mailmap_suggestions.specs.Private.{AreChangesBy, IsPlain, after, are_enough, listed};
ghost use Rattle.mailmap_suggestions.specs.Forms.{name_unless_empty, named_form};

use crate::answers::{Answers, with_fields};
use mailmap_contacts::answers::Tally;
use mailmap_contacts::folded::Folded;
use mailmap_contacts::proper::is_same;
use mailmap_entries::Entry;
use mailmap_redundancy::Fields;
use std::alloc::{AllocError, Global};
use std::collections::BTreeSet;

/// What some entries change that are all for one old email: one without an old name, if it is there, and some that
/// make an answer that of all contacts with their old names.
///
/// A contact's answers after them follow from its answers before, so nothing is read anew to try them.
#[derive(Drop)]
pub(crate) struct Changes<'a> {
    // the new fields of the entry without an old name, if it is there
    pub(crate) given: Option<Fields<'a>>,
    // the old names of the others
    pub(crate) names: BTreeSet<Folded<'a>>,
    // the old email of the first of all
    pub(crate) spelling: Option<&'a [u8]>,
}

impl<'a> Changes<'a> {
    /// Those of an entry without an old name, or of no entry.
    #[tactic(auto, using(crate::proofs::Changed::changes_plain))]
    pub(crate) fn new(alloc: Global, plain: Option<Entry<'a>>) -> Self
        ensures { (to : Contact) (email : Text) → AllByRecursion (IsPlain email) (listed plain.entry)
            → AreChangesBy to email (listed plain.entry) result }
    {
        let names = BTreeSet::new(alloc);
        let Some(plain) = plain else {
            return Changes {
                given: None,
                names,
                spelling: None,
            };
        };
        let (name, email) = (plain.new_name(), plain.new_email());
        Changes {
            given: Some(Fields { name, email }),
            names,
            spelling: Some(plain.old_email()),
        }
    }

    /// Adds an entry with the old name and the old email of a contact.
    pub(crate) fn add_name(&mut self, contact: &Tally<'a>) -> Result<(), AllocError>
        ensures { OnOk result ((to : Contact) (added : List Mapping)
            → AreChangesBy to (folded contact.now.email.now) added self.old
            → AreChangesBy to (folded contact.now.email.now)
            (added ++ named_form to (tally_of contact.now).contact ∷ []) self.new) }
    {
        self.names.insert(Folded { text: contact.name })?;
        self.spelling = self.spelling.or(Some(contact.email));
        Ok(())
    }

    /// Whether this library and git both answer all of these by `to` then.
    pub(crate) fn are_enough_for_all(
        &self,
        answers: &Answers<'_, 'a>,
        to: &Tally<'a>,
        contacts: &[Tally<'a>],
    ) -> bool
        ensures { result ≡ list_all (are_enough self.now answers.now (tally_of to.now).contact) contacts.now }
    {
        for contact in contacts {
            if !self.are_enough(answers, to, contact) {
                return false;
            }
        }
        true
    }

    /// Whether they both answer a contact so.
    #[tactic(auto, unfolding(crate::specs::Private::are_enough))]
    pub(crate) fn are_enough(
        &self,
        answers: &Answers<'_, 'a>,
        to: &Tally<'a>,
        contact: &Tally<'a>,
    ) -> bool
        ensures { result ≡ are_enough self.now answers.now (tally_of to.now).contact contact.now }
    {
        let ours = answers.ours(contact);
        let gits = answers.gits(contact);
        let has_own = answers.has_own_entry(contact);
        let is_spelled = answers.has_email(contact);
        let is_gits_own = answers.has_own_entry_in_git(contact);
        is_same(&self.after(to, contact, &ours, has_own, is_spelled), to)
            && is_same(&self.after(to, contact, &gits, is_gits_own, true), to)
    }

    // The answer to a contact after these entries, by that before. `has_own`: an entry with its old name was there, and
    // hides those without one. `is_spelled`: these entries don't change how the email is spelled, since an earlier entry
    // spells it, or since git answers, which keeps the contact's spelling.
    fn after(
        &self,
        to: &Tally<'a>,
        contact: &Tally<'a>,
        before: &Tally<'a>,
        has_own: bool,
        is_spelled: bool,
    ) -> Tally<'a>
        ensures { (tally_of result).contact ≡ after self.now (tally_of to.now).contact contact.now
            (tally_of before.now).contact has_own is_spelled }
    {
        if self.names.contains(&Folded { text: contact.name }) {
            let name = name_unless_empty(to).unwrap_or(contact.name);
            return Tally { name, ..*to };
        }
        if has_own {
            return *before;
        }
        // the first entry for an email spells it
        let spelling = if is_spelled { None } else { self.spelling };
        let email = spelling.unwrap_or(before.email);
        with_fields(&Tally { email, ..*before }, self.given)
    }
}

/// The new name of entries, `None` if it is empty.
pub(crate) fn name_unless_empty<'a>(to: &Tally<'a>) -> Option<&'a [u8]>
    ensures { option_copied result ≡ name_unless_empty (tally_of to.now).contact }
{
    if to.name.is_empty() {
        None
    } else {
        Some(to.name)
    }
}

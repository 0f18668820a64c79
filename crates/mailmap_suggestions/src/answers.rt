//! What this library and git answer to contacts.
ghost use Rattle.std.specs.Prelude.{◌≡◌, IfOk, is_some, map, unwrap_or};
ghost use Rattle.std.specs.List.{list_all};
ghost use Rattle.std.specs.Option.{option_map};
ghost use Rattle.mailmap_entries.specs.Folding.{folded};
ghost use Rattle.mailmap_entries.specs.Semantics.{last_fields, no_fields, spelling};
ghost use Rattle.mailmap_redundancy.specs.Redundancy.{entries};
ghost use Rattle.mailmap_redundancy.specs.Summaries.{fields_of};
ghost use Rattle.mailmap_contacts.specs.Answers.{tally_of};
ghost use Rattle.mailmap_contacts.specs.Contacts.{answered};
ghost use Rattle.mailmap_suggestions.specs.Private.{contacts_of};
ghost use Rattle.mailmap_suggestions.specs.Counted.{git_answered, other_git_answers};
ghost use Rattle.mailmap_suggestions.specs.Forms.{is_answered, own_key, replaced};
ghost use Rattle.mailmap_suggestions.specs.GroupEntries.{are_alike};

use crate::histories::Histories;
use mailmap_contacts::answers::Tally;
use mailmap_contacts::proper::is_same;
use mailmap_redundancy::{Effective, Fields};
use std::alloc::{AllocError, Global};
use std::marker::Model;

/// What answers as mailmaps do.
#[derive(Drop)]
pub(crate) struct Answers<'p, 'a> {
    ours: Effective<'p, 'a>,
    // none if git reads the same entries as this library
    gits: Option<Effective<'p, 'a>>,
    // whether neither reads any: each contact is its own answer then
    is_empty: bool,
}

impl<'p, 'a> Model for Answers<'p, 'a> {
    ghost use Rattle.std.specs.Prelude.{◌≡◌, [], IsTrue, unwrap_or};
    ghost use Rattle.mailmap_redundancy.specs.Redundancy.{entries};
    ghost use Rattle.mailmap_suggestions.specs.Forms as spec;

    ghost Value = { spec.Histories };

    ghost view = { λ s. record { ours = entries s.ours.history; gits = entries (unwrap_or s.gits s.ours).history } };

    ghost invariant = { λ s. IsTrue s.is_empty
        → (entries s.ours.history ≡ []) × (entries (unwrap_or s.gits s.ours).history ≡ []) };
}

impl<'p, 'a> Answers<'p, 'a> {
    /// The answers by these entries.
    pub(crate) fn new(
        alloc: Global,
        histories: &'p Histories<'a>,
    ) -> Result<Answers<'p, 'a>, AllocError>
        ensures { IfOk result (λ answers. answers ≡ histories.now) }
    {
        let ours = histories.ours.effective(alloc)?;
        if histories.gits.is_same(&histories.ours) {
            return Ok(Answers {
                ours,
                gits: None,
                is_empty: histories.ours.is_empty(),
            });
        }
        let gits = Some(histories.gits.effective(alloc)?);
        Ok(Answers {
            ours,
            gits,
            is_empty: false,
        })
    }

    fn gits_entries(&self) -> &Effective<'p, 'a>
        ensures { entries result.now.history ≡ self.now.gits }
    {
        self.gits.as_ref().unwrap_or(&self.ours)
    }

    /// What this library answers to a contact. It comes where the contact comes.
    #[tactic(auto, using(crate::proofs::Forms::unanswered))]
    pub(crate) fn ours(&self, contact: &Tally<'a>) -> Tally<'a>
        ensures { tally_of result ≡ answered self.now.ours (tally_of contact.now) }
    {
        if self.is_empty {
            return *contact;
        }
        let origins = self.ours.origins(contact.name, contact.email);
        with_fields(contact, origins.fields(contact.email))
    }

    /// What git answers.
    #[tactic(auto, using(crate::proofs::Forms::git_unanswered))]
    pub(crate) fn gits(&self, contact: &Tally<'a>) -> Tally<'a>
        ensures { tally_of result ≡ git_answered self.now (tally_of contact.now) }
    {
        if self.is_empty {
            return *contact;
        }
        let origins = self.gits_entries().origins(contact.name, contact.email);
        with_fields(contact, origins.git_fields())
    }

    /// git's answers to the contacts that it answers otherwise than this library, in their order.
    pub(crate) fn others_of_git(
        &self,
        alloc: Global,
        contacts: &[Tally<'a>],
    ) -> Result<Vec<Tally<'a>>, AllocError>
        ensures { IfOk result (λ others. map tally_of others.items
            ≡ other_git_answers self.now (map tally_of contacts.now)) }
    {
        let mut others = Vec::new(alloc);
        for contact in contacts {
            let answer = self.gits(contact);
            if !is_same(&answer, &self.ours(contact)) {
                others.push(answer)?;
            }
        }
        Ok(others)
    }

    /// Whether this library has an entry with the contact's name and email as old ones.
    pub(crate) fn has_own_entry(&self, contact: &Tally<'_>) -> bool
        ensures { result ≡ is_some (last_fields self.now.ours (own_key (tally_of contact.now).contact)) }
    {
        self.ours.has_own_entry(contact.name, contact.email)
    }

    /// Whether git has one.
    pub(crate) fn has_own_entry_in_git(&self, contact: &Tally<'_>) -> bool
        ensures { result ≡ is_some (last_fields self.now.gits (own_key (tally_of contact.now).contact)) }
    {
        self.gits_entries()
            .has_own_entry(contact.name, contact.email)
    }

    /// Whether this library has any entry for the contact's email.
    pub(crate) fn has_email(&self, contact: &Tally<'_>) -> bool
        ensures { result ≡ is_some (spelling self.now.ours (folded (tally_of contact.now).contact.email)) }
    {
        self.ours.has_email(contact.email)
    }

    /// Whether this library and git answer all of these alike.
    pub(crate) fn are_alike(&self, group: &[Tally<'a>]) -> bool
        ensures { result ≡ are_alike self.now (contacts_of group.now) }
    {
        match group.first() {
            Some(first) => self.are_answered(&self.ours(first), group),
            None => true,
        }
    }

    /// Whether this library and git both answer all of these by `to`.
    pub(crate) fn are_answered(&self, to: &Tally<'_>, group: &[Tally<'a>]) -> bool
        ensures { result
            ≡ list_all (λ t. is_answered self.now (tally_of to.now).contact (tally_of t).contact) group.now }
    {
        group.iter().all(|contact| self.is_answered(to, contact))
    }

    fn is_answered(&self, to: &Tally<'_>, contact: &Tally<'a>) -> bool
        ensures { result ≡ is_answered self.now (tally_of to.now).contact (tally_of contact.now).contact }
    {
        is_same(&self.ours(contact), to) && is_same(&self.gits(contact), to)
    }
}

/// The contact with its fields overridden.
pub(crate) fn with_fields<'a>(contact: &Tally<'a>, fields: Option<Fields<'a>>) -> Tally<'a>
    ensures { tally_of result ≡ record {
      contact = replaced (unwrap_or (option_map fields_of fields.entry) no_fields) (tally_of contact.now).contact;
      seen = (tally_of contact.now).seen;
    } }
{
    match fields {
        Some(fields) => Tally {
            name: fields.name.unwrap_or(contact.name),
            email: fields.email.unwrap_or(contact.email),
            seen: contact.seen,
        },
        None => *contact,
    }
}

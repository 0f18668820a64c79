//! Contacts as git reads them, and what it answers to these.
ghost use Rattle.std.specs.Prelude.{◌≡◌, IfOk, List, filter, map};
ghost use Rattle.bstr.specs.Trim.{trim_end_by};
ghost use Rattle.mailmap_contacts.specs.Answers.{tally_of};
ghost use Rattle.mailmap_contacts.specs.Contacts as spec;
ghost use Rattle.mailmap_contacts.specs.Contacts.{read_by};
ghost use Rattle.mailmap_contacts.specs.Counts.{AreContactsOf};
ghost use Rattle.mailmap_entries.specs.Folding.{Text};
ghost use Rattle.mailmap_findings.specs.Git.{is_git_space as spec_is_git_space};
ghost use Rattle.mailmap_suggestions.specs.Counted.{git_answered};
ghost use Rattle.mailmap_suggestions.specs.GitContacts.{git_answers_otherwise, git_contacts, has_zero as spec_has_zero};
ghost use Rattle.mailmap_suggestions.specs.GitContacts.{is_answered_otherwise as spec_is_answered_otherwise};

use crate::answers::Answers;
use bstr::ByteSlice;
use mailmap_contacts::answers::{Tally, by_first_lines};
use mailmap_contacts::counter::Contacts;
use mailmap_contacts::occurrences::add_to;
use mailmap_contacts::proper::is_same;
use mailmap_findings::git::is_git_space;
use mailmap_grammar::contacts::trim;
use std::alloc::{AllocError, Global};
use std::collections::BTreeMap;

/// git's answers to the contacts that it answers otherwise than this library, in the order of their first lines.
pub(crate) fn answers_otherwise<'a>(
    alloc: Global,
    answers: &Answers<'_, 'a>,
    contacts: &'a Contacts,
) -> Result<Vec<Tally<'a>>, AllocError>
    ensures { (lines : List Text) → AreContactsOf lines contacts.now → IfOk result (λ others. map tally_of others.items
        ≡ git_answers_otherwise answers.now lines) }
{
    let read = contacts_of_git(alloc, contacts)?;
    others(alloc, answers, &read)
}

// The distinct contacts as git reads them, in the order of their first lines.
fn contacts_of_git<'a>(alloc: Global, contacts: &'a Contacts) -> Result<Vec<Tally<'a>>, AllocError>
    ensures { (lines : List Text) → AreContactsOf lines contacts.now → IfOk result (λ read. map tally_of read.items
        ≡ git_contacts lines) }
{
    let mut tallies = BTreeMap::new(alloc);
    for ((name, email), seen) in contacts.tallies().iter() {
        let name = trim_end_of_name(name.as_slice());
        add_to(&mut tallies, (name, email.as_slice()), *seen)?;
    }
    by_first_lines(alloc, tallies)
}

fn others<'a>(
    alloc: Global,
    answers: &Answers<'_, 'a>,
    contacts: &[Tally<'a>],
) -> Result<Vec<Tally<'a>>, AllocError>
    ensures { IfOk result (λ others. map tally_of others.items ≡ map (git_answered answers.now)
        (filter (spec_is_answered_otherwise answers.now) (map tally_of contacts.now))) }
{
    let mut others = Vec::new(alloc);
    for contact in contacts {
        if is_answered_otherwise(answers, contact) {
            others.push(answers.gits(contact))?;
        }
    }
    Ok(others)
}

fn is_answered_otherwise<'a>(answers: &Answers<'_, 'a>, contact: &Tally<'a>) -> bool
    ensures { result ≡ spec_is_answered_otherwise answers.now (tally_of contact.now) }
{
    !has_zero(contact) && !is_same(&answers.gits(contact), &answers.ours(&trimmed(contact)))
}

// Whether git reads no contact here.
fn has_zero(contact: &Tally<'_>) -> bool
    ensures { result ≡ spec_has_zero (tally_of contact.now).contact }
{
    contact.name.contains(&0) || contact.email.contains(&0)
}

fn trimmed<'a>(contact: &Tally<'a>) -> Tally<'a>
    ensures { tally_of result ≡ read_by spec.trimmed (tally_of contact.now) }
{
    Tally {
        name: trim(contact.name),
        email: trim(contact.email),
        seen: contact.seen,
    }
}

fn trim_end_of_name(name: &[u8]) -> &[u8]
    ensures { result.now ≡ trim_end_by spec_is_git_space name.now }
{
    name.trim_end_with(is_git_space)
}

//! The entries by which contacts get one answer.
ghost use Rattle.std.specs.Prelude.{◌≡◌, IfOk, filter, map, not};
ghost use Rattle.mailmap_entries.specs.Entries.{mapping_of};
ghost use Rattle.mailmap_contacts.specs.Answers.{tally_of};
ghost use Rattle.mailmap_suggestions.specs.Private.{HaveOneEmail, contacts_of, listed};
ghost use Rattle.mailmap_suggestions.specs.Forms.{entries_for_email, entries_to, fits, long_form};
ghost use Rattle.mailmap_suggestions.specs.Forms.{named_form, needs_own_entry, plain_entries};

use crate::answers::Answers;
use crate::changes::{Changes, name_unless_empty};
use crate::groups::by_old_email;
use crate::shared::SharedEmails;
use mailmap_contacts::answers::Tally;
use mailmap_entries::Entry;
use mailmap_entries::fold::cmp_ignore_ascii_case;
use std::alloc::{AllocError, Global};

/// The entries that make `to` the answer to the contacts of a group, old email by old email.
pub(crate) fn entries_to<'a>(
    alloc: Global,
    shared: &SharedEmails<'a>,
    answers: &Answers<'_, 'a>,
    to: &Tally<'a>,
    group: &[Tally<'a>],
) -> Result<Vec<Entry<'a>>, AllocError>
    ensures { IfOk result (λ entries. map mapping_of entries.items
        ≡ entries_to shared.now answers.now (tally_of to.now).contact (contacts_of group.now)) }
{
    let mut entries = Vec::new(alloc);
    for part in &by_old_email(alloc, group)? {
        entries.extend_from_slice(&entries_for_email(alloc, shared, answers, to, part)?)?;
    }
    Ok(entries)
}

// The entries that make `to` the answer to these contacts, who have one old email, ASCII case aside: one without an old
// name if they need it, and one with it for each contact that then isn't answered by `to` already.
fn entries_for_email<'a>(
    alloc: Global,
    shared: &SharedEmails<'a>,
    answers: &Answers<'_, 'a>,
    to: &Tally<'a>,
    contacts: &[Tally<'a>],
) -> Result<Vec<Entry<'a>>, AllocError>
    requires { HaveOneEmail (contacts_of contacts.now) }
    ensures { IfOk result (λ entries. map mapping_of entries.items
        ≡ entries_for_email shared.now answers.now (tally_of to.now).contact (contacts_of contacts.now)) }
{
    let plain = plain_entry(
        alloc,
        answers,
        to,
        &plain_contacts(alloc, shared, answers, contacts)?,
    );
    let mut changes = Changes::new(alloc, plain);
    let mut entries = Vec::from_slice(alloc, plain.as_slice())?;
    for contact in contacts {
        if changes.are_enough(answers, to, contact) {
            continue;
        }
        changes.add_name(contact)?;
        entries.push(named_form(to, contact))?;
    }
    Ok(entries)
}

// Those that an entry without an old name may be for: they have no entries of their own, in this library and in git,
// and one person has the email of the answer.
fn plain_contacts<'a>(
    alloc: Global,
    shared: &SharedEmails<'a>,
    answers: &Answers<'_, 'a>,
    contacts: &[Tally<'a>],
) -> Result<Vec<Tally<'a>>, AllocError>
    ensures { IfOk result (λ found. found.items
        ≡ filter (λ t. not (needs_own_entry shared.now answers.now (tally_of t).contact)) contacts.now) }
{
    let mut found = Vec::new(alloc);
    for contact in contacts {
        if !needs_own_entry(shared, answers, contact) {
            found.push(*contact)?;
        }
    }
    Ok(found)
}

fn needs_own_entry<'a>(
    shared: &SharedEmails<'a>,
    answers: &Answers<'_, 'a>,
    contact: &Tally<'a>,
) -> bool
    ensures { result ≡ needs_own_entry shared.now answers.now (tally_of contact.now).contact }
{
    answers.has_own_entry(contact)
        || answers.has_own_entry_in_git(contact)
        || shared.contains(answers.ours(contact).email)
}

// The entry without an old name that makes `to` the answer to contacts without entries of their own, `None` if it is
// that already.
fn plain_entry<'a>(
    alloc: Global,
    answers: &Answers<'_, 'a>,
    to: &Tally<'a>,
    contacts: &[Tally<'a>],
) -> Option<Entry<'a>>
    requires { HaveOneEmail (contacts_of contacts.now) }
    ensures { listed result ≡ plain_entries answers.now (tally_of to.now).contact (contacts_of contacts.now) }
{
    let first = contacts.first()?;
    if answers.are_answered(to, contacts) {
        return None;
    }
    let short = Entry::change_name_by_email(to.name, to.email);
    let changes = Changes::new(alloc, Some(short));
    if fits(to, first) && changes.are_enough_for_all(answers, to, contacts) {
        return Some(short);
    }
    Some(long_form(to, first))
}

// Whether an entry without a new email has a name, and is for the contact's email.
fn fits(to: &Tally<'_>, first: &Tally<'_>) -> bool
    ensures { result ≡ fits (tally_of to.now).contact (tally_of first.now).contact }
{
    !to.name.is_empty() && cmp_ignore_ascii_case(to.email, first.email).is_eq()
}

// ---- the forms of entries

fn long_form<'a>(to: &Tally<'a>, first: &Tally<'a>) -> Entry<'a>
    ensures { mapping_of result ≡ long_form (tally_of to.now).contact (tally_of first.now).contact }
{
    match name_unless_empty(to) {
        Some(name) => Entry::change_name_and_email_by_email(name, to.email, first.email),
        None => Entry::change_email_by_email(to.email, first.email),
    }
}

fn named_form<'a>(to: &Tally<'a>, old: &Tally<'a>) -> Entry<'a>
    ensures { mapping_of result ≡ named_form (tally_of to.now).contact (tally_of old.now).contact }
{
    match name_unless_empty(to) {
        Some(name) => {
            Entry::change_name_and_email_by_name_and_email(name, to.email, old.name, old.email)
        }
        None => Entry::change_email_by_name_and_email(to.email, old.name, old.email),
    }
}

//! The emails that several people share.
ghost use Rattle.std.specs.Prelude.{◌≡◌, ◌==◌, ◌++◌, ◌∷◌, [], ◌≤◌, List, IfOk, OnOk, if◌then◌else◌};
ghost use Rattle.std.specs.Prelude.{is_none, length, map, take};
ghost use Rattle.std.specs.List.{list_all, list_any};
ghost use Rattle.mailmap_entries.specs.Entries.{mapping_of};
ghost use Rattle.mailmap_entries.specs.Folding.{Text};
ghost use Rattle.mailmap_names.specs.Keys.{is_related};
ghost use Rattle.mailmap_redundancy.specs.Redundancy.{entries};
ghost use Rattle.mailmap_contacts.specs.Answers.{tally_of};
ghost use Rattle.mailmap_contacts.specs.Contacts.{answered};
ghost use Rattle.mailmap_suggestions.specs.Private.{contacts_of};
ghost use Rattle.mailmap_suggestions.specs.Forms.{distinct, is_shared};
ghost use Rattle.mailmap_suggestions.specs.Shared as spec;
ghost use Rattle.mailmap_suggestions.specs.Shared.{emails_of_several, shared_emails, with_stranger};
ghost use Rattle.mailmap_suggestions.specs.SharedViews.{AreDistinct, IsIndexOf, folded_texts, names_in, several_email};

use crate::answers::with_fields;
use crate::groups::by_old_email;
use crate::histories::{Histories, History};
use mailmap_contacts::answers::Tally;
use mailmap_contacts::folded::Folded;
use mailmap_contacts::proper::has_text;
use mailmap_names::names::Name;
use mailmap_redundancy::{Effective, LocatedEntry};
use std::alloc::{AllocError, Global};
use std::collections::BTreeSet;
use std::marker::Model;

/// The emails that several people share, whatever the case of ASCII letters.
#[derive(Drop)]
pub(crate) struct SharedEmails<'a> {
    listed: Vec<Folded<'a>>,
    // the same emails, to look them up
    index: BTreeSet<Folded<'a>>,
}

impl<'a> Model for SharedEmails<'a> {
    ghost use Rattle.std.specs.Prelude.{List};
    ghost use Rattle.mailmap_entries.specs.Folding.{Text};
    ghost use Rattle.mailmap_suggestions.specs.SharedViews.{IsIndexOf, folded_texts};

    ghost Value = { List Text };

    ghost view = { λ s. folded_texts s.listed.items };

    ghost invariant = { λ s. IsIndexOf s.listed.items s.index };
}

impl<'a> SharedEmails<'a> {
    /// Finds the emails with the names of several people: four that are related to none before them, or two if one of
    /// the names has a ` via `. Fails only if memory runs out.
    pub(crate) fn read(
        alloc: Global,
        histories: &Histories<'a>,
        contacts: &[Tally<'a>],
    ) -> Result<SharedEmails<'a>, AllocError>
        ensures { IfOk result (λ shared. shared ≡ shared_emails histories.now (map tally_of contacts.now)) }
    {
        let mut listed = Vec::new(alloc);
        push_shared(alloc, &histories.ours, contacts, &mut listed)?;
        push_without_names(alloc, &histories.ours, contacts, &mut listed)?;
        let index = index_of(alloc, &listed)?;
        Ok(SharedEmails { listed, index })
    }

    /// Whether there are none.
    pub(crate) fn is_empty(&self) -> bool
        ensures { result ≡ (length self.now == 0) }
    {
        self.listed.is_empty()
    }

    /// Whether several people share an email.
    pub(crate) fn contains(&self, email: &'a [u8]) -> bool
        ensures { result ≡ is_shared self.now email.now }
    {
        self.index.contains(&Folded { text: email })
    }
}

fn index_of<'a>(alloc: Global, emails: &[Folded<'a>]) -> Result<BTreeSet<Folded<'a>>, AllocError>
    ensures { IfOk result (λ index. IsIndexOf emails.now index) }
{
    let mut index = BTreeSet::new(alloc);
    for email in emails {
        index.insert(*email)?;
    }
    Ok(index)
}

// Appends those by the entries without an old name. They are the same again if no entry has one.
fn push_without_names<'a>(
    alloc: Global,
    history: &History<'a>,
    contacts: &[Tally<'a>],
    shared: &mut Vec<Folded<'a>>,
) -> Result<(), AllocError>
    requires { folded_texts shared.old.items
        ≡ emails_of_several (spec.answers_with_email history.now (map tally_of contacts.now)) }
    ensures { OnOk result (folded_texts shared.new.items ≡ folded_texts shared.old.items
        ++ emails_of_several (spec.answers_with_email (spec.without_old_names history.now) (map tally_of contacts.now))) }
{
    if have_no_old_names(&history.entries) {
        let again = Vec::from_slice(alloc, shared)?;
        shared.extend_from_slice(&again)?;
        return Ok(());
    }
    let without_names = without_old_names(alloc, history)?;
    push_shared(alloc, &without_names, contacts, shared)
}

fn have_no_old_names(entries: &[LocatedEntry<'_>]) -> bool
    ensures { result ≡ list_all (λ found. is_none (mapping_of found.entry).old_name) entries.now }
{
    entries.iter().all(|found| has_no_old_name(found))
}

fn without_old_names<'a>(alloc: Global, history: &History<'a>) -> Result<History<'a>, AllocError>
    ensures { IfOk result (λ h. h ≡ spec.without_old_names history.now) }
{
    let mut entries = Vec::from_slice(alloc, &history.entries)?;
    entries.retain(|found| has_no_old_name(found));
    Ok(History { entries })
}

#[tactic(auto, using(crate::proofs::Strangers::none_copied))]
fn has_no_old_name(found: &LocatedEntry<'_>) -> bool
    ensures { result ≡ is_none (mapping_of found.now.entry).old_name }
{
    found.entry.old_name().is_none()
}

// Appends the emails of which the answers by these entries have the names of several people.
fn push_shared<'a>(
    alloc: Global,
    history: &History<'a>,
    contacts: &[Tally<'a>],
    shared: &mut Vec<Folded<'a>>,
) -> Result<(), AllocError>
    ensures { OnOk result (folded_texts shared.new.items ≡ folded_texts shared.old.items
        ++ emails_of_several (spec.answers_with_email history.now (map tally_of contacts.now))) }
{
    let entries = history.effective(alloc)?;
    let answers = answers_with_email(alloc, &entries, contacts)?;
    let groups = by_old_email(alloc, answers.as_slice())?;
    for group in &groups {
        push_if_several(alloc, group.as_slice(), shared)?;
    }
    Ok(())
}

fn answers_with_email<'a>(
    alloc: Global,
    history: &Effective<'_, 'a>,
    contacts: &[Tally<'a>],
) -> Result<Vec<Tally<'a>>, AllocError>
    ensures { IfOk result (λ answers. contacts_of answers.items
        ≡ spec.answers_with_email (entries history.now.history) (map tally_of contacts.now)) }
{
    let mut answers = Vec::new(alloc);
    for contact in contacts {
        let answer = answer_to(history, contact);
        if has_text(answer.email) {
            answers.push(answer)?;
        }
    }
    Ok(answers)
}

fn answer_to<'a>(history: &Effective<'_, 'a>, contact: &Tally<'a>) -> Tally<'a>
    ensures { tally_of result ≡ answered (entries history.now.history) (tally_of contact.now) }
{
    let origins = history.origins(contact.name, contact.email);
    with_fields(contact, origins.fields(contact.email))
}

// Appends the email of answers that all have it, if they have the names of several people.
fn push_if_several<'a>(
    alloc: Global,
    group: &[Tally<'a>],
    shared: &mut Vec<Folded<'a>>,
) -> Result<(), AllocError>
    ensures { OnOk result (folded_texts shared.new.items
        ≡ folded_texts shared.old.items ++ several_email (contacts_of group.now)) }
{
    let Some(first) = group.first() else {
        return Ok(());
    };
    let several = is_of_several(alloc, group)?;
    if several {
        shared.push(Folded { text: first.email })?;
    }
    Ok(())
}

fn is_of_several(alloc: Global, group: &[Tally<'_>]) -> Result<bool, AllocError>
    ensures { IfOk result (λ several. several
        ≡ spec.are_several (distinct (map (λ c. c.name) (contacts_of group.now)))) }
{
    let names = names_of(alloc, group)?;
    are_several(alloc, names.as_slice())
}

// The names of answers, each once.
fn names_of<'a>(alloc: Global, group: &[Tally<'a>]) -> Result<Vec<&'a [u8]>, AllocError>
    ensures { IfOk result (λ names. map (λ n. n.now) names.items
        ≡ distinct (map (λ c. c.name) (contacts_of group.now))) }
{
    let mut seen = BTreeSet::new(alloc);
    let mut names = Vec::new(alloc);
    for answer in group {
        push_unseen(&mut seen, &mut names, answer.name)?;
    }
    Ok(names)
}

fn push_unseen<'a>(
    seen: &mut BTreeSet<&'a [u8]>,
    names: &mut Vec<&'a [u8]>,
    name: &'a [u8],
) -> Result<(), AllocError>
    ensures { OnOk result ((before : List Text) → AreDistinct before seen.old names.old.items
        → AreDistinct (before ++ name.now ∷ []) seen.new names.new.items) }
{
    let is_new = seen.insert(name)?;
    if is_new {
        names.push(name)?;
    }
    Ok(())
}

// Whether several people have these names. Most emails have one name, which isn't taken apart then.
fn are_several(alloc: Global, names: &[&[u8]]) -> Result<bool, AllocError>
    ensures { IfOk result (λ several. several ≡ spec.are_several (map (λ n. n.now) names.now)) }
{
    if names.len() < 2 {
        return Ok(false);
    }
    let needed = if have_via(names) { 2 } else { 4 };
    Ok(strangers(alloc, names)?.len() >= needed)
}

fn have_via(names: &[&[u8]]) -> bool
    ensures { result ≡ list_any (λ name. spec.has_via name.now) names.now }
{
    names.iter().any(|name| has_via(name))
}

fn has_via(name: &[u8]) -> bool
    ensures { result ≡ spec.has_via name.now }
{
    for start in 0..name.len() {
        if begins_with_via(&name[start..]) {
            return true;
        }
    }
    false
}

fn begins_with_via(text: &[u8]) -> bool
    ensures { result ≡ spec.begins_with_via text.now }
{
    text[..text.len().min(5)].eq_ignore_ascii_case(b" via ")
}

// The first four strangers, which are enough: so each name is compared with three at most.
fn strangers<'a>(alloc: Global, names: &[&'a [u8]]) -> Result<Vec<Name<'a>>, AllocError>
    ensures { IfOk result (λ known. names_in known.items ≡ take 4 (spec.strangers (map (λ n. n.now) names.now))) }
{
    let mut known = Vec::new(alloc);
    for name in names {
        add_name(alloc, &mut known, name)?;
    }
    Ok(known)
}

fn add_name<'a>(alloc: Global, known: &mut Vec<Name<'a>>, name: &'a [u8]) -> Result<(), AllocError>
    requires { length known.old.items ≤ 4 }
    ensures { OnOk result (names_in known.new.items ≡ take 4 (with_stranger (names_in known.old.items) name.now)) }
{
    if known.len() < 4 && has_text(name) {
        let read = Name::read(alloc, name)?;
        push_unrelated(known, read)?;
    }
    Ok(())
}

fn push_unrelated<'a>(known: &mut Vec<Name<'a>>, name: Name<'a>) -> Result<(), AllocError>
    ensures { OnOk result (known.new.items
        ≡ (if list_any (λ other. is_related name.entry.text.now other.text.now) known.old.items
        then known.old.items else known.old.items ++ name.entry ∷ [])) }
{
    let is_known = is_known(known.as_slice(), &name);
    if !is_known {
        known.push(name)?;
    }
    Ok(())
}

fn is_known(known: &[Name<'_>], name: &Name<'_>) -> bool
    ensures { result ≡ list_any (λ other. is_related name.now.text.now other.text.now) known.now }
{
    known.iter().any(|other| name.is_related(other))
}

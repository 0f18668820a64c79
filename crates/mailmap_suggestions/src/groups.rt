//! Puts the contacts of a history into groups.
ghost use Rattle.std.specs.Prelude.{◌≡◌, ◌≤◌, [], All, IfOk, List, OnOk, bytes_eq, filter, length, map, not};
ghost use Rattle.mailmap_entries.specs.Folding.{Text, folded};
ghost use Rattle.mailmap_contacts.specs.Contacts.{Contact, Tally as ATally};
ghost use Rattle.mailmap_contacts.specs.Answers.{tally_of};
ghost use Rattle.mailmap_suggestions.specs.Private.{contacts_of, IsPart, grouped, keyed_by, keyed_of, tallies_in};
ghost use Rattle.mailmap_suggestions.specs.Private.{text_of, with_member};
ghost use Rattle.mailmap_suggestions.specs.Suggestions.{email_key};
ghost use Rattle.mailmap_suggestions.specs.Forests.{links_of};
ghost use Rattle.mailmap_suggestions.specs.Forms.{distinct, of_old_email};
ghost use Rattle.mailmap_suggestions.specs.GroupEntries.{are_alike, contacts, groups};
ghost use Rattle.mailmap_suggestions.specs.Links.{AreClassesBy, answers as spec_answers};
ghost use Rattle.mailmap_suggestions.specs.LinkViews.{AreLinksOf, AreMembers};

use crate::answers::Answers;
use crate::classes::Link;
use crate::keys::{Key, first_value};
use crate::links::classes_by;
use crate::members::Member;
use mailmap_contacts::answers::Tally;
use mailmap_contacts::proper::has_text;
use std::alloc::{AllocError, Global};
use std::collections::BTreeMap;

/// Contacts in groups.
pub(crate) type Groups<'a> = Vec<Vec<Tally<'a>>>;

/// The contacts whose answers share an email, ASCII case aside, unless this library and git answer all of them alike.
/// So a group may be one contact that git answers otherwise. In the order of their first members.
pub(crate) fn groups_by_email<'a>(
    alloc: Global,
    answers: &Answers<'_, 'a>,
    contacts: &[Tally<'a>],
) -> Result<Groups<'a>, AllocError>
    ensures { IfOk result (λ found. map tallies_in found.items
        ≡ groups email_key answers.now (map tally_of contacts.now)) }
{
    let by_email = by_email(alloc, answers, contacts)?;
    let mut groups = grouped(alloc, &by_email)?;
    keep_unlike(answers, &mut groups);
    Ok(groups)
}

/// The contacts whose answers are linked, directly or through others, unless this library and git answer all of them
/// alike. In the order of their first members.
pub(crate) fn groups_by_links<'a>(
    alloc: Global,
    answers: &Answers<'_, 'a>,
    contacts: &[Tally<'a>],
    members: &[Member<'_, 'a>],
    links: Vec<Link>,
) -> Result<Groups<'a>, AllocError>
    requires members { AreMembers answers.now (map tally_of contacts.now) members.now }
    requires links { (marks_of : Contact → List Text) × AreLinksOf marks_of members.now (links_of links.items) }
    ensures { let h = answers.now in
        let ts = map tally_of contacts.now in
        (marks_of : Contact → List Text) → AreLinksOf marks_of members.now (links_of links.items)
        → IfOk result (λ found. (class : Contact → Text) × AreClassesBy marks_of (spec_answers h ts) class
        × (map tallies_in found.items ≡ groups class h ts)) }
{
    let classes = classes_by(alloc, members, links)?;
    groups_by_class(alloc, answers, contacts, classes.as_slice())
}

// The contacts whose answers have one class, if not all are answered alike. `classes` are those of the contacts'
// answers; a contact with an empty one is in no group.
fn groups_by_class<'a>(
    alloc: Global,
    answers: &Answers<'_, 'a>,
    contacts: &[Tally<'a>],
    classes: &[Vec<u8>],
) -> Result<Groups<'a>, AllocError>
    requires { length classes.now ≡ length contacts.now }
    ensures { (class : Contact → Text) → map (λ v. folded v.items) classes.now
        ≡ map (text_of class answers.now) (map tally_of contacts.now)
        → IfOk result (λ found. map tallies_in found.items ≡ groups class answers.now (map tally_of contacts.now)) }
{
    let by_class = by_class(alloc, contacts, classes)?;
    let mut groups = grouped(alloc, &by_class)?;
    keep_unlike(answers, &mut groups);
    Ok(groups)
}

// The contacts that have a class, by that.
fn by_class<'k, 'a>(
    alloc: Global,
    contacts: &[Tally<'a>],
    classes: &'k [Vec<u8>],
) -> Result<Vec<(Key<'k>, Tally<'a>)>, AllocError>
    requires { length classes.now ≡ length contacts.now }
    ensures { (text : ATally → Text) → map (λ v. folded v.items) classes.now ≡ map text (map tally_of contacts.now)
        → IfOk result (λ keyed. map keyed_of keyed.items
        ≡ keyed_by text (filter (λ t. not (bytes_eq (text t) [])) (map tally_of contacts.now))) }
{
    let mut keyed = Vec::new(alloc);
    for (index, contact) in contacts.iter().enumerate() {
        let text = classes[index].as_slice();
        if has_text(text) {
            keyed.push((Key::new(text), *contact))?;
        }
    }
    Ok(keyed)
}

// Drops the groups that this library and git answer alike.
fn keep_unlike<'a>(answers: &Answers<'_, 'a>, groups: &mut Groups<'a>)
    ensures { map tallies_in groups.new.items
        ≡ filter (λ g. not (are_alike answers.now (contacts g))) (map tallies_in groups.old.items) }
{
    groups.retain(|group| !answers.are_alike(group.as_slice()));
}

/// The contacts of a group by their old emails, ASCII case aside, in the order of first occurrence.
pub(crate) fn by_old_email<'a>(alloc: Global, group: &[Tally<'a>]) -> Result<Groups<'a>, AllocError>
    ensures whole { IfOk result (λ parts. map (λ p. contacts (tallies_in p)) parts.items
        ≡ map (λ email. of_old_email email (contacts_of group.now))
        (distinct (map (λ c. folded c.email) (contacts_of group.now)))) }
    ensures each { IfOk result (λ parts. All IsPart parts.items) }
{
    let mut keyed = Vec::with_capacity(alloc, group.len())?;
    for contact in group {
        keyed.push((Key::new(contact.email), *contact))?;
    }
    grouped(alloc, &keyed)
}

// The contacts whose answers have an email, by that.
fn by_email<'a>(
    alloc: Global,
    answers: &Answers<'_, 'a>,
    contacts: &[Tally<'a>],
) -> Result<Vec<(Key<'a>, Tally<'a>)>, AllocError>
    ensures { IfOk result (λ keyed. map keyed_of keyed.items
        ≡ keyed_by (text_of email_key answers.now)
        (filter (λ t. not (bytes_eq (text_of email_key answers.now t) [])) (map tally_of contacts.now))) }
{
    let mut keyed = Vec::new(alloc);
    for contact in contacts {
        let text = answers.ours(contact).email;
        if has_text(text) {
            keyed.push((Key::new(text), *contact))?;
        }
    }
    Ok(keyed)
}

// A group for each key, in the order of first occurrence. A new key gets the next number.
fn grouped<'k, 'a>(alloc: Global, keyed: &[(Key<'k>, Tally<'a>)]) -> Result<Groups<'a>, AllocError>
    ensures { IfOk result (λ groups. map tallies_in groups.items ≡ grouped (map keyed_of keyed.now)) }
{
    let mut numbers = BTreeMap::new(alloc);
    let mut groups = Vec::new(alloc);
    for (key, contact) in keyed {
        let number = first_value(&mut numbers, *key, groups.len())?;
        add_to(alloc, &mut groups, number, contact)?;
    }
    Ok(groups)
}

// Adds a contact to the group with a number, which may be a new one.
fn add_to<'a>(
    alloc: Global,
    groups: &mut Groups<'a>,
    number: usize,
    contact: &Tally<'a>,
) -> Result<(), AllocError>
    requires { number ≤ length groups.old.items }
    ensures { OnOk result (map tallies_in groups.new.items
        ≡ with_member number (tally_of contact.now) (map tallies_in groups.old.items)) }
{
    if number == groups.len() {
        groups.push(Vec::with_capacity(alloc, 1)?)?;
    }
    groups[number].push(*contact)?;
    Ok(())
}

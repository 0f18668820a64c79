//! Contacts with their answers, and which of these may be linked.
ghost use Rattle.std.specs.Prelude.{◌≡◌, ◌≢◌, [], IfOk, List, filter, map};
ghost use Rattle.std.specs.List.{Contains};
ghost use Rattle.mailmap_contacts.specs.Answers.{tally_of};
ghost use Rattle.mailmap_contacts.specs.Folded.{folded_text};
ghost use Rattle.mailmap_entries.specs.Folding.{folded as spec_folded};
ghost use Rattle.mailmap_contacts.specs.Contacts.{Tally as ATally};
ghost use Rattle.mailmap_suggestions.specs.Forms.{Histories};
ghost use Rattle.mailmap_suggestions.specs.LinkViews.{AreMembers, AreRespelled, AreUnnamed, answer_in};
ghost use Rattle.mailmap_suggestions.specs.LinkViews.{has_own};
ghost use Rattle.mailmap_suggestions.specs.Links.{takes_part};
ghost use Rattle.mailmap_suggestions.specs.declared.members.Member.{Member as AMember};

use crate::answers::Answers;
use crate::keys::{Key, first_value};
use crate::shared::SharedEmails;
use mailmap_contacts::answers::Tally;
use mailmap_contacts::folded::Folded;
use mailmap_contacts::proper::{has_text, is_same};
use std::alloc::{AllocError, Global};
use std::collections::{BTreeMap, BTreeSet};

/// A contact with its answer.
#[derive(Clone, Copy)]
pub(crate) struct Member<'c, 'a> {
    pub(crate) contact: &'c Tally<'a>,
    pub(crate) answer: Tally<'a>,
    /// The index of the first contact with that answer.
    pub(crate) first: usize,
    /// Whether this is that contact.
    pub(crate) is_first: bool,
}

/// Contacts with their answers, in their order.
pub(crate) fn members_of<'c, 'a>(
    alloc: Global,
    answers: &Answers<'_, 'a>,
    contacts: &'c [Tally<'a>],
) -> Result<Vec<Member<'c, 'a>>, AllocError>
    ensures { IfOk result (λ members. AreMembers answers.now (map tally_of contacts.now) members.items) }
{
    let mut firsts = BTreeMap::new(alloc);
    let mut members = Vec::with_capacity(alloc, contacts.len())?;
    for (index, contact) in contacts.iter().enumerate() {
        let answer = answers.ours(contact);
        let key = (Key::new(answer.email), (answer.name, answer.email));
        let first = first_value(&mut firsts, key, index)?;
        members.push(Member {
            contact,
            answer,
            first,
            is_first: first == index,
        })?;
    }
    Ok(members)
}

/// Whether the texts of the answer itself are to be read with this contact: at the first one, unless it is the answer.
pub(crate) fn has_own(member: &Member<'_, '_>) -> bool
    ensures { result ≡ has_own member.now }
{
    member.is_first && !is_same(&member.answer, member.contact)
}

/// The contacts whose answers may be linked: the answer has an email. If several people share that, all contacts with
/// the answer, ASCII case aside, have names, and all answers with the email spell it in one way.
pub(crate) fn participants<'c, 'a>(
    alloc: Global,
    shared: &SharedEmails<'a>,
    members: &[Member<'c, 'a>],
) -> Result<Vec<Member<'c, 'a>>, AllocError>
    ensures { (h : Histories) (ts : List ATally) → AreMembers h ts members.now → IfOk result (λ found.
        found.items ≡ filter (λ m. takes_part shared.now h ts (answer_in m)) members.now) }
{
    let apart = those_apart(shared, members);
    let unnamed = unnamed(alloc, apart)?;
    let respelled = respelled(alloc, apart)?;
    let mut found = Vec::new(alloc);
    for member in members {
        if takes_part(shared, &unnamed, &respelled, member) {
            found.push(*member)?;
        }
    }
    Ok(found)
}

// The contacts to look at for answers that are kept apart: only those with shared emails may be.
fn those_apart<'m, 'c, 'a>(
    shared: &SharedEmails<'a>,
    members: &'m [Member<'c, 'a>],
) -> &'m [Member<'c, 'a>]
    ensures { shared.now ≢ [] → result.now ≡ members.now }
{
    if shared.is_empty() { &[] } else { members }
}

fn takes_part<'a>(
    shared: &SharedEmails<'a>,
    unnamed: &BTreeSet<(Folded<'a>, Folded<'a>)>,
    respelled: &BTreeSet<Folded<'a>>,
    member: &Member<'_, 'a>,
) -> bool
    ensures { (h : Histories) (ts : List ATally) (ms : List AMember) → AreMembers h ts ms
        → (shared.now ≢ [] → AreUnnamed ms unnamed.now) → (shared.now ≢ [] → AreRespelled ms respelled.now)
        → Contains ms member.now
        → result ≡ takes_part shared.now h ts (answer_in member.now) }
{
    let email = member.answer.email;
    let is_apart = !unnamed.contains(&folded(&member.answer))
        && !respelled.contains(&Folded { text: email });
    has_text(email) && (!shared.contains(email) || is_apart)
}

// An answer, ASCII case aside.
fn folded<'a>(answer: &Tally<'a>) -> (Folded<'a>, Folded<'a>)
    ensures name { folded_text result.0 ≡ spec_folded (tally_of answer.now).contact.name }
    ensures email { folded_text result.1 ≡ spec_folded (tally_of answer.now).contact.email }
{
    (Folded { text: answer.name }, Folded { text: answer.email })
}

// The answers with a contact without a name, ASCII case aside: an entry with an old name is for all its spellings.
fn unnamed<'a>(
    alloc: Global,
    members: &[Member<'_, 'a>],
) -> Result<BTreeSet<(Folded<'a>, Folded<'a>)>, AllocError>
    ensures { IfOk result (AreUnnamed members.now) }
{
    let mut unnamed = BTreeSet::new(alloc);
    for member in members {
        if !has_text(member.contact.name) {
            unnamed.insert(folded(&member.answer))?;
        }
    }
    Ok(unnamed)
}

// The emails that answers spell in several ways.
fn respelled<'a>(
    alloc: Global,
    members: &[Member<'_, 'a>],
) -> Result<BTreeSet<Folded<'a>>, AllocError>
    ensures { IfOk result (AreRespelled members.now) }
{
    let mut spellings = BTreeMap::new(alloc);
    let mut respelled = BTreeSet::new(alloc);
    for member in members {
        let text = member.answer.email;
        let key = Folded { text };
        let spelling = spellings.get(&key).copied().unwrap_or(text);
        if spelling != text {
            respelled.insert(key)?;
        }
        spellings.insert(key, spelling)?;
    }
    Ok(respelled)
}

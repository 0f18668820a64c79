//! Lines that are suggested for contacts, and the answers to the contacts with these lines appended: from bytes to
//! bytes.
ghost use Rattle.std.specs.Prelude.{◌≡◌, ◌++◌, Bool, List, None, IfOk, OnOk, map};
ghost use Rattle.bstr.specs.Text.{lines_of};
ghost use Rattle.gix_mailmap.specs.Entries.{Mapping};
ghost use Rattle.gix_mailmap.specs.Findings.{first_read_otherwise};
ghost use Rattle.gix_mailmap.specs.Folding.{Text};
ghost use Rattle.gix_mailmap.specs.Lines.{mappings_of};
ghost use Rattle.gix_mailmap.specs.Positions.{whole_lines};
ghost use Rattle.gix_mailmap.specs.Semantics.{IsNormal};
ghost use Rattle.gix_mailmap.specs.CountedContacts.{answer_to, contacts_from, tallied};
ghost use Rattle.gix_mailmap.specs.Counts.{AreContactsOf, tally_of};
ghost use Rattle.gix_mailmap.specs.Printed.{IsSuggested};
ghost use Rattle.gix_mailmap.specs.Suggestions.{GroupClasses};
ghost use Rattle.caller_promises.specs.Suggested.{HoldNoZero, IsEdited, SelectsAppended, UnitesAppended};
ghost use Rattle.caller_promises.specs.Suggested.{contact_in, contacts_in, mappings_in, with_last};

use gix_mailmap::Snapshot;
use gix_mailmap::actor::{Signature, SignatureRef};
use gix_mailmap::answers::Tally;
use gix_mailmap::counter::{ContactCounter, Contacts};
use gix_mailmap::laws::{
    law_headline, law_line_feeds, law_no_zero, law_pieces, law_read_alike, law_selected,
    law_suggested_text, law_suggestions, law_tallied, law_text_after, law_whole_lines,
};
use gix_mailmap::snapshot::Source;
use gix_mailmap::suggestions::suggest;
use gix_mailmap::text::{feed_after, push_suggestion};
use std::alloc::{AllocError, Global};

/// What is suggested for contacts, and the answers to them with that.
#[derive(Drop)]
pub struct Suggested {
    /// The text to append to the last mailmap.
    pub text: Vec<u8>,
    /// The answers to the contacts with it appended, each once, in the order in which the contacts first come.
    pub answers: Vec<Signature>,
}

/// Suggests lines for the contacts in a text, appends them to the last mailmap, and answers the contacts.
///
/// If git reads all lines of the mailmaps as this library does, it does so with these lines, too, and contacts whose
/// answers have one email are one by both; but no one changes at an email that several people share.
pub fn suggest_and_answer(
    alloc: Global,
    others: &[&[u8]],
    last: &[u8],
    contacts: &[u8],
) -> Result<Suggested, AllocError>
    ensures text { IfOk result (λ s. IsSuggested (with_last (map (λ b. b.now) others.now) last.now)
        (lines_of contacts.now) s.text.items) }
    ensures answers { IfOk result (λ s. map contact_in s.answers.items
        ≡ map (λ t. answer_to (mappings_in (with_last (map (λ b. b.now) others.now) (last.now ++ s.text.items))) t.contact)
        (contacts_in contacts.now)) }
    ensures united { first_read_otherwise (with_last (map (λ b. b.now) others.now) last.now) ≡ None
        → HoldNoZero contacts.now
        → IfOk result (λ s. UnitesAppended (map (λ b. b.now) others.now) last.now s.text.items contacts.now) }
{
    law_whole_lines();
    let counted = count(alloc, contacts)?;
    let mailmaps = with_last(alloc, others, last)?;
    let text = text_for(alloc, mailmaps.as_slice(), &counted)?;
    let answers = answer_suggested(alloc, others, last, &text, contacts)?;
    Ok(Suggested { text, answers })
}

/// Answers the contacts with a text appended to the last mailmap.
///
/// If the text is what is suggested for them, as this library makes it or `mailmap_verify --suggest` writes it, the answers
/// are those that `suggest_and_answer` promises.
pub fn answer_suggested(
    alloc: Global,
    others: &[&[u8]],
    last: &[u8],
    text: &[u8],
    contacts: &[u8],
) -> Result<Vec<Signature>, AllocError>
    ensures answers { IfOk result (λ answers. map contact_in answers.items
        ≡ map (λ t. answer_to (mappings_in (with_last (map (λ b. b.now) others.now) (last.now ++ text.now))) t.contact)
        (contacts_in contacts.now)) }
    ensures united { let mailmaps = with_last (map (λ b. b.now) others.now) last.now in
        IsSuggested mailmaps (whole_lines contacts.now) text.now → first_read_otherwise mailmaps ≡ None
        → HoldNoZero contacts.now
        → OnOk result (UnitesAppended (map (λ b. b.now) others.now) last.now text.now contacts.now) }
{
    law_line_feeds();
    law_no_zero();
    law_pieces();
    law_read_alike();
    law_suggested_text();
    law_suggestions();
    law_tallied();
    law_text_after();
    law_whole_lines();
    let counted = count(alloc, contacts)?;
    answers_with(alloc, others, last, text, &counted)
}

/// Answers the contacts with an edited text appended to the last mailmap.
///
/// If the text is what was suggested, without the `#?` before the lines of some whole blocks, each contact of such a
/// block gets the proper answer of the last one that has it, here and in git, and the others are answered as without
/// them. So is a contact in a block whose line some mailmap had before with a `#?`: that block doesn't change it. Left
/// out are contacts of a block that is too long for git, if one of them is in one of these blocks.
pub fn answer_selected(
    alloc: Global,
    others: &[&[u8]],
    last: &[u8],
    text: &[u8],
    contacts: &[u8],
) -> Result<Vec<Signature>, AllocError>
    ensures answers { IfOk result (λ answers. map contact_in answers.items
        ≡ map (λ t. answer_to (mappings_in (with_last (map (λ b. b.now) others.now) (last.now ++ text.now))) t.contact)
        (contacts_in contacts.now)) }
    ensures selected { (c : GroupClasses) (passes next_passes : Text → Bool)
        → let mailmaps = with_last (map (λ b. b.now) others.now) last.now in
        IsEdited mailmaps contacts.now c passes next_passes text.now
        → first_read_otherwise mailmaps ≡ None → HoldNoZero contacts.now
        → OnOk result (SelectsAppended (map (λ b. b.now) others.now) last.now text.now contacts.now c passes next_passes) }
{
    law_line_feeds();
    law_no_zero();
    law_pieces();
    law_read_alike();
    law_selected();
    law_suggested_text();
    law_tallied();
    law_text_after();
    let counted = count(alloc, contacts)?;
    answers_with(alloc, others, last, text, &counted)
}

fn count(alloc: Global, contacts: &[u8]) -> Result<Contacts, AllocError>
    ensures { IfOk result (AreContactsOf (lines_of contacts.now)) }
{
    let mut counter = ContactCounter::new(alloc)?;
    counter.add_lines(contacts)?;
    counter.into_contacts()
}

fn with_last<'a>(
    alloc: Global,
    others: &[&'a [u8]],
    last: &'a [u8],
) -> Result<Vec<&'a [u8]>, AllocError>
    ensures { IfOk result (λ all. map (λ b. b.now) all.items ≡ with_last (map (λ b. b.now) others.now) last.now) }
{
    let mut all = Vec::from_slice(alloc, others)?;
    all.push(last)?;
    Ok(all)
}

/// The text that is suggested for contacts that were counted.
pub fn text_for(
    alloc: Global,
    mailmaps: &[&[u8]],
    contacts: &Contacts,
) -> Result<Vec<u8>, AllocError>
    ensures { (lines : List Text) → AreContactsOf lines contacts.now
        → IfOk result (λ text. IsSuggested (map (λ b. b.now) mailmaps.now) lines text.items) }
{
    let found = suggest(alloc, mailmaps, contacts)?;
    let mut text = Vec::new(alloc);
    if !found.is_empty() {
        text.extend_from_slice(feed_after(mailmaps))?;
    }
    for suggestion in &found {
        push_suggestion(&mut text, suggestion)?;
    }
    Ok(text)
}

/// The answers to contacts that were counted, each once, with a text appended to the last mailmap.
pub fn answers_with(
    alloc: Global,
    others: &[&[u8]],
    last: &[u8],
    text: &[u8],
    contacts: &Contacts,
) -> Result<Vec<Signature>, AllocError>
    ensures { (lines : List Text) → AreContactsOf lines contacts.now
        → IfOk result (λ answers. map contact_in answers.items
        ≡ map (λ t. answer_to (mappings_in (with_last (map (λ b. b.now) others.now) (last.now ++ text.now))) t.contact)
        (tallied (contacts_from 1 lines))) }
{
    let whole = joined(alloc, last, text)?;
    let mut snapshot = merged(alloc, others)?;
    merge(&mut snapshot, &whole)?;
    answers_to(alloc, &snapshot, contacts)
}

fn joined(alloc: Global, text: &[u8], more: &[u8]) -> Result<Vec<u8>, AllocError>
    ensures { IfOk result (λ whole. whole.items ≡ text.now ++ more.now) }
{
    let mut whole = Vec::from_slice(alloc, text)?;
    whole.extend_from_slice(more)?;
    Ok(whole)
}

// A snapshot of mailmaps, one after the other.
fn merged(alloc: Global, mailmaps: &[&[u8]]) -> Result<Snapshot, AllocError>
    ensures { IfOk result (IsNormal (mappings_in (map (λ b. b.now) mailmaps.now))) }
{
    law_headline();
    let mut snapshot = Snapshot::empty(alloc);
    for mailmap in mailmaps {
        merge(&mut snapshot, mailmap)?;
    }
    Ok(snapshot)
}

fn merge(snapshot: &mut Snapshot, mailmap: &[u8]) -> Result<(), AllocError>
    ensures { OnOk result ((h : List Mapping) → IsNormal h snapshot.old
        → IsNormal (h ++ mappings_of mailmap.now) snapshot.new) }
{
    snapshot.merge_source(&Source::Buffer(mailmap))
}

// The answers to contacts that were counted, each once.
fn answers_to(
    alloc: Global,
    snapshot: &Snapshot,
    contacts: &Contacts,
) -> Result<Vec<Signature>, AllocError>
    ensures { (h : List Mapping) (lines : List Text) → IsNormal h snapshot.now → AreContactsOf lines contacts.now
        → IfOk result (λ answers. map contact_in answers.items
        ≡ map (λ t. answer_to h t.contact) (tallied (contacts_from 1 lines))) }
{
    let contacts = contacts.in_order(alloc)?;
    let mut answers = Vec::with_capacity(alloc, contacts.len())?;
    for contact in &contacts {
        answers.push(answer_to(alloc, snapshot, contact)?)?;
    }
    Ok(answers)
}

fn answer_to(
    alloc: Global,
    snapshot: &Snapshot,
    contact: &Tally<'_>,
) -> Result<Signature, AllocError>
    ensures { (h : List Mapping) → IsNormal h snapshot.now
        → IfOk result (λ s. contact_in s ≡ answer_to h (tally_of contact.now).contact) }
{
    snapshot.resolve(
        alloc,
        SignatureRef {
            name: contact.name,
            email: contact.email,
            time: "",
        },
    )
}

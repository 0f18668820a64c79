//! Findings about contacts: answers that may belong to one person, or one email to several, and answers of git.
ghost use Rattle.std.specs.Prelude.{◌≡◌, ◌++◌, IfOk, OnOk, List, Some, map, option_map, true};
ghost use Rattle.std.specs.List.{flat_map};
ghost use Rattle.std.specs.List.Sorted.{IsPermutation, IsSortedByKey};
ghost use Rattle.mailmap_contacts.specs.Answers.{tally_of};
ghost use Rattle.mailmap_contacts.specs.Contacts.{answered, both_seen, contacts_from, seen_where, tallied};
ghost use Rattle.mailmap_contacts.specs.Counts.{AreContactsOf, SameTallies};
ghost use Rattle.mailmap_entries.specs.Folding.{Text};
ghost use Rattle.mailmap_suggestions.specs.ContactFindings.{AreContactFindings, compared_with as spec_compared_with};
ghost use Rattle.mailmap_suggestions.specs.ContactFindings.{finding_place, findings_about as spec_findings_about};
ghost use Rattle.mailmap_suggestions.specs.ContactFindings.{git_answers as spec_git_answers, group_findings};
ghost use Rattle.mailmap_suggestions.specs.ContactFindings.{likeness_rank, no_contact, others_like, place_cmp};
ghost use Rattle.mailmap_suggestions.specs.ContactFindings.{seen_among as spec_seen_among};
ghost use Rattle.mailmap_suggestions.specs.ContactFindings.{seen_answer as spec_seen_answer, several_people};
ghost use Rattle.mailmap_suggestions.specs.Histories.{histories_of};
ghost use Rattle.mailmap_suggestions.specs.FindingViews.{finding_view};
ghost use Rattle.mailmap_suggestions.specs.Views.{suggestion_of};

use crate::answers::Answers;
use crate::git_contacts::answers_otherwise;
use crate::histories::Histories;
use crate::kinds::Kind;
use crate::suggestions::{Suggestion, suggest};
use mailmap_contacts::answers::Tally;
use mailmap_contacts::counter::Contacts;
use mailmap_contacts::occurrences::{Occurrences, add_to, sum_of};
use mailmap_contacts::proper::{is_same, proper_of};
use std::alloc::{AllocError, Global};
use std::collections::BTreeMap;
use std::marker::Model;

/// What makes one answer like another.
#[derive(Clone, Copy, Debug, PartialEq, Eq)]
pub enum Likeness {
    /// They have one email, whatever the case of ASCII letters.
    Email,
    /// They have one name, directly or through others.
    Name,
    /// Their names are alike, directly or through others.
    AlikeName,
    /// One has the login of the other's email as its name, directly or through others.
    Login,
}

/// A finding about contacts.
#[derive(Clone, Copy)]
pub enum ContactFinding<'a> {
    /// The line with this number is neither blank nor a contact.
    NoContact(usize),
    /// Several people share the email, which comes so often.
    SharedEmail(&'a [u8], Occurrences),
    /// The first answer is like the second one, which is the proper one of those that are alike.
    IsLike(Likeness, Tally<'a>, Tally<'a>),
    /// git answers this to the contact on its first line, as git reads it, and this library something else.
    GitAnswers(Tally<'a>),
}

// How often each answer comes, and where first.
#[derive(Drop)]
struct Seen<'a> {
    by_answer: BTreeMap<(&'a [u8], &'a [u8]), Occurrences>,
}

impl<'a> Model for Seen<'a> {
    ghost use Rattle.std.specs.List.Sorted.{IsStrictlySortedBy};
    ghost use Rattle.std.specs.Map.{keys_of};
    ghost use Rattle.std.specs.Ordering.{on};
    ghost use Rattle.std.specs.Prelude.{List, map};
    ghost use Rattle.mailmap_contacts.specs.Answers.{answer_key, answer_key_tally};
    ghost use Rattle.mailmap_contacts.specs.Contacts.{Tally, contact_cmp};

    ghost Value = { List Tally };

    ghost view = { λ s. map answer_key_tally s.by_answer.entries };

    ghost invariant = { λ s. IsStrictlySortedBy (on answer_key contact_cmp) (keys_of s.by_answer.entries) };
}

/// The findings about contacts that were counted, in the order of the lines: lines that are neither blank nor contacts,
/// answers that are not the proper one of a group for which entries are suggested, emails of several people, and
/// contacts, as git reads them, that it answers otherwise. On one line they come in the order of [`ContactFinding`] and
/// [`Likeness`], but emails of several people after those with one email.
///
/// Answers count as often as they come without any suggestion. Of answers with one name that is so for the proper one,
/// too: it is the most frequent one. Groups that are remembered have no findings.
pub fn contact_findings<'a>(
    alloc: Global,
    buffers: &[&'a [u8]],
    contacts: &'a Contacts,
) -> Result<Vec<ContactFinding<'a>>, AllocError>
    ensures { (lines : List Text) → AreContactsOf lines contacts.now → IfOk result (λ found.
        AreContactFindings (map (λ b. b.now) buffers.now) lines (map finding_view found.items)) }
{
    let suggestions = suggest(alloc, buffers, contacts)?;
    let mut findings = findings_with(alloc, buffers, &suggestions, contacts)?;
    sort_by_places(&mut findings);
    Ok(findings)
}

// In no order, like those of `findings_about`.
fn findings_with<'a>(
    alloc: Global,
    buffers: &[&'a [u8]],
    suggestions: &[Suggestion<'a>],
    contacts: &'a Contacts,
) -> Result<Vec<ContactFinding<'a>>, AllocError>
    ensures { (lines : List Text) → AreContactsOf lines contacts.now → IfOk result (λ found. map finding_view found.items
        ≡ spec_findings_about (map suggestion_of suggestions.now) (histories_of (map (λ b. b.now) buffers.now)) lines) }
{
    let histories = Histories::read(alloc, buffers)?;
    let answers = Answers::new(alloc, &histories)?;
    findings_about(alloc, &answers, suggestions, contacts)
}

// In no order.
fn findings_about<'a>(
    alloc: Global,
    answers: &Answers<'_, 'a>,
    suggestions: &[Suggestion<'a>],
    contacts: &'a Contacts,
) -> Result<Vec<ContactFinding<'a>>, AllocError>
    ensures { (lines : List Text) → AreContactsOf lines contacts.now → IfOk result (λ found. map finding_view found.items
        ≡ spec_findings_about (map suggestion_of suggestions.now) answers.now lines) }
{
    let tallies = contacts.in_order(alloc)?;
    let seen = seen_answers(alloc, answers, &tallies)?;
    findings_among(alloc, answers, suggestions, contacts, &seen)
}

// In no order, given how often the answers to the contacts come.
fn findings_among<'a>(
    alloc: Global,
    answers: &Answers<'_, 'a>,
    suggestions: &[Suggestion<'a>],
    contacts: &'a Contacts,
    seen: &Seen<'a>,
) -> Result<Vec<ContactFinding<'a>>, AllocError>
    ensures { (lines : List Text) → AreContactsOf lines contacts.now
        → SameTallies seen.now (map (answered answers.now.ours) (tallied (contacts_from 1 lines)))
        → IfOk result (λ found. map finding_view found.items
        ≡ spec_findings_about (map suggestion_of suggestions.now) answers.now lines) }
{
    let mut findings = Vec::new(alloc);
    push_no_contacts(&mut findings, contacts.lines_without_contact())?;
    push_groups(alloc, &mut findings, seen, suggestions)?;
    push_git_answers(&mut findings, &answers_otherwise(alloc, answers, contacts)?)?;
    Ok(findings)
}

fn seen_answers<'a>(
    alloc: Global,
    answers: &Answers<'_, 'a>,
    contacts: &[Tally<'a>],
) -> Result<Seen<'a>, AllocError>
    ensures { IfOk result (λ seen. SameTallies seen (map (answered answers.now.ours) (map tally_of contacts.now))) }
{
    let mut by_answer = BTreeMap::new(alloc);
    for contact in contacts {
        let answer = answers.ours(contact);
        add_to(&mut by_answer, (answer.name, answer.email), answer.seen)?;
    }
    Ok(Seen { by_answer })
}

fn push_no_contacts(
    findings: &mut Vec<ContactFinding<'_>>,
    lines_without_contact: &[usize],
) -> Result<(), AllocError>
    ensures { OnOk result (map finding_view findings.new.items
        ≡ map finding_view findings.old.items ++ map no_contact lines_without_contact.now) }
{
    for line in lines_without_contact {
        findings.push(ContactFinding::NoContact(*line))?;
    }
    Ok(())
}

fn push_groups<'a>(
    alloc: Global,
    findings: &mut Vec<ContactFinding<'a>>,
    seen: &Seen<'a>,
    suggestions: &[Suggestion<'a>],
) -> Result<(), AllocError>
    ensures { OnOk result (map finding_view findings.new.items ≡ map finding_view findings.old.items
        ++ flat_map (group_findings seen.now) (map suggestion_of suggestions.now)) }
{
    for suggestion in suggestions {
        push_group(alloc, findings, seen, suggestion)?;
    }
    Ok(())
}

fn push_group<'a>(
    alloc: Global,
    findings: &mut Vec<ContactFinding<'a>>,
    seen: &Seen<'a>,
    suggestion: &Suggestion<'a>,
) -> Result<(), AllocError>
    ensures { OnOk result (map finding_view findings.new.items ≡ map finding_view findings.old.items
        ++ group_findings seen.now (suggestion_of suggestion.now)) }
{
    let answers = seen_among(alloc, seen, &suggestion.answers)?;
    let best = compared_with(seen, suggestion, &answers);
    match suggestion.kind {
        Kind::Email => push_others(findings, Likeness::Email, best, &answers),
        Kind::SharedEmail(email) => push_shared_email(findings, email, &answers),
        Kind::Name => push_others(findings, Likeness::Name, best, &answers),
        Kind::Alike => push_others(findings, Likeness::AlikeName, best, &answers),
        Kind::Login(_) => push_others(findings, Likeness::Login, best, &answers),
    }
}

// Those of some answers that are seen, as they are seen.
fn seen_among<'a>(
    alloc: Global,
    seen: &Seen<'a>,
    answers: &[Tally<'a>],
) -> Result<Vec<Tally<'a>>, AllocError>
    ensures { IfOk result (λ found. map tally_of found.items
        ≡ spec_seen_among seen.now (map tally_of answers.now)) }
{
    let mut found = Vec::new(alloc);
    for answer in answers {
        if let Some(answer) = seen_answer(seen, answer) {
            found.push(answer)?;
        }
    }
    Ok(found)
}

fn seen_answer<'a>(seen: &Seen<'a>, answer: &Tally<'a>) -> Option<Tally<'a>>
    ensures { option_map tally_of result
        ≡ spec_seen_answer seen.now (tally_of answer.now).contact }
{
    let seen = *seen.by_answer.get(&(answer.name, answer.email))?;
    Some(Tally {
        name: answer.name,
        email: answer.email,
        seen,
    })
}

// The answer that the others of a group are compared with.
fn compared_with<'a>(
    seen: &Seen<'a>,
    suggestion: &Suggestion<'a>,
    answers: &[Tally<'a>],
) -> Option<Tally<'a>>
    ensures { option_map tally_of result ≡ spec_compared_with seen.now
        (suggestion_of suggestion.now) (map tally_of answers.now) }
{
    match suggestion.kind {
        Kind::Name => proper_of(answers).copied(),
        _ => seen_answer(seen, &suggestion.proper),
    }
}

fn push_others<'a>(
    findings: &mut Vec<ContactFinding<'a>>,
    likeness: Likeness,
    best: Option<Tally<'a>>,
    answers: &[Tally<'a>],
) -> Result<(), AllocError>
    ensures { OnOk result (map finding_view findings.new.items ≡ map finding_view findings.old.items
        ++ others_like likeness (option_map tally_of best.entry) (map tally_of answers.now)) }
{
    let Some(best) = best else {
        return Ok(());
    };
    for answer in answers {
        if !is_same(answer, &best) {
            findings.push(ContactFinding::IsLike(likeness, *answer, best))?;
        }
    }
    Ok(())
}

fn push_shared_email<'a>(
    findings: &mut Vec<ContactFinding<'a>>,
    email: &'a [u8],
    answers: &[Tally<'a>],
) -> Result<(), AllocError>
    ensures { OnOk result (map finding_view findings.new.items ≡ map finding_view findings.old.items
        ++ several_people email.now (map tally_of answers.now)) }
{
    if let Some(seen) = all_seen(answers)? {
        findings.push(ContactFinding::SharedEmail(email, seen))?;
    }
    Ok(())
}

// The occurrences of all of some answers together. Fails if their count exceeds its type.
fn all_seen(answers: &[Tally<'_>]) -> Result<Option<Occurrences>, AllocError>
    ensures { IfOk result (λ seen. seen ≡ seen_where (λ c. true) (map tally_of answers.now)) }
{
    let mut seen = None;
    for answer in answers {
        seen = Some(seen_too(seen, answer.seen)?);
    }
    Ok(seen)
}

fn seen_too(before: Option<Occurrences>, more: Occurrences) -> Result<Occurrences, AllocError>
    ensures { IfOk result (λ seen. Some seen ≡ both_seen before (Some more)) }
{
    let Some(before) = before else {
        return Ok(more);
    };
    sum_of(before, more).ok_or(AllocError)
}

fn push_git_answers<'a>(
    findings: &mut Vec<ContactFinding<'a>>,
    git_answers: &[Tally<'a>],
) -> Result<(), AllocError>
    ensures { OnOk result (map finding_view findings.new.items
        ≡ map finding_view findings.old.items ++ map spec_git_answers (map tally_of git_answers.now)) }
{
    for answer in git_answers {
        findings.push(ContactFinding::GitAnswers(*answer))?;
    }
    Ok(())
}

fn sort_by_places(findings: &mut Vec<ContactFinding<'_>>)
    ensures whole { IsPermutation (map finding_view findings.old.items) (map finding_view findings.new.items) }
    ensures in_order { IsSortedByKey finding_place place_cmp (map finding_view findings.new.items) }
{
    findings.sort_unstable_by_key(place_of);
}

// The line of a finding, and its rank among those of the line.
fn place_of(finding: &ContactFinding<'_>) -> (usize, u8)
    ensures { result ≡ finding_place (finding_view finding.now) }
{
    match finding {
        ContactFinding::NoContact(line) => (*line, 0),
        ContactFinding::SharedEmail(_, seen) => (seen.first_line, 2),
        ContactFinding::IsLike(likeness, answer, _) => (answer.seen.first_line, rank_of(*likeness)),
        ContactFinding::GitAnswers(answer) => (answer.seen.first_line, 6),
    }
}

fn rank_of(likeness: Likeness) -> u8
    ensures { result ≡ likeness_rank likeness }
{
    match likeness {
        Likeness::Email => 1,
        Likeness::Name => 3,
        Likeness::AlikeName => 4,
        Likeness::Login => 5,
    }
}

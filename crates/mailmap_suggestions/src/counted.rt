//! The answers to the contacts of a group, counted, and the proper one of them.
ghost use Rattle.std.specs.Prelude.{◌≡◌, IfOk, map};
ghost use Rattle.mailmap_contacts.specs.Answers.{tally_of};
ghost use Rattle.mailmap_contacts.specs.Contacts.{tallied};
ghost use Rattle.mailmap_contacts.specs.Proper.{proper};
ghost use Rattle.mailmap_suggestions.specs.Counted.{by_frequency as spec_by_frequency, counted_answers, frequency_cmp};
ghost use Rattle.mailmap_suggestions.specs.Counted.{counted_git_answers, ranked};
ghost use Rattle.mailmap_suggestions.specs.GroupEntries.{contact_or_nobody, nobody as spec_nobody, of_one_person};
ghost use Rattle.mailmap_suggestions.specs.GroupEntries.{or_else};

use crate::answers::Answers;
use crate::shared::SharedEmails;
use mailmap_contacts::answers::{Tally, answers_in};
use mailmap_contacts::occurrences::{Occurrences, add_to};
use mailmap_contacts::proper::{has_text, proper_of};
use std::alloc::{AllocError, Global};
use std::cmp::Ordering;
use std::collections::BTreeMap;

/// The distinct answers of this library to the contacts of a group: the most frequent first, and of equally frequent
/// ones the first. Fails if memory runs out, or if a count exceeds its type.
pub(crate) fn counted_answers<'a>(
    alloc: Global,
    answers: &Answers<'_, 'a>,
    group: &[Tally<'a>],
) -> Result<Vec<Tally<'a>>, AllocError>
    ensures { IfOk result (λ found. map tally_of found.items ≡ counted_answers answers.now (map tally_of group.now)) }
{
    let mut all = Vec::with_capacity(alloc, group.len())?;
    for contact in group {
        all.push(answers.ours(contact))?;
    }
    by_frequency(alloc, &all)
}

/// The distinct answers of git to the contacts of a group that it answers otherwise than this library: the most
/// frequent first, and of equally frequent ones that to the most frequent contact. Fails as `counted_answers` does.
pub(crate) fn counted_git_answers<'a>(
    alloc: Global,
    answers: &Answers<'_, 'a>,
    group: &[Tally<'a>],
) -> Result<Vec<Tally<'a>>, AllocError>
    ensures { IfOk result (λ found. map tally_of found.items
        ≡ counted_git_answers answers.now (map tally_of group.now)) }
{
    let contacts = by_frequency(alloc, group)?;
    let others = answers.others_of_git(alloc, &contacts)?;
    by_frequency(alloc, &ranked(alloc, &others)?)
}

// These with their ranks in the place of their first lines.
fn ranked<'a>(alloc: Global, tallies: &[Tally<'a>]) -> Result<Vec<Tally<'a>>, AllocError>
    ensures { IfOk result (λ numbered. map tally_of numbered.items ≡ ranked 1 (map tally_of tallies.now)) }
{
    let mut numbered = Vec::with_capacity(alloc, tallies.len())?;
    for (index, tally) in tallies.iter().enumerate() {
        let seen = Occurrences {
            count: tally.seen.count,
            first_line: index + 1,
        };
        numbered.push(Tally {
            name: tally.name,
            email: tally.email,
            seen,
        })?;
    }
    Ok(numbered)
}

// Each distinct contact once, with all its occurrences: the most frequent first, of equally frequent ones the first.
fn by_frequency<'a>(alloc: Global, tallies: &[Tally<'a>]) -> Result<Vec<Tally<'a>>, AllocError>
    ensures { IfOk result (λ found. map tally_of found.items ≡ spec_by_frequency (tallied (map tally_of tallies.now))) }
{
    let mut counts = BTreeMap::new(alloc);
    for tally in tallies {
        add_to(&mut counts, (tally.name, tally.email), tally.seen)?;
    }
    let mut found = answers_in(alloc, counts)?;
    found.sort_unstable_by(compare);
    Ok(found)
}

fn compare(a: &Tally<'_>, b: &Tally<'_>) -> Ordering
    ensures { result ≡ frequency_cmp (tally_of a.now) (tally_of b.now) }
{
    let counts = b.seen.count.cmp(&a.seen.count);
    let lines = a.seen.first_line.cmp(&b.seen.first_line);
    let contacts = a.name.cmp(b.name).then(a.email.cmp(b.email));
    counts.then(lines).then(contacts)
}

/// The proper one of counted answers, or nobody if there are none: of those with a name whose email is of one person,
/// or of those with a name, or of all.
#[tactic(auto, using(crate::proofs::Counting::or_else_by))]
pub(crate) fn proper_or_nobody<'a>(
    alloc: Global,
    shared: &SharedEmails<'a>,
    answers: &[Tally<'a>],
) -> Result<Tally<'a>, AllocError>
    ensures { IfOk result (λ best. (tally_of best).contact ≡ contact_or_nobody
        (proper (or_else (of_one_person shared.now (map tally_of answers.now)) (map tally_of answers.now)))) }
{
    let of_one = of_one_person(alloc, shared, answers)?;
    if of_one.is_empty() {
        Ok(best_or_nobody(answers))
    } else {
        Ok(best_or_nobody(&of_one))
    }
}

#[tactic(auto, using(crate::proofs::Forms::nobody_or))]
fn best_or_nobody<'a>(answers: &[Tally<'a>]) -> Tally<'a>
    ensures { (tally_of result).contact ≡ contact_or_nobody (proper (map tally_of answers.now)) }
{
    proper_of(answers).copied().unwrap_or(nobody())
}

/// An empty answer.
pub(crate) fn nobody<'a>() -> Tally<'a>
    ensures { (tally_of result).contact ≡ spec_nobody }
{
    Tally {
        name: b"",
        email: b"",
        seen: Occurrences {
            count: 0,
            first_line: 0,
        },
    }
}

fn of_one_person<'a>(
    alloc: Global,
    shared: &SharedEmails<'a>,
    answers: &[Tally<'a>],
) -> Result<Vec<Tally<'a>>, AllocError>
    ensures { IfOk result (λ found. map tally_of found.items ≡ of_one_person shared.now (map tally_of answers.now)) }
{
    let mut found = Vec::new(alloc);
    for answer in answers {
        if has_text(answer.name) && !shared.contains(answer.email) {
            found.push(*answer)?;
        }
    }
    Ok(found)
}

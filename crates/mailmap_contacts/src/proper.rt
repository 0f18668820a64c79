//! Finds the proper one of answers.
ghost use Rattle.std.specs.Prelude.{◌≡◌, IsFalse, IsTrue, Some, map, option_map};
ghost use Rattle.mailmap_contacts.specs.Answers.{tally_at, tally_of};
ghost use Rattle.mailmap_contacts.specs.Contacts.{same_contact};
ghost use Rattle.mailmap_contacts.specs.Proper as spec;
ghost use Rattle.mailmap_contacts.specs.Proper.{better};

use crate::answers::Tally;
use crate::occurrences::Occurrences;

// Whether the proper one so far, if there is one, stays so beside another one.
fn is_kept(best: Option<&Tally<'_>>, other: &Tally<'_>) -> bool
    ensures kept { IsTrue result → Some (better (option_map tally_at best.entry) (tally_of other.now))
        ≡ option_map tally_at best.entry }
    ensures not_kept { IsFalse result → better (option_map tally_at best.entry) (tally_of other.now)
        ≡ tally_of other.now }
{
    match best {
        Some(best) => !is_preferred(other, best),
        None => false,
    }
}

/// The proper one of answers, `None` if there are none.
#[tactic(auto, using(crate::proofs::Propers::proper_more))]
pub fn proper_of<'r, 'a>(answers: &'r [Tally<'a>]) -> Option<&'r Tally<'a>>
    ensures { option_map tally_at result ≡ spec.proper (map tally_of answers.now) }
{
    let mut best = None;
    for answer in answers {
        if is_kept(best, answer) {
            continue;
        }
        best = Some(answer);
    }
    best
}

/// Whether two answers have the same name and the same email, byte for byte.
pub fn is_same(a: &Tally<'_>, b: &Tally<'_>) -> bool
    ensures { result ≡ same_contact (tally_of a.now).contact (tally_of b.now).contact }
{
    a.name == b.name && a.email == b.email
}

fn is_preferred(a: &Tally<'_>, b: &Tally<'_>) -> bool
    ensures { result ≡ spec.is_preferred (tally_of a.now) (tally_of b.now) }
{
    match (has_text(a.name), has_text(b.name)) {
        (true, false) => true,
        (false, true) => false,
        _ => comes_more(a.seen, b.seen),
    }
}

/// Whether a text isn't empty.
pub fn has_text(text: &[u8]) -> bool
    ensures { result ≡ spec.has_text text.now }
{
    !text.is_empty()
}

// Whether something comes more often, or as often and first on an earlier line.
fn comes_more(a: Occurrences, b: Occurrences) -> bool
    ensures { result ≡ spec.comes_more a b }
{
    a.count > b.count || a.count == b.count && a.first_line < b.first_line
}

//! The texts that contacts count for.
ghost use Rattle.std.specs.Prelude.{◌≡◌, ◌++◌};
ghost use Rattle.std.proofs.Common.{rules};
ghost use Rattle.std.specs.Cmp.{partial_order_from_own_ties};
ghost use Rattle.std.specs.Cmp.Rules.{comparing};
ghost use Rattle.std.specs.List.{flat_map};
ghost use Rattle.std.specs.Ordering.{as_partial_cmp, eq_by_cmp};
ghost use Rattle.mailmap_snapshot.specs.Folding.{text_cmp};
ghost use Rattle.mailmap_contacts.proofs.Entries.{contact_total};
ghost use Rattle.mailmap_shortlog.specs.Answers.{answer_cmp, printed};
ghost use Rattle.shown_text.specs.Shown.{shown};

use std::cmp::Ordering;

/// What a contact counts for: a name, or a name and an email.
///
/// It only borrows them, so a long name takes no more memory if many answers have it. Answers are compared by the texts
/// that are printed for them.
#[derive(Clone, Copy)]
pub struct Answer<'a> {
    pub(crate) name: &'a [u8],
    // `None` if emails don't count
    pub(crate) email: Option<&'a [u8]>,
}

impl<'a> Answer<'a> {
    // The parts of its text. As in git, a space precedes the email even if the name is empty.
    #[tactic(auto, using(crate::proofs::Parts::shown_parts, crate::proofs::Parts::shown_alone))]
    pub(crate) fn parts(&self) -> [&'a [u8]; 4]
        ensures whole { flat_map (λ p. p.now) result ≡ printed self.now }
        ensures shown { flat_map (λ p. shown p.now) result ≡ shown (printed self.now) }
    {
        match self.email {
            Some(email) => [self.name, b" <".as_slice(), email, b">".as_slice()],
            None => [self.name, b"".as_slice(), b"".as_slice(), b"".as_slice()],
        }
    }
}

impl PartialEq for Answer<'_> {
    ghost eq = { eq_by_cmp answer_cmp };

    ghost laws = { Prim.search (comparing, rules, contact_total) };

    fn eq(&self, other: &Self) -> bool {
        self.cmp(other).is_eq()
    }
}

impl Eq for Answer<'_> {
    ghost laws = { Prim.search (comparing, rules, contact_total) };
}

impl PartialOrd for Answer<'_> {
    ghost partial_cmp = { as_partial_cmp answer_cmp };

    ghost laws = { partial_order_from_own_ties (Prim.search (comparing, rules, contact_total))
        (Prim.search (comparing, rules)) };

    fn partial_cmp(&self, other: &Self) -> Option<Ordering> {
        Some(self.cmp(other))
    }
}

impl Ord for Answer<'_> {
    ghost cmp = { answer_cmp };

    ghost total = { Prim.search (comparing, rules, contact_total) };

    ghost matches_partial_cmp = { Prim.search (comparing, rules) };

    ghost matches_eq = { Prim.search (comparing, rules) };

    #[tactic(auto, using(crate::proofs::Ordered::then_nothing))]
    fn cmp(&self, other: &Self) -> Ordering {
        compare_parts(&[], &self.parts(), &[], &other.parts())
    }
}

// Compares two texts in parts: the first part and the others. Parts are compared as slices and not byte by byte, which
// is much faster for long names.
fn compare_parts(x: &[u8], xs: &[&[u8]], y: &[u8], ys: &[&[u8]]) -> Ordering
    ensures { result ≡ text_cmp (x.now ++ flat_map (λ p. p.now) xs.now) (y.now ++ flat_map (λ p. p.now) ys.now) }
{
    let common = x.len().min(y.len());
    let fronts = x[..common].cmp(&y[..common]);
    if fronts.is_ne() {
        return fronts;
    }
    let (x, y) = (&x[common..], &y[common..]);
    if x.is_empty() {
        if let [next, rest @ ..] = xs {
            return compare_parts(next, rest, y, ys);
        }
    }
    if y.is_empty() {
        if let [next, rest @ ..] = ys {
            return compare_parts(x, xs, next, rest);
        }
    }
    x.len().cmp(&y.len())
}

//! Texts that are compared without the case of ASCII letters.
ghost use Rattle.std.specs.Cmp.{partial_order_from_own_ties};
ghost use Rattle.std.specs.Cmp.Lexicographic.{slice_cmp};
ghost use Rattle.std.specs.Cmp.Rules.{comparing};
ghost use Rattle.std.specs.Ordering.{as_partial_cmp, eq_by_cmp, nat_cmp, on};
ghost use Rattle.std.proofs.Common.{rules};
ghost use Rattle.mailmap_contacts.specs.Folded.{folded_text};

use mailmap_entries::fold::cmp_ignore_ascii_case;
use std::cmp::Ordering;

/// A text as a key: the case of ASCII letters doesn't count.
#[derive(Clone, Copy)]
pub struct Folded<'a> {
    pub text: &'a [u8],
}

impl PartialEq for Folded<'_> {
    ghost eq = { eq_by_cmp (on folded_text (slice_cmp nat_cmp)) };

    ghost laws = { Prim.search (comparing, rules) };

    fn eq(&self, other: &Self) -> bool {
        self.cmp(other).is_eq()
    }
}

impl Eq for Folded<'_> {
    ghost laws = { Prim.search (comparing, rules) };
}

impl PartialOrd for Folded<'_> {
    ghost partial_cmp = { as_partial_cmp (on folded_text (slice_cmp nat_cmp)) };

    ghost laws = { partial_order_from_own_ties (Prim.search (comparing, rules)) (Prim.search (comparing, rules)) };

    fn partial_cmp(&self, other: &Self) -> Option<Ordering> {
        Some(self.cmp(other))
    }
}

impl Ord for Folded<'_> {
    ghost cmp = { on folded_text (slice_cmp nat_cmp) };

    ghost total = { Prim.search (comparing, rules) };

    ghost matches_partial_cmp = { Prim.search (comparing, rules) };

    ghost matches_eq = { Prim.search (comparing, rules) };

    fn cmp(&self, other: &Self) -> Ordering {
        cmp_ignore_ascii_case(self.text, other.text)
    }
}

//! Texts that are compared without the case of ASCII letters, by their first bytes before they are read.
ghost use Rattle.std.specs.Cmp.{partial_order_from_own_ties};
ghost use Rattle.std.specs.Cmp.Lexicographic.{slice_cmp};
ghost use Rattle.std.specs.Cmp.Rules.{comparing};
ghost use Rattle.std.specs.Ordering.{as_partial_cmp, eq_by_cmp, nat_cmp, on};
ghost use Rattle.std.specs.BTreeMap.{get, is_at};
ghost use Rattle.std.specs.Prelude.{◌≡◌, IfOk, Some, cond, unwrap_or};
ghost use Rattle.std.proofs.Common.{rules};
ghost use Rattle.mailmap_entries.specs.Folding.{folded};
ghost use Rattle.mailmap_suggestions.specs.Keys.{key_text};

use mailmap_entries::fold::prefix::Prefixed;
use std::alloc::AllocError;
use std::cmp::Ordering;
use std::collections::BTreeMap;

/// A text as a key: the case of ASCII letters doesn't count.
#[derive(Clone, Copy)]
pub(crate) struct Key<'a> {
    prefixed: Prefixed<'a>,
}

impl<'a> Key<'a> {
    pub(crate) fn new(text: &'a [u8]) -> Key<'a>
        ensures { key_text result ≡ folded text.now }
    {
        Key {
            prefixed: Prefixed::new(text),
        }
    }
}

impl PartialEq for Key<'_> {
    ghost eq = { eq_by_cmp (on key_text (slice_cmp nat_cmp)) };

    ghost laws = { Prim.search (comparing, rules) };

    fn eq(&self, other: &Self) -> bool {
        self.cmp(other).is_eq()
    }
}

impl Eq for Key<'_> {
    ghost laws = { Prim.search (comparing, rules) };
}

impl PartialOrd for Key<'_> {
    ghost partial_cmp = { as_partial_cmp (on key_text (slice_cmp nat_cmp)) };

    ghost laws = { partial_order_from_own_ties (Prim.search (comparing, rules)) (Prim.search (comparing, rules)) };

    fn partial_cmp(&self, other: &Self) -> Option<Ordering> {
        Some(self.cmp(other))
    }
}

impl Ord for Key<'_> {
    ghost cmp = { on key_text (slice_cmp nat_cmp) };

    ghost total = { Prim.search (comparing, rules) };

    ghost matches_partial_cmp = { Prim.search (comparing, rules) };

    ghost matches_eq = { Prim.search (comparing, rules) };

    fn cmp(&self, other: &Self) -> Ordering {
        self.prefixed.compare(other.prefixed)
    }
}

/// The value that a key got first: this one, if the key is new. Most keys are, so it is inserted before the map is asked.
pub(crate) fn first_value<K: Ord + Copy>(
    values: &mut BTreeMap<K, usize>,
    key: K,
    value: usize,
) -> Result<usize, AllocError>
    ensures first { IfOk result (λ first. first ≡ unwrap_or (get K.cmp values.old key) value) }
    ensures updates { IfOk result (λ first. (q : K) → get K.cmp values.new q
        ≡ cond (is_at (K.cmp key) q) (Some first) (get K.cmp values.old q)) }
{
    let Some(first) = values.insert(key, value)? else {
        return Ok(value);
    };
    values.insert(key, first)?;
    Ok(first)
}

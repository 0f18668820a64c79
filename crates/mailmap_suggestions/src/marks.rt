//! Marks of answers, compared by their first bytes before they are read.
ghost use Rattle.std.specs.Prelude.{◌≡◌, IfOk, map};
ghost use Rattle.std.specs.Cmp.{partial_order_from_own_ties};
ghost use Rattle.std.specs.Cmp.Lexicographic.{slice_cmp};
ghost use Rattle.std.specs.Cmp.Rules.{comparing};
ghost use Rattle.std.specs.Ordering.{as_partial_cmp, eq_by_cmp, nat_cmp, on};
ghost use Rattle.std.proofs.Common.{rules};
ghost use Rattle.std.proofs.Props.{props};
ghost use Rattle.mailmap_entries.specs.Prefixes.{IsKeyPrefix, key_prefix};
ghost use Rattle.mailmap_entries.specs.Folding.{text_cmp};

use std::alloc::{AllocError, Global};
use std::cmp::Ordering;

/// A text with the number of its first sixteen bytes, which decides most comparisons.
#[derive(Drop)]
pub(crate) struct Mark {
    pub(crate) text: Vec<u8>,
    prefix: u128,
    ghost is_prefix: { IsKeyPrefix prefix text.items } by { Prim.hlevel props },
}

impl Mark {
    pub(crate) fn new(text: Vec<u8>) -> Mark
        ensures { result.text ≡ text }
    {
        let prefix = prefix_of(&text);
        Mark { text, prefix }
    }

    pub(crate) fn copy(&self, alloc: Global) -> Result<Mark, AllocError>
        ensures { IfOk result (λ copy. copy.text.items ≡ self.now.text.items) }
    {
        Ok(Mark {
            text: Vec::from_slice(alloc, &self.text)?,
            prefix: self.prefix,
        })
    }
}

// The first sixteen bytes as a number. A byte past the end counts as 0.
#[tactic(auto, using(crate::proofs::FirstBytes::number_is, crate::proofs::FirstBytes::are_bytes))]
fn prefix_of(text: &[u8]) -> u128
    ensures { IsKeyPrefix result text.now }
{
    u128::from_be_bytes(first_bytes(text))
}

// The first sixteen bytes, with zeros after a shorter text.
#[tactic(auto, using(crate::proofs::FirstBytes::first_laws))]
fn first_bytes(text: &[u8]) -> [u8; 16]
    ensures { key_prefix 16 result ≡ key_prefix 16 text.now }
{
    if let Some(first) = text.first_chunk::<16>() {
        return *first;
    }
    let mut bytes = [0; 16];
    bytes[..text.len()].copy_from_slice(text);
    bytes
}

/// The same marks again.
pub(crate) fn copies(alloc: Global, marks: &[Mark]) -> Result<Vec<Mark>, AllocError>
    ensures { IfOk result (λ copies. map (λ m. m.text.items) copies.items ≡ map (λ m. m.text.items) marks.now) }
{
    let mut copies = Vec::with_capacity(alloc, marks.len())?;
    for mark in marks {
        copies.push(mark.copy(alloc)?)?;
    }
    Ok(copies)
}

/// These texts as marks.
pub(crate) fn marks_of(alloc: Global, texts: Vec<Vec<u8>>) -> Result<Vec<Mark>, AllocError>
    ensures { IfOk result (λ marks. map (λ m. m.text.items) marks.items ≡ map (λ t. t.items) texts.items) }
{
    let mut marks = Vec::with_capacity(alloc, texts.len())?;
    for text in texts {
        marks.push(Mark::new(text))?;
    }
    Ok(marks)
}

fn compare(a: &Mark, b: &Mark) -> Ordering
    ensures { result ≡ text_cmp a.now.text.items b.now.text.items }
{
    match a.prefix.cmp(&b.prefix) {
        Ordering::Equal => a.text.as_slice().cmp(b.text.as_slice()),
        unequal => unequal,
    }
}

impl PartialEq for Mark {
    ghost eq = { eq_by_cmp (on (λ m. m.text.items) (slice_cmp nat_cmp)) };

    ghost laws = { Prim.search (comparing, rules) };

    fn eq(&self, other: &Self) -> bool {
        self.cmp(other).is_eq()
    }
}

impl Eq for Mark {
    ghost laws = { Prim.search (comparing, rules) };
}

impl PartialOrd for Mark {
    ghost partial_cmp = { as_partial_cmp (on (λ m. m.text.items) (slice_cmp nat_cmp)) };

    ghost laws = { partial_order_from_own_ties (Prim.search (comparing, rules)) (Prim.search (comparing, rules)) };

    fn partial_cmp(&self, other: &Self) -> Option<Ordering> {
        Some(self.cmp(other))
    }
}

impl Ord for Mark {
    ghost cmp = { on (λ m. m.text.items) (slice_cmp nat_cmp) };

    ghost total = { Prim.search (comparing, rules) };

    ghost matches_partial_cmp = { Prim.search (comparing, rules) };

    ghost matches_eq = { Prim.search (comparing, rules) };

    fn cmp(&self, other: &Self) -> Ordering {
        compare(self, other)
    }
}

//! An order that ignores the case of ASCII letters, and a binary search that counts its comparisons.
ghost use Rattle.std.specs.Prelude.{◌≡◌, ◌↔◌, ◌+◌, ◌-◌, ◌<◌, ◌≤◌, ℕ, List, length, slice_get, IfOk, IfErr};
ghost use Rattle.std.specs.List.Sorted.{IsSearchInRange, IsPartitionPoint};
ghost use Rattle.std.specs.declared.cmp.Ordering.{Ordering as Answer};
ghost use Rattle.mailmap_entries.specs.Folding.{folded, text_cmp};
ghost use Rattle.mailmap_entries.specs.Search.{IsPartitioned, digits};

pub mod prefix;

use std::cmp::Ordering;
use std::marker::Model;

/// Compares two texts byte by byte, with the bytes `A` to `Z` taken as `a` to `z`.
///
/// All other bytes stay as they are, so letters outside ASCII keep their case. A proper prefix is smaller: `a` sorts
/// before `B`, and `foo` before `FOO1`. `FooBar` and `foobar` are equal.
#[tactic(auto, using(crate::proofs::Folding::cmp_laws))]
pub fn cmp_ignore_ascii_case(a: &[u8], b: &[u8]) -> Ordering
    ensures value { result ≡ text_cmp (folded a.now) (folded b.now) }
    ensures equal { (result ≡ Ordering.Equal) ↔ (folded a.now ≡ folded b.now) }
{
    // Equal keys mostly have the same spelling, too, and others mostly begin otherwise.
    if a.first() == b.first() && a == b {
        return Ordering::Equal;
    }
    // Only bytes that differ need folding.
    for (x, y) in a.iter().zip(b) {
        if x != y {
            let order = x.to_ascii_lowercase().cmp(&y.to_ascii_lowercase());
            if order.is_ne() {
                return order;
            }
        }
    }
    a.len().cmp(&b.len())
}

/// A sorted list and the key to find in it. [`search`] asks it about one place at a time, and each question is counted.
///
/// `Less` means that the element at the place comes before the key, `Equal` that it matches, `Greater` that it comes
/// after.
pub trait Probe {
    ghost answers: { Self → List Answer };

    ghost asked: { Self → ℕ };

    /// Compares the element at this place, counted from 0, to the key.
    fn ask(&mut self, place: usize) -> Ordering
        requires within { place < length (answers self.old) }
        requires countable { asked self.old < usize.MAX }
        ensures answer { slice_get (answers self.old) place ≡ Some result }
        ensures same { answers self.new ≡ answers self.old }
        ensures counted { asked self.new ≡ asked self.old + 1 };
}

/// Finds the index with the answer `Equal` by binary search.
///
/// If no answer is `Equal`, `Err` has the index where the element could be inserted. Each question halves the rest of
/// the list, so there are at most as many questions as the length has binary digits: one for one element, ten for 1,023
/// elements, and none for an empty list.
#[tactic(auto, using(crate::proofs::Search::search_laws))]
pub fn search<P: Probe>(len: usize, p: &mut P) -> Result<usize, usize>
    requires whole { len ≡ length (P.answers p.old) }
    requires parted { IsPartitioned (P.answers p.old) }
    requires countable { P.asked p.old ≤ usize.MAX - 64 }
    ensures within { IsSearchInRange result len }
    ensures found { IfOk result (λ i. slice_get (P.answers p.old) i ≡ Some Ordering.Equal) }
    // all are `Less` before the index, and `Greater` from it on
    ensures missing { IfErr result
        (λ i. IsPartitionPoint (λ a. a ≡ Ordering.Less) (λ a. a ≡ Ordering.Greater) (P.answers p.old) i) }
    ensures same { P.answers p.new ≡ P.answers p.old }
    ensures at_most { P.asked p.new ≤ P.asked p.old + digits len }
    ensures at_least { 0 < len → P.asked p.old < P.asked p.new }
    ensures no_fewer { P.asked p.old ≤ P.asked p.new }
{
    let mut low = 0;
    let mut high = len;
    while low < high {
        let middle = low + (high - low) / 2;
        match p.ask(middle) {
            Ordering::Less => low = middle + 1,
            Ordering::Equal => return Ok(middle),
            Ordering::Greater => high = middle,
        }
    }
    Err(low)
}

/// A counter of comparisons.
#[derive(Drop)]
pub struct Steps {
    count: usize,
}

impl Model for Steps {
    ghost Value = { ℕ };

    ghost view = { λ s. s.count };
}

impl Steps {
    /// Starts at zero.
    pub fn new() -> Steps
        ensures { result ≡ 0 }
    {
        Steps { count: 0 }
    }

    /// The number of comparisons so far.
    pub fn count(&self) -> usize
        ensures { result ≡ self.now }
    {
        self.count
    }

    /// Compares as [`cmp_ignore_ascii_case`] does, and counts it as one comparison.
    pub fn compare(&mut self, a: &[u8], b: &[u8]) -> Ordering
        requires { self.old < usize.MAX }
        ensures value { result ≡ text_cmp (folded a.now) (folded b.now) }
        ensures counted { self.new ≡ self.old + 1 }
    {
        self.count += 1;
        cmp_ignore_ascii_case(a, b)
    }
}

//! Laws about entries and about the order without case. These functions do nothing: each states its law in its
//! contract.
ghost use Rattle.std.specs.Prelude.{◌≡◌, ◌↔◌, true};
ghost use Rattle.std.specs.Cmp.{IsTotalOrder};
ghost use Rattle.std.specs.declared.cmp.Ordering.{Ordering};
ghost use Rattle.mailmap_entries.specs.Entries.{Mapping, mapping_cmp, mapping_of, mapping_writes, nothing};
ghost use Rattle.mailmap_entries.specs.Folding.{IsBelow, Text, folded, text_cmp};
ghost use Rattle.mailmap_entries.specs.declared.entry.Entry as the_entry;

use crate::entry::Entry;
use std::hash::Hash;

/// Comparisons and hashes of entries depend only on their four texts, byte for byte, and not on where these are in
/// memory. Entries are equal exactly if their texts are, and equal entries have the same hash.
pub fn law_entries()
    ensures equal { (a b : the_entry.Entry)
        → (⟦<Entry<'static> as PartialEq>⟧.eq a b ≡ true) ↔ (mapping_of a ≡ mapping_of b) }
    ensures order { (a b : the_entry.Entry)
        → ⟦<Entry<'static> as Ord>⟧.cmp a b ≡ mapping_cmp (mapping_of a) (mapping_of b) }
    ensures hash { (a : the_entry.Entry)
        → ⟦<Entry<'static> as Hash>⟧.hash_input a ≡ mapping_writes (mapping_of a) }
{}

/// The order of entries is total, and no two different entries compare as equal.
#[tactic(auto, using(crate::proofs::Keys::entries_total, crate::proofs::Keys::entries_exact))]
pub fn law_order()
    ensures total { IsTotalOrder mapping_cmp }
    ensures same { (a b : Mapping) → (mapping_cmp a b ≡ Ordering.Equal) ↔ (a ≡ b) }
{}

/// The order without the case of ASCII letters is a total preorder: any two texts can be compared, and they compare as
/// equal exactly if they differ in nothing but case. Else the first bytes that differ decide.
#[tactic(auto, using(crate::proofs::Keys::folded_total, crate::proofs::Folding::less_below, crate::proofs::Folding::equal_folded))]
pub fn law_order_without_case()
    ensures total { IsTotalOrder (λ (a b : Text). text_cmp (folded a) (folded b)) }
    ensures less { (a b : Text) → (text_cmp (folded a) (folded b) ≡ Ordering.Less) ↔ IsBelow a b }
    ensures level { (a b : Text) → (text_cmp (folded a) (folded b) ≡ Ordering.Equal) ↔ (folded a ≡ folded b) }
{}

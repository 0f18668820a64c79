//! What is proved of effective entries. These functions do nothing: the contract of each is a law.
ghost use Rattle.std.specs.Prelude.{◌≡◌, ◌≢◌, ◌↔◌, ◌++◌, ◌∷◌, [], All, Bool, List, Contains, IsSome, filter, map, true};
ghost use Rattle.std.specs.Cmp.{IsTotalOrder};
ghost use Rattle.std.specs.declared.cmp.Ordering.{Ordering};
ghost use Rattle.std.specs.List.Sorted.{IsStrictlySortedBy};
ghost use Rattle.mailmap_entries.specs.Entries.{Mapping};
ghost use Rattle.mailmap_entries.specs.Folding.{Text};
ghost use Rattle.mailmap_entries.specs.Semantics.{IsNormal, Key, accepted, has_key, is_accepted, key, answer_of};
ghost use Rattle.mailmap_redundancy.specs.Origins.{given, origins, needed};
ghost use Rattle.mailmap_redundancy.specs.Redundancy.{IsPass, IsRedundant, AreEffective, IsSublist, LocatedMapping, entries, last_position, position_cmp};
ghost use Rattle.mailmap_redundancy.specs.declared.located.Position.{Position};

use crate::located;

/// Dropping the redundant entries keeps the normal list.
#[tactic(auto, using(crate::proofs::Kept::effective_normal))]
pub fn law_same_listing()
    ensures { (xs kept : List LocatedMapping) (n : List Mapping) → AreEffective xs kept
        → IsNormal (entries xs) n ↔ IsNormal (entries kept) n }
{}

/// No effective entry is redundant: without it, the normal list would differ.
#[tactic(auto, using(crate::proofs::Kept::none_can_go, crate::proofs::Kept::listing_differs))]
pub fn law_none_can_go()
    ensures redundant { (xs a c : List LocatedMapping) (x : LocatedMapping) → AreEffective xs (a ++ x ∷ c)
        → IsRedundant (entries a) x.entry (entries c) → ⊥ }
    ensures differs { (xs a c : List LocatedMapping) (x : LocatedMapping) (n m : List Mapping)
        → AreEffective xs (a ++ x ∷ c)
        → IsNormal (entries xs) n → IsNormal (entries (a ++ c)) m → n ≢ m }
{}

/// The effective entries are a sublist of all entries, in the same order.
pub fn law_some_stay()
    ensures sublist { (xs kept : List LocatedMapping) → AreEffective xs kept → IsSublist kept xs }
    ensures among { (xs kept : List LocatedMapping) (x : LocatedMapping) → AreEffective xs kept → Contains kept x
        → Contains xs x }
    ensures ascending { (cmp : Position → Position → Ordering) (xs kept : List LocatedMapping) → AreEffective xs kept
        → IsStrictlySortedBy cmp (map (λ (x : LocatedMapping). x.position) xs)
        → IsStrictlySortedBy cmp (map (λ (x : LocatedMapping). x.position) kept) }
{}

/// Each key of the accepted entries keeps at least one entry.
#[tactic(auto, using(crate::proofs::Kept::effective_keys, crate::proofs::Kept::last_stays))]
pub fn law_each_key_stays()
    ensures keys { (xs kept : List LocatedMapping) (k : Key) → AreEffective xs kept
        → has_key (accepted (entries kept)) k ≡ has_key (accepted (entries xs)) k }
    ensures last { (xs kept : List LocatedMapping) (x : LocatedMapping) → AreEffective xs kept → Contains xs x
        → is_accepted x.entry ≡ true
        → IsSome (last_position kept (key x.entry)) }
{}

/// There is exactly one list of effective entries, and dropping redundant entries a second time drops none.
pub fn law_stable()
    ensures exists { (xs : List LocatedMapping) → (kept : List LocatedMapping) × AreEffective xs kept }
    ensures one { (xs kept other : List LocatedMapping) → AreEffective xs kept → AreEffective xs other → kept ≡ other }
    ensures again { (xs kept : List LocatedMapping) → AreEffective xs kept → AreEffective kept kept }
{}

/// Three passes are enough: the fourth drops nothing.
#[tactic(auto, using(crate::proofs::Kept::fourth_drops_none, crate::proofs::Kept::effective_by_three))]
pub fn law_passes()
    ensures fourth { (xs a b c : List LocatedMapping) → IsPass [] xs a → IsPass [] a b → IsPass [] b c
        → IsPass [] c c }
    ensures effective { (xs a b c : List LocatedMapping) → IsPass [] xs a → IsPass [] a b → IsPass [] b c
        → AreEffective xs c }
{}

/// The origins of an answer determine it.
#[tactic(auto, using(crate::proofs::Giving::effective_origins))]
pub fn law_origins()
    ensures { (xs kept : List LocatedMapping) (name email : Text) → AreEffective xs kept
        → given (origins kept name email) email ≡ answer_of (entries xs) name email }
{}

/// Dropping entries that an answer doesn't need leaves the answer as it is. `is_left` is true for the entries that are
/// left, among them all that the answer needs.
pub fn law_needed()
    ensures { (is_left : LocatedMapping → Bool) (xs kept : List LocatedMapping) (name email : Text) → AreEffective xs kept
        → All (λ x. is_left x ≡ true) (needed (origins kept name email))
        → answer_of (entries (filter is_left kept)) name email ≡ answer_of (entries xs) name email }
{}

/// Positions are equal exactly if both their buffers and their lines are. They are totally ordered by the buffers, then
/// by the lines.
pub fn law_equal_positions()
    ensures equal { (a b : Position) → (⟦<located::Position as PartialEq>⟧.eq a b ≡ true) ↔ (a ≡ b) }
    ensures order { (a b : Position) → ⟦<located::Position as Ord>⟧.cmp a b ≡ position_cmp a b }
    ensures total { IsTotalOrder position_cmp }
    ensures same { (a b : Position) → (position_cmp a b ≡ Ordering.Equal) ↔ (a ≡ b) }
{}

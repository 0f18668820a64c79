//! Laws about lists of mappings, their normal lists and their answers. These functions do nothing: each states its law
//! in its contract.
ghost use Rattle.std.specs.Prelude.{◌≡◌, ◌≢◌, ◌≤◌, ◌↔◌, ◌++◌, ◌∷◌, List, IsSome, length, true, unwrap_or};
ghost use Rattle.std.specs.Ordering.{eq_by_cmp};
ghost use Rattle.mailmap_entries.specs.Folding.{Text, folded, text_cmp};
ghost use Rattle.mailmap_entries.specs.Entries.{Mapping};
ghost use Rattle.mailmap_entries.specs.Building.{IsBuilt, IsHeadline};
ghost use Rattle.mailmap_entries.specs.Semantics.{IsNormal, Key, fields_for, key_cmp, of_email, answer_of, spelling};

/// A list of mappings has at most one normal list.
pub fn law_unique()
    ensures { (h n m : List Mapping) → IsNormal h n → IsNormal h m → n ≡ m }
{}

/// A normal list is its own normal list.
pub fn law_self()
    ensures { (h n : List Mapping) → IsNormal h n → IsNormal n n }
{}

/// Replacing any part of the mappings by its own normal list doesn't change the normal list of the whole.
pub fn law_condense()
    ensures { (a b c m n : List Mapping) → IsNormal b m → IsNormal (a ++ b ++ c) n ↔ IsNormal (a ++ m ++ c) n }
{}

/// A scan of a normal list gives the same answers as one of the mappings that the list was made from.
#[tactic(auto, using(crate::proofs::Alike::alike_answer, crate::proofs::Normal::alike_normal))]
pub fn law_scan()
    ensures { (h n : List Mapping) (name email : Text) → IsNormal h n → answer_of h name email ≡ answer_of n name email }
{}

/// Lists with the same accepted entries for each email, in the same order, have the same normal list.
pub fn law_reorder()
    ensures { (h g n : List Mapping) → ((email : Text) → of_email h email ≡ of_email g email) → IsNormal h n
        ↔ IsNormal g n }
{}

/// Every list of mappings has a normal list.
pub fn law_exists()
    ensures { (h : List Mapping) → (n : List Mapping) × IsNormal h n }
{}

/// The normal list of a list is never longer than the list.
#[tactic(auto, using(crate::proofs::Unique::no_shorter))]
pub fn law_shortest()
    ensures { (l n : List Mapping) → IsNormal l n → length n ≤ length l }
{}

/// All that holds for the listing of a snapshot. It has one entry for each distinct key, in ascending order. Its
/// entries rebuild it, and no shorter list does. Replacing any part of the accepted entries by the listing of that
/// part, or reordering entries with different emails, changes nothing. A plain scan of the merged entries gives the
/// same answers as the listing.
pub fn law_headline()
    ensures { (h n : List Mapping) → IsBuilt h n → IsHeadline h n }
{}

/// Merging the same mappings a second time changes nothing.
pub fn law_repeated()
    ensures { (h n : List Mapping) → IsNormal h n ↔ IsNormal (h ++ h) n }
{}

/// Merging a snapshot's own entries into it changes nothing.
pub fn law_own_entries()
    ensures { (h n : List Mapping) → IsNormal h n → IsNormal (h ++ n) n }
{}

/// Neighbours with different old emails can be swapped.
pub fn law_neighbours()
    ensures { (a b n : List Mapping) (x y : Mapping) → folded x.old_email ≢ folded y.old_email
        → IsNormal (a ++ x ∷ y ∷ b) n ↔ IsNormal (a ++ y ∷ x ∷ b) n }
{}

/// An answer depends only on the accepted entries for its email.
#[tactic(auto, using(crate::proofs::Building::scan_by_email))]
pub fn law_of_email()
    ensures { (h g : List Mapping) (name email : Text) → of_email h (folded email) ≡ of_email g (folded email)
        → answer_of h name email ≡ answer_of g name email }
{}

/// Signatures whose names and emails differ only in the case of letters resolve to one email, byte for byte, if there
/// is an entry for that email.
#[tactic(auto, using(crate::proofs::Building::one_resolved))]
pub fn law_one_email()
    ensures { (h : List Mapping) (name other_name email other_email : Text)
        → folded name ≡ folded other_name → folded email ≡ folded other_email → IsSome (spelling h (folded email))
        → unwrap_or (fields_for h name email).email email
        ≡ unwrap_or (fields_for h other_name other_email).email other_email }
{}

/// Texts, and keys, compare as equal exactly if they are the same. So the filters in the definitions select by plain
/// equality.
#[tactic(auto, using(crate::proofs::Building::same_text, crate::proofs::Building::same_key))]
pub fn law_equal()
    ensures texts { (a b : Text) → (eq_by_cmp text_cmp a b ≡ true) ↔ (a ≡ b) }
    ensures keys { (j k : Key) → (eq_by_cmp key_cmp j k ≡ true) ↔ (j ≡ k) }
{}

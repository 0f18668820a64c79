//! Laws about snapshots, their texts, contacts, times and signatures. These functions do nothing: each states its law in
//! its contract.
ghost use Rattle.std.specs.Prelude.{◌≡◌, ◌↔◌, ◌++◌, [], List, Ok, map, true};
ghost use Rattle.std.specs.List.{All, flat_map};
ghost use Rattle.mailmap_entries.specs.Entries.{Mapping};
ghost use Rattle.mailmap_entries.specs.Folding.{Text};
ghost use Rattle.mailmap_entries.specs.Semantics.{IsNormal};
ghost use Rattle.mailmap_grammar.specs.CanonicalText.{IsWritable, canonical_text};
ghost use Rattle.mailmap_grammar.specs.Lines.{mappings_of, strict_readings};
ghost use Rattle.mailmap_snapshot.specs.Contacts.{AreLines, answers, contact_lines};
ghost use Rattle.mailmap_snapshot.specs.Parts.{IsSplit};
ghost use Rattle.mailmap_grammar.specs.LineParts.{AnswersFront};
ghost use Rattle.mailmap_snapshot.specs.Streams.{AnswersParts};
ghost use Rattle.std.specs.Cmp.{IsTotalOrder};
ghost use Rattle.std.specs.declared.cmp.Ordering.{Ordering};
ghost use Rattle.mailmap_snapshot.specs.SignatureFields.{SignatureFields, cow_fields};
ghost use Rattle.mailmap_snapshot.specs.SignatureFields.{owned_fields, signature_cmp, signature_writes};
ghost use Rattle.mailmap_snapshot.specs.Times.{IsTimeOf, Spells, epoch, time_cmp};
ghost use Rattle.mailmap_snapshot.specs.declared.date.Time.{Time};
ghost use Rattle.mailmap_snapshot.specs.declared.snapshot.text.WriteError as the_error;
ghost use Rattle.std.specs.Hash as fed;
ghost use Rattle.mailmap_snapshot.specs.declared.actor.Signature as the_owned;
ghost use Rattle.mailmap_snapshot.specs.declared.actor.SignatureRef as the_ref;
ghost use Rattle.mailmap_snapshot.specs.declared.snapshot.cow.Signature as the_signature;

use crate::actor::SignatureRef;
use crate::snapshot::{Signature, WriteError};
use crate::{actor, date};
use std::hash::Hash;

/// Errors of a write are equal exactly if both are out of memory, or both are about an entry at the same place.
pub fn law_equal_write_errors()
    ensures { (a b : the_error.WriteError) → (⟦<WriteError as PartialEq>⟧.eq a b ≡ true) ↔ (a ≡ b) }
{}

/// There is only one way to split an input.
pub fn law_parts()
    ensures { (input p r q s : Text) → IsSplit input p r → IsSplit input q s → (p ≡ q) × (r ≡ s) }
{}

/// Lines of contacts are split at line feeds, and one carriage return directly before a line feed is removed. If the
/// last line doesn't end with a line feed, it is kept as it is.
pub fn law_lines()
    ensures { (s : Text) (ls : List Text) → (contact_lines s ≡ ls) ↔ AreLines s ls }
{}

/// Contacts can be pushed to a stream in any parts, where a part is what one push takes. Together, the answers to the
/// parts and to the rest at the end are what [`check`](crate::check::check()) answers to all contacts at once. Until
/// the end, all whole lines that were pushed have been answered, and a push appends its answers.
#[tactic(auto, using(crate::proofs::Streams::stream_laws))]
pub fn law_stream()
    ensures begins { (m : List Mapping) (bytes : Text) → AnswersFront (answers m) bytes [] bytes }
    ensures adds_up { (m : List Mapping) (before text partial taken made rest : Text)
        → AnswersFront (answers m) before text partial → AnswersFront (answers m) (partial ++ taken) made rest
        → AnswersFront (answers m) (before ++ taken) (text ++ made) rest }
    ensures ends { (m : List Mapping) (all text partial : Text) → AnswersFront (answers m) all text partial
        → text ++ answers m partial ≡ answers m all }
    ensures parts { (m : List Mapping) (parts : List Text) (text partial : Text)
        → AnswersParts m [] parts text partial
        → text ++ answers m partial ≡ answers m (flat_map (λ part. part) parts) }
{}

/// Parsing the text of a normal list, which [`Snapshot::write`](crate::snapshot::Snapshot::write()) writes, gives the
/// list again, and whatever is built from buffers can be written.
#[tactic(auto, using(mailmap_grammar::proofs::WrittenLine::mappings_of_canonical_text))]
pub fn law_text()
    // the text of a normal list has exactly its entries, if lines can hold them all; entries that map to nothing are in
    // no normal list, and would be a fault as a line
    ensures reads_back { (v : List Mapping) → IsNormal v v → All IsWritable v → mappings_of (canonical_text v) ≡ v }
    // lines can hold all entries of the normal list of what buffers say, one after another
    ensures builds { (buffers : List Text) (n : List Mapping) →
        IsNormal (flat_map mappings_of buffers) n → All IsWritable n }
{}

/// The text of a normal list has no fault, not even in strict parsing.
#[tactic(auto, using(mailmap_grammar::proofs::WrittenLine::strict_text))]
pub fn law_strict()
    // it has exactly the entries of the list, in order
    ensures { (v : List Mapping) → IsNormal v v → All IsWritable v → strict_readings (canonical_text v) ≡ map Ok v }
{}

/// A text spells at most one time, so the text of a signature determines its time.
pub fn law_time()
    ensures spelled { (text : Text) (a b : Time) → Spells text a → Spells text b → a ≡ b }
    ensures time_of { (text : Text) (a b : Time) → IsTimeOf text a → IsTimeOf text b → a ≡ b }
{}

/// Times are equal exactly if both fields are. They are totally ordered by the seconds, then by the offset. A hash
/// depends on both fields, and equal times have the same hash. The default is the epoch.
#[tactic(auto, using(crate::proofs::Ordered::times_exact, crate::proofs::Ordered::times_total))]
pub fn law_equal_times()
    ensures equal { (a b : Time) → (⟦<date::Time as PartialEq>⟧.eq a b ≡ true) ↔ (a ≡ b) }
    ensures order { (a b : Time) → ⟦<date::Time as Ord>⟧.cmp a b ≡ time_cmp a b }
    ensures total { IsTotalOrder time_cmp }
    ensures same { (a b : Time) → (time_cmp a b ≡ Ordering.Equal) ↔ (a ≡ b) }
    ensures hash { (a : Time) → ⟦<date::Time as Hash>⟧.hash_input a ≡ fed.i64 a.seconds ++ fed.i32 a.offset }
    ensures default { (a : Time) → ⟦<date::Time as Default>⟧.is_default a → a ≡ epoch }
{}

/// Signatures of commits are equal exactly if their names, their emails and their times are. The time of a borrowed one
/// is a text, so two spellings of the same time differ; that of an owned one is a [`date::Time`].
pub fn law_equal_commit_signatures()
    ensures borrowed { (a b : the_ref.SignatureRef) → (⟦<SignatureRef<'static> as PartialEq>⟧.eq a b ≡ true)
        ↔ ((a.name.now ≡ b.name.now) × (a.email.now ≡ b.email.now) × (a.time.now ≡ b.time.now)) }
    ensures owned { (a b : the_owned.Signature)
        → (⟦<actor::Signature as PartialEq>⟧.eq a b ≡ true) ↔ (owned_fields a ≡ owned_fields b) }
{}

/// Comparisons and hashes of copy-on-write signatures depend on the bytes of the texts and on the time, not on who owns
/// the texts. The order is total: by name, then by email, then by time.
#[tactic(auto, using(crate::proofs::Ordered::signatures_exact, crate::proofs::Ordered::signatures_total))]
pub fn law_equal_signatures()
    ensures equal { (a b : the_signature.Signature)
        → (⟦<Signature<'static> as PartialEq>⟧.eq a b ≡ true) ↔ (cow_fields a ≡ cow_fields b) }
    ensures order { (a b : the_signature.Signature)
        → ⟦<Signature<'static> as Ord>⟧.cmp a b ≡ signature_cmp (cow_fields a) (cow_fields b) }
    ensures total { IsTotalOrder signature_cmp }
    ensures same { (a b : SignatureFields) → (signature_cmp a b ≡ Ordering.Equal) ↔ (a ≡ b) }
    ensures hash { (a : the_signature.Signature)
        → ⟦<Signature<'static> as Hash>⟧.hash_input a ≡ signature_writes (cow_fields a) }
{}

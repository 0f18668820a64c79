//! Laws about the definitions. These functions do nothing: each states its law in its contract.
ghost use Rattle.std.specs.Prelude.{◌≡◌, ◌↔◌, ℕ, List, Option, true};
ghost use Rattle.mailmap_entries.specs.Folding.{Text};
ghost use Rattle.mailmap_grammar.specs.Lines.{cut, Closed, Unclosed, Absent, IsCut, IsUnclosed, HoldsNo, Reading};
ghost use Rattle.mailmap_grammar.specs.Lines.{reading, strict_reading, IsRead, IsReadStrictly, pieces, ArePieces};
ghost use Rattle.mailmap_grammar.specs.Lines.{fault_of};
ghost use Rattle.mailmap_grammar.specs.Trimming.{IsTrimmed, trim};
ghost use Rattle.mailmap_grammar.specs.declared.lines.Error as the_error;

use crate::lines::Error;

/// Trimming removes the longest run of white space at the start and then the longest one at the end, and there is
/// exactly one such text.
pub fn law_trim()
    ensures { (s t : Text) → IsTrimmed s t ↔ (t ≡ trim s) }
{}

/// A text is split at the first `<` and the first `>` after it.
pub fn law_cut()
    ensures closed { (s a b c : Text) → (cut s ≡ Closed a b c) ↔ IsCut s a b c }
    ensures unclosed { (s : Text) → (cut s ≡ Unclosed) ↔ IsUnclosed s }
    ensures absent { (s : Text) → (cut s ≡ Absent) ↔ HoldsNo 60 s }
{}

/// Each line is exactly one of these cases: a comment, a blank line, no `<`, a `<` without its `>`, an empty first
/// email, two contacts, a name with one email, or only an email.
pub fn law_reading()
    ensures { (n : ℕ) (line : Text) (o : Option Reading) → (reading n line ≡ o) ↔ IsRead n line o }
{}

/// Strict parsing has one more case: a second `<` without its `>`.
pub fn law_strict_reading()
    ensures { (n : ℕ) (line : Text) (o : Option Reading) → (strict_reading n line ≡ o) ↔ IsReadStrictly n line o }
{}

/// The lines of a buffer contain no line feed. Each followed by a line feed, except perhaps the last, they are the
/// buffer.
pub fn law_pieces()
    ensures { (s : Text) (ls : List Text) → (pieces s ≡ ls) ↔ ArePieces s ls }
{}

/// Faults are equal exactly if they have the same kind, the same line number and the same bytes as input, which can be
/// anywhere in memory.
pub fn law_equal_faults()
    ensures { (a b : the_error.Error)
        → (⟦<Error<'static> as PartialEq>⟧.eq a b ≡ true) ↔ (fault_of a ≡ fault_of b) }
{}

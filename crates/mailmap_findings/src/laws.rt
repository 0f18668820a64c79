//! Laws about lines, findings, pruned texts, and the lines that contacts need. These functions do nothing: each states
//! its law in its contract.
ghost use Rattle.std.specs.Prelude.{◌≡◌, ◌≢◌, ◌↔◌, ◌++◌, ◌∷◌, [], ℕ, List, None, Ok, Some, false, filter, map, not, option_to_list, true, Bool, Contains};
ghost use Rattle.std.specs.List.{flat_map};
ghost use Rattle.bstr.specs.Text.{lines_of};
ghost use Rattle.mailmap_entries.specs.Entries.{Mapping};
ghost use Rattle.mailmap_entries.specs.Folding.{Text};
ghost use Rattle.mailmap_grammar.specs.Lines.{mappings_of, readings, reading, strict_reading, strict_readings, Closed, contact_in};
ghost use Rattle.mailmap_entries.specs.Semantics.{IsNormal, answer_of};
ghost use Rattle.mailmap_redundancy.specs.Redundancy.{entries};
ghost use Rattle.mailmap_redundancy.specs.declared.located.Position.{Position};
ghost use Rattle.mailmap_findings.specs.Findings.{AreFindings, AreInOrder, NewContact, Finding, IsPruned, first_read_otherwise, is_reported_redundant, is_same_contact};
ghost use Rattle.mailmap_findings.specs.GitAnswers.{git_answer};
ghost use Rattle.mailmap_findings.specs.IgnoredText.{ReadsWithoutIgnored};
ghost use Rattle.mailmap_findings.specs.Positions.{Line, entry, located_lines, located, same_position, whole_lines, texts_left};
ghost use Rattle.mailmap_findings.specs.Pruning.{MarksStay, is_left, lines_left, renumbered};
ghost use Rattle.mailmap_findings.specs.Needs.{AreUnneeded, is_deletable};

mod equal;

pub use equal::{
    law_equal_explanations, law_equal_findings, law_equal_git_readings, law_equal_kinds,
    law_equal_remarks,
};

/// A buffer's lines, including their line feeds, are those of `bstr`, and concatenate to the buffer. Parsed line by line,
/// they have the same readings and entries as the whole.
pub fn law_whole_lines()
    ensures whole { (s : Text) → flat_map (λ t. t) (whole_lines s) ≡ s }
    ensures lines { (s : Text) → lines_of s ≡ whole_lines s }
    ensures readings { (s : Text)
        → flat_map (λ l. option_to_list (reading l.position.line l.text)) (located_lines (s ∷ [])) ≡ readings s }
    ensures strict_readings { (s : Text)
        → flat_map (λ l. option_to_list (strict_reading l.position.line l.text)) (located_lines (s ∷ []))
        ≡ strict_readings s }
    ensures entries { (buffers : List Text) → entries (located (located_lines buffers)) ≡ flat_map mappings_of buffers }
{}

/// Buffers have exactly one list of findings, and a buffer has exactly one pruned text.
pub fn law_one_answer()
    ensures findings { (buffers : List Text) → (found : List Finding) × AreFindings buffers found }
    ensures one_findings { (buffers : List Text) (found other : List Finding) → AreFindings buffers found
        → AreFindings buffers other → found ≡ other }
    ensures pruned { (buffer : Text) → (text : Text) × IsPruned buffer text }
    ensures one_pruned { (buffer text other : Text) → IsPruned buffer text → IsPruned buffer other → text ≡ other }
{}

/// Comparing positions, and contacts, decides whether they are equal.
pub fn law_equal_contacts()
    ensures positions { (a b : Position) → (same_position a b ≡ true) ↔ (a ≡ b) }
    ensures contacts { (a b : NewContact) → (is_same_contact a b ≡ true) ↔ (a ≡ b) }
{}

pub fn law_in_order()
    ensures { (buffers : List Text) (found : List Finding) → AreFindings buffers found → AreInOrder found }
{}

/// All lines reported as without effect can be deleted at once: the other lines have the same normal list as all lines
/// together.
pub fn law_deleted()
    ensures { (buffers : List Text) (found : List Finding) (n : List Mapping) → AreFindings buffers found
        → IsNormal (flat_map mappings_of buffers) n
        ↔ IsNormal (entries (located (filter (λ l. not (is_reported_redundant found l)) (located_lines buffers)))) n }
{}

/// A pruned text has the lines of its buffer that are not reported as without effect. It has the buffer's normal list,
/// so both parse to equal snapshots, and pruning it again changes nothing.
pub fn law_pruned()
    ensures reported { (buffer text : Text) (found : List Finding) → AreFindings (buffer ∷ []) found
        → IsPruned buffer text
        → text ≡ flat_map (λ l. l.text)
        (filter (λ l. not (is_reported_redundant found l)) (located_lines (buffer ∷ []))) }
    ensures listing { (buffer text : Text) (n : List Mapping) → IsPruned buffer text
        → IsNormal (mappings_of buffer) n ↔ IsNormal (mappings_of text) n }
    ensures settled { (buffer text : Text) → IsPruned buffer text → IsPruned text text }
{}

/// If git reads each line of a buffer as this library does, this holds for the pruned text too, and git gives the same
/// answer to each contact with either of them.
pub fn law_pruned_for_git()
    ensures settled { (buffer text : Text) → IsPruned buffer text → first_read_otherwise (buffer ∷ []) ≡ None
        → first_read_otherwise (text ∷ []) ≡ None }
    ensures answers { (buffer text : Text) → IsPruned buffer text → first_read_otherwise (buffer ∷ []) ≡ None
        → (name email : Text) → git_answer text name email ≡ git_answer buffer name email }
{}

/// A pruned text has no line without effect. Its other findings are those of the lines that were kept, with their new
/// line numbers, unless a byte order mark inside the buffer gets to the beginning.
pub fn law_pruned_findings()
    ensures none { (buffer text : Text) (left : List Finding) (l : Line) → IsPruned buffer text
        → AreFindings (text ∷ []) left → is_reported_redundant left l ≡ false }
    ensures others { (buffer text : Text) (found left : List Finding) → AreFindings (buffer ∷ []) found
        → IsPruned buffer text → AreFindings (text ∷ []) left → MarksStay (lines_left buffer found)
        → left ≡ map (renumbered (lines_left buffer found)) (filter (is_left found) found) }
{}

/// No line of a pruned text that has an entry can be deleted: the normal list would differ, whether that of the
/// remaining entries or that of the remaining text.
pub fn law_none_left()
    ensures entries { (buffer text : Text) (a c : List Line) (l : Line) (e : Mapping) (n m : List Mapping)
        → IsPruned buffer text → located_lines (text ∷ []) ≡ a ++ l ∷ c → entry l ≡ Some e
        → IsNormal (mappings_of text) n → IsNormal (entries (located (a ++ c))) m → n ≢ m }
    ensures text { (buffer text : Text) (a c : List Line) (l : Line) (e : Mapping) (n m : List Mapping)
        → IsPruned buffer text → located_lines (text ∷ []) ≡ a ++ l ∷ c → entry l ≡ Some e
        → IsNormal (mappings_of text) n → IsNormal (mappings_of (flat_map (λ k. k.text) (a ++ c))) m → n ≢ m }
{}

/// All lines reported as without effect, and all that no contact needs, can be deleted at once: with the other lines,
/// the answer to each contact stays as it was.
pub fn law_contacts_stay()
    ensures { (buffers : List Text) (contacts : Text) (found : List Finding) (missing : List Position)
        (line name email rest : Text)
        → AreFindings buffers found → AreUnneeded buffers contacts missing
        → Contains (whole_lines contacts) line → contact_in line ≡ Closed name email rest
        → answer_of
        (entries (located (filter (λ l. not (is_deletable found missing l)) (located_lines buffers)))) name email
        ≡ answer_of (flat_map mappings_of buffers) name email }
{}

/// Lines can be deleted from the texts themselves: the remaining texts have the entries of the remaining lines. So
/// without the lines reported as without effect, the texts have the same normal list; without the lines that no contact
/// needs as well, they give each contact the same answer.
pub fn law_deleted_texts()
    ensures entries { (is_left : Line → Bool) (buffers : List Text)
        → flat_map mappings_of (texts_left is_left buffers)
        ≡ entries (located (filter is_left (located_lines buffers))) }
    ensures listing { (buffers : List Text) (found : List Finding) (n : List Mapping) → AreFindings buffers found
        → IsNormal (flat_map mappings_of buffers) n
        ↔ IsNormal (flat_map mappings_of (texts_left (λ l. not (is_reported_redundant found l)) buffers)) n }
    ensures contacts { (buffers : List Text) (contacts : Text) (found : List Finding) (missing : List Position)
        (line name email rest : Text)
        → AreFindings buffers found → AreUnneeded buffers contacts missing
        → Contains (whole_lines contacts) line → contact_in line ≡ Closed name email rest
        → answer_of (flat_map mappings_of (texts_left (λ l. not (is_deletable found missing l)) buffers)) name email
        ≡ answer_of (flat_map mappings_of buffers) name email }
{}

/// Contacts have exactly one list of lines that they don't need.
pub fn law_one_unneeded()
    ensures some { (buffers : List Text) (contacts : Text)
        → (missing : List Position) × AreUnneeded buffers contacts missing }
    ensures one { (buffers : List Text) (contacts : Text) (missing other : List Position)
        → AreUnneeded buffers contacts missing → AreUnneeded buffers contacts other → missing ≡ other }
{}

/// If strict parsing of a line yields an entry, the ignored text is at the end of the line, followed only by white
/// space. Without it the line gives the same entry, and no text is ignored.
pub fn law_ignored()
    ensures { (n : ℕ) (line : Text) (e : Mapping) → strict_reading n line ≡ Some (Ok e)
        → ReadsWithoutIgnored n line e }
{}

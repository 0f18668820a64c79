//! Laws of answers when entries are appended. These functions do nothing: the contract of each is a law.
ghost use Rattle.std.specs.List.{AllByRecursion, flat_map};
ghost use Rattle.std.specs.Prelude.{◌≡◌, ◌≢◌, ◌⊎◌, ◌++◌, ◌∷◌, [], ℕ, Bool, IsSome, List, None, Ok, Some, false, true};
ghost use Rattle.mailmap_entries.specs.Entries.{Mapping, mapping};
ghost use Rattle.mailmap_entries.specs.Folding.{Text, folded};
ghost use Rattle.mailmap_entries.specs.Semantics.{is_accepted, key, last, last_fields, spelling};
ghost use Rattle.mailmap_contacts.specs.Contacts.{Contact, Tally, answer_to, contacts_from};
ghost use Rattle.mailmap_findings.specs.Findings.{first_read_otherwise};
ghost use Rattle.mailmap_findings.specs.GitAnswers.{git_mappings};
ghost use Rattle.mailmap_grammar.specs.CanonicalText.{IsWritable};
ghost use Rattle.mailmap_grammar.specs.Lines.{HoldsNo, mappings_of, reading, strict_reading};
ghost use Rattle.mailmap_suggestions.specs.Appending.{ends_line};
ghost use Rattle.mailmap_suggestions.specs.Counted.{counted_answers};
ghost use Rattle.mailmap_suggestions.specs.Forms.{Histories, IsAnswered, Stays, alike, is_shared, own_key};
ghost use Rattle.mailmap_suggestions.specs.GroupEntries.{HasNoEmptyName, IsMostFrequent, IsWritableContact, Unites};
ghost use Rattle.mailmap_suggestions.specs.GroupEntries.{candidates, contacts, email_entries, proper_answer};
ghost use Rattle.mailmap_suggestions.specs.GroupEntries.{uncut_email_class, with_emails};
ghost use Rattle.mailmap_suggestions.specs.Selections.{AllAgreeBut, AreAllNew, AreLinked, EachNeeded, Selection, Selects};
ghost use Rattle.mailmap_suggestions.specs.Selections.{after_emails, after_logins, after_names, by_email, by_login};
ghost use Rattle.mailmap_suggestions.specs.Selections.{by_name, has_cut_email, has_entries, is_left_out};
ghost use Rattle.mailmap_suggestions.specs.Selections.{is_left_out_later, is_united, uncut_class};
ghost use Rattle.mailmap_suggestions.specs.Suggestions.{GroupClasses, Stage, Suggestion, new_entries, stage_entries};
ghost use Rattle.mailmap_suggestions.specs.Suggestions.{suggestions};
ghost use Rattle.mailmap_suggestions.specs.SuggestedText.{count_line, entry_line, feed_unless, mark, suggestions_text};
ghost use Rattle.mailmap_suggestions.specs.Written.{ContactHoldsNoZero, HoldsNoZero, IsWritableSuggestion};
ghost use Rattle.mailmap_suggestions.specs.Written.{selected_text, text_with, unmarked_entries};

/// An entry with an old name changes only answers to contacts with its key, if there is an entry for its email before.
/// An entry without one changes only answers to contacts with its email that have no entry of their own.
pub fn law_others_stay()
    ensures named { (h : List Mapping) (x : Mapping) (c : Contact) → IsSome x.old_name
        → (key x ≡ own_key c → ⊥)
        → (folded x.old_email ≡ folded c.email → IsSome (spelling h (folded c.email)))
        → Stays h (x ∷ []) c }
    ensures plain { (h : List Mapping) (x : Mapping) (c : Contact) → x.old_name ≡ None
        → (folded x.old_email ≡ folded c.email → IsSome (last_fields h (own_key c)))
        → Stays h (x ∷ []) c }
{}

/// After an entry with a new name and a new email for the key of a contact, its answer is exactly these.
pub fn law_exact()
    ensures named { (h : List Mapping) (c : Contact) (name email old_name old_email : Text)
        → folded old_name ≡ folded c.name → folded old_email ≡ folded c.email
        → IsAnswered (h ++ mapping (Some name) (Some email) (Some old_name) old_email ∷ [])
        (record { name = name; email = email }) c }
    ensures plain { (h : List Mapping) (c : Contact) (name email old_email : Text)
        → last_fields h (own_key c) ≡ None → folded old_email ≡ folded c.email
        → IsAnswered (h ++ mapping (Some name) (Some email) None old_email ∷ [])
        (record { name = name; email = email }) c }
{}

/// Contacts with the same key, or with the same email and no entries of their own, have answers with the same email,
/// ASCII case aside. With the same key, they have the same name, too, except for the case.
#[tactic(auto, using(crate::proofs::Appended::linked_email, crate::proofs::Appended::linked_name))]
pub fn law_linked()
    ensures email { (h : List Mapping) (b c : Contact) → folded b.email ≡ folded c.email
        → (folded b.name ≡ folded c.name) ⊎ ((last_fields h (own_key b) ≡ None) × (last_fields h (own_key c) ≡ None))
        → folded (answer_to h b).email ≡ folded (answer_to h c).email }
    ensures name { (h : List Mapping) (b c : Contact) → own_key b ≡ own_key c
        → folded (answer_to h b).name ≡ folded (answer_to h c).name }
{}

/// If git reads each line of mailmaps as this library does, both have the same entries. No new name that is read is
/// empty. So the next laws hold for such mailmaps.
#[tactic(auto, using(mailmap_findings::proofs::Pruned::same_histories, crate::proofs::United::lines_named))]
pub fn law_read_alike()
    ensures histories { (buffers : List Text) → first_read_otherwise buffers ≡ None
        → flat_map git_mappings buffers ≡ flat_map mappings_of buffers }
    ensures names { (buffers : List Text) → AllByRecursion HasNoEmptyName (flat_map mappings_of buffers) }
{}

/// git reads a line up to a zero byte, so no text of an entry that it reads holds one. Nor does a name or an email of a
/// contact on lines without zero bytes.
#[tactic(auto, using(crate::proofs::NoZero::all_read_zero, crate::proofs::NoZero::contacts_zero))]
pub fn law_no_zero()
    ensures mappings { (buffers : List Text) → AllByRecursion HoldsNoZero (flat_map git_mappings buffers) }
    ensures contacts { (lines : List Text) → AllByRecursion (HoldsNo 0) lines
        → AllByRecursion (λ t. ContactHoldsNoZero t.contact) (contacts_from 1 lines) }
{}

/// The entries for emails, whichever emails are shared. All contacts whose answers have one email get the proper one
/// of these answers, by this library and by git. Others are answered as before: those whose answer has no email, one
/// that several people share, or one for which git would cut a line. So nobody at a shared address changes. Two
/// contacts get one answer only if their answers had one email, ASCII case aside. The one premise is that of mailmaps
/// that are read: no new name is empty.
pub fn law_suggestions()
    ensures emails { (shared : List Text) (h : List Mapping) (ts : List Tally) → AllByRecursion HasNoEmptyName h
        → Unites shared (uncut_email_class shared h ts) h ts (with_emails shared h ts) }
    ensures others { (shared : List Text) (h : List Mapping) (ts : List Tally) → AllByRecursion HasNoEmptyName h
        → AllByRecursion (λ c. uncut_email_class shared h ts (answer_to h c) ≡ []
        → Stays h (email_entries shared (alike h) ts) c) (contacts ts) }
    ensures at_shared { (shared : List Text) (h : List Mapping) (ts : List Tally) → AllByRecursion HasNoEmptyName h
        → AllByRecursion (λ c. is_shared shared (answer_to h c).email ≡ true
        → Stays h (email_entries shared (alike h) ts) c) (contacts ts) }
    ensures joined { (shared : List Text) (h : List Mapping) (ts : List Tally) → AllByRecursion HasNoEmptyName h
        → let g = with_emails shared h ts in
        AllByRecursion (λ b. AllByRecursion (λ c. answer_to g b ≡ answer_to g c
        → folded (answer_to h b).email ≡ folded (answer_to h c).email) (contacts ts)) (contacts ts) }
{}

/// The lines of any selection of whole groups, after those for emails. With those by name, contacts of these groups get
/// the proper answer of their group, by this library and by git, and all others are answered as without them: also those
/// whose line mailmaps remember. With those by login after them, it is so again. Left out are contacts of a group that
/// needs a line that git would cut, if one of them is in a selected group of a later stage. No two answers have one email
/// that one person has, and differ, then either; this also leaves out groups by login with a contact for whose email git
/// would cut a line. Where no group by name, or none by login, is selected, nothing changes.
pub fn law_selected()
    ensures names { (s : Selection) → AllByRecursion HasNoEmptyName s.mappings → AreLinked s
        → Selects s.seen (is_left_out s) (by_name s) (after_emails s) (after_names s) }
    ensures logins { (s : Selection) → AllByRecursion HasNoEmptyName s.mappings → AreLinked s
        → Selects s.seen (is_left_out_later s) (by_login s) (after_names s) (after_logins s) }
    ensures emails_by_name { (s : Selection) → AllByRecursion HasNoEmptyName s.mappings → AreLinked s
        → AllAgreeBut (is_left_out s) (uncut_class (by_email s)) (after_names s) (contacts s.tallies) }
    ensures emails { (s : Selection) → AllByRecursion HasNoEmptyName s.mappings → AreLinked s
        → AllAgreeBut (has_cut_email s) (uncut_class (by_email s)) (after_logins s) (contacts s.tallies) }
    ensures no_names { (s : Selection) → ((k : Text) → s.names_pass k ≡ false) → after_names s ≡ after_emails s }
    ensures no_logins { (s : Selection) → ((k : Text) → s.logins_pass k ≡ false) → after_logins s ≡ after_names s }
{}

/// Where mailmaps remember no line of some groups, contacts of all of them that have entries count as united. So after
/// the entries for alike names no two answers have one class, and differ.
pub fn law_none_remembered()
    ensures united { (seen : List Text) (stage : Stage) → AreAllNew seen stage
        → AllByRecursion (λ c. is_united seen stage c ≡ has_entries stage c) (contacts stage.tallies) }
    ensures classes { (s : Selection) → AllByRecursion HasNoEmptyName s.mappings → AreLinked s
        → AreAllNew s.seen (by_name s)
        → AllAgreeBut (is_left_out s) (uncut_class (by_name s)) (after_names s) (contacts s.tallies) }
{}

/// Each suggested entry is needed: without it, some contact of a group that has it doesn't get the group's proper
/// answer, by this library or by git. Left out are entries with the old email of a contact that is left out.
pub fn law_each_needed()
    ensures emails { (s : Selection) → AllByRecursion HasNoEmptyName s.mappings → EachNeeded (λ _. false) (by_email s) }
    ensures names { (s : Selection) → AllByRecursion HasNoEmptyName s.mappings → AreLinked s
        → EachNeeded (is_left_out s) (by_name s) }
    ensures logins { (s : Selection) → AllByRecursion HasNoEmptyName s.mappings → AreLinked s
        → EachNeeded (is_left_out_later s) (by_login s) }
{}

/// The proper answer of contacts is a most frequent one of those that may be proper: those with a name and an email
/// that one person has, or those with a name if there are none, or all if there are none of these, either.
#[tactic(auto, using(crate::proofs::United::proper_frequent))]
pub fn law_proper_answer()
    ensures { (shared : List Text) (h : List Mapping) (g : List Tally) → g ≢ []
        → IsMostFrequent (candidates shared (counted_answers (alike h) g)) (proper_answer shared (alike h) g) }
{}

/// The line of a suggested entry is read as the entry if a line can hold it, and as a comment with its mark. What says
/// how often an answer comes is a comment, too.
pub fn law_suggested_lines()
    ensures entry { (n : ℕ) (e : Mapping) → IsWritable e → is_accepted e ≡ true
        → (reading n (entry_line e) ≡ Some (Ok e)) × (strict_reading n (entry_line e) ≡ Some (Ok e)) }
    ensures marked { (n : ℕ) (e : Mapping) → reading n (mark true ++ entry_line e) ≡ None }
    ensures count { (n count : ℕ) (is_gits : Bool) (c : Contact) → reading n (count_line is_gits count c) ≡ None }
{}

/// Whichever of some suggestions have marks before their lines, their text is read as the entries of the others, if
/// lines can hold the suggestions. What is suggested for mappings and contacts that are read from lines is read as the
/// entries for emails, whatever the classes and the remembered lines are; and with the marks deleted of some groups
/// for alike names and for logins, as the entries for emails and those of these groups that no line remembers. Git reads
/// both as the same entries if no text of a mapping or of a contact holds a zero byte, at which git's reading of a line
/// ends. With no marks deleted, the text is that of the suggestions.
pub fn law_suggested_text()
    ensures read { (is_marked : Suggestion → Bool) (found : List Suggestion)
        → AllByRecursion (λ s. IsWritableSuggestion (is_marked s) s) found
        → mappings_of (text_with is_marked found) ≡ unmarked_entries is_marked found }
    ensures emails { (shared : List Text) (classes : GroupClasses) (seen : List Text) (h : List Mapping)
        (ts : List Tally) → AllByRecursion IsWritable h → AllByRecursion (λ t. IsWritableContact t.contact) ts
        → mappings_of (suggestions_text (suggestions shared classes seen (alike h) ts))
        ≡ email_entries shared (alike h) ts }
    ensures gits { (shared : List Text) (classes : GroupClasses) (seen : List Text) (h : List Mapping)
        (ts : List Tally) → AllByRecursion IsWritable h → AllByRecursion (λ t. IsWritableContact t.contact) ts
        → AllByRecursion HoldsNoZero h → AllByRecursion (λ t. ContactHoldsNoZero t.contact) ts
        → git_mappings (suggestions_text (suggestions shared classes seen (alike h) ts))
        ≡ email_entries shared (alike h) ts }
    ensures selected { (s : Selection) → AllByRecursion IsWritable s.mappings
        → AllByRecursion (λ t. IsWritableContact t.contact) s.tallies → AreLinked s
        → mappings_of (selected_text s.shared s.classes s.names_pass s.logins_pass s.seen (alike s.mappings) s.tallies)
        ≡ stage_entries (by_email s)
        ++ new_entries s.seen (stage_entries (by_name s) ++ stage_entries (by_login s)) }
    ensures selected_gits { (s : Selection) → AllByRecursion IsWritable s.mappings
        → AllByRecursion (λ t. IsWritableContact t.contact) s.tallies → AreLinked s
        → AllByRecursion HoldsNoZero s.mappings → AllByRecursion (λ t. ContactHoldsNoZero t.contact) s.tallies
        → git_mappings (selected_text s.shared s.classes s.names_pass s.logins_pass s.seen (alike s.mappings) s.tallies)
        ≡ stage_entries (by_email s)
        ++ new_entries s.seen (stage_entries (by_name s) ++ stage_entries (by_login s)) }
    ensures none_selected { (shared : List Text) (classes : GroupClasses) (seen : List Text) (h : Histories)
        (ts : List Tally)
        → selected_text shared classes (λ _. false) (λ _. false) seen h ts
        ≡ suggestions_text (suggestions shared classes seen h ts) }
    ensures mappings { (buffers : List Text) → AllByRecursion IsWritable (flat_map mappings_of buffers) }
    ensures contacts { (lines : List Text) → AllByRecursion (HoldsNo 10) lines
        → AllByRecursion (λ t. IsWritableContact t.contact) (contacts_from 1 lines) }
{}

/// A text after one that is empty or ends with a line feed is read as both, one after the other, by this library and
/// by git. So is a text after any other, with the line feed between them that `--suggest` prints first then.
pub fn law_text_after()
    ensures ours { (s t : Text) → ends_line s ≡ true → mappings_of (s ++ t) ≡ mappings_of s ++ mappings_of t }
    ensures gits { (s t : Text) → ends_line s ≡ true → git_mappings (s ++ t) ≡ git_mappings s ++ git_mappings t }
    ensures ours_fed { (s t : Text) → mappings_of (s ++ feed_unless (last s) ++ t) ≡ mappings_of s ++ mappings_of t }
    ensures gits_fed { (s t : Text)
        → git_mappings (s ++ feed_unless (last s) ++ t) ≡ git_mappings s ++ git_mappings t }
{}

//! Laws about the definitions. These functions do nothing: each states its law in its contract.
ghost use Rattle.std.specs.List.{Contains};
ghost use Rattle.std.specs.Prelude.{◌≡◌, ◌↔◌, ℕ, List, map};
ghost use Rattle.bstr.specs.Text.{lines_of};
ghost use Rattle.mailmap_entries.specs.Folding.{Text};
ghost use Rattle.mailmap_grammar.specs.Lines.{pieces};
ghost use Rattle.mailmap_contacts.specs.Contacts.{Contact, Tally, contacts_from, no_contacts_from, raw_contacts_from, read_by, tallied, trimmed};

/// The lines of a text have the same contacts with their line feeds and without them. So what holds of contacts on
/// lines without a line feed holds of those that are counted.
pub fn law_line_feeds()
    ensures contacts { (n : ℕ) (text : Text) → contacts_from n (lines_of text) ≡ contacts_from n (pieces text) }
    ensures no_contacts { (n : ℕ) (text : Text)
        → no_contacts_from n (lines_of text) ≡ no_contacts_from n (pieces text) }
{}

/// The contacts on lines are those as they are, without the white space around their texts. So what holds of contacts
/// holds of those that are counted as they are.
pub fn law_trimmed()
    ensures { (n : ℕ) (lines : List Text) → contacts_from n lines ≡ map (read_by trimmed) (raw_contacts_from n lines) }
{}

/// The contacts are those of their tallies. So what holds of all contacts on lines holds of all that are counted.
pub fn law_tallied()
    ensures { (ts : List Tally) (c : Contact)
        → Contains (map (λ t. t.contact) ts) c ↔ Contains (map (λ t. t.contact) (tallied ts)) c }
{}

//! Finds lines of mailmaps that no contact needs.
//!
//! A contact needs the line that sets its new name and the line that sets its new email. If no line sets an email, it
//! needs the first line of its email, whose spelling counts.
//!
//! ```text
//! let mailmaps = Mailmaps::read(alloc, &[b"Jane <jd@x>\nJoe <joe@x>\n"])?;
//! let mut needs = Needs::new(alloc, &mailmaps)?;
//! needs.add_line(b"jd <JD@x>");
//! needs.unneeded(alloc)? // line 2
//! ```
ghost use Rattle.std.specs.Prelude.{◌≡◌, IfOk, filter, map, not, option_to_list};
ghost use Rattle.std.specs.List.{list_any};
ghost use Rattle.std.specs.Option.{option_map};
ghost use Rattle.mailmap_findings.specs.Explanations.{explained};
ghost use Rattle.mailmap_findings.specs.Positions.{located_lines, located, same_position, whole_lines};
ghost use Rattle.mailmap_entries.specs.Semantics.{answer_of};
ghost use Rattle.mailmap_findings.specs.Needs as spec;
ghost use Rattle.mailmap_grammar.specs.Lines.{contact_in};
ghost use Rattle.mailmap_findings.specs.Needs.{AreUnneeded, any_needs, contact_needs, is_no_contact};
ghost use Rattle.mailmap_redundancy.specs.Redundancy.{AreEffective, entries};

use crate::explain::{Explanation, Explanations};
use crate::verify::{Mailmaps, Position};
use bstr::ByteSlice;
use mailmap_grammar::contacts::{ParsedContact, contact_of, trim};
use std::alloc::{AllocError, Global};
use std::collections::BTreeSet;
use std::marker::Model;

/// The lines that have an effect but that no contact needs, in their order. `contacts` has one contact per line; lines
/// that are not contacts need nothing.
///
/// With the mailmap `Jane <jd@x>\nJoe <joe@x>\n`, the contacts `jd <JD@x>\n` don't need line 2.
pub fn unneeded(
    alloc: Global,
    buffers: &[&[u8]],
    contacts: &[u8],
) -> Result<Vec<Position>, AllocError>
    ensures { IfOk result (λ found. AreUnneeded (map (λ b. b.now) buffers.now) contacts.now found.items) }
{
    let mailmaps = Mailmaps::read(alloc, buffers)?;
    unneeded_in(alloc, &mailmaps, contacts)
}

fn unneeded_in(
    alloc: Global,
    mailmaps: &Mailmaps<'_, '_>,
    contacts: &[u8],
) -> Result<Vec<Position>, AllocError>
    ensures { IfOk result (λ found. AreUnneeded mailmaps.now contacts.now found.items) }
{
    let mut needs = Needs::new(alloc, mailmaps)?;
    needs.add_all(contacts);
    needs.unneeded(alloc)
}

/// Keeps track of which effective lines no contact has needed so far.
///
/// Contacts are added one by one and not stored.
#[derive(Drop)]
pub struct Needs<'m, 'a> {
    explanations: Explanations<'m, 'a>,
    // the effective lines that no contact has needed so far
    left: BTreeSet<Position>,
}

impl<'m, 'a> Model for Needs<'m, 'a> {
    ghost use Rattle.mailmap_findings.specs.Needs as spec;

    ghost Value = { spec.Needs };

    ghost view = { λ s. record { history = s.explanations.history; kept = s.explanations.kept; left = s.left.keys } };
}

impl<'m, 'a> Needs<'m, 'a> {
    /// Starts without contacts, so no line is needed yet. After this, only [`Needs::unneeded`] allocates.
    pub fn new(alloc: Global, mailmaps: &'m Mailmaps<'_, 'a>) -> Result<Needs<'m, 'a>, AllocError>
        ensures history { IfOk result (λ s. s.history ≡ located (located_lines mailmaps.now)) }
        ensures effective { IfOk result (λ s. AreEffective (located (located_lines mailmaps.now)) s.kept) }
        ensures left { IfOk result (λ s. s.left ≡ map (λ x. x.position) s.kept) }
    {
        let explanations = Explanations::new(alloc, mailmaps)?;
        let left = explanations.lines(alloc)?.into_iter().collect(alloc)?;
        Ok(Needs { explanations, left })
    }

    /// Adds a contact, and crosses off the lines that it needs.
    pub fn add_contact(&mut self, name: &[u8], email: &[u8])
        ensures history { self.new.history ≡ self.old.history }
        ensures kept { self.new.kept ≡ self.old.kept }
        ensures left { self.new.left ≡ filter (λ p. not (spec.needs self.old.kept name.now email.now p)) self.old.left }
    {
        let needed = self.explanations.needs(name, email);
        remove(&mut self.left, needed.first);
        remove(&mut self.left, needed.second);
    }

    /// What a contact maps to, `None` if no line changes its name or its email.
    pub fn answer(&self, name: &[u8], email: &[u8]) -> Option<Explanation<'a>>
        ensures { option_map explained result ≡ answer_of (entries self.now.history) name.now email.now }
    {
        self.explanations.of(name, email)
    }

    /// Adds a line of contacts, with or without its line end. Returns `false` if the line is neither a contact nor
    /// blank.
    #[tactic(auto, using(crate::proofs::ContactNeeds::unclosed_some))]
    pub fn add_line(&mut self, line: &[u8]) -> bool
        ensures history { self.new.history ≡ self.old.history }
        ensures kept { self.new.kept ≡ self.old.kept }
        ensures left { self.new.left
            ≡ filter (λ p. not (contact_needs self.old.kept (contact_in line.now) p)) self.old.left }
        ensures contact { result ≡ not (is_no_contact line.now) }
    {
        match contact_of(line) {
            ParsedContact::Closed { name, email, .. } => {
                self.add_contact(name, email);
                true
            }
            ParsedContact::Absent => trim(line).is_empty(),
            ParsedContact::Unclosed => false,
        }
    }

    fn add_all(&mut self, contacts: &[u8])
        ensures { self.new.left
            ≡ filter (λ p. not (any_needs self.old.kept (whole_lines contacts.now) p)) self.old.left }
    {
        for line in contacts.lines_with_terminator() {
            self.add_line(line);
        }
    }

    /// The lines that no contact has needed so far, in their order.
    pub fn unneeded(&self, alloc: Global) -> Result<Vec<Position>, AllocError>
        ensures { IfOk result (λ found. found.items ≡ self.now.left) }
    {
        self.left.iter().copied().collect(alloc)
    }
}

fn remove(left: &mut BTreeSet<Position>, position: Option<Position>)
    ensures { left.new.keys
        ≡ filter (λ p. not (list_any (same_position p) (option_to_list position))) left.old.keys }
{
    if let Some(position) = position {
        left.remove(&position);
    }
}

//! The entries of mailmaps, as this library reads them and as git does.
ghost use Rattle.std.specs.Prelude.{◌≡◌, ◌++◌, ◌∷◌, [], IfOk, IsTrue, OnOk, map};
ghost use Rattle.mailmap_entries.specs.Entries.{mapping_of};
ghost use Rattle.mailmap_entries.specs.Semantics.{accepted};
ghost use Rattle.mailmap_findings.specs.GitAnswers.{git_mappings};
ghost use Rattle.mailmap_grammar.specs.Lines.{mappings_of};
ghost use Rattle.mailmap_findings.specs.Git.{git_entries as spec_git_entries};
ghost use Rattle.mailmap_redundancy.specs.Redundancy.{entries};
ghost use Rattle.mailmap_suggestions.specs.Histories.{histories_of};
ghost use Rattle.mailmap_suggestions.specs.Forms.{plus};

use bstr::ByteSlice;
use mailmap_entries::Entry;
use mailmap_findings::git::git_entries;
use mailmap_grammar::lines::parse_ignore_errors;
use mailmap_redundancy::{Effective, LocatedEntry, Position, without_redundant};
use std::alloc::{AllocError, Global};
use std::marker::Model;

/// The entries of mailmaps, twice, since git reads some lines in another way than this library.
#[derive(Drop)]
pub(crate) struct Histories<'a> {
    pub(crate) ours: History<'a>,
    pub(crate) gits: History<'a>,
}

impl<'a> Model for Histories<'a> {
    ghost use Rattle.mailmap_suggestions.specs.Forms as spec;

    ghost Value = { spec.Histories };

    ghost view = { λ s. record { ours = s.ours; gits = s.gits } };
}

/// Entries in their order. Lookups don't depend on their positions.
#[derive(Drop)]
pub(crate) struct History<'a> {
    pub(crate) entries: Vec<LocatedEntry<'a>>,
}

impl<'a> Model for History<'a> {
    ghost use Rattle.std.specs.Prelude.{◌≡◌, List, map, true};
    ghost use Rattle.std.specs.List.{AllByRecursion};
    ghost use Rattle.mailmap_entries.specs.Entries.{Mapping, mapping_of};
    ghost use Rattle.mailmap_entries.specs.Semantics.{is_accepted};

    ghost Value = { List Mapping };

    ghost view = { λ s. map (λ x. mapping_of x.entry) s.entries.items };

    ghost invariant = { λ s. AllByRecursion (λ x. is_accepted (mapping_of x.entry) ≡ true) s.entries.items };
}

impl<'a> Histories<'a> {
    /// Reads the mailmaps in buffers, one after another.
    pub(crate) fn read(alloc: Global, buffers: &[&'a [u8]]) -> Result<Histories<'a>, AllocError>
        ensures { IfOk result (λ h. h ≡ histories_of (map (λ b. b.now) buffers.now)) }
    {
        let mut histories = Histories {
            ours: History::new(alloc),
            gits: History::new(alloc),
        };
        for buffer in buffers {
            histories.ours.read(buffer)?;
            histories.gits.read_as_git(buffer)?;
        }
        Ok(histories)
    }

    /// The same again, so that entries can be added to one of both.
    pub(crate) fn copy(&self, alloc: Global) -> Result<Histories<'a>, AllocError>
        ensures { IfOk result (λ copy. copy ≡ self.now) }
    {
        Ok(Histories {
            ours: self.ours.copy(alloc)?,
            gits: self.gits.copy(alloc)?,
        })
    }

    /// Appends entries that both have, but none that maps nothing.
    pub(crate) fn add(&mut self, more: &[Entry<'a>]) -> Result<(), AllocError>
        ensures { OnOk result (self.new ≡ plus self.old (accepted (map mapping_of more.now))) }
    {
        for entry in more {
            self.ours.push(*entry)?;
            self.gits.push(*entry)?;
        }
        Ok(())
    }
}

impl<'a> History<'a> {
    fn new(alloc: Global) -> History<'a>
        ensures { result ≡ [] }
    {
        History {
            entries: Vec::new(alloc),
        }
    }

    fn copy(&self, alloc: Global) -> Result<History<'a>, AllocError>
        ensures { IfOk result (λ copy. copy ≡ self.now) }
    {
        Ok(History {
            entries: Vec::from_slice(alloc, &self.entries)?,
        })
    }

    /// Whether there are none.
    pub(crate) fn is_empty(&self) -> bool
        ensures { IsTrue result → self.now ≡ [] }
    {
        self.entries.is_empty()
    }

    /// Whether these are the same entries, as of most mailmaps.
    pub(crate) fn is_same(&self, other: &History<'_>) -> bool
        ensures { IsTrue result → self.now ≡ other.now }
    {
        are_same(&self.entries, &other.entries)
    }

    /// What answers as these entries do.
    #[tactic(auto, using(crate::proofs::Forms::entries_in))]
    pub(crate) fn effective(&self, alloc: Global) -> Result<Effective<'_, 'a>, AllocError>
        ensures { IfOk result (λ effective. entries effective.history ≡ self.now) }
    {
        Ok(without_redundant(alloc, self.entries.as_slice())?)
    }

    #[tactic(auto, using(crate::proofs::Forms::ours_accepted))]
    fn read(&mut self, buffer: &'a [u8]) -> Result<(), AllocError>
        ensures { OnOk result (self.new ≡ self.old ++ mappings_of buffer.now) }
    {
        for entry in parse_ignore_errors(buffer) {
            self.push(entry)?;
        }
        Ok(())
    }

    fn read_as_git(&mut self, buffer: &'a [u8]) -> Result<(), AllocError>
        ensures { OnOk result (self.new ≡ self.old ++ git_mappings buffer.now) }
    {
        for line in buffer.lines_with_terminator() {
            self.read_line_as_git(line)?;
        }
        Ok(())
    }

    #[tactic(auto, using(crate::proofs::Forms::line_accepted))]
    fn read_line_as_git(&mut self, line: &'a [u8]) -> Result<(), AllocError>
        ensures { OnOk result (self.new ≡ self.old ++ spec_git_entries line.now) }
    {
        for entry in git_entries(line) {
            self.push(entry)?;
        }
        Ok(())
    }

    fn push(&mut self, entry: Entry<'a>) -> Result<(), AllocError>
        ensures { OnOk result (self.new ≡ self.old ++ accepted (mapping_of entry.entry ∷ [])) }
    {
        if entry.new_name().is_some() || entry.new_email().is_some() {
            let position = Position { buffer: 0, line: 0 };
            self.entries.push(LocatedEntry { position, entry })?;
        }
        Ok(())
    }
}

fn are_same(some: &[LocatedEntry<'_>], others: &[LocatedEntry<'_>]) -> bool
    ensures { IsTrue result → map (λ x. mapping_of x.entry) some.now ≡ map (λ x. mapping_of x.entry) others.now }
{
    if some.len() != others.len() {
        return false;
    }
    for index in 0..some.len() {
        if !is_same(&some[index], &others[index]) {
            return false;
        }
    }
    true
}

fn is_same(a: &LocatedEntry<'_>, b: &LocatedEntry<'_>) -> bool
    ensures { IsTrue result → mapping_of a.now.entry ≡ mapping_of b.now.entry }
{
    a.entry == b.entry
}

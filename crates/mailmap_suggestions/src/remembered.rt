//! Lines with `#?` that mailmaps already have.
ghost use Rattle.std.specs.Prelude.{◌≡◌, ◌++◌, ◌∷◌, [], IfOk, List, OnOk, if◌then◌else◌, map, not};
ghost use Rattle.mailmap_entries.specs.Entries.{mapping_of};
ghost use Rattle.mailmap_entries.specs.Folding.{Text};
ghost use Rattle.mailmap_grammar.specs.Lines.{pieces};
ghost use Rattle.mailmap_suggestions.specs.RememberedViews.{Remembers, is_marked, without_feed as spec_without_feed};
ghost use Rattle.mailmap_suggestions.specs.Suggestions.{is_remembered, lines_in, new_entries, still_suggested};
ghost use Rattle.mailmap_suggestions.specs.Views.{listed_suggestion, suggestion_of};

use crate::suggestions::Suggestion;
use crate::text::push_line;
use bstr::ByteSlice;
use mailmap_entries::Entry;
use std::alloc::{AllocError, Global};
use std::collections::BTreeSet;

/// The lines of mailmaps that begin with `#?`.
#[derive(Drop)]
pub(crate) struct Remembered {
    lines: BTreeSet<Vec<u8>>,
}

impl Remembered {
    /// Those of the mailmaps in buffers.
    pub(crate) fn read(alloc: Global, buffers: &[&[u8]]) -> Result<Remembered, AllocError>
        ensures { IfOk result (Remembers (lines_in (map (λ b. b.now) buffers.now))) }
    {
        let mut remembered = Remembered {
            lines: BTreeSet::new(alloc),
        };
        for buffer in buffers {
            remembered.add_lines(alloc, buffer)?;
        }
        Ok(remembered)
    }

    fn add_lines(&mut self, alloc: Global, buffer: &[u8]) -> Result<(), AllocError>
        ensures { OnOk result ((lines : List Text) → Remembers lines self.old
            → Remembers (lines ++ pieces buffer.now) self.new) }
    {
        for line in buffer.lines_with_terminator() {
            self.add_line(alloc, without_feed(line))?;
        }
        Ok(())
    }

    fn add_line(&mut self, alloc: Global, line: &[u8]) -> Result<(), AllocError>
        ensures { OnOk result ((lines : List Text) → Remembers lines self.old
            → Remembers (lines ++ line.now ∷ []) self.new) }
    {
        if is_marked(line) {
            let line = Vec::from_slice(alloc, line)?;
            self.lines.insert(line)?;
        }
        Ok(())
    }

    /// A suggestion that needs review without the entries whose lines are remembered. `None` if all are.
    pub(crate) fn still_suggested<'a>(
        &self,
        alloc: Global,
        suggestion: Suggestion<'a>,
    ) -> Result<Option<Suggestion<'a>>, AllocError>
        ensures { (lines : List Text) → Remembers lines self.now → IfOk result (λ found.
            listed_suggestion found ≡ still_suggested lines (suggestion_of suggestion.entry)) }
    {
        if !suggestion.kind.needs_review() {
            return Ok(Some(suggestion));
        }
        let entries = self.new_entries(alloc, &suggestion.entries)?;
        if entries.is_empty() && !suggestion.is_cut {
            return Ok(None);
        }
        Ok(Some(Suggestion {
            entries,
            ..suggestion
        }))
    }

    fn new_entries<'a>(
        &self,
        alloc: Global,
        entries: &[Entry<'a>],
    ) -> Result<Vec<Entry<'a>>, AllocError>
        ensures { (lines : List Text) → Remembers lines self.now → IfOk result (λ found.
            map mapping_of found.items ≡ new_entries lines (map mapping_of entries.now)) }
    {
        let mut found = Vec::new(alloc);
        for entry in entries {
            let is_known = self.has(alloc, entry)?;
            push_unless(&mut found, is_known, entry)?;
        }
        Ok(found)
    }

    fn has(&self, alloc: Global, entry: &Entry<'_>) -> Result<bool, AllocError>
        ensures { (lines : List Text) → Remembers lines self.now → IfOk result (λ found.
            found ≡ is_remembered lines (mapping_of entry.now)) }
    {
        let mut line = Vec::new(alloc);
        push_line(&mut line, entry, true)?;
        Ok(self.lines.contains(&line))
    }
}

fn push_unless<'a>(
    found: &mut Vec<Entry<'a>>,
    is_known: bool,
    entry: &Entry<'a>,
) -> Result<(), AllocError>
    ensures { OnOk result (map mapping_of found.new.items ≡ map mapping_of found.old.items
        ++ (if not is_known then mapping_of entry.now ∷ [] else [])) }
{
    if !is_known {
        found.push(*entry)?;
    }
    Ok(())
}

fn is_marked(line: &[u8]) -> bool
    ensures { result ≡ is_marked line.now }
{
    matches!(line, [b'#', b'?', ..])
}

#[tactic(auto, using(crate::proofs::Remembering::fed, crate::proofs::Remembering::unfed))]
fn without_feed(line: &[u8]) -> &[u8]
    ensures { result.now ≡ spec_without_feed line.now }
{
    match line.last() {
        Some(b'\n') => &line[..line.len() - 1],
        _ => line,
    }
}

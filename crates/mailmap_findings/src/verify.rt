//! Finds lines of mailmaps that don't do what they seem to.
//!
//! In the mailmap
//!
//! ```text
//! Jane <jane@x> <JD@x>
//! Jane Doe <jane@x> <jd@X>
//! Joe <joe@x> joe
//! ```
//!
//! [`verify`] finds that nothing reads the text at the end of the third line. It doesn't report the first line,
//! although the second overrides both of its fields: a snapshot lists the email as the first line spells it, `JD@x`.
//!
//! A mailmap can have many more findings than entries. [`Findings`] computes them one by one, without allocating:
//!
//! ```text
//! let mailmaps = Mailmaps::read(alloc, &buffers)?;
//! let verification = Verification::new(alloc, &mailmaps)?;
//! for finding in verification.findings() { .. }
//! ```
ghost use Rattle.std.specs.Prelude.{◌≡◌, ◌≢◌, ◌∷◌, [], map, IfOk, OnErr};
ghost use Rattle.std.specs.Iterator.{YieldsFirstBy, item_count};
ghost use Rattle.mailmap_redundancy.specs.Redundancy.{located_of};
ghost use Rattle.mailmap_findings.specs.Findings.{AreFindings, IsPruned, finding_of};
ghost use Rattle.mailmap_findings.specs.Positions.{located_lines, located};

mod effects;
mod lines;
mod walk;

pub use crate::git::GitReading;
use lines::{BufferLines, has_lines};
use mailmap_grammar::lines::Error;
pub use mailmap_redundancy::Position;
use mailmap_redundancy::{Effective, LocatedEntry, without_redundant};
use std::alloc::{AllocError, Global};
use std::marker::Model;
pub use walk::first_read_otherwise;
use walk::{LineKinds, entry_of, pruned_text};

/// What is wrong with a line, and where the line is.
#[derive(Clone, Copy, Debug, PartialEq, Eq)]
pub struct Finding<'a> {
    pub position: Position,
    pub kind: FindingKind<'a>,
}

/// The kinds of findings, each with its details.
#[derive(Clone, Copy, Debug, PartialEq, Eq)]
pub enum FindingKind<'a> {
    /// The buffer begins with a byte order mark, which becomes a part of the line's first name or makes a comment a
    /// fault. All other findings of the line are those that it would have without the mark, but that its entry has no
    /// effect if so it is.
    ByteOrderMark,
    /// The line breaks a rule of strict parsing: it has no entry, or its second email isn't closed.
    Fault(Error<'a>),
    /// Text after the last email that counts, of a line that has an entry, trimmed and not empty. In `Joe <joe@x> joe`
    /// it is the last word.
    IgnoredText(&'a [u8]),
    /// A new name or an old one begins with `#`, as in ` # Joe <joe@x>`. A comment begins with the first byte of a line.
    CommentInLine,
    /// git reads the line in another way than this library, as shown here. For git, the email in `Joe < a@x >` has a
    /// space at each end, and a line with a zero byte before its email has no entry.
    GitReads(GitReading<'a>),
    /// Deleting all lines with this finding together changes nothing. Deleting only one of them may: a line can be
    /// without effect because another one is.
    NoEffect {
        /// The last line for the same old email and old name that has an effect.
        beside: Position,
        /// Whether that line has the same new name and the same new email. If not, the two may be in conflict.
        is_same: bool,
    },
    /// The line maps to a contact that the mailmaps map to another one.
    ItselfMapped {
        contact: Contact<'a>,
        to: Contact<'a>,
        /// The line that maps `contact`. If there are two, as in an [`Explanation`](crate::explain::Explanation), the
        /// earlier one.
        first: Position,
        /// The later line, if there are two.
        second: Option<Position>,
    },
}

/// A name and an email. There is no name if the line has neither a new name nor an old one.
#[derive(Clone, Copy, Debug, PartialEq, Eq)]
pub struct Contact<'a> {
    pub name: Option<&'a [u8]>,
    pub email: &'a [u8],
}

/// Reports what is wrong with the lines of the buffers, in the order of the buffers and their lines.
///
/// A line can have up to five findings, in this order: a byte order mark; a fault or ignored text; a name that begins
/// with `#`; that git reads it in another way; that its entry has no effect, or that its contact is itself mapped. All
/// lines without effect can be deleted at once.
///
/// For the buffer `P <a@x>\nP <a@x> p`, this reports that line 1 has no effect beside line 2, and that line 2 has the
/// ignored text `p`.
#[tactic(auto, using(crate::proofs::Verified::no_line))]
pub fn verify<'a>(alloc: Global, buffers: &[&'a [u8]]) -> Result<Vec<Finding<'a>>, AllocError>
    ensures findings { IfOk result
        (λ findings. AreFindings (map (λ b. b.now) buffers.now) (map finding_of findings.items)) }

    // Without a line in the buffers it can't fail.
    ensures out_of_memory { OnErr result (located_lines (map (λ b. b.now) buffers.now) ≢ []) }
{
    if !has_lines(buffers) {
        return Ok(Vec::new(alloc));
    }
    let mailmaps = Mailmaps::read(alloc, buffers)?;
    findings_in(alloc, &mailmaps)
}

fn findings_in<'a>(
    alloc: Global,
    mailmaps: &Mailmaps<'_, 'a>,
) -> Result<Vec<Finding<'a>>, AllocError>
    ensures { IfOk result (λ findings. AreFindings mailmaps.now (map finding_of findings.items)) }
{
    let verification = Verification::new(alloc, mailmaps)?;
    verification.findings().collect(alloc)
}

/// Copies the buffer without the lines whose entries have no effect. All other lines are kept byte for byte, including
/// comments and lines with faults.
#[tactic(auto, using(crate::proofs::Read::items_accepted, crate::proofs::Lines::kept_ascend, crate::proofs::Verified::if_given, crate::proofs::Verified::no_line))]
pub fn prune(alloc: Global, buffer: &[u8]) -> Result<Vec<u8>, AllocError>
    ensures pruned { IfOk result (λ text. IsPruned buffer.now text.items) }

    // Without a line in the buffer it can't fail.
    ensures out_of_memory { OnErr result (located_lines (buffer.now ∷ []) ≢ []) }
{
    let buffers = [buffer];
    if !has_lines(&buffers) {
        return Ok(Vec::new(alloc));
    }
    let mailmaps = Mailmaps::read(alloc, &buffers)?;
    let effective = without_redundant(alloc, mailmaps.entries())?;
    pruned_text(alloc, buffer, &effective)
}

/// Mailmaps, each in its own buffer, with their entries. A [`Verification`] borrows from it.
///
/// Contracts see it as the list of the buffers' texts.
#[derive(Drop)]
pub struct Mailmaps<'b, 'a> {
    buffers: &'b [&'a [u8]],
    entries: Vec<LocatedEntry<'a>>,
}

impl<'b, 'a> Model for Mailmaps<'b, 'a> {
    ghost use Rattle.std.specs.Prelude.{◌≡◌, List, map};
    ghost use Rattle.mailmap_entries.specs.Folding.{Text};
    ghost use Rattle.mailmap_redundancy.specs.Redundancy.{located_of};
    ghost use Rattle.mailmap_findings.specs.Positions.{located_lines, located};

    ghost Value = { List Text };

    ghost view = { λ s. map (λ b. b.now) s.buffers.now };

    ghost invariant = { λ s. map located_of s.entries.items
        ≡ located (located_lines (map (λ b. b.now) s.buffers.now)) };
}

impl<'b, 'a> Mailmaps<'b, 'a> {
    /// Parses the buffers and stores their entries. Lines without an entry take no memory.
    pub fn read(alloc: Global, buffers: &'b [&'a [u8]]) -> Result<Mailmaps<'b, 'a>, AllocError>
        ensures { IfOk result (λ mailmaps. mailmaps ≡ map (λ b. b.now) buffers.now) }
    {
        let mut entries = Vec::new(alloc);
        for line in BufferLines::of(buffers) {
            if let Some(entry) = entry_of(&line) {
                let position = line.position;
                entries.push(LocatedEntry { position, entry })?;
            }
        }
        Ok(Mailmaps { buffers, entries })
    }

    /// The entries, in the order of their lines.
    pub(crate) fn entries(&self) -> &[LocatedEntry<'a>]
        ensures { map located_of result.now ≡ located (located_lines self.now) }
    {
        &self.entries
    }
}

/// A verification of mailmaps whose findings are computed on demand. [`verify`] collects the same findings.
///
/// Contracts see it as the list of all findings.
#[derive(Drop)]
pub struct Verification<'m, 'a> {
    buffers: &'m [&'a [u8]],
    effective: Effective<'m, 'a>,
}

impl<'m, 'a> Model for Verification<'m, 'a> {
    ghost use Rattle.std.specs.Prelude.{List, map};
    ghost use Rattle.std.specs.List.{flat_map};
    ghost use Rattle.std.specs.List.Sorted.{IsStrictlySortedBy};
    ghost use Rattle.mailmap_redundancy.specs.Redundancy.{entries, position_cmp};
    ghost use Rattle.mailmap_findings.specs.Findings.{Finding, findings};
    ghost use Rattle.mailmap_findings.specs.Positions.{located_lines};

    ghost Value = { List Finding };

    ghost view = { λ s. flat_map (findings (entries s.effective.history) s.effective.kept)
        (located_lines (map (λ b. b.now) s.buffers.now)) };

    ghost invariant = { λ s. IsStrictlySortedBy position_cmp (map (λ x. x.position) s.effective.kept) };
}

impl<'m, 'a> Verification<'m, 'a> {
    /// Finds out which entries have an effect. Allocates all the memory that the findings need.
    #[tactic(auto, using(crate::proofs::Read::items_accepted, crate::proofs::Lines::kept_ascend))]
    pub fn new(
        alloc: Global,
        mailmaps: &'m Mailmaps<'_, 'a>,
    ) -> Result<Verification<'m, 'a>, AllocError>
        ensures { IfOk result (λ verification. AreFindings mailmaps.now verification) }
    {
        Ok(Verification {
            buffers: mailmaps.buffers,
            effective: without_redundant(alloc, mailmaps.entries())?,
        })
    }

    /// Iterates over all findings in the order of the lines, without allocating.
    pub fn findings(&self) -> Findings<'_, 'a>
        ensures { result ≡ self.now }
    {
        Findings {
            lines: BufferLines::of(self.buffers),
            effective: &self.effective,
            position: Position { buffer: 0, line: 0 },
            of_line: LineKinds::none(),
        }
    }
}

/// The iterator that [`findings`](Verification::findings()) returns.
///
/// Contracts see it as the list of the remaining findings.
#[derive(Drop)]
pub struct Findings<'v, 'a> {
    lines: BufferLines<'v, 'a>,
    effective: &'v Effective<'v, 'a>,
    // the current line, and the kinds of its findings that are left
    position: Position,
    of_line: LineKinds<'a>,
}

impl<'v, 'a> Model for Findings<'v, 'a> {
    ghost use Rattle.std.specs.Prelude.{◌++◌, List, map};
    ghost use Rattle.std.specs.List.{flat_map};
    ghost use Rattle.std.specs.List.Sorted.{IsStrictlySortedBy};
    ghost use Rattle.mailmap_redundancy.specs.Redundancy.{entries, position_cmp};
    ghost use Rattle.mailmap_findings.specs.Findings.{Finding, findings, reported_at};

    ghost Value = { List Finding };

    ghost view = { λ s. reported_at s.position s.of_line
        ++ flat_map (findings (entries s.effective.now.history) s.effective.now.kept) s.lines };

    ghost invariant = { λ s. IsStrictlySortedBy position_cmp (map (λ x. x.position) s.effective.now.kept) };
}

impl<'v, 'a> Iterator for Findings<'v, 'a> {
    type Item = Finding<'a>;

    ghost next_gives = { YieldsFirstBy finding_of (λ s. s) };

    ghost remaining = { item_count (λ s. s) };

    fn next(&mut self) -> Option<Finding<'a>> {
        loop {
            if let Some(kind) = self.of_line.next() {
                let position = self.position;
                return Some(Finding { position, kind });
            }
            let line = self.lines.next()?;
            self.position = line.position;
            self.of_line = LineKinds::of(self.effective, &line);
        }
    }
}

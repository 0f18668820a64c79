//! Parses lines, computes each line's findings, and copies the lines that pruning keeps.
ghost use Rattle.std.specs.Prelude.{◌≡◌, ◌∷◌, [], map, filter, unwrap_or, IfOk};
ghost use Rattle.std.specs.Iterator.{YieldsFirstBy};
ghost use Rattle.std.specs.List.{flat_map};
ghost use Rattle.std.specs.List.Sorted.{IsStrictlySortedBy};
ghost use Rattle.std.specs.Option.{option_copied, option_map};
ghost use Rattle.mailmap_entries.specs.Entries.{mapping_of};
ghost use Rattle.mailmap_grammar.specs.Lines.{is_comment, strict_reading};
ghost use Rattle.mailmap_redundancy.specs.Redundancy.{entries, position_cmp};
ghost use Rattle.mailmap_findings.specs.Findings.{first_read_otherwise as spec_first, has_comment, is_line_kept, kind_of};
ghost use Rattle.mailmap_findings.specs.Findings.{reported_of_effect as spec_effect, reported_of_line};
ghost use Rattle.mailmap_findings.specs.Findings.{reported_of_reading as spec_reported};
ghost use Rattle.mailmap_findings.specs.Marks.{unmarked as spec_unmarked};
ghost use Rattle.mailmap_findings.specs.Positions.{entry as spec_entry, has_entry_at, line_of, located_lines};

use crate::git::{GitReading, read_in_place_of};
use crate::verify::FindingKind;
use crate::verify::effects::{reported_of_proper, reported_without_effect};
use crate::verify::lines::{BufferLines, Line, text_after_mark};
use mailmap_entries::Entry;
use mailmap_grammar::contacts::{non_empty, trim};
use mailmap_grammar::lines::{Strictness, read_line};
use mailmap_grammar::strict;
use mailmap_redundancy::{Effective, LocatedEntry, Position};
use std::alloc::{AllocError, Global};
use std::cmp::Ordering;
use std::marker::Model;

/// The entry of a line, parsed leniently, as lookups do.
#[tactic(auto, unfolding(crate::specs::Positions::entry))]
#[inline]
pub(crate) fn entry_of<'a>(line: &Line<'a>) -> Option<Entry<'a>>
    ensures { option_map mapping_of result ≡ spec_entry (line_of line.now) }
{
    read_line(line.text, line.position.line, Strictness::Lenient)?.ok()
}

/// The fault that strict parsing finds in a line, or else its ignored text; and the line's entry. If strict parsing
/// finds an entry, lenient parsing finds the same one, so the line is parsed once.
#[tactic(auto, using(crate::proofs::Read::no_entry, crate::proofs::Read::entry_strictly), unfolding(crate::specs::Positions::entry))]
#[inline]
fn finding_and_entry<'a>(line: &Line<'a>) -> (Option<FindingKind<'a>>, Option<Entry<'a>>)
    ensures reported { option_map kind_of result.0
        ≡ spec_reported line.now.text.now (strict_reading line.now.position.line line.now.text.now) }
    ensures entry { option_map mapping_of result.1 ≡ spec_entry (line_of line.now) }
{
    match strict::read_strictly(line.text, line.position.line) {
        None => (None, None),
        Some(Err(error)) => (Some(FindingKind::Fault(error)), entry_of(line)),
        Some(Ok(read)) => (
            non_empty(trim(read.trailing)).map(FindingKind::IgnoredText),
            Some(read.entry),
        ),
    }
}

/// The position of the first line that git reads in another way than this library, `None` if git reads the same entry
/// from each line that has one, and none from the others.
///
/// For `Jane <jane@x>\nJoe < joe@x >\n` this is line 2, since git doesn't trim emails. Nothing is allocated.
pub fn first_read_otherwise(buffers: &[&[u8]]) -> Option<Position>
    ensures { result ≡ spec_first (map (λ b. b.now) buffers.now) }
{
    for line in BufferLines::of(buffers) {
        if read_in_place_of(entry_of(&line), line.text).is_some() {
            return Some(line.position);
        }
    }
    None
}

/// The kinds of a line's findings that are left: a byte order mark, and those of the line without it.
///
/// Contracts see it as the list of these kinds.
#[derive(Drop)]
pub(crate) struct LineKinds<'a> {
    is_marked: bool,
    of_text: Option<FindingKind<'a>>,
    has_comment: bool,
    of_git: Option<GitReading<'a>>,
    of_entry: Option<FindingKind<'a>>,
}

impl<'a> Model for LineKinds<'a> {
    ghost use Rattle.std.specs.Prelude.{◌∷◌, [], List};
    ghost use Rattle.std.specs.Option.{option_map};
    ghost use Rattle.mailmap_findings.specs.Findings.{FindingKind, byte_order_mark, comment_in_line, git_reads, given, kind_of, some_if};
    ghost use Rattle.mailmap_findings.specs.Git.{git_reading_of};

    ghost Value = { List FindingKind };

    ghost view = { λ s. given (some_if s.is_marked byte_order_mark ∷ option_map kind_of s.of_text
        ∷ some_if s.has_comment comment_in_line ∷ option_map (λ r. git_reads (git_reading_of r)) s.of_git
        ∷ option_map kind_of s.of_entry ∷ []) };
}

impl<'a> LineKinds<'a> {
    pub(crate) fn none() -> LineKinds<'a>
        ensures { result ≡ [] }
    {
        LineKinds {
            is_marked: false,
            of_text: None,
            has_comment: false,
            of_git: None,
            of_entry: None,
        }
    }

    /// Computes the kinds of a line's findings.
    pub(crate) fn of(effective: &Effective<'_, 'a>, line: &Line<'a>) -> LineKinds<'a>
        requires { IsStrictlySortedBy position_cmp (map (λ x. x.position) effective.now.kept) }
        ensures { result ≡ reported_of_line (entries effective.now.history) effective.now.kept (line_of line.now) }
    {
        let unmarked = unmarked(line);
        let (of_text, entry) = finding_and_entry(&unmarked);
        LineKinds {
            is_marked: text_after_mark(line).is_some(),
            of_text,
            has_comment: has_comment(entry),
            of_git: read_in_place_of(entry, unmarked.text),
            of_entry: reported_of_effect(effective, line, entry),
        }
    }

    pub(crate) fn next(&mut self) -> Option<FindingKind<'a>>
        ensures { YieldsFirstBy kind_of (λ s. s) self.old result self.new }
    {
        if self.is_marked {
            self.is_marked = false;
            return Some(FindingKind::ByteOrderMark);
        }
        if let Some(kind) = self.of_text.take() {
            return Some(kind);
        }
        if self.has_comment {
            self.has_comment = false;
            return Some(FindingKind::CommentInLine);
        }
        if let Some(reading) = self.of_git.take() {
            return Some(FindingKind::GitReads(reading));
        }
        self.of_entry.take()
    }
}

// The line without a byte order mark.
fn unmarked<'a>(line: &Line<'a>) -> Line<'a>
    ensures { line_of result ≡ spec_unmarked (line_of line.now) }
{
    Line {
        position: line.position,
        text: text_after_mark(line).unwrap_or(line.text),
    }
}

// Reports what the entry of a line does. `unmarked` is the entry of the line without a byte order mark.
fn reported_of_effect<'a>(
    effective: &Effective<'_, 'a>,
    line: &Line<'a>,
    unmarked: Option<Entry<'a>>,
) -> Option<FindingKind<'a>>
    requires sorted { IsStrictlySortedBy position_cmp (map (λ x. x.position) effective.now.kept) }
    requires entry { option_map mapping_of unmarked ≡ spec_entry (spec_unmarked (line_of line.now)) }
    ensures { option_map kind_of result
        ≡ spec_effect (entries effective.now.history) effective.now.kept (line_of line.now) }
{
    let entry = own_entry(line, unmarked)?;
    if is_kept(effective, line.position) {
        let bare = text_after_mark(line).is_some();
        return reported_of_proper(effective, unmarked?, bare);
    }
    reported_without_effect(effective, &entry, unmarked.unwrap_or(entry))
}

// The entry of a line as it is.
fn own_entry<'a>(line: &Line<'a>, unmarked: Option<Entry<'a>>) -> Option<Entry<'a>>
    requires { option_map mapping_of unmarked ≡ spec_entry (spec_unmarked (line_of line.now)) }
    ensures { option_map mapping_of result ≡ spec_entry (line_of line.now) }
{
    match text_after_mark(line) {
        Some(_) => entry_of(line),
        None => unmarked,
    }
}

// Whether a new name or an old one begins with `#`.
fn has_comment(entry: Option<Entry<'_>>) -> bool
    ensures { result ≡ has_comment (option_map mapping_of entry.entry) }
{
    let Some(entry) = entry else {
        return false;
    };
    begins_comment(entry.new_name()) || begins_comment(entry.old_name())
}

fn begins_comment(name: Option<&[u8]>) -> bool
    ensures { result ≡ is_comment (unwrap_or (option_copied name.entry) []) }
{
    matches!(name, Some([b'#', ..]))
}

/// Copies the lines of a buffer that have no entry or an effective one.
pub(crate) fn pruned_text(
    alloc: Global,
    buffer: &[u8],
    effective: &Effective<'_, '_>,
) -> Result<Vec<u8>, AllocError>
    requires { IsStrictlySortedBy position_cmp (map (λ x. x.position) effective.now.kept) }
    ensures { IfOk result (λ text. text.items ≡ flat_map (λ l. l.text)
        (filter (is_line_kept effective.now.kept) (located_lines (buffer.now ∷ [])))) }
{
    let mut text = Vec::with_capacity(alloc, buffer.len())?;
    let buffers = [buffer];
    for line in BufferLines::of(&buffers) {
        if is_kept(effective, line.position) || entry_of(&line).is_none() {
            text.extend_from_slice(line.text)?;
        }
    }
    Ok(text)
}

// Whether an effective entry is at this position. The effective entries are in the order of their lines.
fn is_kept(effective: &Effective<'_, '_>, position: Position) -> bool
    requires { IsStrictlySortedBy position_cmp (map (λ x. x.position) effective.now.kept) }
    ensures { result ≡ has_entry_at effective.now.kept position }
{
    let found = effective.kept().binary_search_by(
        |other: &&LocatedEntry<'_>| -> Ordering
            ensures { result ≡ position_cmp other.now.now.position position }
        { other.position.cmp(&position) },
    );
    found.is_ok()
}

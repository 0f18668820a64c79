//! Parses the lines of a mailmap. The grammar is that of the crate gix-mailmap, which differs from git's in a few
//! points.
//!
//! A buffer is split after each line feed. A line whose first byte is `#` is a comment; ` # c` isn't one, because of
//! the space in front. A line of only white space is blank. Comments and blank lines map nothing, but they count: the
//! first line of a buffer is line 1.
//!
//! Any other line is trimmed of Unicode white space and parsed as one or two contacts. A contact is a name and an email
//! in brackets: `Proper <proper@x> Commit <commit@x>` has two.
//!
//! - The first `<` opens the email and the first `>` after it closes it, so a name can contain `>` and an email can
//!   contain `<`. Name and email are trimmed, too.
//! - Either name may be missing, and so may the whole second contact. The second email may be empty, the first may not.
//! - Text after the second contact is ignored, and so is text without `<` after the first contact. A second `<` without
//!   its `>` is ignored, too, unless lines are parsed strictly, by [`parse_strict`].
//! - A line with nothing but one email maps nothing.
ghost use Rattle.std.specs.Prelude.{◌≡◌, ◌<◌, ◌≤◌, ◌∷◌, [], IfOk, IfSome, MatchOption, option_map, length};
ghost use Rattle.std.specs.Iterator.{YieldsFirstBy, item_count};
ghost use Rattle.std.specs.List.Sorted.{IsStrictlySortedBy};
ghost use Rattle.std.specs.Ordering.{nat_cmp};
ghost use Rattle.mailmap_entries.specs.Entries.{mapping_of};
ghost use Rattle.mailmap_grammar.specs.Lines.{trailing_text, cut, reading_of, reading_with_trailing, reading_by};
ghost use Rattle.mailmap_grammar.specs.Lines.{line_reader, readings};
ghost use Rattle.mailmap_grammar.specs.Lines.{readings_from, strict_readings, pieces, fault_lines, mappings_of};
ghost use Rattle.mailmap_grammar.specs.Trimming.{trim as spec_trim};

use crate::contacts::{ParsedContact, change_by_both, non_empty, parse_name_and_email, trim};
use crate::skip::skip_comments_and_blanks;
use crate::trailing::WithTrailing;
use bstr::ByteSlice;
use mailmap_entries::Entry;
use std::marker::Model;
use thiserror::Error;

/// Parses `buf` line by line. Yields one item for each line that is neither blank nor a comment, in order.
///
/// A fault concerns only its own line, and the lines after it are parsed as usual; callers that want to stop at a fault
/// do so themselves. Nothing is allocated. The entries borrow from `buf`, so they can outlive the iterator.
///
/// The buffer `# team\nJane <j@x>\nplain\n` yields the entry that maps `j@x` to `Jane`, and a fault on line 3.
pub fn parse(buf: &[u8]) -> Lines<'_>
    ensures value { result ≡ readings buf.now }

    // there are at most as many items as lines, and the lines of the faults ascend
    ensures at_most_one { length result ≤ length (pieces buf.now) }
    ensures rising { IsStrictlySortedBy nat_cmp (fault_lines result) }

    // callers can count the items without overflow
    ensures countable { length result ≤ length buf.now }
{
    Lines::new(buf, Strictness::Lenient)
}

/// Parses `buf` as [`parse`] does, but a second contact with `<` and without `>` is a fault, [`Error::UnclosedSecond`].
///
/// So `Jane <a@x> <b` yields a fault, where [`parse`] yields the entry that maps `a@x` to `Jane`. Text after a closed
/// email, as in `Jane <a@x> tail`, is no fault here, either. If the first contact has a fault, that one is reported.
pub fn parse_strict(buf: &[u8]) -> StrictLines<'_>
    ensures value { result ≡ strict_readings buf.now }

    // there are at most as many items as lines, and the lines of the faults ascend
    ensures at_most_one { length result ≤ length (pieces buf.now) }
    ensures rising { IsStrictlySortedBy nat_cmp (fault_lines result) }

    // callers can count the items without overflow
    ensures countable { length result ≤ length buf.now }
{
    StrictLines {
        lines: Lines::new(buf, Strictness::Strict),
    }
}

/// Parses `buf` as [`parse`] does, and skips lines with a fault. Git skips most such lines silently, too, but it
/// accepts an email of spaces: there, `Jane < > <b@x>` maps `b@x`.
///
/// The buffer `<a@x>\nJane <j@x>\nplain` yields only the entry that maps `j@x` to `Jane`.
#[tactic(auto, using(crate::proofs::Readings::length_mappings_in))]
pub fn parse_ignore_errors(buf: &[u8]) -> GoodLines<'_>
    ensures value { result ≡ mappings_of buf.now }

    // callers can count the items without overflow
    ensures countable { length result ≤ length buf.now }
{
    GoodLines { lines: parse(buf) }
}

/// An iterator over the lines of a mailmap, made by [`parse`]. It parses on demand.
///
/// Contracts see it as the list of the items that are left.
#[derive(Drop)]
pub struct Lines<'a> {
    // the lines that are left
    rest: &'a [u8],
    // the number of the line that was parsed last
    line_number: usize,
    strictness: Strictness,
}

/// Whether a second contact with `<` and without `>`, as in `Jane <a@x> <b`, is a fault.
#[derive(Clone, Copy, Debug)]
pub enum Strictness {
    /// No: it is ignored, as by [`parse`].
    Lenient,
    /// Yes: it is an [`Error::UnclosedSecond`], as in [`parse_strict`].
    Strict,
}

impl<'a> Model for Lines<'a> {
    ghost use Rattle.std.specs.Prelude.{List, length, ◌+◌, ◌^◌, ◌<◌};
    ghost use Rattle.mailmap_grammar.specs.Lines.{Reading, readings_from, reading_by, line_reader, pieces};

    ghost Value = { List Reading };

    ghost view = { λ s. readings_from (reading_by (line_reader s.strictness)) (s.line_number + 1) (pieces s.rest.now) };

    ghost invariant = { λ s. s.line_number + length s.rest.now < 2 ^ 64 };
}

impl<'a> Lines<'a> {
    #[tactic(auto, using(crate::proofs::FaultLines::line_laws))]
    fn new(buf: &'a [u8], strictness: Strictness) -> Self
        ensures value { result ≡ readings_from (reading_by (line_reader strictness)) 1 (pieces buf.now) }
        ensures at_most_one { length result ≤ length (pieces buf.now) }
        ensures rising { IsStrictlySortedBy nat_cmp (fault_lines result) }
        ensures countable { length result ≤ length buf.now }
    {
        Lines {
            rest: buf,
            line_number: 0,
            strictness,
        }
    }
}

impl<'a> Iterator for Lines<'a> {
    type Item = Result<Entry<'a>, Error<'a>>;

    ghost next_gives = { YieldsFirstBy reading_of (λ s. s) };

    ghost remaining = { item_count (λ s. s) };

    #[tactic(auto, using(crate::proofs::Readings::line_laws))]
    fn next(&mut self) -> Option<Result<Entry<'a>, Error<'a>>> {
        loop {
            let (rest, count) = skip_comments_and_blanks(self.rest);
            let (text, rest) = first_line(rest)?;
            self.rest = rest;
            self.line_number += count + 1;
            if let Some(item) = read_line(text, self.line_number, self.strictness) {
                return Some(item);
            }
        }
    }
}

/// An iterator over the lines of a mailmap that parses them strictly, made by [`parse_strict`].
///
/// Contracts see it as the list of the items that are left.
#[derive(Drop)]
pub struct StrictLines<'a> {
    lines: Lines<'a>,
}

impl<'a> Model for StrictLines<'a> {
    ghost use Rattle.std.specs.Prelude.{List};
    ghost use Rattle.mailmap_grammar.specs.Lines.{Reading};

    ghost Value = { List Reading };

    ghost view = { λ s. s.lines };
}

impl<'a> Iterator for StrictLines<'a> {
    type Item = Result<Entry<'a>, Error<'a>>;

    ghost next_gives = { YieldsFirstBy reading_of (λ s. s) };

    ghost remaining = { item_count (λ s. s) };

    fn next(&mut self) -> Option<Result<Entry<'a>, Error<'a>>> {
        self.lines.next()
    }
}

// The first line without its line feed, and what comes after it.
#[inline(always)]
#[tactic(auto, using(crate::proofs::LineFeeds::open_laws))]
fn first_line(bytes: &[u8]) -> Option<(&[u8], &[u8])>
    ensures { MatchOption result (bytes.now ≡ []) (λ p. (pieces bytes.now ≡ p.0.now ∷ pieces p.1.now)
        × (length p.1.now < length bytes.now)) }
{
    match bytes.find_byte(b'\n') {
        Some(feed) => Some((&bytes[..feed], &bytes[feed + 1..])),
        None if bytes.is_empty() => None,
        None => Some((bytes, &[])),
    }
}

/// An iterator over the entries of a mailmap that skips faults, made by [`parse_ignore_errors`].
///
/// Contracts see it as the list of the mappings that are left.
#[derive(Drop)]
pub struct GoodLines<'a> {
    lines: Lines<'a>,
}

impl<'a> Model for GoodLines<'a> {
    ghost use Rattle.std.specs.Prelude.{List};
    ghost use Rattle.mailmap_entries.specs.Entries.{Mapping};
    ghost use Rattle.mailmap_grammar.specs.Lines.{mappings_in};

    ghost Value = { List Mapping };

    ghost view = { λ s. mappings_in s.lines };
}

impl<'a> Iterator for GoodLines<'a> {
    type Item = Entry<'a>;

    ghost next_gives = { YieldsFirstBy mapping_of (λ s. s) };

    ghost remaining = { item_count (λ s. s) };

    #[tactic(auto, using(crate::proofs::Readings::good_laws))]
    fn next(&mut self) -> Option<Entry<'a>> {
        while let Some(item) = self.lines.next() {
            if let Ok(entry) = item {
                return Some(entry);
            }
        }
        None
    }
}

/// Why a line maps nothing.
///
/// Each fault has the number of its line, from 1, and as `input` the line without the white space at its ends.
/// [`Error::UnclosedSecond`] has only the rest of the line. The message names the line and the problem, but doesn't
/// show `input`, which need not be UTF-8.
#[derive(Clone, Copy, Debug, PartialEq, Eq, Error)]
pub enum Error<'a> {
    /// There is no `<`, as in `plain`.
    #[error("Line {line} does not contain an email")]
    NoEmail { line: usize, input: &'a [u8] },
    /// There is no `>` after the first `<`, as in `Jane <a@x`.
    #[error("{line}: Missing closing bracket '>' in email")]
    MissingClosingBracket { line: usize, input: &'a [u8] },
    /// The first email is empty or white space, as in `Jane < > <b@x>`.
    #[error("{line}: Email must not be empty")]
    EmptyEmail { line: usize, input: &'a [u8] },
    /// The line has only an email, as in `<a@x>`, and nothing to map it to.
    #[error("{line}: Emails without a name or email to map to are invalid")]
    NothingToMap { line: usize, input: &'a [u8] },
    /// There is no `>` after the second `<`, as in `Jane <a@x> <b`. `input` is the text after the `>` of the first
    /// contact, up to the end of the trimmed line. Only strict parsing reports this fault: [`parse_strict`], or
    /// [`read_line`] with [`Strictness::Strict`].
    #[error("{line}: Missing closing bracket '>' in second email")]
    UnclosedSecond { line: usize, input: &'a [u8] },
}

impl<'a> Error<'a> {
    ghost use Rattle.mailmap_grammar.specs.Lines.{fault_of};

    /// The number of the line with the fault. The first line of a buffer is 1.
    pub fn line(&self) -> usize
        ensures { result ≡ (fault_of self.now).line }
    {
        match *self {
            Error::NoEmail { line, .. }
            | Error::MissingClosingBracket { line, .. }
            | Error::EmptyEmail { line, .. }
            | Error::NothingToMap { line, .. }
            | Error::UnclosedSecond { line, .. } => line,
        }
    }

    /// The trimmed line, or the rest of it for [`Error::UnclosedSecond`]. It borrows from the buffer, not from the
    /// fault.
    pub fn input(&self) -> &'a [u8]
        ensures { result.now ≡ (fault_of self.now).input }
    {
        match *self {
            Error::NoEmail { input, .. }
            | Error::MissingClosingBracket { input, .. }
            | Error::EmptyEmail { input, .. }
            | Error::NothingToMap { input, .. }
            | Error::UnclosedSecond { input, .. } => input,
        }
    }
}

/// Parses one line. `None` means a comment or a blank line.
///
/// `line` is the line's number, which a fault shows. `text` may end with a line feed or a carriage return, which are
/// trimmed like other white space. `Jane <j@x>` gives the entry that maps `j@x` to `Jane`.
#[inline(always)]
pub fn read_line(
    text: &[u8],
    line: usize,
    strictness: Strictness,
) -> Option<Result<Entry<'_>, Error<'_>>>
    ensures { option_map reading_of result ≡ reading_by (line_reader strictness) line text.now }
{
    match read_with_trailing(text, line, strictness)? {
        Ok(read) => Some(Ok(read.entry)),
        Err(error) => Some(Err(error)),
    }
}

/// Parses the line with this number, and keeps the text after the last email that counts.
#[inline(always)]
pub(crate) fn read_with_trailing(
    text: &[u8],
    line: usize,
    strictness: Strictness,
) -> Option<Result<WithTrailing<'_>, Error<'_>>>
    ensures reading { option_map reading_with_trailing result ≡ reading_by (line_reader strictness) line text.now }
    ensures trailing { IfSome result (λ r. IfOk r (λ w. w.trailing.now ≡ trailing_text (cut (spec_trim text.now)))) }
{
    if let Some(b'#') = text.first() {
        return None;
    }
    let input = trim(text);
    if input.is_empty() {
        return None;
    }
    Some(parse_line(input, line, strictness))
}

/// Parses a line that is already trimmed and not empty.
#[inline(always)]
fn parse_line(
    input: &[u8],
    line: usize,
    strictness: Strictness,
) -> Result<WithTrailing<'_>, Error<'_>>
    ensures reading { reading_with_trailing result ≡ line_reader strictness line input.now }
    ensures trailing { IfOk result (λ w. w.trailing.now ≡ trailing_text (cut input.now)) }
{
    let (name, email, rest) = match parse_name_and_email(input) {
        ParsedContact::Absent => return Err(Error::NoEmail { line, input }),
        ParsedContact::Unclosed => return Err(Error::MissingClosingBracket { line, input }),
        ParsedContact::Closed { name, email, rest } => (name, email, rest),
    };
    if email.is_empty() {
        return Err(Error::EmptyEmail { line, input });
    }
    let (entry, rest) = match (parse_name_and_email(rest), strictness) {
        (
            ParsedContact::Closed {
                name: old_name,
                email: old_email,
                rest: after,
            },
            _,
        ) => (change_by_both(name, email, old_name, old_email), after),
        (ParsedContact::Unclosed, Strictness::Strict) => {
            return Err(Error::UnclosedSecond { line, input: rest });
        }
        _ => match non_empty(name) {
            Some(name) => (Entry::change_name_by_email(name, email), rest),
            None => return Err(Error::NothingToMap { line, input }),
        },
    };
    Ok(WithTrailing {
        entry,
        trailing: rest,
    })
}

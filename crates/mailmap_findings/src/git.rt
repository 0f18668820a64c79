//! git's grammar for mailmap lines, and the lines that it reads in another way than this library.
ghost use Rattle.std.specs.Prelude.{◌≡◌, ◌≤◌, List, length, option_map, option_to_list};
ghost use Rattle.std.specs.Iterator.{YieldsFirstBy, item_count};
ghost use Rattle.mailmap_entries.specs.Entries.{Mapping, mapping_of};
ghost use Rattle.mailmap_entries.specs.Listings.{same_entries};
ghost use Rattle.mailmap_grammar.specs.Lines.{cut, split_once as spec_split_once};
ghost use Rattle.mailmap_findings.specs.Git as spec;
ghost use Rattle.mailmap_findings.specs.Git.{git_contact_of, git_reading_of, read_in_place};

use bstr::ByteSlice;
use mailmap_entries::Entry;
use mailmap_grammar::contacts::{change_by_both, non_empty};
use std::marker::Model;

/// What git reads from a line.
#[derive(Clone, Copy, Debug, PartialEq, Eq)]
pub enum GitReading<'a> {
    /// No entry: to git the line is a comment, blank or malformed, or it maps nothing.
    Nothing,
    Entry(Entry<'a>),
    /// The number of entries, if there is more than one. Each comes from another part of a line of more than 1,023
    /// bytes.
    Lines(usize),
}

/// What git reads from `line` if that differs from `own`, the entry that this library reads if there is one; else `None`.
///
/// For `Joe < a@x >` this is an entry that maps ` a@x `, with both spaces, to the name `Joe`, since git doesn't trim
/// emails. For `Joe <a@x>` it is `None`.
#[inline]
pub fn read_in_place_of<'a>(own: Option<Entry<'_>>, line: &'a [u8]) -> Option<GitReading<'a>>
    ensures { option_map git_reading_of result ≡ read_in_place (option_map mapping_of own.entry) line.now }
{
    let reading = git_reading(line);
    if is_entry(&reading, own) {
        return None;
    }
    Some(reading)
}

#[inline]
fn git_reading(line: &[u8]) -> GitReading<'_>
    ensures { git_reading_of result ≡ spec.git_reading (spec.git_entries line.now) }
{
    let mut entries = git_entries(line);
    let Some(entry) = entries.next() else {
        return GitReading::Nothing;
    };
    match entries.count() {
        0 => GitReading::Entry(entry),
        more => GitReading::Lines(more + 1),
    }
}

// Whether git reads exactly this entry, or none if there is none.
#[inline]
fn is_entry(reading: &GitReading<'_>, own: Option<Entry<'_>>) -> bool
    ensures { (es : List Mapping) → spec.git_reading es ≡ git_reading_of reading.now
        → result ≡ same_entries es (option_to_list (option_map mapping_of own.entry)) }
{
    match (reading, own) {
        (GitReading::Nothing, None) => true,
        (GitReading::Entry(entry), Some(own)) => *entry == own,
        _ => false,
    }
}

// The bytes that git reads at once: its buffer has 1,024, and a zero byte ends it.
const PART_LEN: usize = 1023;

/// The entries that git reads from `line`, with or without its line feed. Like this library, git reads one or none from
/// nearly all lines.
///
/// For `Jane <j@x>` this yields the entry that maps `j@x` to the name `Jane`. git reads a line in parts of at most
/// 1,023 bytes, so a longer line can have an entry in each part. A part ends at its first zero byte, and is a comment
/// if it starts with `#`. git trims only names, and only spaces, tabs, carriage returns and line feeds. The first email
/// can be blank but not empty.
#[tactic(auto, using(crate::proofs::GitLines::length_entries))]
pub fn git_entries(line: &[u8]) -> GitEntries<'_>
    ensures value { result ≡ spec.git_entries line.now }

    ensures countable { length result ≤ length line.now }
{
    GitEntries { rest: line }
}

/// The iterator that [`git_entries`] returns.
///
/// Contracts see it as the list of the remaining mappings.
#[derive(Drop)]
pub struct GitEntries<'a> {
    rest: &'a [u8],
}

impl<'a> Model for GitEntries<'a> {
    ghost use Rattle.std.specs.Prelude.{List};
    ghost use Rattle.mailmap_entries.specs.Entries.{Mapping};
    ghost use Rattle.mailmap_findings.specs.Git.{git_entries};

    ghost Value = { List Mapping };

    ghost view = { λ s. git_entries s.rest.now };
}

impl<'a> Iterator for GitEntries<'a> {
    type Item = Entry<'a>;

    ghost next_gives = { YieldsFirstBy mapping_of (λ s. s) };

    ghost remaining = { item_count (λ s. s) };

    #[tactic(auto, using(crate::proofs::GitLines::entries_some, crate::proofs::GitLines::entries_none, crate::proofs::GitLines::entries_empty))]
    fn next(&mut self) -> Option<Entry<'a>> {
        while !self.rest.is_empty() {
            let (part, rest) = self.rest.split_at(self.rest.len().min(PART_LEN));
            self.rest = rest;
            if let Some(entry) = entry_of_text(up_to_zero(part)) {
                return Some(entry);
            }
        }
        None
    }
}

#[tactic(auto, unfolding(crate::specs::Git::entry_of_text, crate::specs::Git::entry_of_first))]
#[inline]
fn entry_of_text(text: &[u8]) -> Option<Entry<'_>>
    ensures { option_map mapping_of result ≡ spec.entry_of_text text.now }
{
    if let Some(b'#') = text.first() {
        return None;
    }
    let new = git_contact(text)?;
    // The first email can be blank but not empty.
    non_empty(new.email)?;
    entry_of_both(&new, git_contact(new.rest))
}

#[inline]
fn up_to_zero(part: &[u8]) -> &[u8]
    ensures { result.now ≡ spec.up_to_zero part.now }
{
    match split_once(part, 0) {
        None => part,
        Some((text, _)) => text,
    }
}

// The entry of a first contact and, if there is one, a second. An email alone maps nothing.
#[inline]
fn entry_of_both<'a>(new: &GitContact<'a>, old: Option<GitContact<'a>>) -> Option<Entry<'a>>
    ensures { option_map mapping_of result
        ≡ spec.entry_of_both (git_contact_of new.now) (option_map git_contact_of old.entry) }
{
    match old {
        Some(old) => Some(change_by_both(new.name, new.email, old.name, old.email)),
        None => Some(Entry::change_name_by_email(non_empty(new.name)?, new.email)),
    }
}

/// A name, trimmed as git does; an email, not trimmed; and the text after its `>`.
#[derive(Clone, Copy)]
struct GitContact<'a> {
    name: &'a [u8],
    email: &'a [u8],
    rest: &'a [u8],
}

/// Parses the contact at the start of a text. Its email is between the first `<` and the next `>`.
#[inline]
fn git_contact(text: &[u8]) -> Option<GitContact<'_>>
    ensures { option_map git_contact_of result ≡ spec.git_contact (cut text.now) }
{
    let (name, after) = split_once(text, b'<')?;
    let (email, rest) = split_once(after, b'>')?;
    Some(GitContact {
        name: trim_name(name),
        email,
        rest,
    })
}

/// The text before the first such byte, and the text after it.
#[inline]
fn split_once(text: &[u8], byte: u8) -> Option<(&[u8], &[u8])>
    ensures { option_map (λ p. (p.0.now, p.1.now)) result ≡ spec_split_once byte text.now }
{
    match text.find_byte(byte) {
        None => None,
        Some(index) => Some((&text[..index], &text[index + 1..])),
    }
}

#[tactic(auto, unfolding(crate::specs::Git::trim_name))]
#[inline]
fn trim_name(name: &[u8]) -> &[u8]
    ensures { result.now ≡ spec.trim_name name.now }
{
    name.trim_with(is_git_space)
}

/// Whether git's own `isspace` knows the character, which has no vertical tab and no form feed.
#[inline]
pub fn is_git_space(c: char) -> bool
    ensures { result ≡ spec.is_git_space c }
{
    matches!(c, ' ' | '\t' | '\r' | '\n')
}

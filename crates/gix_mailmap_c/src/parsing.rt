//! Reads a mailmap line by line, and says where in its text the entries and the faults are.
ghost use Rattle.std.specs.Prelude.{◌≡◌, ◌∷◌, ◌++◌, ◌+◌, ◌<◌, ◌≤◌, ⊤, [], length, IfSome, MatchOption, option_map, option_to_list};
ghost use Rattle.mailmap_grammar.specs.Lines.{cut};
ghost use Rattle.gix_mailmap_c.specs.Places.{parsed_after, parsed_line, place_of, placed_contact, placed_of};
ghost use Rattle.gix_mailmap_c.specs.Places.{places_in, IsHeld, IsPartAt, ParsesNext};
ghost use Rattle.gix_mailmap_c.specs.declared.status.TheConstants.{OK};

use crate::status::{NO_ENTRY, OK};
use crate::texts::number_of_fault;
use bstr::ByteSlice;
use mailmap_grammar::contacts::trim;
use mailmap_grammar::lines::{Strictness, read_line};

/// A text in a longer one: the offset at which it begins, and its length.
#[repr(C)]
#[derive(Clone, Copy)]
pub struct Place {
    pub start: usize,
    pub len: usize,
}

/// How far a mailmap is read: the offset at which the next line begins, and how many lines come before it.
#[repr(C)]
#[derive(Clone, Copy)]
pub struct Cursor {
    pub start: usize,
    pub lines: usize,
}

/// The places of the texts of an entry. That of a text which the entry doesn't have is empty.
#[repr(C)]
#[derive(Clone, Copy)]
pub struct Places {
    pub new_name: Place,
    pub new_email: Place,
    pub old_name: Place,
    pub old_email: Place,
}

/// A line that gives an entry or has a fault: its number, from 1, and the place of its text without the white space
/// around it.
///
/// `kind` is 0 for an entry. For a fault it is the number that a [`Finding`](crate::texts::Finding) has, and no text of
/// an entry has a place.
#[repr(C)]
#[derive(Clone, Copy)]
pub struct Parsed {
    pub line: usize,
    pub kind: u32,
    pub text: Place,
    pub places: Places,
}

const NOWHERE: Place = Place { start: 0, len: 0 };

const NO_PLACES: Places = Places {
    new_name: NOWHERE,
    new_email: NOWHERE,
    old_name: NOWHERE,
    old_email: NOWHERE,
};

// The places of a contact's name and email, and the text after it with its offset.
#[derive(Clone, Copy)]
pub(crate) struct PlacedContact<'a> {
    name: Place,
    email: Place,
    rest: &'a [u8],
    end: usize,
}

/// Reads the next line that gives an entry or has a fault, as [`parse`](mailmap_grammar::lines::parse()) does, and
/// moves the cursor to the line after it.
///
/// Returns `OK`; or `NO_ENTRY` if no such line is left, and nothing is changed. A cursor of zeros is at the first line.
/// Numbers of lines stop at `usize::MAX`. Nothing is allocated.
#[unsafe(no_mangle)]
pub extern "C" fn gix_mailmap_text_parse(
    text: &[u8],
    cursor: &mut Cursor,
    parsed: &mut Parsed,
) -> u32
    ensures next { ParsesNext text.now cursor.old cursor.new parsed.old parsed.new result }
    ensures held { result ≡ OK → IsHeld text.now parsed.new }
{
    let Some((found, after)) = next_parsed(text, *cursor) else {
        return NO_ENTRY;
    };
    *parsed = found;
    *cursor = after;
    OK
}

fn next_parsed(text: &[u8], cursor: Cursor) -> Option<(Parsed, Cursor)>
    ensures next { MatchOption result (parsed_after text.now cursor ≡ [])
        (λ r. parsed_after text.now cursor ≡ r.0 ∷ parsed_after text.now r.1) }
    ensures held { IfSome result (λ r. IsHeld text.now r.0) }
{
    let mut at = cursor;
    loop {
        let (line, after) = next_line(text, at)?;
        if let Some(found) = parsed_line(line, at.start, after.lines) {
            return Some((found, after));
        }
        at = after;
    }
}

// The line at a cursor, with its line feed, and the cursor after it.
fn next_line(text: &[u8], at: Cursor) -> Option<(&[u8], Cursor)>
    ensures left { MatchOption result (parsed_after text.now at ≡ [])
        (λ r. parsed_after text.now at
        ≡ option_to_list (parsed_line at.start r.1.lines r.0.now) ++ parsed_after text.now r.1) }
    ensures next { MatchOption result ⊤ (λ r. (r.1.start ≡ at.start + length r.0.now) × (at.start < r.1.start)
        × (r.1.start ≤ length text.now)) }
    ensures line { IfSome result (λ r. IsPartAt text.now at.start r.0.now) }
{
    let rest = text.get(at.start..)?;
    let line = rest.lines_with_terminator().next()?;
    let after = Cursor {
        start: at.start + line.len(),
        lines: at.lines.saturating_add(1),
    };
    Some((line, after))
}

// What a line at an offset is parsed to.
fn parsed_line(line: &[u8], start: usize, number: usize) -> Option<Parsed>
    requires { start + length line.now ≤ usize.MAX }
    ensures { result ≡ parsed_line start number line.now }
{
    let read = read_line(line, number, Strictness::Lenient)?;
    let text = place_of(line, start);
    match read {
        Ok(_) => Some(Parsed {
            line: number,
            kind: 0,
            text,
            places: places_in(trim(line), text.start),
        }),
        Err(fault) => Some(Parsed {
            line: number,
            kind: number_of_fault(&fault),
            text,
            places: NO_PLACES,
        }),
    }
}

// The places of the texts of an entry whose trimmed line begins at an offset.
fn places_in(text: &[u8], start: usize) -> Places
    requires { start + length text.now ≤ usize.MAX }
    ensures { result ≡ places_in start text.now }
{
    let Some(first) = contact_at(text, start) else {
        return NO_PLACES;
    };
    match contact_at(first.rest, first.end) {
        None => Places {
            new_name: first.name,
            new_email: NOWHERE,
            old_name: NOWHERE,
            old_email: first.email,
        },
        Some(second) => Places {
            new_name: first.name,
            new_email: first.email,
            old_name: second.name,
            old_email: second.email,
        },
    }
}

// The contact at the start of a text that begins at an offset.
#[tactic(auto, using(mailmap_grammar::proofs::SplitOnce::split_laws))]
fn contact_at(text: &[u8], start: usize) -> Option<PlacedContact<'_>>
    requires { start + length text.now ≤ usize.MAX }
    ensures value { option_map placed_of result ≡ placed_contact start (cut text.now) }
    ensures within { IfSome result (λ c. c.end + length c.rest.now ≡ start + length text.now) }
{
    let opening = text.find_byte(b'<')?;
    let after = &text[opening + 1..];
    let closing = after.find_byte(b'>')?;
    Some(PlacedContact {
        name: place_of(&text[..opening], start),
        email: place_of(&after[..closing], start + opening + 1),
        rest: &after[closing + 1..],
        end: start + opening + closing + 2,
    })
}

// The place of a part of a text without the white space around it. The part begins at an offset.
#[tactic(auto, unfolding(mailmap_grammar::specs::Trimming::trim))]
fn place_of(part: &[u8], start: usize) -> Place
    requires { start + length part.now ≤ usize.MAX }
    ensures value { result ≡ place_of start part.now }
    ensures within { result.start + result.len ≤ start + length part.now }
{
    let inner = part.trim_start();
    Place {
        start: start + (part.len() - inner.len()),
        len: inner.trim_end().len(),
    }
}

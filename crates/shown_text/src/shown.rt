//! Escapes what could control a terminal or can't be seen there, so that texts can be shown in one, or in a log.
ghost use Rattle.std.specs.Prelude.{◌≡◌, ◌∷◌, ◌++◌, ◌<◌, ◌&&◌, [], Bool, MatchOption, OnOk, length};
ghost use Rattle.std.specs.List.{list_any};
ghost use Rattle.shown_text.specs.Shown.{escaped_byte, hex_byte, is_control, is_hidden, is_special, last_four, shown};
ghost use Rattle.shown_text.specs.Shown.{shown_after, shown_byte, shown_char, shown_code};
ghost use Rattle.shown_text.specs.Parts.{part_text};

use bstr::decode_utf8;
use std::alloc::AllocError;
use std::marker::Model;
use ucd_category::GeneralCategory;

/// Appends a text with control bytes escaped as in `\x1b`, and control characters beyond ASCII and hidden characters
/// ([`is_hidden`]) as in `\u202e` or `\U000e0001`; and `##[` as `##\x5b`. All other bytes are as they are.
///
/// Control bytes are those below 32, 127, and from 128 to 159 those outside of UTF-8 characters. Mailmaps come from
/// strangers, and reports are read in terminals and in the logs of GitHub, which takes `##[` anywhere in a line for the
/// beginning of a command.
pub fn push_shown(line: &mut Vec<u8>, text: &[u8]) -> Result<(), AllocError>
    ensures { OnOk result (line.new.items ≡ line.old.items ++ shown text.now) }
{
    let mut left = Shown::new(text);
    while let Some(part) = left.next_part() {
        line.extend_from_slice(part.as_slice())?;
    }
    Ok(())
}

/// Whether a text has a byte below 32 or above 126, or a `#`. A text without one is shown unchanged.
pub fn may_need_escapes(text: &[u8]) -> bool
    ensures { result ≡ list_any is_special text.now }
{
    text.iter()
        .any(|byte| *byte < 32 || 126 < *byte || *byte == b'#')
}

/// A text that is shown part by part, so that nothing is allocated.
///
/// Contracts see it as what is left, as it is shown.
#[derive(Drop)]
pub struct Shown<'a> {
    rest: &'a [u8],
    // Whether the character before is `#`, and whether the two before are.
    after_one: bool,
    after_two: bool,
}

impl<'a> Model for Shown<'a> {
    ghost use Rattle.std.specs.Prelude.{List, ℕ};
    ghost use Rattle.shown_text.specs.Shown.{shown_after};

    ghost Value = { List ℕ };

    ghost view = { λ s. shown_after s.after_one s.after_two s.rest.now };
}

/// A part of a text, as it is shown.
#[derive(Clone, Copy)]
pub enum Part<'a> {
    /// Bytes as they are.
    Same(&'a [u8]),
    /// A byte, as in `\x1b`.
    Byte([u8; 4]),
    /// A character, as in `\u202e`.
    Char([u8; 6]),
    /// A character beyond U+FFFF, as in `\U000e0001`.
    LongChar([u8; 10]),
}

impl Part<'_> {
    pub fn as_slice(&self) -> &[u8]
        ensures { result.now ≡ part_text self.now }
    {
        match self {
            Part::Same(bytes) => bytes,
            Part::Byte(escape) => escape.as_slice(),
            Part::Char(escape) => escape.as_slice(),
            Part::LongChar(escape) => escape.as_slice(),
        }
    }
}

impl<'a> Shown<'a> {
    pub fn new(text: &'a [u8]) -> Self
        ensures { result ≡ shown text.now }
    {
        Shown {
            rest: text,
            after_one: false,
            after_two: false,
        }
    }

    /// The next part, which isn't empty; `None` after the last.
    pub fn next_part(&mut self) -> Option<Part<'a>>
        ensures { MatchOption result (self.old ≡ [])
            (λ part. (self.old ≡ part_text part ++ self.new) × (0 < length (part_text part))) }
    {
        if self.rest.is_empty() {
            return None;
        }
        let (part, rest, is_hash) = first_part(self.rest, self.after_two);
        self.after_two = self.after_one & is_hash;
        self.after_one = is_hash;
        self.rest = rest;
        Some(part)
    }
}

// The first part of a text, after `##` or not; the rest, and whether the part is `#`.
fn first_part(text: &[u8], after_two: bool) -> (Part<'_>, &[u8], bool)
    requires { 0 < length text.now }
    ensures value { (after_one : Bool) → shown_after after_one after_two text.now
        ≡ part_text result.0 ++ shown_after result.2 (after_one && result.2) result.1.now }
    ensures some { 0 < length (part_text result.0) }
{
    let (char, size) = decode_utf8(text);
    let Some(char) = char else {
        return (shown_byte(text[0], &text[..1]), &text[1..], false);
    };
    let (bytes, rest) = text.split_at(size);
    (shown_char(after_two, char, bytes), rest, char == '#')
}

// A byte outside of characters, which is all of these bytes.
fn shown_byte(byte: u8, bytes: &[u8]) -> Part<'_>
    requires { bytes.now ≡ byte ∷ [] }
    ensures { part_text result ≡ shown_byte byte }
{
    if is_control(u32::from(byte)) {
        return escaped_byte(byte);
    }
    Part::Same(bytes)
}

// A character, which is all of these bytes.
fn shown_char(after_two: bool, char: char, bytes: &[u8]) -> Part<'_>
    ensures { part_text result ≡ shown_char after_two char bytes.now }
{
    let code = u32::from(char);
    if code < 128 {
        if is_control(code) || (after_two && code == 91) {
            return escaped_byte(code as u8);
        }
        return Part::Same(bytes);
    }
    if is_control(code) || is_hidden(char) {
        return shown_code(code);
    }
    Part::Same(bytes)
}

fn is_control(code: u32) -> bool
    ensures { result ≡ is_control code }
{
    code < 32 || (126 < code && code < 160)
}

/// Whether a character can't be seen, or turns the direction of text: whether its general category is Cf, Zl or Zp.
/// Such are a zero-width space, a byte order mark and a tag. Some of the category Cf can be seen, as U+0600.
pub fn is_hidden(char: char) -> bool
    ensures { result ≡ is_hidden char }
{
    match GeneralCategory::for_char(char) {
        GeneralCategory::Format => true,
        GeneralCategory::LineSeparator => true,
        GeneralCategory::ParagraphSeparator => true,
        _ => false,
    }
}

fn escaped_byte<'a>(byte: u8) -> Part<'a>
    ensures { part_text result ≡ escaped_byte byte }
{
    let [a, b] = hex(byte);
    Part::Byte([b'\\', b'x', a, b])
}

// A code point.
fn shown_code<'a>(code: u32) -> Part<'a>
    ensures { part_text result ≡ shown_code code }
{
    let [c, d, e, f] = last_four(code);
    if code < 65536 {
        return Part::Char([b'\\', b'u', c, d, e, f]);
    }
    let [a, b] = hex((code / 65536 % 256) as u8);
    Part::LongChar([b'\\', b'U', b'0', b'0', a, b, c, d, e, f])
}

/// The last four hexadecimal digits of a code point.
pub fn last_four(code: u32) -> [u8; 4]
    ensures { result ≡ last_four code }
{
    let [a, b] = hex((code / 256 % 256) as u8);
    let [c, d] = hex((code % 256) as u8);
    [a, b, c, d]
}

const DIGITS: &[u8] = b"0123456789abcdef";

fn hex(byte: u8) -> [u8; 2]
    ensures { result ≡ hex_byte byte }
{
    [
        DIGITS[usize::from(byte / 16)],
        DIGITS[usize::from(byte % 16)],
    ]
}

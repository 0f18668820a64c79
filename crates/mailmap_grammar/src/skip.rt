//! Skips comments and blank lines that are easy to recognize, without parsing them.
ghost use Rattle.std.specs.Prelude.{◌≡◌, ℕ, IfSome, None, Some, take, []};
ghost use Rattle.mailmap_grammar.specs.Trimming.{trim};
ghost use Rattle.bstr.specs.Find.{IsFirstByte, is_byte};
ghost use Rattle.mailmap_entries.specs.Folding.{Text};
ghost use Rattle.mailmap_grammar.specs.Lines.{Reading, Skips, reading_by};

use crate::contacts::is_blank;
use bstr::ByteSlice;

/// Skips comments and blank lines up to a line that may be neither. Returns what comes after them, and how many they
/// are.
#[inline(always)]
pub(crate) fn skip_comments_and_blanks(bytes: &[u8]) -> (&[u8], usize)
    ensures { Skips bytes.now result.0.now result.1 }
{
    // Most lines begin with a letter or `<`.
    match bytes.first() {
        Some(first) if *first <= b'#' => skip_each(bytes),
        _ => (bytes, 0),
    }
}

fn skip_each(bytes: &[u8]) -> (&[u8], usize)
    ensures { Skips bytes.now result.0.now result.1 }
{
    let mut rest = bytes;
    let mut count = 0;
    while let Some(feed) = silent_feed(rest) {
        rest = &rest[feed + 1..];
        count += 1;
    }
    (rest, count)
}

// The line feed of the first line, if that is a comment or blank. `None` says nothing about the line.
#[inline(always)]
fn silent_feed(bytes: &[u8]) -> Option<usize>
    ensures first { IfSome result (λ feed. IsFirstByte (is_byte 10) bytes.now (Some feed)) }
    ensures none_read { IfSome result (λ feed. (says : ℕ → Text → Reading) (n : ℕ)
        → reading_by says n (take feed bytes.now) ≡ None) }
{
    if bytes.first() != Some(&b'#') {
        return blank_feed(bytes);
    }
    // A line that is just `#` comes so often that it is tested for first.
    if bytes.len() > 1 && bytes[1] == b'\n' {
        return Some(1);
    }
    bytes.find_byte(b'\n')
}

// The line feed after white space.
#[inline(always)]
#[tactic(auto, using(crate::proofs::Skipped::no_blanks, crate::proofs::Skipped::one_blank))]
fn blank_feed(bytes: &[u8]) -> Option<usize>
    ensures first { IfSome result (λ feed. IsFirstByte (is_byte 10) bytes.now (Some feed)) }
    ensures blank { IfSome result (λ feed. trim (take feed bytes.now) ≡ []) }
{
    let mut end = 0;
    while end < bytes.len() {
        if bytes[end] == b'\n' {
            return Some(end);
        }
        if !is_blank(bytes[end]) {
            return None;
        }
        end += 1;
    }
    None
}

//! Reads the start of contacts, and tells git log's own format from it.
ghost use Rattle.std.specs.Prelude.{◌≡◌, ◌⊎◌, ◌||◌, IfErr, IfOk, IsErrOf, List, OnOk, ℕ, false, true};
ghost use Rattle.std.specs.Char.{is_ascii_hexdigit};
ghost use Rattle.std.specs.Io.KnownBytes.{Consumes, IsAtEnd};
ghost use Rattle.std.specs.List.{list_all};
ghost use Rattle.mailmap_grammar.specs.Lines.{HoldsNo};
ghost use Rattle.command_line.specs.Failures.{IsOfInput};
ghost use Rattle.command_line.specs.GitLog.{IsLog, begins_with_hash, ends_word, first_line, has_feed, is_commit_line, is_git_log};

use crate::failure::Failure;
use crate::streams::{PART, endless, read_part};
use bstr::ByteSlice;
use std::alloc::Global;
use std::io::Read;

/// Reads the start of contacts, with at least the first line if there is one. Fails if that is a commit as `git log`
/// prints it: then each line that has a contact says something else before it, and no line is right.
pub fn read_start<R: Read>(alloc: Global, input: &mut R) -> Result<Vec<u8>, Failure>
    ensures reads { IfOk result (λ start. Consumes (R.remaining input.old) (R.remaining input.new) start.items) }
    ensures contacts { OnOk result (IsLog (R.remaining input.old) false) }
    ensures git_log { IsErrOf result Failure.GitLog → IsLog (R.remaining input.old) true }
    ensures breaks_off { IfErr result (λ e. IsOfInput e → (read : List ℕ)
        × Consumes (R.remaining input.old) (R.remaining input.new) read × HoldsNo 10 read) }
    ensures only { IfErr result (λ e. IsOfInput e ⊎ (e ≡ Failure.Memory) ⊎ (e ≡ Failure.GitLog)) }
{
    let start = read_first_line(alloc, input)?;
    if is_git_log(start.as_slice()) {
        return Err(Failure::GitLog);
    }
    Ok(start)
}

// Reads part by part, until one has a line feed or the input ends.
fn read_first_line<R: Read>(alloc: Global, input: &mut R) -> Result<Vec<u8>, Failure>
    ensures reads { IfOk result (λ start. Consumes (R.remaining input.old) (R.remaining input.new) start.items) }
    ensures whole { IfOk result (λ start. (has_feed start.items ≡ true) ⊎ IsAtEnd (R.remaining input.new)) }
    ensures breaks_off { IfErr result (λ e. IsOfInput e → (read : List ℕ)
        × Consumes (R.remaining input.old) (R.remaining input.new) read × HoldsNo 10 read) }
    ensures only { IfErr result (λ e. IsOfInput e ⊎ (e ≡ Failure.Memory)) }
{
    let mut start = Vec::new(alloc);
    let mut part = [0; PART];
    for _ in 0..u64::MAX {
        let count = read_part(input, &mut part)?;
        if count == 0 {
            return Ok(start);
        }
        start.extend_from_slice(&part[..count])?;
        if part[..count].contains(&b'\n') {
            return Ok(start);
        }
    }
    Err(endless())
}

fn is_git_log(text: &[u8]) -> bool
    ensures { result ≡ is_git_log text.now }
{
    is_commit_line(first_line(text))
}

fn first_line(text: &[u8]) -> &[u8]
    ensures { result.now ≡ first_line text.now }
{
    match text.find_byte(b'\n') {
        Some(feed) => &text[..feed],
        None => text,
    }
}

fn is_commit_line(line: &[u8]) -> bool
    ensures { result ≡ is_commit_line line.now }
{
    match line.split_at_checked(7) {
        Some((word, rest)) => word == b"commit ".as_slice() && has_hash(rest),
        None => false,
    }
}

// Hashes have forty digits, or sixty-four in a repository that uses SHA-256.
fn has_hash(text: &[u8]) -> bool
    ensures { result ≡ (begins_with_hash 40 text.now || begins_with_hash 64 text.now) }
{
    begins_with_hash(text, 40) || begins_with_hash(text, 64)
}

fn begins_with_hash(text: &[u8], digits: usize) -> bool
    ensures { result ≡ begins_with_hash digits text.now }
{
    match text.split_at_checked(digits) {
        Some((hash, rest)) => is_hex(hash) && ends_word(rest),
        None => false,
    }
}

fn is_hex(digits: &[u8]) -> bool
    ensures { result ≡ list_all is_ascii_hexdigit digits.now }
{
    digits.iter().all(|digit| digit.is_ascii_hexdigit())
}

fn ends_word(text: &[u8]) -> bool
    ensures { result ≡ ends_word text.now }
{
    match text {
        [] => true,
        [byte, ..] => *byte == b' ' || *byte == b'\r',
    }
}

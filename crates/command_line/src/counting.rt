//! Counts the contacts of an input while it is read.
ghost use Rattle.std.specs.Prelude.{◌≡◌, ◌++◌, ◌⊎◌, List, ℕ, IfErr, IfOk, IfSome, IsErrOf, OnOk, false, true};
ghost use Rattle.std.specs.Io.KnownBytes.{Consumes, IsAtEnd};
ghost use Rattle.bstr.specs.Text.{lines_of};
ghost use Rattle.mailmap_contacts.specs.Counts.{AreContactsOf, HasCounted};
ghost use Rattle.command_line.specs.Failures.{IsOfInput};
ghost use Rattle.command_line.specs.Counted.{HasCountedRead};
ghost use Rattle.command_line.specs.GitLog.{IsLog};

use crate::failure::Failure;
use crate::start::read_start;
use crate::streams::{PART, endless, read_part};
use bstr::ByteSlice;
use mailmap_contacts::counter::{ContactCounter, Contacts};
use std::alloc::{AllocError, Global};
use std::io::Read;

/// Counts the contacts on the lines of the rest of a reader.
///
/// Reads in parts, so memory grows with the distinct contacts, with the number of lines that are neither blank nor
/// contacts, and with the longest line, not with the number of contacts. Fails if these are git log's own format, and
/// then reads no further than the first line.
pub fn count_contacts<R: Read>(alloc: Global, input: &mut R) -> Result<Contacts, Failure>
    ensures counts { IfOk result (λ contacts. (text : List ℕ) × IfSome (R.remaining input.old) (λ bytes. text ≡ bytes)
        × AreContactsOf (lines_of text) contacts) }
    ensures end { OnOk result (IsAtEnd (R.remaining input.new)) }
    ensures contacts { OnOk result (IsLog (R.remaining input.old) false) }
    ensures git_log { IsErrOf result Failure.GitLog → IsLog (R.remaining input.old) true }
    ensures only { IfErr result (λ e. IsOfInput e ⊎ (e ≡ Failure.Memory) ⊎ (e ≡ Failure.GitLog)) }
{
    let mut partial = read_start(alloc, input)?;
    let mut contacts = ContactCounter::new(alloc)?;
    count_rest(input, &mut partial, &mut contacts)?;
    Ok(contacts.into_contacts()?)
}

// Counts the contacts on the lines of the rest of a reader, after `partial`, which was read before.
fn count_rest<R: Read>(
    input: &mut R,
    partial: &mut Vec<u8>,
    contacts: &mut ContactCounter,
) -> Result<(), Failure>
    ensures counts { OnOk result ((rest : List ℕ) × Consumes (R.remaining input.old) (R.remaining input.new) rest
        × ((read : List ℕ) → HasCountedRead read partial.old.items contacts.old
        → HasCounted (lines_of (read ++ rest)) contacts.new)) }
    ensures end { OnOk result (IsAtEnd (R.remaining input.new)) }
    ensures only { IfErr result (λ e. IsOfInput e ⊎ (e ≡ Failure.Memory)) }
{
    let mut part = [0; PART];
    for _ in 0..u64::MAX {
        let count = read_part(input, &mut part)?;
        if count == 0 {
            contacts.add_lines(partial.as_slice())?;
            return Ok(());
        }
        add_part(contacts, partial, &part[..count])?;
    }
    Err(endless())
}

// Counts the contacts on the lines that end in a part. `partial` is the start of a line that hasn't ended yet.
fn add_part(
    counter: &mut ContactCounter,
    partial: &mut Vec<u8>,
    part: &[u8],
) -> Result<(), AllocError>
    ensures { OnOk result ((read : List ℕ) → HasCountedRead read partial.old.items counter.old
        → HasCountedRead (read ++ part.now) partial.new.items counter.new) }
{
    let Some(feed) = part.rfind_byte(b'\n') else {
        partial.extend_from_slice(part)?;
        return Ok(());
    };
    partial.extend_from_slice(&part[..feed + 1])?;
    counter.add_lines(partial.as_slice())?;
    partial.clear();
    partial.extend_from_slice(&part[feed + 1..])?;
    Ok(())
}

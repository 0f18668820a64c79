//! Calls that take a mailmap as text and keep nothing.
ghost use Rattle.std.specs.Prelude.{◌≡◌, ◌∷◌, [], IfOk};
ghost use Rattle.mailmap_grammar.specs.Lines.{fault_of};
ghost use Rattle.mailmap_findings.specs.Findings.{IsPruned, kind_of};
ghost use Rattle.mailmap_snapshot.specs.Contacts.{answers_by};
ghost use Rattle.mailmap_snapshot.specs.Writing.{IsCompacted};
ghost use Rattle.gix_mailmap_c.specs.Buffers.{IsOutput};
ghost use Rattle.gix_mailmap_c.specs.Findings.{beside_line, fault_number, kind_number, AreFindingsOf};

use crate::buffers::hand;
use mailmap_findings::verify::{self, FindingKind};
use mailmap_grammar::lines::Error;
use mailmap_snapshot::check;
use std::alloc::{AllocError, Global};

/// A finding. `line` counts from 1. If the line has no effect, `beside` is the last line with an effect for the same old
/// name and old email; otherwise it is 0.
///
/// `kind` is a number of `gix_mailmap_kind` in the header: 1 to 5 for the faults, in the order of [`Error`], and more for
/// the others.
#[repr(C)]
#[derive(Clone, Copy)]
pub struct Finding {
    pub line: usize,
    pub kind: u32,
    pub beside: usize,
}

/// Answers each line of `contacts` using `mailmap`, as [`check`](mailmap_snapshot::check::check()) does.
///
/// Returns `OK`: the answers are at the front of `out`, and `needed` is their length. `TOO_SHORT`: `out` is too short,
/// and `needed` is the length. `OUT_OF_MEMORY`: `needed` is 0. The rest of `out` is unchanged.
#[unsafe(no_mangle)]
pub extern "C" fn gix_mailmap_text_check(
    alloc: Global,
    mailmap: &[u8],
    contacts: &[u8],
    out: &mut [u8],
    needed: &mut usize,
) -> u32
    ensures { IsOutput (λ text. text ≡ answers_by (mailmap.now ∷ []) contacts.now) out.old out.new needed.new result }
{
    hand(check::check(alloc, &[mailmap], contacts), out, needed)
}

/// Writes a mailmap in compact form, as [`compact`](mailmap_snapshot::check::compact()) does. Returns what
/// [`gix_mailmap_text_check`] does.
#[unsafe(no_mangle)]
pub extern "C" fn gix_mailmap_text_compact(
    alloc: Global,
    mailmap: &[u8],
    out: &mut [u8],
    needed: &mut usize,
) -> u32
    ensures { IsOutput (IsCompacted (mailmap.now ∷ [])) out.old out.new needed.new result }
{
    hand(check::compact(alloc, &[mailmap]), out, needed)
}

/// Writes a mailmap without the lines whose entries have no effect, as [`prune`](mailmap_findings::verify::prune())
/// does. Returns what [`gix_mailmap_text_check`] does.
#[unsafe(no_mangle)]
pub extern "C" fn gix_mailmap_text_prune(
    alloc: Global,
    mailmap: &[u8],
    out: &mut [u8],
    needed: &mut usize,
) -> u32
    ensures { IsOutput (IsPruned mailmap.now) out.old out.new needed.new result }
{
    hand(verify::prune(alloc, mailmap), out, needed)
}

/// Reports what is wrong with the lines of a mailmap, in their order, as [`verify`](mailmap_findings::verify::verify())
/// does. Returns what [`gix_mailmap_text_check`] does, with the number of findings in place of a length.
#[unsafe(no_mangle)]
pub extern "C" fn gix_mailmap_text_verify(
    alloc: Global,
    mailmap: &[u8],
    out: &mut [Finding],
    needed: &mut usize,
) -> u32
    ensures { IsOutput (AreFindingsOf mailmap.now) out.old out.new needed.new result }
{
    hand(findings_of(alloc, mailmap), out, needed)
}

fn findings_of(alloc: Global, mailmap: &[u8]) -> Result<Vec<Finding>, AllocError>
    ensures { IfOk result (λ found. AreFindingsOf mailmap.now found.items) }
{
    let found = verify::verify(alloc, &[mailmap])?;
    let mut each = Vec::new(alloc);
    for finding in &found {
        each.push(Finding {
            line: finding.position.line,
            kind: number_of(&finding.kind),
            beside: beside_of(&finding.kind),
        })?;
    }
    Ok(each)
}

fn number_of(kind: &FindingKind<'_>) -> u32
    ensures { result ≡ kind_number (kind_of kind.now) }
{
    match kind {
        FindingKind::Fault(fault) => number_of_fault(fault),
        FindingKind::IgnoredText(_) => 6,
        FindingKind::NoEffect { .. } => 7,
        FindingKind::ItselfMapped { .. } => 8,
        FindingKind::GitReads(_) => 9,
        FindingKind::ByteOrderMark => 10,
        FindingKind::CommentInLine => 11,
    }
}

pub(crate) fn number_of_fault(fault: &Error<'_>) -> u32
    ensures { result ≡ fault_number (fault_of fault.now).kind }
{
    match fault {
        Error::NoEmail { .. } => 1,
        Error::MissingClosingBracket { .. } => 2,
        Error::EmptyEmail { .. } => 3,
        Error::NothingToMap { .. } => 4,
        Error::UnclosedSecond { .. } => 5,
    }
}

fn beside_of(kind: &FindingKind<'_>) -> usize
    ensures { result ≡ beside_line (kind_of kind.now) }
{
    match kind {
        FindingKind::NoEffect { beside, .. } => beside.line,
        _ => 0,
    }
}

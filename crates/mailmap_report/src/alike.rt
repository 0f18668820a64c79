//! Names that look the same.
ghost use Rattle.std.specs.Prelude.{◌≡◌, ◌++◌, bytes_eq, chars, string_bytes, IfOk, OnOk};
ghost use Rattle.mailmap_report.specs.Alike.{alike_text, are_seen_alike, look_alike, seen, visible};

use crate::texts::push_text;
use mailmap_suggestions::shortened::shortened;
use shown_text::shown::is_hidden;
use std::alloc::{AllocError, Global};
use unicode_normalization::to_nfc;

/// Appends ` (they look the same)` after what shows two names, if these differ only by hidden characters, or by which
/// characters are composed. A name that isn't UTF-8 looks like no other.
#[tactic(auto, unfolding(crate::specs::Alike::alike_text))]
pub(crate) fn push_alike(text: &mut Vec<u8>, a: &[u8], b: &[u8]) -> Result<(), AllocError>
    ensures { OnOk result (text.new.items ≡ text.old.items ++ alike_text a.now b.now) }
{
    if look_alike(*text.allocator(), a, b)? {
        return push_text(text, b" (they look the same)");
    }
    Ok(())
}

// Whether two different names look the same, as they are shown.
fn look_alike(alloc: Global, a: &[u8], b: &[u8]) -> Result<bool, AllocError>
    ensures { IfOk result (λ same. same ≡ look_alike a.now b.now) }
{
    if a == b {
        return Ok(false);
    }
    let a = shortened(alloc, a)?;
    let b = shortened(alloc, b)?;
    are_seen_alike(alloc, &a, &b)
}

fn are_seen_alike(alloc: Global, a: &[u8], b: &[u8]) -> Result<bool, AllocError>
    ensures { IfOk result (λ same. same ≡ are_seen_alike a.now b.now) }
{
    match (str::from_utf8(a), str::from_utf8(b)) {
        (Ok(a), Ok(b)) => is_seen_as(alloc, a, b),
        _ => Ok(false),
    }
}

fn is_seen_as(alloc: Global, a: &str, b: &str) -> Result<bool, AllocError>
    ensures { IfOk result (λ same. same ≡ bytes_eq (seen a.now) (seen b.now)) }
{
    let a = seen(alloc, a)?;
    let b = seen(alloc, b)?;
    Ok(a.as_bytes() == b.as_bytes())
}

// What is seen of a text: its visible characters, composed.
fn seen(alloc: Global, text: &str) -> Result<String, AllocError>
    ensures { IfOk result (λ t. string_bytes t ≡ seen text.now) }
{
    let visible = visible(alloc, text)?;
    to_nfc(alloc, &visible)
}

fn visible(alloc: Global, text: &str) -> Result<String, AllocError>
    ensures { IfOk result (λ t. chars (string_bytes t) ≡ visible (chars text.now)) }
{
    text.chars().filter(|c| !is_hidden(*c)).collect(alloc)
}

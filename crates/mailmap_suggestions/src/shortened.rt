//! Cuts long texts in findings and in comments.
ghost use Rattle.std.specs.Prelude.{◌≡◌, ◌++◌, ◌≤◌, IfOk, OnOk, length};
ghost use Rattle.std.specs.Cow.{cow_slice_items};
ghost use Rattle.mailmap_suggestions.specs.Shortened.{crosses, front_len, short_contact, shortened};
ghost use Rattle.mailmap_suggestions.specs.Shortened.{shortened_to};

use bstr::decode_utf8;
use mailmap_grammar::writing::push_contact;
use std::alloc::{AllocError, Global};
use std::borrow::CowSlice;

// The length of the longest text that isn't cut.
const LIMIT: usize = 256;

/// A text of at most 256 bytes, or the first 256 bytes of a longer one and `..`. Up to three bytes fewer are taken, so
/// that no UTF-8 character is cut.
///
/// A name can be in a finding on each line, or in each suggestion. Without the limit, the output would grow with the
/// square of the mailmap.
pub fn shortened<'a>(alloc: Global, text: &'a [u8]) -> Result<CowSlice<'a, u8>, AllocError>
    ensures { IfOk result (λ short. cow_slice_items short ≡ shortened text.now) }
{
    if text.len() <= LIMIT {
        return Ok(CowSlice::Borrowed(text));
    }
    let mut short = Vec::new(alloc);
    push_shortened_to(LIMIT, &mut short, text)?;
    Ok(CowSlice::Owned(short))
}

/// Appends a text that has at most as many bytes as the limit says, or the front of a longer one and `..`.
pub(crate) fn push_shortened_to(
    limit: usize,
    text: &mut Vec<u8>,
    long: &[u8],
) -> Result<(), AllocError>
    requires { 3 ≤ limit }
    ensures { OnOk result (text.new.items ≡ text.old.items ++ shortened_to limit long.now) }
{
    if long.len() <= limit {
        return text.extend_from_slice(long);
    }
    text.extend_from_slice(&long[..front_len(limit, long)])?;
    text.extend_from_slice(b"..")
}

fn front_len(limit: usize, text: &[u8]) -> usize
    requires { (3 ≤ limit) × (limit ≤ length text.now) }
    ensures front { result ≡ front_len limit text.now }
    ensures within { result ≤ limit }
{
    if crosses(1, limit, text) {
        limit - 1
    } else if crosses(2, limit, text) {
        limit - 2
    } else if crosses(3, limit, text) {
        limit - 3
    } else {
        limit
    }
}

// Whether a character begins `back` bytes before the limit and goes beyond it.
#[tactic(auto, unfolding(crate::specs::Shortened::crosses))]
fn crosses(back: usize, limit: usize, text: &[u8]) -> bool
    requires { (back ≤ limit) × (limit ≤ length text.now) }
    ensures { result ≡ crosses back limit text.now }
{
    let (char, size) = decode_utf8(&text[limit - back..]);
    char.is_some() && back < size
}

/// Appends a text, cut if it is long.
pub fn push_shortened(text: &mut Vec<u8>, long: &[u8]) -> Result<(), AllocError>
    ensures { OnOk result (text.new.items ≡ text.old.items ++ shortened long.now) }
{
    push_shortened_to(LIMIT, text, long)
}

/// Appends a contact with its texts shortened.
pub fn push_short_contact(text: &mut Vec<u8>, name: &[u8], email: &[u8]) -> Result<(), AllocError>
    ensures { OnOk result (text.new.items ≡ text.old.items ++ short_contact name.now email.now) }
{
    let alloc = *text.allocator();
    let name = shortened(alloc, name)?;
    let email = shortened(alloc, email)?;
    push_contact(text, &name, &email)
}

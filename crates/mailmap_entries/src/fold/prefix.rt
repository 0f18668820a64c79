//! Key prefixes: the first sixteen bytes of a text as a number. They decide most comparisons, so the texts are rarely
//! read.
ghost use Rattle.std.specs.Prelude.{◌≡◌, ◌+◌, ◌<◌, map};
ghost use Rattle.std.specs.Char.{to_ascii_lowercase};
ghost use Rattle.mailmap_entries.specs.Folding.{folded, text_cmp};
ghost use Rattle.mailmap_entries.specs.Prefixes.{IsKeyPrefix, key_prefix};
ghost use Rattle.std.proofs.Props.{props};

use crate::fold::{Steps, cmp_ignore_ascii_case};
use std::cmp::Ordering;
use std::simd::prelude::*;

/// A text with its prefix.
#[derive(Clone, Copy)]
pub struct Prefixed<'a> {
    pub text: &'a [u8],
    pub prefix: u128,
    ghost is_prefix: { IsKeyPrefix prefix (folded text.now) } by { Prim.hlevel props },
}

impl<'a> Prefixed<'a> {
    /// Computes the prefix of the text.
    pub fn new(text: &'a [u8]) -> Prefixed<'a>
        ensures { result.text.now ≡ text.now }
    {
        Prefixed {
            text,
            prefix: key_prefix(text),
        }
    }

    /// Takes a prefix that was computed before.
    #[inline(always)]
    #[tactic(auto, using(crate::proofs::Prefixes::folded_bytes))]
    pub fn with_prefix(text: &'a [u8], prefix: u128) -> Prefixed<'a>
        requires { prefix ≡ key_prefix 16 (folded text.now) }
        ensures text { result.text.now ≡ text.now }
        ensures prefix { result.prefix ≡ prefix }
    {
        Prefixed { text, prefix }
    }

    /// Compares two texts as [`cmp_ignore_ascii_case`] does. Reads them only if their prefixes are equal.
    #[inline(always)]
    pub fn compare(self, other: Prefixed<'_>) -> Ordering
        ensures { result ≡ text_cmp (folded self.entry.text.now) (folded other.entry.text.now) }
    {
        match self.prefix.cmp(&other.prefix) {
            Ordering::Equal => compare_after_prefix(self.text, other.text),
            unequal => unequal,
        }
    }
}

impl Steps {
    /// Compares two texts as [`Prefixed::compare`] does, and counts it as one comparison.
    #[inline(always)]
    pub fn compare_prefixed(&mut self, a: Prefixed<'_>, b: Prefixed<'_>) -> Ordering
        requires { self.old < usize.MAX }
        ensures value { result ≡ text_cmp (folded a.entry.text.now) (folded b.entry.text.now) }
        ensures counted { self.new ≡ self.old + 1 }
    {
        self.count += 1;
        a.compare(b)
    }
}

/// The first sixteen bytes of a text as a big-endian number. Capital letters count as small ones, and a byte past the
/// end as 0. Texts whose prefixes differ are in the order of their prefixes.
#[tactic(auto, using(crate::proofs::Prefixes::number_of, crate::proofs::Prefixes::folded_bytes))]
pub fn key_prefix(text: &[u8]) -> u128
    ensures { IsKeyPrefix result (folded text.now) }
{
    u128::from_be_bytes(lowercase(&first_bytes(text)))
}

// The first sixteen bytes, with zeros after a shorter text.
#[inline(always)]
#[tactic(auto, using(crate::proofs::Prefixes::first_laws))]
fn first_bytes(text: &[u8]) -> [u8; 16]
    ensures { key_prefix 16 (map to_ascii_lowercase result) ≡ key_prefix 16 (folded text.now) }
{
    if let Some(first) = text.first_chunk::<16>() {
        return *first;
    }
    let mut bytes = [0; 16];
    bytes[..text.len()].copy_from_slice(text);
    bytes
}

// All sixteen bytes in lower case at once.
#[inline(always)]
fn lowercase(bytes: &[u8; 16]) -> [u8; 16]
    ensures { result ≡ map to_ascii_lowercase bytes.now }
{
    let lanes = u8x16::from_array(*bytes);
    let is_upper = lanes.simd_ge(u8x16::splat(b'A')) & lanes.simd_le(u8x16::splat(b'Z'));
    is_upper.select(lanes + u8x16::splat(32), lanes).to_array()
}

/// Compares two texts with equal prefixes as [`cmp_ignore_ascii_case`] does, but skips their first sixteen bytes.
pub fn compare_after_prefix(a: &[u8], b: &[u8]) -> Ordering
    requires { key_prefix 16 (folded a.now) ≡ key_prefix 16 (folded b.now) }
    ensures { result ≡ text_cmp (folded a.now) (folded b.now) }
{
    if a.len() < 16 || b.len() < 16 {
        return cmp_ignore_ascii_case(a, b);
    }
    cmp_ignore_ascii_case(&a[16..], &b[16..])
}

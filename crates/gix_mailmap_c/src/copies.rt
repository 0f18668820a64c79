//! Copies short texts fast.
ghost use Rattle.std.specs.Prelude.{◌≤◌, ◌+◌, length};
ghost use Rattle.gix_mailmap_c.specs.Buffers.{IsWritten};

use std::simd::Simd;

/// Copies a text to the front of `out`. Common lengths are copied inline, which is faster than calling the general
/// copy.
#[inline(always)]
pub(crate) fn copy(text: &[u8], out: &mut [u8])
    requires { length text.now ≤ length out.old }
    ensures { IsWritten text.now out.old out.new }
{
    let len = text.len();
    if len >= 16 && len <= 32 {
        copy_ends::<16>(text, out);
    } else if len >= 8 && len < 16 {
        copy_ends::<8>(text, out);
    } else if len > 32 && len <= 64 {
        copy_ends::<32>(text, out);
    } else {
        out[..len].copy_from_slice(text);
    }
}

// Copies the first N bytes and the last N. They overlap or meet.
#[inline(always)]
fn copy_ends<const N: usize>(text: &[u8], out: &mut [u8])
    requires fits { length text.now ≤ length out.old }
    requires covers { (N ≤ length text.now) × (length text.now ≤ N + N) }
    ensures { IsWritten text.now out.old out.new }
{
    let last = text.len() - N;
    Simd::<u8, N>::from_slice(text).copy_to_slice(out);
    Simd::<u8, N>::from_slice(&text[last..]).copy_to_slice(&mut out[last..]);
}

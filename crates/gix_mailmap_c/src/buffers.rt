//! Copies results into the caller's buffers.
ghost use Rattle.std.specs.Prelude.{◌≡◌, IfOk, OnErr};
ghost use Rattle.gix_mailmap_c.specs.Buffers.{ArePut, IsOutOfMemory, IsPut};
ghost use Rattle.gix_mailmap_c.specs.declared.status.TheConstants.{OUT_OF_MEMORY};

use crate::copies::copy;
use crate::status::{OK, OUT_OF_MEMORY, TOO_SHORT};
use std::alloc::AllocError;

/// Copies a text or a list to the front of `out`, if it fits, and sets `needed` to its length.
pub(crate) fn put<T: Copy>(text: &[T], out: &mut [T], needed: &mut usize) -> u32
    ensures { IsPut text.now out.old out.new needed.new result }
{
    let n = text.len();
    *needed = n;
    if n > out.len() {
        return TOO_SHORT;
    }
    out[..n].copy_from_slice(text);
    OK
}

/// Hands what a call made to its caller, as [`put`] does.
pub(crate) fn hand<T: Copy>(
    made: Result<Vec<T>, AllocError>,
    out: &mut [T],
    needed: &mut usize,
) -> u32
    ensures ok { IfOk made (λ text. IsPut text.items out.old out.new needed.new result) }
    ensures err { OnErr made (IsOutOfMemory out.old out.new needed.new result) }
{
    match made {
        Ok(text) => put(text.as_slice(), out, needed),
        Err(_) => out_of_memory(needed),
    }
}

/// Reports that there is no text, because memory ran out.
pub(crate) fn out_of_memory(needed: &mut usize) -> u32
    ensures { (needed.new ≡ 0) × (result ≡ OUT_OF_MEMORY) }
{
    *needed = 0;
    OUT_OF_MEMORY
}

/// Copies two texts to the fronts of two buffers, if both fit.
#[inline(always)]
pub(crate) fn put_both(name: &[u8], name_out: &mut [u8], email: &[u8], email_out: &mut [u8]) -> u32
    ensures { ArePut name.now name_out.old name_out.new email.now email_out.old email_out.new result }
{
    if name.len() > name_out.len() || email.len() > email_out.len() {
        return TOO_SHORT;
    }
    copy(name, name_out);
    copy(email, email_out);
    OK
}

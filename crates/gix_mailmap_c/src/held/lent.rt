//! Borrows the content of an open handle in place.
ghost use Rattle.std.specs.Prelude.{◌≡◌, true};
ghost use Rattle.std.specs.Borrow.{sem};
ghost use Rattle.gix_mailmap_c.specs.Borrowing.{LendsContent};

use crate::held::{Content, Handle};

pub(crate) fn content(h: &mut Handle) -> &mut Content
    requires { h.old.is_open ≡ true }
    ensures* writes_back { sem 𝓛 (LendsContent h.entry result) }
    ensures value { result.now ≡ h.old.content }
{
    unsafe { &mut *(h.at as *mut Content) }
}

//! The struct behind a handle, and the only functions that look inside: they convert it from and to the box it owns.
ghost use Rattle.std.specs.Prelude.{◌≡◌, true, false};
ghost use Rattle.gix_mailmap_c.specs.declared.held.Content.{Content};
ghost use Rattle.gix_mailmap_c.specs.Ownership.{owns_content};

mod lent;
mod parts;

use crate::stream::contacts::ContactQueue;
pub(crate) use lent::content;
use mailmap_snapshot::Snapshot;
pub(crate) use parts::Parts;
use std::alloc::Global;
use std::marker::{Model, Send};

/// Binds what an open handle holds. If the handle is closed or holds the other kind, the function returns `CLOSED`.
macro_rules! held_in {
    ($handle:ident, $kind:ident($held:ident)) => {
        if !$crate::held::is_open($handle) {
            return $crate::status::CLOSED;
        }
        let $crate::held::Content::$kind($held) = $crate::held::content($handle) else {
            return $crate::status::CLOSED;
        };
    };
}

pub(crate) use held_in;

/// What an open handle holds.
#[derive(Drop)]
pub enum Content {
    Mailmap(Snapshot),
    Stream(ContactQueue),
}

/// A mailmap or a stream that C holds, open or closed. C initializes it with zeros, which means closed.
///
/// While it is open, it owns the boxed content that it points to. Exported functions take it by `&mut` even if they
/// don't change it, because a struct with shared ownership can't be passed to C.
#[repr(C)]
pub struct Handle {
    at: *mut u8,
    is_open: bool,
    alloc: Global,
    ghost content: { Content },
}

impl Model for Handle {
    ghost also_owns = { λ h. owns_content h.alloc h.is_open h.at h.content };
}

// Sound, because a handle alone owns its content, which is `Send`.
unsafe impl Send for Handle {}

pub(crate) fn is_open(h: &mut Handle) -> bool
    ensures { (result ≡ h.old.is_open) × (h.new ≡ h.old) }
{
    h.is_open
}

pub(crate) fn opened(parts: Parts<Content, Global>) -> Handle
    ensures { (result.is_open ≡ true) × (result.content ≡ parts.value) }
{
    let Parts { ptr, alloc } = parts;
    Handle {
        at: ptr as *mut u8,
        is_open: true,
        alloc,
    }
}

pub(crate) fn into_parts(h: Handle) -> Parts<Content, Global>
    requires { h.is_open ≡ true }
    ensures { result.value ≡ h.content }
{
    let Handle {
        at,
        is_open: _open,
        alloc,
    } = h;
    Parts {
        ptr: at as *mut Content,
        alloc,
    }
}

pub(crate) fn closed(alloc: Global) -> Handle
    ensures { result.is_open ≡ false }
{
    Handle {
        at: std::ptr::null_mut(),
        is_open: false,
        alloc,
    }
}

pub(crate) fn discard_closed(h: Handle)
    requires { h.is_open ≡ false }
{
    let Handle {
        at: _at,
        is_open: _open,
        alloc: _alloc,
    } = h;
}

//! A stream of contacts that C opens, feeds with contacts in parts, reads answers from, and closes.
ghost use Rattle.std.specs.Prelude.{◌≡◌, None, MatchOption};
ghost use Rattle.gix_mailmap_c.specs.Handles.{content_of, pending, Finishes, Holds, LeavesHandle, Opens, Pushes};
ghost use Rattle.gix_mailmap_c.specs.Streamed.{AreTaken, IsNew};
ghost use Rattle.gix_mailmap_c.specs.declared.held.Content.TheVariants.{Stream};
ghost use Rattle.gix_mailmap_c.specs.declared.status.TheConstants.{CLOSED, OK};

pub mod contacts;

use crate::buffers::out_of_memory;
use crate::handle::{close, open};
use crate::held::{Content, Handle, held_in, is_open};
use crate::status::{OK, OPEN, OUT_OF_MEMORY};
use contacts::ContactQueue;
use std::alloc::Global;

/// Opens a closed handle with a stream whose contacts are answered using `mailmap`.
///
/// Returns `OK`; `OUT_OF_MEMORY`; or `OPEN` if the handle is open already. Unless it is `OK`, the handle is unchanged.
#[unsafe(no_mangle)]
pub extern "C" fn gix_mailmap_stream_handle_open(
    alloc: Global,
    s: &mut Handle,
    mailmap: &[u8],
) -> u32
    ensures { Opens Stream (IsNew mailmap.now) (content_of s.old) (content_of s.new) result }
{
    if is_open(s) {
        return OPEN;
    }
    match ContactQueue::new(alloc, mailmap) {
        Ok(contacts) => open(alloc, s, Content::Stream(contacts)),
        Err(_) => OUT_OF_MEMORY,
    }
}

/// Takes contacts from the front of `part`, as [`ContactStream::push`](mailmap_snapshot::check::ContactStream::push)
/// does.
///
/// Returns `OK`, and `taken` is how many bytes were taken; `OUT_OF_MEMORY`, with `taken` 0 and the stream unchanged; or
/// `CLOSED`.
#[unsafe(no_mangle)]
pub extern "C" fn gix_mailmap_stream_handle_push(
    s: &mut Handle,
    part: &[u8],
    taken: &mut usize,
) -> u32
    ensures { MatchOption (pending s.old)
        ((taken.new ≡ taken.old) × LeavesHandle CLOSED (content_of s.old) (content_of s.new) result)
        (λ p. Pushes part.now p (content_of s.new) taken.new result) }
{
    held_in!(s, Stream(contacts));
    match contacts.push(part) {
        Ok(count) => {
            *taken = count;
            OK
        }
        Err(_) => out_of_memory(taken),
    }
}

/// Answers the last line, which no line feed ended.
///
/// Returns `OK`; `OUT_OF_MEMORY`, and the stream is unchanged; or `CLOSED`.
#[unsafe(no_mangle)]
pub extern "C" fn gix_mailmap_stream_handle_finish(s: &mut Handle) -> u32
    ensures { MatchOption (pending s.old) (LeavesHandle CLOSED (content_of s.old) (content_of s.new) result)
        (λ p. Finishes p (content_of s.new) result) }
{
    held_in!(s, Stream(contacts));
    match contacts.finish() {
        Ok(()) => OK,
        Err(_) => OUT_OF_MEMORY,
    }
}

/// Moves unread answers to the front of `out`, as many bytes as fit, and sets `count` to their number.
///
/// Returns `OK` or `CLOSED`. The rest of `out` is unchanged.
#[unsafe(no_mangle)]
pub extern "C" fn gix_mailmap_stream_handle_read(
    s: &mut Handle,
    out: &mut [u8],
    count: &mut usize,
) -> u32
    ensures { MatchOption (pending s.old)
        ((out.new ≡ out.old) × (count.new ≡ count.old)
        × LeavesHandle CLOSED (content_of s.old) (content_of s.new) result)
        (λ p. (result ≡ OK) × Holds Stream (λ q. AreTaken p q out.old out.new count.new) (content_of s.new)) }
{
    held_in!(s, Stream(contacts));
    *count = contacts.read(out);
    OK
}

/// Closes a handle and frees its memory. A closed handle stays closed.
#[unsafe(no_mangle)]
pub extern "C" fn gix_mailmap_stream_handle_close(alloc: Global, s: &mut Handle)
    ensures { content_of s.new ≡ None }
{
    close(alloc, s);
}

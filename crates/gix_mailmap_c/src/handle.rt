//! The calls on a handle of a mailmap that open, extend, write and close it.
ghost use Rattle.std.specs.Prelude.{◌≡◌, ◌≢◌, ◌⊎◌, [], Some, None, IfNone, IfSome, MatchOption, OnErr, OnOk, option_map};
ghost use Rattle.mailmap_entries.specs.Building.{IsMerged};
ghost use Rattle.mailmap_entries.specs.Entries.{mapping_of};
ghost use Rattle.mailmap_entries.specs.Semantics.{IsNormal, accepted};
ghost use Rattle.mailmap_grammar.specs.Lines.{mappings_of};
ghost use Rattle.gix_mailmap_c.specs.Handles.{content_of, entry_given, handle_listing};
ghost use Rattle.gix_mailmap_c.specs.Handles.{Adds, AddsGiven, LeavesHandle, Opens, Writes};
ghost use Rattle.gix_mailmap_c.specs.declared.held.Content.TheVariants.{Mailmap};
ghost use Rattle.gix_mailmap_c.specs.declared.status.TheConstants.{CLOSED, OK, OUT_OF_MEMORY};

use crate::buffers::{out_of_memory, put};
use crate::held::{
    Content, Handle, Parts, closed, discard_closed, held_in, into_parts, is_open, opened,
};
use crate::status::{NOT_AN_ENTRY, OK, OPEN, OUT_OF_MEMORY, UNWRITABLE};
use mailmap_entries::Entry;
use mailmap_grammar::contacts::change_by_both;
use mailmap_snapshot::Snapshot;
use mailmap_snapshot::snapshot::{Source, WriteError};
use std::alloc::{AllocError, Global};

/// Opens a closed handle with the entries of `text`. Lines that can't be parsed are skipped.
///
/// Returns `OK`; `OUT_OF_MEMORY`; or `OPEN` if the handle is open already. Unless it is `OK`, the handle is unchanged.
#[unsafe(no_mangle)]
pub extern "C" fn gix_mailmap_handle_open(alloc: Global, m: &mut Handle, text: &[u8]) -> u32
    ensures { Opens Mailmap (IsNormal (mappings_of text.now)) (content_of m.old) (content_of m.new) result }
{
    if is_open(m) {
        return OPEN;
    }
    match Snapshot::from_bytes(alloc, text) {
        Ok(snapshot) => open(alloc, m, Content::Mailmap(snapshot)),
        Err(_) => OUT_OF_MEMORY,
    }
}

/// Opens a closed handle with a copy of another handle's mailmap.
///
/// Returns `OK`; `OUT_OF_MEMORY`; `OPEN` if the handle is open already; or `CLOSED` if the other one is closed. Unless it
/// is `OK`, the handle is unchanged.
#[unsafe(no_mangle)]
pub extern "C" fn gix_mailmap_handle_copy(alloc: Global, m: &mut Handle, other: &mut Handle) -> u32
    ensures unchanged { content_of other.new ≡ content_of other.old }
    ensures copied { MatchOption (handle_listing other.old)
        (LeavesHandle CLOSED (content_of m.old) (content_of m.new) result)
        (λ n. Opens Mailmap (λ copy. copy ≡ n) (content_of m.old) (content_of m.new) result) }
{
    held_in!(other, Mailmap(snapshot));
    if is_open(m) {
        return OPEN;
    }
    match snapshot.try_clone(alloc) {
        Ok(copy) => open(alloc, m, Content::Mailmap(copy)),
        Err(_) => OUT_OF_MEMORY,
    }
}

/// Adds the entries that another handle's mailmap lists after those that the mailmap has.
///
/// Returns `OK`; `OUT_OF_MEMORY`; or `CLOSED` if one of the handles is closed. Unless it is `OK`, the mailmap is
/// unchanged.
#[unsafe(no_mangle)]
pub extern "C" fn gix_mailmap_handle_merge(m: &mut Handle, other: &mut Handle) -> u32
    ensures unchanged { content_of other.new ≡ content_of other.old }
    ensures merged { MatchOption (handle_listing other.old)
        (LeavesHandle CLOSED (content_of m.old) (content_of m.new) result)
        (λ added. MatchOption (handle_listing m.old) (LeavesHandle CLOSED (content_of m.old) (content_of m.new) result)
        (λ n. Adds added n (content_of m.new) result)) }
{
    held_in!(other, Mailmap(added));
    merge(m, added)
}

/// Adds the entries of `text` after those that the mailmap has.
///
/// Returns `OK`; `OUT_OF_MEMORY`, and the mailmap is unchanged; or `CLOSED`.
#[unsafe(no_mangle)]
pub extern "C" fn gix_mailmap_handle_add(m: &mut Handle, text: &[u8]) -> u32
    ensures { MatchOption (handle_listing m.old) (LeavesHandle CLOSED (content_of m.old) (content_of m.new) result)
        (λ n. Adds (mappings_of text.now) n (content_of m.new) result) }
{
    held_in!(m, Mailmap(snapshot));
    match snapshot.merge_source(&Source::Buffer(text)) {
        Ok(()) => OK,
        Err(_) => OUT_OF_MEMORY,
    }
}

/// Adds an entry, given by its four texts, after those that the mailmap has. The texts aren't parsed. An empty new
/// name, new email or old name counts as missing.
///
/// Returns `OK`; `OUT_OF_MEMORY`; `NOT_AN_ENTRY` if both the new name and the new email are missing, or if there is an
/// old name but no new email; or `CLOSED`. Unless it is `OK`, the mailmap is unchanged.
#[unsafe(no_mangle)]
pub extern "C" fn gix_mailmap_handle_add_entry(
    m: &mut Handle,
    new_name: &[u8],
    new_email: &[u8],
    old_name: &[u8],
    old_email: &[u8],
) -> u32
    ensures { MatchOption (handle_listing m.old) (LeavesHandle CLOSED (content_of m.old) (content_of m.new) result)
        (λ n. AddsGiven (entry_given new_name.now new_email.now old_name.now old_email.now) n (content_of m.new) result) }
{
    held_in!(m, Mailmap(snapshot));
    let Some(entry) = entry_of(new_name, new_email, old_name, old_email) else {
        return NOT_AN_ENTRY;
    };
    match snapshot.merge_source(&Source::Entries(&[entry])) {
        Ok(()) => OK,
        Err(_) => OUT_OF_MEMORY,
    }
}

/// Writes the mailmap as text, as [`Snapshot::write`](mailmap_snapshot::Snapshot::write()) does.
///
/// Returns `OK`: the text is at the front of `out`, and `needed` is its length. `TOO_SHORT`: `out` is too short, and
/// `needed` is the length. `OUT_OF_MEMORY`: `needed` is 0. `UNWRITABLE`: no line can hold the entry at the place
/// `needed` of the listing, counted from 0. `CLOSED`: nothing is written. The rest of `out` is unchanged.
#[unsafe(no_mangle)]
pub extern "C" fn gix_mailmap_handle_write(
    alloc: Global,
    m: &mut Handle,
    out: &mut [u8],
    needed: &mut usize,
) -> u32
    ensures unchanged { content_of m.new ≡ content_of m.old }
    ensures written { IfSome (handle_listing m.old) (λ n. Writes n out.old out.new needed.new result) }
    ensures closed { IfNone (handle_listing m.old)
        ((result ≡ CLOSED) × (out.new ≡ out.old) × (needed.new ≡ needed.old)) }
{
    held_in!(m, Mailmap(snapshot));
    match snapshot.write(alloc) {
        Ok(text) => put(text.as_slice(), out, needed),
        Err(WriteError::Unwritable { place }) => {
            *needed = place;
            UNWRITABLE
        }
        Err(WriteError::Memory(_)) => out_of_memory(needed),
    }
}

/// Closes a handle and frees its memory. A closed handle stays closed.
#[unsafe(no_mangle)]
pub extern "C" fn gix_mailmap_handle_close(alloc: Global, m: &mut Handle)
    ensures { content_of m.new ≡ None }
{
    close(alloc, m);
}

/// Opens a closed handle with a content, if there is memory for the box.
pub(crate) fn open(alloc: Global, h: &mut Handle, content: Content) -> u32
    requires { content_of h.old ≡ None }
    ensures { ((result ≡ OK) × (content_of h.new ≡ Some content))
        ⊎ LeavesHandle OUT_OF_MEMORY None (content_of h.new) result }
{
    let Ok(content) = Box::new(alloc, content) else {
        return OUT_OF_MEMORY;
    };
    discard_closed(std::mem::replace(h, opened(Parts::of(content))));
    OK
}

/// Closes a handle of either kind.
pub(crate) fn close(alloc: Global, h: &mut Handle)
    ensures { content_of h.new ≡ None }
{
    let mut taken = std::mem::replace(h, closed(alloc));
    if is_open(&mut taken) {
        drop(into_parts(taken).into_box());
    } else {
        discard_closed(taken);
    }
}

// Adds the entries that a snapshot lists to a handle's mailmap, if that is open.
fn merge(m: &mut Handle, added: &Snapshot) -> u32
    ensures { MatchOption (handle_listing m.old) (LeavesHandle CLOSED (content_of m.old) (content_of m.new) result)
        (λ n. Adds added.now n (content_of m.new) result) }
{
    held_in!(m, Mailmap(snapshot));
    match merge_listing(snapshot, added) {
        Ok(()) => OK,
        Err(_) => OUT_OF_MEMORY,
    }
}

fn merge_listing(snapshot: &mut Snapshot, added: &Snapshot) -> Result<(), AllocError>
    ensures ok { OnOk result (IsMerged snapshot.old added.now snapshot.new) }
    ensures err { OnErr result (snapshot.new ≡ snapshot.old) }
    ensures out_of_memory { OnErr result (accepted added.now ≢ []) }
{
    snapshot.merge(added.iter())
}

// The entry of four texts, `None` if they make none.
fn entry_of<'a>(
    new_name: &'a [u8],
    new_email: &'a [u8],
    old_name: &'a [u8],
    old_email: &'a [u8],
) -> Option<Entry<'a>>
    ensures { option_map mapping_of result ≡ entry_given new_name.now new_email.now old_name.now old_email.now }
{
    if new_email.is_empty() {
        if new_name.is_empty() || !old_name.is_empty() {
            return None;
        }
        return Some(Entry::change_name_by_email(new_name, old_email));
    }
    Some(change_by_both(new_name, new_email, old_name, old_email))
}

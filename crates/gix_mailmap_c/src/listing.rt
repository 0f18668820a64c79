//! Lists the entries of a handle's mailmap.
ghost use Rattle.std.specs.Prelude.{◌≡◌, ◌≤◌, ◌+◌, ◌^◌, length, min, option_map, slice_get, IfSome, IfNone, MatchOption};
ghost use Rattle.std.specs.Option.{option_copied};
ghost use Rattle.mailmap_entries.specs.Entries.{mapping_of};
ghost use Rattle.gix_mailmap_c.specs.Handles.{content_of, handle_listing};
ghost use Rattle.gix_mailmap_c.specs.Listed.{all_listed, all_texts, entry_texts, listed_at, over, text_or_empty};
ghost use Rattle.gix_mailmap_c.specs.Listed.{IsAfter, Lists, ListsOne};
ghost use Rattle.gix_mailmap_c.specs.declared.status.TheConstants.{CLOSED, OK};

use crate::held::{Handle, held_in};
use crate::lookup::Field;
use crate::status::{NO_ENTRY, OK, TOO_SHORT};
use mailmap_entries::Entry;
use mailmap_snapshot::Snapshot;

/// A listed entry: the offset of its texts, and for each text its length and whether it is there. The texts are stored
/// one after another, in this order. The old email is always there.
#[repr(C)]
#[derive(Clone, Copy)]
pub struct Listed {
    pub start: usize,
    pub new_name: Field,
    pub new_email: Field,
    pub old_name: Field,
    pub old_email: Field,
}

impl Listed {
    pub(crate) fn of(start: usize, entry: &Entry<'_>) -> Listed
        ensures { result ≡ listed_at start (mapping_of entry.now) }
    {
        Listed {
            start,
            new_name: Field::of_optional(entry.new_name()),
            new_email: Field::of_optional(entry.new_email()),
            old_name: Field::of_optional(entry.old_name()),
            old_email: Field::of_optional(Some(entry.old_email())),
        }
    }
}

/// Sets the number of entries that the mailmap lists, and the length of all their texts together, or `usize::MAX` if it
/// is larger.
///
/// Returns `OK`; or `CLOSED`, and sets nothing. Iterates over all entries.
#[unsafe(no_mangle)]
pub extern "C" fn gix_mailmap_handle_len(
    m: &mut Handle,
    entries_len: &mut usize,
    texts_len: &mut usize,
) -> u32
    ensures unchanged { content_of m.new ≡ content_of m.old }
    ensures listed { IfSome (handle_listing m.old)
        (λ n. (result ≡ OK) × (entries_len.new ≡ length n) × (texts_len.new ≡ min usize.MAX (length (all_texts n)))) }
    ensures closed { IfNone (handle_listing m.old)
        ((result ≡ CLOSED) × (entries_len.new ≡ entries_len.old) × (texts_len.new ≡ texts_len.old)) }
{
    held_in!(m, Mailmap(snapshot));
    *entries_len = snapshot.len();
    *texts_len = texts_len_of(snapshot).unwrap_or(usize::MAX);
    OK
}

/// Lists all entries, in the order of [`Snapshot::iter`], and copies their texts, entry by entry.
///
/// Returns `OK`; `TOO_SHORT` if one of the buffers is too short, and both are unchanged; or `CLOSED`, and nothing is
/// written. The rest of each buffer is unchanged.
#[unsafe(no_mangle)]
pub extern "C" fn gix_mailmap_handle_list(
    m: &mut Handle,
    entries: &mut [Listed],
    texts: &mut [u8],
) -> u32
    ensures unchanged { content_of m.new ≡ content_of m.old }
    ensures listed { IfSome (handle_listing m.old) (λ n. Lists n entries.old entries.new texts.old texts.new result) }
    ensures closed { IfNone (handle_listing m.old)
        ((result ≡ CLOSED) × (entries.new ≡ entries.old) × (texts.new ≡ texts.old)) }
{
    held_in!(m, Mailmap(snapshot));
    if snapshot.len() > entries.len() {
        return TOO_SHORT;
    }
    match texts_len_of(snapshot) {
        Some(len) if len <= texts.len() => {
            copy_entries(snapshot, entries, texts);
            OK
        }
        _ => TOO_SHORT,
    }
}

/// Lists the entry at an index, counted from 0, and copies its texts. Iterates over the entries before it.
///
/// Returns `OK`; `TOO_SHORT` if `texts` is too short, which is unchanged then, while the entry is set; `NO_ENTRY` if
/// the mailmap lists no more than `index` entries, and nothing is written; or `CLOSED`, and nothing is written.
#[unsafe(no_mangle)]
pub extern "C" fn gix_mailmap_handle_entry(
    m: &mut Handle,
    index: usize,
    entry: &mut Listed,
    texts: &mut [u8],
) -> u32
    ensures unchanged { content_of m.new ≡ content_of m.old }
    ensures entry { IfSome (handle_listing m.old)
        (λ n. ListsOne (slice_get n index) entry.old entry.new texts.old texts.new result) }
    ensures closed { IfNone (handle_listing m.old)
        ((result ≡ CLOSED) × (entry.new ≡ entry.old) × (texts.new ≡ texts.old)) }
{
    held_in!(m, Mailmap(snapshot));
    list_one(snapshot, index, entry, texts)
}

// The length of the texts of all entries, `None` if it exceeds `usize::MAX`.
fn texts_len_of(snapshot: &Snapshot) -> Option<usize>
    ensures { let len = length (all_texts snapshot.now) in MatchOption result (2 ^ 64 ≤ len) (λ n. n ≡ len) }
{
    let mut len = 0;
    for entry in snapshot.iter() {
        len = len_with_texts(len, &entry)?;
    }
    Some(len)
}

fn list_one(snapshot: &Snapshot, index: usize, listed: &mut Listed, texts: &mut [u8]) -> u32
    ensures { ListsOne (slice_get snapshot.now index) listed.old listed.new texts.old texts.new result }
{
    let Some(entry) = entry_at(snapshot, index) else {
        return NO_ENTRY;
    };
    *listed = Listed::of(0, &entry);
    match len_with_texts(0, &entry) {
        Some(len) if len <= texts.len() => {
            copy_entry(&entry, texts, 0);
            OK
        }
        _ => TOO_SHORT,
    }
}

fn entry_at(snapshot: &Snapshot, index: usize) -> Option<Entry<'_>>
    ensures { option_map mapping_of result ≡ slice_get snapshot.now index }
{
    snapshot.iter().nth(index)
}

// Adds the length of an entry's texts to `len`. `None` if the sum exceeds `usize::MAX`.
fn len_with_texts(len: usize, entry: &Entry<'_>) -> Option<usize>
    ensures { let all = len + length (entry_texts (mapping_of entry.now))
        in MatchOption result (2 ^ 64 ≤ all) (λ n. n ≡ all) }
{
    let len = len.checked_add(entry.new_name().unwrap_or(&[]).len())?;
    let len = len.checked_add(entry.new_email().unwrap_or(&[]).len())?;
    let len = len.checked_add(entry.old_name().unwrap_or(&[]).len())?;
    len.checked_add(entry.old_email().len())
}

// Lists the entries of a snapshot in order, and copies their texts to the front of a buffer.
fn copy_entries(snapshot: &Snapshot, listed: &mut [Listed], out: &mut [u8])
    requires room { length snapshot.now ≤ length listed.old }
    requires text_room { length (all_texts snapshot.now) ≤ length out.old }
    ensures listed { listed.new ≡ over (all_listed 0 snapshot.now) listed.old }
    ensures written { out.new ≡ over (all_texts snapshot.now) out.old }
{
    let mut index = 0;
    let mut end = 0;
    for entry in snapshot.iter() {
        let one = Listed::of(end, &entry);
        listed[index] = one;
        index += 1;
        end = copy_entry(&entry, out, end);
    }
}

// Copies an entry's texts to an offset in a buffer, and returns the offset after them.
fn copy_entry(entry: &Entry<'_>, out: &mut [u8], start: usize) -> usize
    requires { start + length (entry_texts (mapping_of entry.now)) ≤ length out.old }
    ensures { IsAfter (entry_texts (mapping_of entry.now)) start out.old out.new result }
{
    let end = copy_text(entry.new_name(), out, start);
    let end = copy_text(entry.new_email(), out, end);
    let end = copy_text(entry.old_name(), out, end);
    copy_text(Some(entry.old_email()), out, end)
}

// A missing text copies nothing.
fn copy_text(text: Option<&[u8]>, out: &mut [u8], start: usize) -> usize
    requires { start + length (text_or_empty (option_copied text)) ≤ length out.old }
    ensures { IsAfter (text_or_empty (option_copied text.entry)) start out.old out.new result }
{
    let text = text.unwrap_or(&[]);
    let end = start + text.len();
    out[start..end].copy_from_slice(text);
    end
}

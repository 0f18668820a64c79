//! A cache for the answers to repeated lines. This is internal to the library and its programs.
ghost use Rattle.std.specs.Prelude.{◌≡◌, ◌+◌, ◌<◌, ◌≤◌, [], List, Contains, IfOk, IfSome, length, vec_capacity};
ghost use Rattle.mailmap_grammar.specs.CachedLines.{CachedLine, Inserts};

mod row;

pub use crate::cache::row::ROW_LEN;
use crate::cache::row::Row;
use std::alloc::{AllocError, Global};
use std::marker::Model;

/// The maximum number of lines in the cache.
pub const ROWS: usize = 4096;

// The number of slots at first: a power of two.
const FIRST_SLOTS: usize = 2048;

// The maximum number of slots, also a power of two. It is large, so that lines rarely share a slot.
const SLOTS: usize = 32768;

// The number of slots for each row, until there are `SLOTS`.
const SLOTS_PER_ROW: usize = 32;

// Marks a slot without a row.
const NO_ROW: u16 = u16::MAX;

// The line that was inserted or missed last, among those whose hashes select this slot.
#[derive(Clone, Copy)]
struct Slot {
    // The index of its row, if it was inserted.
    index: u16,
    // More bits of its hash, so that rows are rarely read for lines that aren't in the cache.
    tag: u16,
}

/// A cache of lines and their answers, with a fixed capacity. The oldest line is replaced first.
///
/// ```text
/// let mut cache = AnswerCache::new(alloc)?;
/// let hash = hash_of(b"jane <JANE@x>\n");
/// cache.note_miss(hash)                // `false`
/// cache.note_miss(hash)                // `true`
/// cache.insert(hash, b"jane <JANE@x>\n", b"Jane Doe <jane@x>\n");
/// cache.get(hash, b"jane <JANE@x>\n") // `Jane Doe <jane@x>` and its line feed
/// ```
///
/// All memory, about 1.1 MiB, is allocated at once, but most of it isn't touched until it is needed. An insertion is
/// slower than a lookup. So callers call [`note_miss`](AnswerCache::note_miss()) after a miss, and insert a line only
/// at its second miss: few lines are inserted that never come again.
///
/// Hashes select slots. A lookup can miss a line that is in the cache if the hash is wrong, or if another line with the
/// same slot was inserted or missed since then. That costs time, but changes no answer.
#[derive(Drop)]
pub struct AnswerCache {
    rows: Vec<Row>,
    slots: Vec<Slot>,
    // selects the bits of a hash that are the index of its slot
    mask: usize,
    next: u16,
}

impl Model for AnswerCache {
    ghost Value = { List CachedLine };

    ghost view = { λ t. t.rows.items };

    ghost invariant = { λ t. (t.next < 4096) × (4096 ≤ vec_capacity t.rows) };
}

impl AnswerCache {
    /// An empty cache.
    pub fn new(alloc: Global) -> Result<AnswerCache, AllocError>
        ensures { IfOk result (λ t. t ≡ []) }
    {
        let rows = Vec::with_capacity(alloc, ROWS)?;
        let mut slots = Vec::with_capacity(alloc, SLOTS)?;
        slots.resize(
            FIRST_SLOTS,
            Slot {
                index: NO_ROW,
                tag: 0,
            },
        )?;
        Ok(AnswerCache {
            rows,
            slots,
            mask: FIRST_SLOTS - 1,
            next: 0,
        })
    }

    /// The answer to a line with this hash, if it is found. Inlined, since nearly each line of a history calls it.
    #[inline(always)]
    pub fn get(&self, hash: u64, line: &[u8]) -> Option<&[u8]>
        ensures { IfSome result (λ answer. Contains self.now (record { line = line.now; answer = answer.now })) }
    {
        let slot = self.slots.get(self.place_of(hash))?;
        if slot.tag != tag_of(hash) {
            return None;
        }
        let row = self.rows.get(slot.index as usize)?;
        if row.line() != line {
            return None;
        }
        Some(row.answer())
    }

    /// Notes a miss of a line with this hash, and returns whether a miss was noted before.
    ///
    /// This is a heuristic, because it compares only some bits of hashes: the noted miss can be that of another line,
    /// or can have been overwritten. That changes no answer.
    pub fn note_miss(&mut self, hash: u64) -> bool
        ensures { self.new ≡ self.old }
    {
        let place = self.place_of(hash);
        let tag = tag_of(hash);
        let Some(slot) = self.slots.get_mut(place) else {
            return false;
        };
        if slot.tag == tag {
            return true;
        }
        *slot = Slot { index: NO_ROW, tag };
        false
    }

    /// Inserts a line with its hash and its answer. It replaces the oldest line once there are 4,096.
    ///
    /// Does nothing if the line and its answer are longer than [`ROW_LEN`] together.
    pub fn insert(&mut self, hash: u64, line: &[u8], answer: &[u8])
        ensures kept { length line.now + length answer.now ≤ ROW_LEN
            → Inserts self.old (record { line = line.now; answer = answer.now }) self.new }
        ensures too_long { ROW_LEN < length line.now + length answer.now → self.new ≡ self.old }
        ensures few { length self.old ≤ ROWS → length self.new ≤ ROWS }
    {
        let Some(row) = Row::new(line, answer) else {
            return;
        };
        self.add_slots();
        let place = self.place_of(hash);
        if let Some(slot) = self.slots.get_mut(place) {
            *slot = Slot {
                index: self.next,
                tag: tag_of(hash),
            };
        }
        let index = self.next as usize;
        if index < self.rows.len() {
            self.rows[index] = row;
        } else {
            let _ = self.rows.push(row);
        }
        self.next = (self.next + 1) % ROWS as u16;
    }

    // Doubles the number of slots if there are few for one more row. Each slot is copied, so that hashes still find
    // their slots.
    fn add_slots(&mut self)
        ensures { self.new ≡ self.old }
    {
        let count = self.slots.len();
        if count < SLOTS
            && count / SLOTS_PER_ROW <= self.rows.len()
            && self.slots.extend_from_within(..).is_ok()
        {
            self.mask |= count;
        }
    }

    // The index of the slot that a hash selects.
    fn place_of(&self, hash: u64) -> usize {
        hash as usize & self.mask
    }
}

fn tag_of(hash: u64) -> u16 {
    (hash >> 48) as u16
}

//! Answers contacts that arrive in parts.
ghost use Rattle.std.specs.Prelude.{◌≡◌, ◌++◌, ◌<◌, ◌≤◌, ◌⊎◌, [], List, length, map, take};
ghost use Rattle.std.specs.Prelude.{IfOk, IsFalse, IsTrue, OnErr, OnOk};
ghost use Rattle.mailmap_entries.specs.Entries.{Mapping};
ghost use Rattle.mailmap_entries.specs.Folding.{Text};
ghost use Rattle.mailmap_grammar.specs.LineParts.{AnswersFront};
ghost use Rattle.mailmap_grammar.specs.Lines.{HoldsNo};
ghost use Rattle.mailmap_snapshot.specs.Contacts.{answer, answers, answers_by};
ghost use Rattle.mailmap_snapshot.specs.Streams.{AreCachedAnswers, HasTaken};

use crate::check::{push_answers, snapshot_of};
use crate::snapshot::Snapshot;
use bstr::ByteSlice;
use mailmap_grammar::cache::{AnswerCache, ROW_LEN};
use mailmap_grammar::contacts::{ParsedContact, contact_of};
use mailmap_grammar::hashing::hash_of;
use std::alloc::{AllocError, Global};
use std::marker::Model;
use std::mem::swap;

/// `push` returns early once the text is this long, so that callers can write the answers before there are more.
const ENOUGH: usize = 65536;

/// How much of a part a push took.
#[derive(Clone, Copy, Debug, PartialEq, Eq)]
pub struct Taken {
    /// The number of bytes, from the start of the part.
    pub count: usize,
    /// Whether memory ran out after some lines, and so the rest of the part wasn't taken.
    pub out_of_memory: bool,
}

/// Answers contacts that arrive in parts, as [`check`](crate::check::check()) answers all of them at once.
///
/// It holds a snapshot of the buffers, the start of a line that hasn't ended yet, and a cache for up to 4,096 lines
/// that came more than once. The cache takes at most 1.1 MiB, however long the lines are.
///
/// The answers don't depend on how the contacts are split into parts: [`law_stream`](crate::laws::law_stream()).
///
/// ```text
/// let mut stream = ContactStream::new(alloc, &[b"Jane Doe <jane@x>"])?;
/// stream.push(b"jane <JANE@x>\njan", &mut text)?; // takes all 17 bytes; the text is `Jane Doe <jane@x>\n`
/// stream.push(b"e <q@x>", &mut text)?;            // takes all 7 bytes; the text stays as it is
/// stream.finish(&mut text)?;                      // appends `jane <q@x>\n`
/// ```
#[derive(Drop)]
pub struct ContactStream {
    snapshot: Snapshot,
    // the start of a line that hasn't ended yet
    partial: Vec<u8>,
    // lines that came more than once, and their answers
    cache: AnswerCache,
}

impl Model for ContactStream {
    ghost use Rattle.mailmap_grammar.specs.Lines.{HoldsNo};
    ghost use Rattle.mailmap_snapshot.specs.Streams.{AreCachedAnswers, Stream};

    ghost Value = { Stream };

    ghost view = { λ s. record { mappings = s.snapshot; partial = s.partial.items } };

    // every row of the cache is a line and its answer, and the partial line has no line feed
    ghost invariant = { λ s. AreCachedAnswers s.snapshot s.cache × HoldsNo 10 s.partial.items };
}

impl ContactStream {
    /// Makes a stream that answers with the mappings of the buffers, later ones after earlier ones.
    #[tactic(auto, using(crate::proofs::Streams::same_answers))]
    pub fn new(alloc: Global, buffers: &[&[u8]]) -> Result<ContactStream, AllocError>
        ensures { IfOk result (λ s. (s.partial ≡ [])
            × ((t : Text) → answers s.mappings t ≡ answers_by (map (λ b. b.now) buffers.now) t)) }
    {
        Ok(ContactStream {
            snapshot: snapshot_of(alloc, buffers)?,
            partial: Vec::new(alloc),
            cache: AnswerCache::new(alloc)?,
        })
    }

    /// Takes bytes from the start of `part`, appends the answers to all lines that end in these bytes to `text`, and
    /// returns how many bytes it took.
    ///
    /// It takes the whole part, unless `text` reaches 64 KiB or memory runs out after some lines; call it again with
    /// the rest then. If it fails, it took nothing, and `text` and the stream stay as they were.
    pub fn push(&mut self, part: &[u8], text: &mut Vec<u8>) -> Result<Taken, AllocError>
        ensures takes { IfOk result (λ taken. (taken.count ≤ length part.now)
            × (0 < length part.now → 0 < taken.count)) }
        ensures enough { IfOk result (λ taken. IsFalse taken.out_of_memory
            → (taken.count ≡ length part.now) ⊎ (65536 ≤ length text.new.items)) }
        ensures answers { IfOk result (λ taken. (made : Text) × (text.new.items ≡ text.old.items ++ made)
            × AnswersFront (answers self.old.mappings) (self.old.partial ++ take taken.count part.now) made
            self.new.partial) }
        ensures keeps { OnOk result ((HoldsNo 10 self.old.partial → HoldsNo 10 self.new.partial)
            × (self.new.mappings ≡ self.old.mappings)) }
        ensures err { OnErr result ((self.new ≡ self.old) × (text.new.items ≡ text.old.items)) }
    {
        let taken = take_lines(
            &mut self.partial,
            part,
            &self.snapshot,
            &mut self.cache,
            text,
        )?;
        Ok(taken)
    }

    /// Appends the answer to a last line without a line feed, if there is one.
    pub fn finish(mut self, text: &mut Vec<u8>) -> Result<(), AllocError>
        ensures ok { OnOk result (text.new.items ≡ text.old.items ++ answers self.mappings self.partial) }
        ensures err { OnErr result (text.new.items ≡ text.old.items) }
    {
        self.finish_line(text)
    }

    /// Does what [`finish`](ContactStream::finish) does, but the stream can be used further: the next push starts a new
    /// line. If this fails, `text` and the stream stay as they were.
    #[tactic(auto, using(crate::proofs::Streams::finish_laws))]
    pub fn finish_line(&mut self, text: &mut Vec<u8>) -> Result<(), AllocError>
        ensures ok { OnOk result (text.new.items ≡ text.old.items ++ answers self.old.mappings self.old.partial) }
        ensures ended { OnOk result ((self.new.partial ≡ []) × (self.new.mappings ≡ self.old.mappings)) }
        ensures err { OnErr result ((self.new ≡ self.old) × (text.new.items ≡ text.old.items)) }
    {
        if self.partial.is_empty() {
            return Ok(());
        }
        if text.is_empty() && is_own_answer(self.partial.as_slice()) {
            // It may be very long, so it isn't copied.
            self.partial.push(b'\n')?;
            swap(&mut self.partial, text);
            return Ok(());
        }
        push_answers(text, &self.snapshot, self.partial.as_slice())?;
        self.partial.clear();
        Ok(())
    }
}

// Does what `push` does.
#[tactic(auto, using(crate::proofs::Streams::next))]
fn take_lines(
    partial: &mut Vec<u8>,
    part: &[u8],
    snapshot: &Snapshot,
    cache: &mut AnswerCache,
    text: &mut Vec<u8>,
) -> Result<Taken, AllocError>
    requires held { HoldsNo 10 partial.old.items }
    requires cached { AreCachedAnswers snapshot.now cache.old }
    ensures ok { IfOk result (λ taken. HasTaken snapshot.now partial.old.items part.now text.old.items taken.count
        partial.new.items text.new.items) }
    ensures enough { IfOk result (λ taken. IsFalse taken.out_of_memory
        → (taken.count ≡ length part.now) ⊎ (65536 ≤ length text.new.items)) }
    ensures err { OnErr result ((partial.new.items ≡ partial.old.items) × (text.new.items ≡ text.old.items)) }
    ensures cache { AreCachedAnswers snapshot.now cache.new }
{
    let mut count = take_line(partial, part, snapshot, cache, text)?;
    while count < part.len() && text.len() < ENOUGH {
        match take_line(partial, &part[count..], snapshot, cache, text) {
            Ok(more) => count += more,
            Err(_) => {
                return Ok(Taken {
                    count,
                    out_of_memory: true,
                });
            }
        }
    }
    Ok(Taken {
        count,
        out_of_memory: false,
    })
}

// Takes the first line of a part with its line feed, and answers it. Without a line feed, the whole part goes to the
// partial line.
#[tactic(auto, using(crate::proofs::Streams::unended_taken))]
fn take_line(
    partial: &mut Vec<u8>,
    part: &[u8],
    snapshot: &Snapshot,
    cache: &mut AnswerCache,
    text: &mut Vec<u8>,
) -> Result<usize, AllocError>
    requires held { HoldsNo 10 partial.old.items }
    requires cached { AreCachedAnswers snapshot.now cache.old }
    ensures ok { IfOk result (λ taken. HasTaken snapshot.now partial.old.items part.now text.old.items taken
        partial.new.items text.new.items) }
    ensures err { OnErr result ((partial.new.items ≡ partial.old.items) × (text.new.items ≡ text.old.items)) }
    ensures cache { AreCachedAnswers snapshot.now cache.new }
{
    let Some(feed) = part.find_byte(b'\n') else {
        partial.extend_from_slice(part)?;
        return Ok(part.len());
    };
    let line = &part[..feed + 1];
    end_line(partial, line, snapshot, cache, text)?;
    Ok(line.len())
}

// Ends the partial line by `rest`, and answers it. If this fails, the partial line and the text stay as they were.
fn end_line(
    partial: &mut Vec<u8>,
    rest: &[u8],
    snapshot: &Snapshot,
    cache: &mut AnswerCache,
    text: &mut Vec<u8>,
) -> Result<(), AllocError>
    requires { AreCachedAnswers snapshot.now cache.old }
    ensures ok { OnOk result (text.new.items
        ≡ text.old.items ++ answers snapshot.now (partial.old.items ++ rest.now)) }
    ensures ended { OnOk result (partial.new.items ≡ []) }
    ensures err { OnErr result ((partial.new.items ≡ partial.old.items) × (text.new.items ≡ text.old.items)) }
    ensures cache { AreCachedAnswers snapshot.now cache.new }
{
    if partial.is_empty() {
        return push_cached_answer(text, snapshot, cache, rest);
    }
    let begun = partial.len();
    partial.extend_from_slice(rest)?;
    let pushed = push_joined_answer(text, snapshot, cache, partial.as_slice());
    partial.truncate(if pushed.is_ok() { 0 } else { begun });
    pushed
}

// Whether a line isn't a contact, so that it is its own answer.
fn is_own_answer(line: &[u8]) -> bool
    ensures { IsTrue result → (h : List Mapping) → answer h line.now ≡ line.now }
{
    match contact_of(line) {
        ParsedContact::Closed { .. } => false,
        _ => true,
    }
}

// Does what `push_cached_answer` does for a line that was joined. It isn't inlined, so that the loop of `push` has one
// copy of `push_cached_answer`, and takes three quarters of the time that it takes with two.
#[inline(never)]
fn push_joined_answer(
    text: &mut Vec<u8>,
    snapshot: &Snapshot,
    cache: &mut AnswerCache,
    line: &[u8],
) -> Result<(), AllocError>
    requires { AreCachedAnswers snapshot.now cache.old }
    ensures ok { OnOk result (text.new.items ≡ text.old.items ++ answers snapshot.now line.now) }
    ensures err { OnErr result (text.new.items ≡ text.old.items) }
    ensures cache { AreCachedAnswers snapshot.now cache.new }
{
    push_cached_answer(text, snapshot, cache, line)
}

// Appends the answer to a line with its line feed, from the cache if possible. Inserts the line into the cache at its
// second miss. A line that is too long for the cache isn't hashed. If this fails, the text stays as it was.
#[inline(always)]
#[tactic(auto, using(crate::proofs::Streams::cache_laws))]
fn push_cached_answer(
    text: &mut Vec<u8>,
    snapshot: &Snapshot,
    cache: &mut AnswerCache,
    line: &[u8],
) -> Result<(), AllocError>
    requires { AreCachedAnswers snapshot.now cache.old }
    ensures ok { OnOk result (text.new.items ≡ text.old.items ++ answers snapshot.now line.now) }
    ensures err { OnErr result (text.new.items ≡ text.old.items) }
    ensures cache { AreCachedAnswers snapshot.now cache.new }
{
    if line.len() > ROW_LEN {
        return push_answers(text, snapshot, line);
    }
    let hash = hash_of(line);
    if let Some(answer) = cache.get(hash, line) {
        return text.extend_from_slice(answer);
    }
    let begun = text.len();
    push_answers(text, snapshot, line)?;
    if cache.note_miss(hash) {
        cache.insert(hash, line, &text.as_slice()[begun..]);
    }
    Ok(())
}

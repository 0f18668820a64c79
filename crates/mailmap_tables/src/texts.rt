//! The texts of a row: an old text, and the new name and the new email that replace it. They are consecutive in the
//! pool.
ghost use Rattle.std.specs.Prelude.{◌≡◌, ◌+◌, IfOk, Some, length};
ghost use Rattle.std.specs.Option.{ForSome, option_map};
ghost use Rattle.mailmap_tables.specs.Pool.{Extends, HasTexts, IsStored, IsWithin, text_of};
ghost use Rattle.mailmap_tables.specs.RowTexts.{byte_count, old_span, span_of};

use std::alloc::AllocError;

/// The position of a text in the pool.
#[derive(Clone, Copy)]
pub struct Span {
    pub start: usize,
    pub len: usize,
}

/// Marks a missing text. No text is this long.
pub const NO_TEXT: usize = usize::MAX;

/// The texts of a row in the pool: the old one is at `start`, followed by the new name and the new email. The length of
/// a missing one is [`NO_TEXT`].
#[derive(Clone, Copy)]
pub struct RowTexts {
    pub start: usize,
    pub old_len: usize,
    pub new_name_len: usize,
    pub new_email_len: usize,
}

impl RowTexts {
    pub fn old(self) -> Span
        ensures { result ≡ old_span self }
    {
        Span {
            start: self.start,
            len: self.old_len,
        }
    }
}

/// The text of this length at `start`, `None` if the length is [`NO_TEXT`].
#[tactic(auto, unfolding(crate::specs::RowTexts::span_of))]
pub(crate) fn span_of(start: usize, len: usize) -> Option<Span>
    ensures { result ≡ span_of start len }
{
    if len == NO_TEXT {
        None
    } else {
        Some(Span { start, len })
    }
}

/// The number of bytes of a text with this length, 0 if it is [`NO_TEXT`].
#[tactic(auto, unfolding(crate::specs::RowTexts::byte_count))]
pub(crate) fn byte_count(len: usize) -> usize
    ensures { result ≡ byte_count len }
{
    if len == NO_TEXT { 0 } else { len }
}

/// A text to append to the pool: one that is given, or one of the pool.
#[derive(Clone, Copy)]
pub(crate) enum Source<'a> {
    Given(&'a [u8]),
    Pool(Span),
}

/// Appends the texts of a row to the pool.
pub(crate) fn append_row(
    pool: &mut Vec<u8>,
    old: Source<'_>,
    new_name: Option<Source<'_>>,
    new_email: Option<Source<'_>>,
) -> Result<RowTexts, AllocError>
    requires old { IsWithin (length pool.old.items) old }
    requires new_name { ForSome new_name (IsWithin (length pool.old.items)) }
    requires new_email { ForSome new_email (IsWithin (length pool.old.items)) }
    ensures grown { Extends pool.old.items pool.new.items }
    ensures row { IfOk result (HasTexts pool.new.items (text_of pool.old.items old.entry)
        (record {
          name = option_map (text_of pool.old.items) new_name.entry;
          email = option_map (text_of pool.old.items) new_email.entry;
        })) }
{
    let start = pool.len();
    let old_len = append(pool, old)?;
    let new_name_len = append_optional(pool, new_name)?;
    let new_email_len = append_optional(pool, new_email)?;
    Ok(RowTexts {
        start,
        old_len,
        new_name_len,
        new_email_len,
    })
}

// Appends a text, and returns its length. On an error the pool may have grown.
#[tactic(auto, using(crate::proofs::RowsOfPool::stored))]
fn append(pool: &mut Vec<u8>, text: Source<'_>) -> Result<usize, AllocError>
    requires { IsWithin (length pool.old.items) text }
    ensures grown { Extends pool.old.items pool.new.items }
    ensures stored { IfOk result (IsStored pool.old.items pool.new.items (Some (text_of pool.old.items text.entry))) }
{
    match text {
        Source::Given(text) => {
            pool.extend_from_slice(text)?;
            Ok(text.len())
        }
        Source::Pool(span) => {
            pool.extend_from_within(span.start..span.start + span.len)?;
            Ok(span.len)
        }
    }
}

// Appends a text if there is one, and returns the length to store for it.
#[tactic(auto, using(crate::proofs::RowsOfPool::none_stored))]
fn append_optional(pool: &mut Vec<u8>, text: Option<Source<'_>>) -> Result<usize, AllocError>
    requires { ForSome text (IsWithin (length pool.old.items)) }
    ensures grown { Extends pool.old.items pool.new.items }
    ensures stored { IfOk result
        (IsStored pool.old.items pool.new.items (option_map (text_of pool.old.items) text.entry)) }
{
    match text {
        Some(text) => append(pool, text),
        None => Ok(NO_TEXT),
    }
}

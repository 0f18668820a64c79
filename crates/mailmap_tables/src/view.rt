//! Read access to tables, for lookups, listings and merges.
ghost use Rattle.std.specs.Prelude.{◌≡◌, ◌≤◌, ◌<◌, ◌-◌, drop, length, map, Some, slice_get, slice_index_or, take};
ghost use Rattle.std.specs.Option.{option_map, option_copied, ForSome};

use crate::rows::{EmailRow, NameRow, names_start};
use crate::texts::{RowTexts, Span, byte_count, span_of};
use mailmap_entries::fold::prefix::Prefixed;
use std::marker::Model;

/// A read-only view of the pool and the tables. Its functions hand out slices and numbers, so a function that gets
/// nothing else can't allocate.
#[derive(Drop)]
pub struct View<'a> {
    pool: &'a [u8],
    emails: &'a [EmailRow],
    names: &'a [NameRow],
    prefixes: &'a [u128],
}

impl<'a> Model for View<'a> {
    ghost use Rattle.mailmap_tables.specs.Groups.{Contents};

    ghost Value = { Contents };

    ghost use Rattle.mailmap_tables.specs.Pool.{contents};
    ghost use Rattle.mailmap_tables.specs.Rows.{AreTables, rows_of};

    ghost view = { λ t. contents t.pool.now (rows_of t.emails.now t.names.now) };

    ghost invariant = { λ t. AreTables t.pool.now t.emails.now t.names.now t.prefixes.now };
}

impl<'a> View<'a> {
    ghost use Rattle.mailmap_tables.specs.Groups.{Contents, EmailGroup, listing, row_count};
    ghost use Rattle.mailmap_tables.specs.Pool.{LiesIn, EmailInPool, TextsInPool, contents, group_of, spelled};
    ghost use Rattle.mailmap_tables.specs.RowTexts.{email_span, name_span};
    ghost use Rattle.mailmap_tables.specs.Rows.{AreTables, rows_of};

    pub(crate) fn of(
        pool: &'a [u8],
        emails: &'a [EmailRow],
        names: &'a [NameRow],
        prefixes: &'a [u128],
    ) -> View<'a>
        requires { AreTables pool.now emails.now names.now prefixes.now }
        ensures { result ≡ contents pool.now (rows_of emails.now names.now) }
    {
        View {
            pool,
            emails,
            names,
            prefixes,
        }
    }

    /// The number of emails.
    pub(crate) fn email_count(&self) -> usize
        ensures { result ≡ length self.now.groups }
    {
        self.emails.len()
    }

    /// The number of emails and names. No listing is longer.
    pub fn row_count(&self) -> usize
        ensures rows { result ≡ row_count self.now }
        ensures listing { length (listing self.now.groups) ≤ result }
    {
        self.emails.len() + self.names.len()
    }

    /// The text at a span.
    pub fn text(&self, span: Span) -> &'a [u8]
        requires { LiesIn (length self.now.pool) span }
        ensures { result.now ≡ spelled self.now.pool span }
    {
        &self.pool[span.start..span.start + span.len]
    }

    /// The text at a span, if there is one.
    pub fn optional_text(&self, span: Option<Span>) -> Option<&'a [u8]>
        requires { ForSome span (LiesIn (length self.now.pool)) }
        ensures { option_copied result ≡ option_map (spelled self.now.pool) span }
    {
        match span {
            Some(span) => Some(self.text(span)),
            None => None,
        }
    }

    /// The email at an index, with its prefix.
    #[inline(always)]
    pub(crate) fn email_text(&self, index: usize) -> Prefixed<'a>
        requires { index < length self.now.groups }
        ensures { slice_get (map (λ (g : EmailGroup). g.old_email) self.now.groups) index ≡ Some result.text.now }
    {
        let row = at(self.emails, index);
        Prefixed::with_prefix(self.text(row.texts.old()), *at(self.prefixes, index))
    }

    /// The new name and the new email of a row, if there are any.
    #[tactic(auto, unfolding(crate::specs::RowTexts::name_span, crate::specs::RowTexts::email_span))]
    pub fn fields(&self, texts: RowTexts) -> (Option<Span>, Option<Span>)
        requires { TextsInPool (length self.now.pool) texts }
        ensures new_name { result.0 ≡ name_span texts }
        ensures new_email { result.1 ≡ email_span texts }
    {
        let len = self.pool.len();
        // so that these sums don't overflow
        prove!(texts.start <= len);
        let name_start = texts.start + texts.old_len;
        let email_start = name_start + byte_count(texts.new_name_len);
        (
            span_of(name_start, texts.new_name_len),
            span_of(email_start, texts.new_email_len),
        )
    }

    /// The texts of the email at an index, and the rows of its names.
    pub fn email(&self, index: usize) -> (RowTexts, &'a [NameRow])
        requires { index < length self.now.groups }
        ensures group { slice_get self.now.groups index ≡ Some (group_of self.now.pool result.0 result.1.now) }
        ensures in_pool { EmailInPool self.now.pool result.0 result.1.now }
    {
        let row = at(self.emails, index);
        let end = names_start(self.emails, self.names, index + 1);
        (row.texts, part(self.names, row.names_start, end))
    }
}

// An element, with the one equation about it that the proofs of all callers use.
fn at<T>(rows: &[T], index: usize) -> &T
    requires { index < length rows.now }
    ensures { result.now ≡ slice_index_or rows.now index result.now }
{
    &rows[index]
}

// The names from one index up to another.
fn part(names: &[NameRow], from: usize, to: usize) -> &[NameRow]
    requires up { from ≤ to }
    requires within { to ≤ length names.now }
    ensures { result.now ≡ take (to - from) (drop from names.now) }
{
    &names[from..to]
}

//! The tables of a snapshot: a pool with the bytes of all texts, a table of emails, and a table of the names of all
//! emails. The rows say where their texts are in the pool, and where the names of an email begin.
ghost use Rattle.std.specs.Prelude.{◌≡◌, ◌<◌, ◌≤◌, [], IfOk, OnErr, OnOk, if◌then◌else◌, is_ok, length, map};
ghost use Rattle.std.specs.Prelude.{slice_get, vec_capacity, vec_len};
ghost use Rattle.std.specs.List.{AllByRecursion, insert};
ghost use Rattle.std.specs.List.Sorted.{IsSearchInRange, IsStrictlySortedBy};
ghost use Rattle.std.specs.Option.{ForSome, option_map, option_to_list};
ghost use Rattle.mailmap_entries.specs.Folding.{text_cmp};
ghost use Rattle.mailmap_tables.specs.Groups.{folded_name};
ghost use Rattle.mailmap_tables.specs.KeySearch.{placed};
ghost use Rattle.mailmap_tables.specs.Rows.{raised, raised_from};
ghost use Rattle.mailmap_tables.specs.declared.rows.EmailRow.{EmailRow};

use crate::rows::{EmailRow, NameRow, names_start};
use crate::texts::{RowTexts, Source, append_row};
use crate::view::View;
use std::alloc::{AllocError, Global};
use std::marker::Model;

// Before the tables are rebuilt, a pool may always grow by twice this: 2 KiB.
const SPARE_LEN: usize = 1024;

/// The pool and the table of emails.
///
/// Contracts see the pool, and a group for each email.
#[derive(Drop)]
pub struct Tables {
    pool: Vec<u8>,
    emails: Vec<EmailRow>,
    // the names of the first email, those of the second, and so on
    names: Vec<NameRow>,
    // the key prefix of each email, contiguous in memory: a search rarely reads more
    prefixes: Vec<u128>,
    // the length of the pool when the tables were built, with texts that later entries of the batch replaced
    built_len: usize,
}

impl Model for Tables {
    ghost use Rattle.mailmap_tables.specs.Groups.{Contents};

    ghost Value = { Contents };

    ghost use Rattle.mailmap_tables.specs.Pool.{contents};
    ghost use Rattle.mailmap_tables.specs.Rows.{AreTables, rows_of};

    ghost view = { λ t. contents t.pool.items (rows_of t.emails.items t.names.items) };

    ghost invariant = { λ t. AreTables t.pool.items t.emails.items t.names.items t.prefixes.items };
}

impl Tables {
    ghost use Rattle.mailmap_tables.specs.Groups.{Contents};

    /// Empty tables. Allocates nothing.
    pub fn new(alloc: Global) -> Tables
        ensures { result ≡ record { pool = []; groups = [] } }
    {
        Tables {
            pool: Vec::new(alloc),
            emails: Vec::new(alloc),
            names: Vec::new(alloc),
            prefixes: Vec::new(alloc),
            built_len: 0,
        }
    }

    /// Reserves capacity for this many more emails and names, and for this many more bytes of texts. Pages that aren't
    /// used stay untouched, while tables that grow would leave holes in the memory.
    pub(crate) fn reserve(&mut self, rows: usize, bytes: usize) -> Result<(), AllocError>
        ensures { self.new ≡ self.old }
    {
        self.pool.reserve_exact(bytes)?;
        self.emails.reserve_exact(rows)?;
        self.names.reserve_exact(rows)?;
        self.prefixes.reserve_exact(rows)
    }

    pub fn view(&self) -> View<'_>
        ensures { result ≡ self.now }
    {
        View::of(&self.pool, &self.emails, &self.names, &self.prefixes)
    }

    pub fn try_clone(&self, alloc: Global) -> Result<Tables, AllocError>
        ensures { IfOk result (λ copy. copy ≡ self.now) }
    {
        Ok(Tables {
            pool: Vec::from_slice(alloc, &self.pool)?,
            emails: Vec::from_slice(alloc, &self.emails)?,
            names: Vec::from_slice(alloc, &self.names)?,
            prefixes: Vec::from_slice(alloc, &self.prefixes)?,
            built_len: self.built_len,
        })
    }

    pub(crate) fn allocator(&self) -> Global {
        *self.pool.allocator()
    }

    /// The same tables, with the length of their pool noted as that of newly built ones.
    pub(crate) fn as_newly_built(mut self) -> Tables
        ensures { result ≡ self }
    {
        self.built_len = self.pool.len();
        self
    }

    /// Whether the pool has become more than twice as long as it was when the tables were built, and not only by little.
    pub(crate) fn is_twice_as_built(&self) -> bool {
        self.built_len < (self.pool.len() / 2).saturating_sub(SPARE_LEN)
    }
}

/// Changes of single rows.
impl Tables {
    ghost use Rattle.mailmap_tables.specs.Groups.{Contents};
    ghost use Rattle.mailmap_tables.specs.Pool.{IsGrown, HasTexts, IsWithin, NameInPool, TextsInPool, fields_of, stored_name};
    ghost use Rattle.mailmap_tables.specs.Pool.{EmailInPool, group_of, prefix_of, spelled, text_of, with_group_at};
    ghost use Rattle.mailmap_tables.specs.RowTexts.{old_span};

    /// Appends the texts of a row to the pool.
    pub(crate) fn append_row(
        &mut self,
        old: Source<'_>,
        new_name: Option<Source<'_>>,
        new_email: Option<Source<'_>>,
    ) -> Result<RowTexts, AllocError>
        requires old { IsWithin (length self.old.pool) old }
        requires new_name { ForSome new_name (IsWithin (length self.old.pool)) }
        requires new_email { ForSome new_email (IsWithin (length self.old.pool)) }
        ensures grown { IsGrown self.old self.new }
        ensures row { IfOk result (HasTexts self.new.pool (text_of self.old.pool old.entry)
            (record {
              name = option_map (text_of self.old.pool) new_name.entry;
              email = option_map (text_of self.old.pool) new_email.entry;
            })) }
    {
        append_row(&mut self.pool, old, new_name, new_email)
    }

    /// Replaces the texts of an email. The spelling of the old email stays the same.
    pub(crate) fn replace_texts(&mut self, index: usize, texts: RowTexts)
        requires index { index < length self.old.groups }
        requires in_pool { TextsInPool (length self.old.pool) texts }
        requires same { ForSome (slice_get self.old.groups index)
            (λ g. spelled self.old.pool (old_span texts) ≡ g.old_email) }
        ensures { ForSome (slice_get self.old.groups index)
            (λ g. self.new ≡ with_group_at self.old index (record g { unnamed = fields_of self.old.pool texts })) }
    {
        self.emails[index].texts = texts;
    }

    /// Replaces the row at a place among the names of an email, or inserts it there. Inserted, it moves the rows after
    /// it, and where the names of later emails begin.
    pub(crate) fn place_name(
        &mut self,
        index: usize,
        place: Result<usize, usize>,
        row: NameRow,
    ) -> Result<(), AllocError>
        requires index { index < length self.old.groups }
        requires place { ForSome (slice_get self.old.groups index) (λ g. IsSearchInRange place (length g.names)) }
        requires in_pool { NameInPool (length self.old.pool) row }
        requires ascending { ForSome (slice_get self.old.groups index) (λ g. IsStrictlySortedBy text_cmp
            (map folded_name (placed g.names place (stored_name self.old.pool row)))) }
        ensures ok { OnOk result (ForSome (slice_get self.old.groups index) (λ g. self.new
            ≡ with_group_at self.old index
            (record g { names = placed g.names place (stored_name self.old.pool row) }))) }
        ensures err { OnErr result (self.new ≡ self.old) }
    {
        let start = self.emails[index].names_start;
        match place {
            Ok(at) => {
                self.names[start + at] = row;
                Ok(())
            }
            Err(at) => {
                insert_name(
                    &mut self.names,
                    start + at,
                    row,
                    &mut self.emails,
                    index + 1,
                )?;
                Ok(())
            }
        }
    }

    /// Inserts an email before the one at an index, with a name or none.
    pub(crate) fn insert_email(
        &mut self,
        index: usize,
        prefix: u128,
        texts: RowTexts,
        name: Option<NameRow>,
    ) -> Result<(), AllocError>
        requires index { index ≤ length self.old.groups }
        requires prefix { prefix ≡ prefix_of (group_of self.old.pool texts (option_to_list name)) }
        requires in_pool { EmailInPool self.old.pool texts (option_to_list name) }
        ensures ok { OnOk result (self.new ≡ record self.old {
          groups = insert self.old.groups index (group_of self.old.pool texts (option_to_list name));
        }) }
        ensures err { OnErr result (self.new ≡ self.old) }
    {
        // so that none but the first insertion can fail
        self.emails.reserve(1)?;
        self.names.reserve(usize::from(name.is_some()))?;
        self.prefixes.insert(index, prefix)?;
        let names_start = names_start(&self.emails, &self.names, index);
        self.emails.insert(index, EmailRow { texts, names_start })?;
        let Some(name) = name else {
            return Ok(());
        };
        insert_name(
            &mut self.names,
            names_start,
            name,
            &mut self.emails,
            index + 1,
        )?;
        Ok(())
    }
}

// Inserts a name at an index of the table of names, and moves the names of the emails from `next` on.
fn insert_name(
    names: &mut Vec<NameRow>,
    at: usize,
    name: NameRow,
    emails: &mut Vec<EmailRow>,
    next: usize,
) -> Result<(), AllocError>
    requires at { at ≤ length names.old.items }
    requires next { next ≤ length emails.old.items }
    requires few { AllByRecursion (λ (e : EmailRow). e.names_start < usize.MAX) emails.old.items }
    ensures names { names.new.items ≡ (if is_ok result then insert names.old.items at name else names.old.items) }
    ensures emails { emails.new.items ≡ (if is_ok result then raised_from emails.old.items next else emails.old.items) }
    ensures full { OnErr result (vec_capacity names.old ≤ vec_len names.old) }
{
    names.insert(at, name)?;
    raise_starts(&mut emails[next..]);
    Ok(())
}

// Raises by one where the names of these emails begin.
fn raise_starts(emails: &mut [EmailRow])
    requires { AllByRecursion (λ (e : EmailRow). e.names_start < usize.MAX) emails.old }
    ensures { emails.new ≡ map raised emails.old }
{
    for email in emails {
        email.names_start += 1;
    }
}

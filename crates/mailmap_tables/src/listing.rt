//! Lists the entries of tables.
ghost use Rattle.std.specs.Prelude.{◌≡◌, List, [], length, option_map};
ghost use Rattle.std.specs.Iterator.{YieldsFirstBy, item_count};
ghost use Rattle.std.specs.List.{AllByRecursion};
ghost use Rattle.std.specs.Option.{option_to_list};
ghost use Rattle.mailmap_entries.specs.Entries.{mapping_of};
ghost use Rattle.mailmap_tables.specs.Groups.{listing, name_entry, unnamed_entries};
ghost use Rattle.mailmap_tables.specs.Pool.{NameInPool, TextsInPool, group_of, left_to_list, stored_name, spelled};
ghost use Rattle.mailmap_tables.specs.RowTexts.{old_span};

use crate::rows::NameRow;
use crate::texts::RowTexts;
use crate::view::View;
use mailmap_entries::{Entry, entry_of};
use std::marker::Model;

/// An iterator over the entries of a snapshot, in ascending order of their keys.
///
/// Contracts see it as the list of the entries that are left.
#[derive(Drop)]
pub struct Iter<'a> {
    tables: View<'a>,
    // the number of emails reached, the last of these, and those of its names that are left
    reached: usize,
    old_email: &'a [u8],
    names: &'a [NameRow],
}

impl<'a> Model for Iter<'a> {
    ghost use Rattle.std.specs.Prelude.{List, length};
    ghost use Rattle.std.specs.List.{AllByRecursion};
    ghost use Rattle.mailmap_entries.specs.Entries.{Mapping};

    ghost Value = { List Mapping };

    ghost use Rattle.mailmap_tables.specs.Pool.{NameInPool, left_to_list};

    ghost view = { λ s. left_to_list s.tables s.old_email.now s.names.now s.reached };

    ghost invariant = { λ s. AllByRecursion (NameInPool (length s.tables.pool)) s.names.now };
}

impl<'a> Iter<'a> {
    pub fn new(tables: View<'a>) -> Self
        ensures { result ≡ listing tables.entry.groups }
    {
        Iter {
            tables,
            reached: 0,
            old_email: &[],
            names: &[],
        }
    }
}

impl<'a> Iterator for Iter<'a> {
    type Item = Entry<'a>;

    ghost next_gives = { YieldsFirstBy mapping_of (λ s. s) };

    ghost remaining = { item_count (λ s. s) };

    fn next(&mut self) -> Option<Entry<'a>> {
        while self.names.is_empty() && self.reached < self.tables.email_count() {
            let (texts, names) = self.tables.email(self.reached);
            self.reached += 1;
            self.old_email = self.tables.text(texts.old());
            self.names = names;
            if let Some(entry) = unnamed_entry(&self.tables, self.old_email, texts) {
                return Some(entry);
            }
        }
        let (name, names) = self.names.split_first()?;
        self.names = names;
        Some(name_entry(&self.tables, self.old_email, name))
    }
}

// The entry of an email for all other names, if there is one.
fn unnamed_entry<'a>(tables: &View<'a>, old_email: &'a [u8], texts: RowTexts) -> Option<Entry<'a>>
    requires in_pool { TextsInPool (length tables.now.pool) texts }
    requires old_email { old_email.now ≡ spelled tables.now.pool (old_span texts) }
    ensures { option_to_list (option_map mapping_of result) ≡ unnamed_entries (group_of tables.now.pool texts []) }
{
    let (new_name, new_email) = tables.fields(texts);
    let new_name = tables.optional_text(new_name);
    let new_email = tables.optional_text(new_email);
    if new_name.is_none() && new_email.is_none() {
        return None;
    }
    Some(entry_of(new_name, new_email, None, old_email))
}

// The entry of one of an email's names.
fn name_entry<'a>(tables: &View<'a>, old_email: &'a [u8], row: &NameRow) -> Entry<'a>
    requires { NameInPool (length tables.now.pool) row.now }
    ensures { mapping_of result ≡ name_entry old_email.now (stored_name tables.now.pool row.now) }
{
    let old_name = tables.text(row.old());
    let (new_name, new_email) = tables.fields(*row);
    let new_name = tables.optional_text(new_name);
    let new_email = tables.optional_text(new_email);
    entry_of(new_name, new_email, Some(old_name), old_email)
}

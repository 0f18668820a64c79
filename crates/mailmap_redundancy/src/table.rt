//! What a range of entries says of each key and each email, as references to the entries that matter.
ghost use Rattle.std.specs.Prelude.{◌≡◌, ◌<◌, ◌++◌, All, [], ◌∷◌, IfOk, List, vec_len};
ghost use Rattle.std.specs.List.Sorted.{IsStrictlySortedBy};
ghost use Rattle.mailmap_entries.specs.Semantics.{Key as SpecKey, key, key_cmp};
ghost use Rattle.mailmap_redundancy.specs.Redundancy.{LocatedMapping, located_of};
ghost use Rattle.mailmap_redundancy.specs.Summaries.{IsNumbered, IsTable, IsWith, email_origin, numbered_mapping, joined_summary, key_summary, key_summary_of, located_mapping_of, located_mappings, name_origin, referred, summary_for, summary_of, summary_of_one, value_of, value_from};

use crate::keys::{Key, NumberedEntry};
use crate::located::{LocatedEntry, new_email, new_name, old_email, old_name};
use std::alloc::{AllocError, Global};

/// The entries that matter for a key: the first, the last with a new name, the last with a new email, and the last.
#[derive(Clone, Copy)]
pub(crate) struct KeySummary<'p, 'a> {
    pub(crate) first: Option<&'p LocatedEntry<'a>>,
    pub(crate) name: Option<&'p LocatedEntry<'a>>,
    pub(crate) email: Option<&'p LocatedEntry<'a>>,
    pub(crate) last: Option<&'p LocatedEntry<'a>>,
}

impl<'p, 'a> KeySummary<'p, 'a> {
    pub(crate) fn none() -> KeySummary<'p, 'a>
        ensures { key_summary_of result ≡ key_summary [] }
    {
        KeySummary {
            first: None,
            name: None,
            email: None,
            last: None,
        }
    }

    pub(crate) fn of(located: &'p LocatedEntry<'a>) -> KeySummary<'p, 'a>
        ensures { key_summary_of result ≡ key_summary (located_of located.now ∷ []) }
    {
        KeySummary {
            first: Some(located),
            name: located.entry.new_name().and(Some(located)),
            email: located.entry.new_email().and(Some(located)),
            last: Some(located),
        }
    }

    /// The entries that give the new name and the new email. If the key has an old name, its last entry gives both.
    pub(crate) fn origins(
        &self,
        is_named: bool,
    ) -> (Option<&'p LocatedEntry<'a>>, Option<&'p LocatedEntry<'a>>)
        ensures name { referred result.0 ≡ name_origin is_named (key_summary_of self.now) }
        ensures email { referred result.1 ≡ email_origin is_named (key_summary_of self.now) }
    {
        if is_named {
            (self.last, self.last)
        } else {
            (self.name, self.email)
        }
    }
}

/// The first entry of an email, whose spelling counts. It is a struct because a proof doesn't know what was written into a
/// vector of bare optional references.
#[derive(Clone, Copy)]
pub(crate) struct EmailSummary<'p, 'a> {
    pub(crate) first: Option<&'p LocatedEntry<'a>>,
}

/// What a range of entries says of a key and of its email.
#[derive(Clone, Copy)]
pub(crate) struct Summary<'p, 'a> {
    pub(crate) of_key: KeySummary<'p, 'a>,
    pub(crate) of_email: EmailSummary<'p, 'a>,
}

impl<'p, 'a> Summary<'p, 'a> {
    pub(crate) fn of(located: &'p LocatedEntry<'a>) -> Summary<'p, 'a>
        ensures { summary_of result ≡ summary_of_one (located_of located.now) }
    {
        Summary {
            of_key: KeySummary::of(located),
            of_email: EmailSummary {
                first: Some(located),
            },
        }
    }

    /// The summary of this range followed by another.
    #[tactic(auto, using(crate::proofs::Giving::joined_options))]
    pub(crate) fn then(self, after: Summary<'p, 'a>) -> Summary<'p, 'a>
        ensures { summary_of result ≡ joined_summary (summary_of self.entry) (summary_of after.entry) }
    {
        Summary {
            of_key: KeySummary {
                first: self.of_key.first.or(after.of_key.first),
                name: after.of_key.name.or(self.of_key.name),
                email: after.of_key.email.or(self.of_key.email),
                last: after.of_key.last.or(self.of_key.last),
            },
            of_email: EmailSummary {
                first: self.of_email.first.or(after.of_email.first),
            },
        }
    }

    /// What the range makes of its key.
    pub(crate) fn value(&self, is_named: bool) -> Value<'a>
        ensures { value_of result ≡ value_from is_named (summary_of self.now) }
    {
        let (name, email) = self.of_key.origins(is_named);
        Value {
            new_name: new_name(name),
            new_email: new_email(email),
            old_name: if is_named {
                old_name(self.of_key.first)
            } else {
                None
            },
            old_email: old_email(self.of_email.first).unwrap_or(&[]),
        }
    }
}

/// The new fields of a key, and how its old name and its email are spelled.
#[derive(Clone, Copy)]
pub(crate) struct Value<'a> {
    pub(crate) new_name: Option<&'a [u8]>,
    pub(crate) new_email: Option<&'a [u8]>,
    pub(crate) old_name: Option<&'a [u8]>,
    pub(crate) old_email: &'a [u8],
}

/// A summary for each key and one for each email, both indexed by the numbers of keys: that of an email is the number of
/// the key without a name. A table has neither the keys nor the entries, so clauses speak of all those that it fits.
#[derive(Drop)]
pub(crate) struct Table<'p, 'a> {
    pub(crate) key_summaries: Vec<KeySummary<'p, 'a>>,
    pub(crate) email_summaries: Vec<EmailSummary<'p, 'a>>,
}

impl<'p, 'a> Table<'p, 'a> {
    /// The table of an empty range.
    pub(crate) fn none(alloc: Global, keys: &[Key<'_>]) -> Result<Table<'p, 'a>, AllocError>
        ensures { IfOk result (IsTable keys.now []) }
    {
        Ok(Table {
            key_summaries: vec![in alloc; KeySummary::none(); keys.len()]?,
            email_summaries: vec![in alloc; EmailSummary { first: None }; keys.len()]?,
        })
    }

    pub(crate) fn of(
        alloc: Global,
        keys: &[Key<'_>],
        entries: &[NumberedEntry<'p, 'a>],
    ) -> Result<Table<'p, 'a>, AllocError>
        requires ascending { IsStrictlySortedBy key_cmp keys.now }
        requires numbered { All (IsNumbered keys.now) entries.now }
        ensures { IfOk result (IsTable keys.now (located_mappings entries.now)) }
    {
        let mut table = Table::none(alloc, keys)?;
        for x in entries {
            table.append(x);
        }
        Ok(table)
    }

    pub(crate) fn summary(&self, x: &NumberedEntry) -> Summary<'p, 'a>
        requires key { x.now.key_number < vec_len self.now.key_summaries }
        requires email { x.now.email_number < vec_len self.now.email_summaries }
        ensures { (keys : List SpecKey) (xs : List LocatedMapping) → IsNumbered keys x.now → IsTable keys xs self.now
            → summary_of result ≡ summary_for xs (key (numbered_mapping x.now)) }
    {
        Summary {
            of_key: self.key_summaries[x.key_number],
            of_email: self.email_summaries[x.email_number],
        }
    }

    /// Extends the range at its end.
    pub(crate) fn append(&mut self, x: &NumberedEntry<'p, 'a>)
        requires key { x.now.key_number < vec_len self.old.key_summaries }
        requires email { x.now.email_number < vec_len self.old.email_summaries }
        ensures { (keys : List SpecKey) (xs : List LocatedMapping) → IsStrictlySortedBy key_cmp keys
            → IsNumbered keys x.now → IsTable keys xs self.old
            → IsTable keys (xs ++ located_mapping_of x.now ∷ []) self.new }
    {
        let summary = self.summary(x).then(Summary::of(x.located));
        self.put(x, summary);
    }

    /// Extends the range at its start.
    pub(crate) fn prepend(&mut self, x: &NumberedEntry<'p, 'a>)
        requires key { x.now.key_number < vec_len self.old.key_summaries }
        requires email { x.now.email_number < vec_len self.old.email_summaries }
        ensures { (keys : List SpecKey) (xs : List LocatedMapping) → IsStrictlySortedBy key_cmp keys
            → IsNumbered keys x.now → IsTable keys xs self.old
            → IsTable keys (located_mapping_of x.now ∷ xs) self.new }
    {
        let summary = Summary::of(x.located).then(self.summary(x));
        self.put(x, summary);
    }

    // Replaces the rows of an entry by what the range with this entry says.
    fn put(&mut self, x: &NumberedEntry<'p, 'a>, summary: Summary<'p, 'a>)
        requires key { x.now.key_number < vec_len self.old.key_summaries }
        requires email { x.now.email_number < vec_len self.old.email_summaries }
        ensures { (keys : List SpecKey) (xs ys : List LocatedMapping) → IsStrictlySortedBy key_cmp keys
            → IsNumbered keys x.now → IsTable keys xs self.old → IsWith xs (located_mapping_of x.now) ys
            → summary_of summary.entry ≡ summary_for ys (key (numbered_mapping x.now))
            → IsTable keys ys self.new }
    {
        self.key_summaries[x.key_number] = summary.of_key;
        self.email_summaries[x.email_number] = summary.of_email;
    }
}

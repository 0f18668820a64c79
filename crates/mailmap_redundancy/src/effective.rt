//! Entries without the redundant ones.
ghost use Rattle.std.specs.Prelude.{◌≡◌, [], All, IfOk, List, Some, is_some, map, true};
ghost use Rattle.std.specs.List.Sorted.{IsStrictlySortedBy};
ghost use Rattle.mailmap_entries.specs.Entries.{mapping_of};
ghost use Rattle.mailmap_entries.specs.Folding.{folded};
ghost use Rattle.mailmap_entries.specs.Semantics as semantics;
ghost use Rattle.mailmap_entries.specs.Semantics.{is_accepted, key, key_cmp, last_fields, spelling};
ghost use Rattle.mailmap_redundancy.specs.Redundancy.{AreEffective, IsPass, LocatedMapping, entries, last_of_key, located_of};
ghost use Rattle.mailmap_redundancy.specs.Redundancy.{located_of_reference};
ghost use Rattle.mailmap_redundancy.specs.Origins.{git_answer_from, git_given, given, last_or_all as spec_last_or_all, origins as spec_origins};
ghost use Rattle.mailmap_redundancy.specs.Summaries.{EffectiveEntries, IsEffectiveState, IsNumbered, email_key, key_summary, key_summary_of, located_mappings, origins_of, referred, summary_for, summary_of};

use crate::keys::{Key, NumberedEntry, find, number_entries, unnumbered};
use crate::located::LocatedEntry;
use crate::origins::Origins;
use crate::passes::{drop_redundant_once, drop_until_stable};
use crate::table::{EmailSummary, KeySummary, Summary, Table};
use mailmap_entries::Entry;
use std::alloc::{AllocError, Global};
use std::marker::Model;

/// All entries, and the effective ones: those that remain once the redundant entries are dropped.
#[derive(Drop)]
pub struct Effective<'p, 'a> {
    history: &'p [LocatedEntry<'a>],
    keys: Vec<Key<'a>>,
    kept: Vec<&'p LocatedEntry<'a>>,
    // the table of the kept entries, which map names and emails as all entries do
    table: Table<'p, 'a>,
}

impl<'p, 'a> Model for Effective<'p, 'a> {
    ghost Value = { EffectiveEntries };

    ghost view = { λ s. record {
      history = map located_of s.history.now;
      kept = map located_of_reference s.kept.items;
    } };

    ghost invariant = { λ s. IsEffectiveState s.keys.items (map located_of s.history.now)
        (map located_of_reference s.kept.items) s.table };
}

impl<'p, 'a> Effective<'p, 'a> {
    /// The effective entries, in their original order.
    pub fn kept(&self) -> &[&'p LocatedEntry<'a>]
        ensures { map located_of_reference result.now ≡ self.now.kept }
    {
        &self.kept
    }

    /// The last effective entry with the key of `entry`, `None` if there is none.
    pub fn beside(&self, entry: &Entry<'_>) -> Option<&'p LocatedEntry<'a>>
        ensures { referred result ≡ last_of_key self.now.kept (key (mapping_of entry.now)) }
    {
        self.last_of_key(&Key::of(entry))
    }

    /// The entries behind the answer of all entries to a name and an email, and behind that of git if it has read the same
    /// entries. Dropping all other effective entries would change neither.
    #[tactic(auto, using(crate::proofs::Giving::effective_origins, crate::proofs::Giving::effective_git))]
    pub fn origins(&self, name: &[u8], email: &[u8]) -> Origins<'p, 'a>
        ensures origins { origins_of result ≡ spec_origins self.now.kept name.now email.now }
        ensures answer { given (origins_of result) email.now
            ≡ semantics.answer_of (entries self.now.history) name.now email.now }
        ensures git_answer { git_given (origins_of result)
            ≡ git_answer_from (entries self.now.history) name.now email.now }
    {
        self.find_origins(name, email)
    }

    /// Whether some entry has this name and this email as its old ones.
    pub fn has_own_entry(&self, name: &[u8], email: &[u8]) -> bool
        ensures { result
            ≡ is_some (last_fields (entries self.now.history) (folded email.now, Some (folded name.now))) }
    {
        self.last_of_key(&Key::new(email, Some(name))).is_some()
    }

    /// Whether some entry has this email as its old one, with or without an old name.
    pub fn has_email(&self, email: &[u8]) -> bool
        ensures { result ≡ is_some (spelling (entries self.now.history) (folded email.now)) }
    {
        self.summary(email).of_email.first.is_some()
    }

    #[tactic(auto, using(crate::proofs::Rows::none_of_unknown))]
    fn last_of_key(&self, key: &Key<'_>) -> Option<&'p LocatedEntry<'a>>
        ensures last { referred result ≡ last_of_key self.now.kept key.now }
        ensures effective { AreEffective self.now.history self.now.kept }
    {
        let number = find(&self.keys, key)?;
        self.table.key_summaries[number].last
    }

    // What the effective entries say of an email and of its key without a name.
    #[tactic(auto, using(crate::proofs::Redundant::none_of_key, crate::proofs::Rows::none_of_unknown_email))]
    fn summary(&self, email: &[u8]) -> Summary<'p, 'a>
        ensures summary { summary_of result ≡ summary_for self.now.kept (email_key (folded email.now)) }
        ensures effective { AreEffective self.now.history self.now.kept }
    {
        let Some(number) = find(&self.keys, &Key::new(email, None)) else {
            return Summary {
                of_key: KeySummary::none(),
                of_email: EmailSummary { first: None },
            };
        };
        Summary {
            of_key: self.table.key_summaries[number],
            of_email: self.table.email_summaries[number],
        }
    }

    // Does what `origins` does. It is apart so that the clauses of `origins` about all entries follow from these two.
    fn find_origins(&self, name: &[u8], email: &[u8]) -> Origins<'p, 'a>
        ensures origins { origins_of result ≡ spec_origins self.now.kept name.now email.now }
        ensures effective { AreEffective self.now.history self.now.kept }
    {
        let summary = self.summary(email);
        let last = self.last_of_key(&Key::new(email, Some(name)));
        let counting = last_or_all(last, summary.of_key);
        Origins {
            name: counting.name,
            email: counting.email,
            spelling: if counting.email.is_some() {
                None
            } else {
                summary.of_email.first
            },
        }
    }
}

// The entries that count for a name: the last entry with the name as its old name hides all others.
fn last_or_all<'p, 'a>(
    last: Option<&'p LocatedEntry<'a>>,
    others: KeySummary<'p, 'a>,
) -> KeySummary<'p, 'a>
    ensures { (xs : List LocatedMapping) → key_summary_of others.entry ≡ key_summary xs
        → key_summary_of result ≡ key_summary (spec_last_or_all (referred last.entry) xs) }
{
    match last {
        Some(located) => KeySummary::of(located),
        None => others,
    }
}

/// Drops the redundant entries. Each pass goes over the entries from first to last and drops an entry if the normal
/// list is the same without it. Passes are repeated until one drops nothing.
///
/// Given the line `Jane <jd@x>` twice, or `Ann <jd@x>` and then `Jane <jd@x>`, the first is dropped. The first entry of an
/// email is kept if the next entry of the email spells it in another way, because its spelling counts.
pub fn without_redundant<'p, 'a>(
    alloc: Global,
    entries: &'p [LocatedEntry<'a>],
) -> Result<Effective<'p, 'a>, AllocError>
    requires { All (λ x. is_accepted (mapping_of x.entry) ≡ true) entries.now }
    ensures history { IfOk result (λ s. s.history ≡ map located_of entries.now) }
    ensures effective { IfOk result (λ s. AreEffective (map located_of entries.now) s.kept) }
{
    // The numbers of all entries are freed here, before another pass allocates.
    let (keys, after_one_pass) = {
        let mut rows = unnumbered(alloc, entries)?;
        number_and_pass(alloc, entries, &mut rows)?
    };
    let kept = drop_until_stable(alloc, &keys, entries, after_one_pass)?;
    Ok(Effective {
        history: entries,
        kept: without_numbers(alloc, &kept)?,
        table: Table::of(alloc, &keys, &kept)?,
        keys,
    })
}

// Numbers the entries in these rows, and makes the first pass over them.
fn number_and_pass<'p, 'a>(
    alloc: Global,
    entries: &'p [LocatedEntry<'a>],
    rows: &mut [NumberedEntry<'p, 'a>],
) -> Result<(Vec<Key<'a>>, Vec<NumberedEntry<'p, 'a>>), AllocError>
    requires accepted { All (λ x. is_accepted (mapping_of x.entry) ≡ true) entries.now }
    requires located { located_mappings rows.old ≡ map located_of entries.now }
    ensures ascending { IfOk result (λ made. IsStrictlySortedBy key_cmp made.0.items) }
    ensures numbered { IfOk result (λ made. All (IsNumbered made.0.items) made.1.items) }
    ensures passed { IfOk result (λ made. IsPass [] (map located_of entries.now) (located_mappings made.1.items)) }
{
    let keys = number_entries(alloc, entries, rows)?;
    let kept = drop_redundant_once(alloc, &keys, rows)?;
    Ok((keys, kept))
}

fn without_numbers<'p, 'a>(
    alloc: Global,
    kept: &[NumberedEntry<'p, 'a>],
) -> Result<Vec<&'p LocatedEntry<'a>>, AllocError>
    ensures { IfOk result (λ xs. map located_of_reference xs.items ≡ located_mappings kept.now) }
{
    let mut entries = Vec::with_capacity(alloc, kept.len())?;
    for x in kept {
        entries.push(x.located)?;
    }
    Ok(entries)
}

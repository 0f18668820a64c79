//! Binary searches for emails and names in tables. [`Steps`] makes and counts all comparisons of keys.
ghost use Rattle.std.specs.Prelude.{◌≡◌, ◌<◌, ◌≤◌, ◌+◌, ◌-◌, All, IfErr, IfOk, Some, length, map, min, slice_get};
ghost use Rattle.std.specs.List.{AllByRecursion};
ghost use Rattle.std.specs.List.Sorted.{IsPartitionPoint, IsSearchInRange, IsStrictlySortedBy};
ghost use Rattle.mailmap_entries.specs.Folding.{folded, text_cmp};
ghost use Rattle.mailmap_entries.specs.Search.{IsPartitioned, digits};
ghost use Rattle.mailmap_tables.specs.Groups.{folded_email, folded_name};
ghost use Rattle.mailmap_tables.specs.KeySearch.{IsFound, IsMissing, IsPlace, compared};
ghost use Rattle.mailmap_tables.specs.Pool.{LiesIn, NameInPool, stored_name};
ghost use Rattle.mailmap_tables.specs.RowTexts.{old_span};

use crate::rows::NameRow;
use crate::view::View;
use mailmap_entries::fold::prefix::Prefixed;
use mailmap_entries::fold::{Probe, Steps, search};
use std::cmp::Ordering;
use std::mem;

// The emails of tables, compared to one email.
#[derive(Drop)]
struct EmailProbe<'t, 'a, 'e> {
    tables: &'t View<'a>,
    email: Prefixed<'e>,
    steps: Steps,
}

impl Probe for EmailProbe<'_, '_, '_> {
    ghost answers = { λ p. compared folded_email (folded p.email.text.now) p.tables.now.groups };

    ghost asked = { λ p. p.steps };

    #[tactic(auto, using(crate::proofs::KeySearch::reads))]
    fn ask(&mut self, index: usize) -> Ordering {
        let known = self.tables.email_text(index);
        self.steps.compare_prefixed(known, self.email)
    }
}

// The names of an email, compared to one name.
#[derive(Drop)]
struct NameProbe<'t, 'a, 'n> {
    tables: &'t View<'a>,
    names: &'a [NameRow],
    name: &'n [u8],
    steps: Steps,
    ghost in_pool: { All (λ r. LiesIn (length tables.now.pool) (old_span r)) names.now },
}

impl Probe for NameProbe<'_, '_, '_> {
    ghost answers = { λ p. compared folded_name (folded p.name.now) (map (stored_name p.tables.now.pool) p.names.now) };

    ghost asked = { λ p. p.steps };

    #[tactic(auto, using(crate::proofs::KeySearch::reads))]
    fn ask(&mut self, index: usize) -> Ordering {
        let row = self.names[index];
        self.steps.compare(self.tables.text(row.old()), self.name)
    }
}

// Does what [`search`] does, but asks about the last index first: tables are built of entries in ascending order, so a
// new email comes after the last one, and an old name is the last one of its email or comes after it.
fn search_last_first<P: Probe>(len: usize, p: &mut P) -> Result<usize, usize>
    requires whole { len ≡ length (P.answers p.old) }
    requires parted { IsPartitioned (P.answers p.old) }
    requires none_asked { P.asked p.old ≡ 0 }
    ensures within { IsSearchInRange result len }
    ensures found { IfOk result (λ i. slice_get (P.answers p.old) i ≡ Some Ordering.Equal) }
    ensures missing { IfErr result
        (λ i. IsPartitionPoint (λ a. a ≡ Ordering.Less) (λ a. a ≡ Ordering.Greater) (P.answers p.old) i) }
{
    if 0 < len {
        match p.ask(len - 1) {
            Ordering::Less => return Err(len),
            Ordering::Equal => return Ok(len - 1),
            Ordering::Greater => {}
        }
    }
    search(len, p)
}

/// The place of an email: its index, or the index to insert it at. Its comparisons aren't counted.
pub(crate) fn place_of_email(tables: &View<'_>, email: Prefixed<'_>) -> Result<usize, usize>
    requires { IsStrictlySortedBy text_cmp (map folded_email tables.now.groups) }
    ensures { IsPlace folded_email (folded email.entry.text.now) tables.now.groups result }
{
    let mut probe = EmailProbe {
        tables,
        email,
        steps: Steps::new(),
    };
    search_last_first(tables.email_count(), &mut probe)
}

/// The place of a name among the names of an email, in the same way.
pub(crate) fn place_of_name(
    tables: &View<'_>,
    names: &[NameRow],
    name: &[u8],
) -> Result<usize, usize>
    requires in_pool { AllByRecursion (NameInPool (length tables.now.pool)) names.now }
    requires ascending { IsStrictlySortedBy text_cmp (map folded_name (map (stored_name tables.now.pool) names.now)) }
    ensures within { IsSearchInRange result (length names.now) }
    ensures place { IsPlace folded_name (folded name.now) (map (stored_name tables.now.pool) names.now) result }
{
    let mut probe = NameProbe {
        tables,
        names,
        name,
        steps: Steps::new(),
    };
    search_last_first(names.len(), &mut probe)
}

/// The index of an email, or the index to insert it at. Counts the comparisons: there are at most as many as the number
/// of emails has binary digits.
pub fn find_email_counted(
    tables: &View<'_>,
    email: &[u8],
    steps: &mut Steps,
) -> Result<usize, usize>
    requires ascending { IsStrictlySortedBy text_cmp (map folded_email tables.now.groups) }
    requires countable { steps.old ≤ usize.MAX - 64 }
    ensures within { IsSearchInRange result (length tables.now.groups) }
    ensures found { IfOk result (IsFound folded_email (folded email.now) tables.now.groups) }
    ensures missing { IfErr result (IsMissing folded_email (folded email.now) tables.now.groups) }
    ensures at_most { steps.new ≤ steps.old + digits (length tables.now.groups) }
    ensures few { steps.new ≤ steps.old + 64 }
    ensures at_least { steps.old + min 1 (length tables.now.groups) ≤ steps.new }
{
    let mut probe = EmailProbe {
        tables,
        email: Prefixed::new(email),
        steps: mem::replace(steps, Steps::new()),
    };
    let found = search(tables.email_count(), &mut probe);
    *steps = probe.steps;
    found
}

/// The index of a name among the names of an email, or the index to insert it at. Counts the comparisons: there are at
/// most as many as the number of names has binary digits.
pub fn find_name_counted(
    tables: &View<'_>,
    names: &[NameRow],
    name: &[u8],
    steps: &mut Steps,
) -> Result<usize, usize>
    requires in_pool { AllByRecursion (NameInPool (length tables.now.pool)) names.now }
    requires ascending { IsStrictlySortedBy text_cmp
        (map folded_name (map (stored_name tables.now.pool) names.now)) }
    requires countable { steps.old ≤ usize.MAX - 64 }
    ensures within { IsSearchInRange result (length names.now) }
    ensures found { IfOk result (IsFound folded_name (folded name.now) (map (stored_name tables.now.pool) names.now)) }
    ensures missing { IfErr result
        (IsMissing folded_name (folded name.now) (map (stored_name tables.now.pool) names.now)) }
    ensures at_most { steps.new ≤ steps.old + digits (length names.now) }
    ensures at_least { steps.old + min 1 (length names.now) ≤ steps.new }
{
    let mut probe = NameProbe {
        tables,
        names,
        name,
        steps: mem::replace(steps, Steps::new()),
    };
    let found = search(names.len(), &mut probe);
    *steps = probe.steps;
    found
}

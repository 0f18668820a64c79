//! Keys with the answers that have them.
ghost use Rattle.std.specs.Prelude.{◌≡◌, ◌∷◌, ◌++◌, [], List, OnOk};
ghost use Rattle.mailmap_contacts.specs.Answers.{tally_of};
ghost use Rattle.mailmap_contacts.specs.Contacts.{Contact};
ghost use Rattle.mailmap_entries.specs.Folding.{Text};
ghost use Rattle.mailmap_suggestions.specs.LinkViews.{HoldersOf, has_key, holder_of, is_another, is_several};
ghost use Rattle.mailmap_suggestions.specs.LinkViews.{joined as spec_joined, mark_texts};
ghost use Rattle.mailmap_suggestions.specs.LinkViews.{with_answer};

use crate::marks::Mark;
use mailmap_contacts::answers::Tally;
use mailmap_contacts::proper::is_same;
use std::alloc::{AllocError, Global};
use std::collections::BTreeMap;

/// Keys with the answers that have them. Of each key the first answer is kept, and whether there is another.
#[derive(Drop)]
pub(crate) struct Holders<'m, 'a> {
    by_key: BTreeMap<Mark, Holder<'m, 'a>>,
}

#[derive(Clone, Copy)]
struct Holder<'m, 'a> {
    first: &'m Tally<'a>,
    is_one: bool,
}

impl<'m, 'a> Holders<'m, 'a> {
    pub(crate) fn new(alloc: Global) -> Holders<'m, 'a>
        ensures { HoldersOf [] result }
    {
        Holders {
            by_key: BTreeMap::new(alloc),
        }
    }

    /// Adds an answer that has these keys.
    pub(crate) fn add_all(
        &mut self,
        keys: Vec<Mark>,
        answer: &'m Tally<'a>,
    ) -> Result<(), AllocError>
        ensures { OnOk result ((pairs : List (Text × Contact)) → HoldersOf pairs self.old
            → HoldersOf (pairs ++ with_answer (tally_of answer.now).contact (mark_texts keys.items)) self.new) }
    {
        for key in keys {
            self.add(key, answer)?;
        }
        Ok(())
    }

    fn add(&mut self, key: Mark, answer: &'m Tally<'a>) -> Result<(), AllocError>
        ensures { OnOk result ((pairs : List (Text × Contact)) → HoldersOf pairs self.old
            → HoldersOf (pairs ++ (key.text.items, (tally_of answer.now).contact) ∷ []) self.new) }
    {
        let holder = joined(self.by_key.get(&key).copied(), answer);
        self.by_key.insert(key, holder)?;
        Ok(())
    }

    /// Whether an answer has a key.
    pub(crate) fn has(&self, key: &Mark) -> bool
        ensures { result ≡ has_key self.now key.now.text.items }
    {
        self.by_key.get(key).is_some()
    }

    /// Whether two answers have a key.
    pub(crate) fn are_several(&self, key: &Mark) -> bool
        ensures { result ≡ is_several (holder_of self.now key.now.text.items) }
    {
        match self.by_key.get(key) {
            Some(holder) => !holder.is_one,
            None => false,
        }
    }

    /// Whether another answer than this one has a key.
    pub(crate) fn has_another(&self, key: &Mark, answer: &Tally<'a>) -> bool
        ensures { result ≡ is_another (holder_of self.now key.now.text.items) (tally_of answer.now).contact }
    {
        match self.by_key.get(key) {
            Some(holder) => !holder.is_one || !is_same(holder.first, answer),
            None => false,
        }
    }
}

// The holder of a key, after one more answer that has it.
fn joined<'m, 'a>(holder: Option<Holder<'m, 'a>>, answer: &'m Tally<'a>) -> Holder<'m, 'a>
    ensures { result ≡ spec_joined holder.entry answer.entry }
{
    match holder {
        Some(holder) => Holder {
            first: holder.first,
            is_one: holder.is_one && is_same(holder.first, answer),
        },
        None => Holder {
            first: answer,
            is_one: true,
        },
    }
}

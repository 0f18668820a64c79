//! Puts one entry into tables. Its texts are appended to the pool before any row changes, so the entries of the tables
//! stay as they were if memory runs out.
ghost use Rattle.std.specs.Prelude.{◌≡◌, ℕ, IfOk, OnErr, OnOk, length, map, true};
ghost use Rattle.std.specs.List.{AllByRecursion};
ghost use Rattle.std.specs.List.Sorted.{IsSearchInRange};
ghost use Rattle.std.specs.Option.{ForSome, option_copied, option_map, option_or, option_to_list};
ghost use Rattle.mailmap_entries.specs.Entries.{mapping_of};
ghost use Rattle.mailmap_entries.specs.Folding.{Text, folded};
ghost use Rattle.mailmap_entries.specs.Semantics.{is_accepted, new_fields};
ghost use Rattle.mailmap_tables.specs.KeySearch.{IsFound};
ghost use Rattle.mailmap_tables.specs.Groups.{AreGroups, folded_email};
ghost use Rattle.mailmap_tables.specs.Put.{IsPutInto, email_given, spelled_name, with_old_email};
ghost use Rattle.mailmap_tables.specs.Pool.{EmailInPool, IsGrown, HasTexts, IsWithin, LiesIn, NameInPool, group_of, stored_name};
ghost use Rattle.mailmap_tables.specs.Pool.{spelled, text_of};

use crate::rows::NameRow;
use crate::search::{place_of_email, place_of_name};
use crate::tables::Tables;
use crate::texts::{RowTexts, Source, Span};
use mailmap_entries::Entry;
use mailmap_entries::fold::prefix::Prefixed;
use std::alloc::AllocError;

impl Tables {
    /// Merges an accepted entry into the tables, whose old email is taken to be `email`, and returns the index of the
    /// email. If the email is there already, its spelling stays.
    ///
    /// Without an old name, its new fields override those of its email. With an old name, its fields replace both
    /// fields of that name, or the name is added. An email that isn't there is added.
    pub(crate) fn put(
        &mut self,
        email: Prefixed<'_>,
        entry: &Entry<'_>,
    ) -> Result<usize, AllocError>
        requires groups { AreGroups self.old.groups }
        requires accepted { is_accepted (mapping_of entry.now) ≡ true }
        ensures ok { IfOk result (λ index. IsPutInto (with_old_email email.entry.text.now (mapping_of entry.now))
            self.old.groups index self.new.groups) }
        ensures err { OnErr result (self.new.groups ≡ self.old.groups) }
    {
        match place_of_email(&self.view(), email) {
            Ok(index) => {
                self.put_at(index, email.text, entry)?;
                Ok(index)
            }
            Err(index) => {
                let (texts, name) = self.append_email(email.text, entry)?;
                self.insert_email(index, email.prefix, texts, name)?;
                Ok(index)
            }
        }
    }

    /// Does the same if the email is known to be at this index. `email` is any spelling of it; only clauses use it.
    #[tactic(auto, using(crate::proofs::KeySearch::reads))]
    pub(crate) fn put_at(
        &mut self,
        index: usize,
        email: &[u8],
        entry: &Entry<'_>,
    ) -> Result<(), AllocError>
        requires groups { AreGroups self.old.groups }
        requires found { IsFound folded_email (folded email.now) self.old.groups index }
        requires accepted { is_accepted (mapping_of entry.now) ≡ true }
        ensures ok { OnOk result (IsPutInto (with_old_email email.now (mapping_of entry.now))
            self.old.groups index self.new.groups) }
        ensures err { OnErr result (self.new.groups ≡ self.old.groups) }
    {
        let view = self.view();
        let (email_texts, names) = view.email(index);
        let Some(old_name) = entry.old_name() else {
            let (new_name, new_email) = view.fields(email_texts);
            let row = self.append_row(
                Source::Pool(email_texts.old()),
                given_or(entry.new_name(), new_name),
                given_or(entry.new_email(), new_email),
            )?;
            self.replace_texts(index, row);
            return Ok(());
        };
        let place = place_of_name(&view, names, old_name);
        let old_name = name_at(names, place, old_name);
        let row = self.append_entry(old_name, entry)?;
        self.place_name(index, place, row)
    }

    // Appends the texts of an email with one entry to the pool, those of the email and those of the entry's old name.
    fn append_email(
        &mut self,
        email: &[u8],
        entry: &Entry<'_>,
    ) -> Result<(RowTexts, Option<NameRow>), AllocError>
        ensures grown { IsGrown self.old self.new }
        ensures in_pool { IfOk result (λ made. EmailInPool self.new.pool made.0 (option_to_list made.1)) }
        ensures row { IfOk result (λ made. group_of self.new.pool made.0 (option_to_list made.1)
            ≡ email_given (with_old_email email.now (mapping_of entry.now)) (mapping_of entry.now).old_name) }
    {
        match entry.old_name() {
            None => {
                let texts = self.append_entry(Source::Given(email), entry)?;
                Ok((texts, None))
            }
            Some(old_name) => {
                let texts = self.append_row(Source::Given(email), None, None)?;
                let name = self.append_entry(Source::Given(old_name), entry)?;
                Ok((texts, Some(name)))
            }
        }
    }

    // Appends an old text and the new fields of an entry to the pool.
    fn append_entry(&mut self, old: Source<'_>, entry: &Entry<'_>) -> Result<RowTexts, AllocError>
        requires { IsWithin (length self.old.pool) old }
        ensures grown { IsGrown self.old self.new }
        ensures row { IfOk result
            (HasTexts self.new.pool (text_of self.old.pool old.entry) (new_fields (mapping_of entry.now))) }
    {
        self.append_row(
            old,
            given_or(entry.new_name(), None),
            given_or(entry.new_email(), None),
        )
    }
}

// The old name at a place: as it is stored there, or else as it is given.
fn name_at<'n>(names: &[NameRow], place: Result<usize, usize>, name: &'n [u8]) -> Source<'n>
    requires { IsSearchInRange place (length names.now) }
    ensures text { (pool : Text)
        → text_of pool result ≡ spelled_name (map (stored_name pool) names.now) place name.now }
    ensures within { (n : ℕ) → AllByRecursion (NameInPool n) names.now → IsWithin n result }
{
    match place {
        Ok(index) => Source::Pool(names[index].old()),
        Err(_) => Source::Given(name),
    }
}

// The given text, otherwise the existing one.
fn given_or(given: Option<&[u8]>, existing: Option<Span>) -> Option<Source<'_>>
    ensures text { (pool : Text) → option_map (text_of pool) result
        ≡ option_or (option_copied given.entry) (option_map (spelled pool) existing) }
    ensures within { (n : ℕ) → ForSome existing (LiesIn n) → ForSome result (IsWithin n) }
{
    match (given, existing) {
        (Some(text), _) => Some(Source::Given(text)),
        (None, Some(span)) => Some(Source::Pool(span)),
        (None, None) => None,
    }
}

//! Suggests the lines that mailmaps lack for the contacts of a history.
ghost use Rattle.std.specs.Prelude.{◌≡◌, ◌++◌, [], IfOk, List, OnOk, bytes_eq, if◌then◌else◌, map};
ghost use Rattle.std.specs.List.{flat_map, list_all, list_any};
ghost use Rattle.mailmap_entries.specs.Entries.{mapping_of};
ghost use Rattle.mailmap_entries.specs.Folding.{Text, folded};
ghost use Rattle.mailmap_entries.specs.Semantics.{accepted};
ghost use Rattle.mailmap_contacts.specs.Answers.{tally_of};
ghost use Rattle.mailmap_contacts.specs.Contacts.{Contact, Tally as ATally, answer_to, contacts_from, tallied};
ghost use Rattle.mailmap_contacts.specs.Counts.{AreContactsOf};
ghost use Rattle.mailmap_suggestions.specs.EntryLines.{is_cut_by_git as spec_is_cut_by_git};
ghost use Rattle.mailmap_suggestions.specs.Histories.{histories_of};
ghost use Rattle.mailmap_suggestions.specs.Forms.{entries_to, plus};
ghost use Rattle.mailmap_suggestions.specs.Suggestions.{AreGroupClasses, GroupClasses, is_of_several};
ghost use Rattle.mailmap_suggestions.specs.Suggestions.{email_kind as spec_email_kind, email_suggestions};
ghost use Rattle.mailmap_suggestions.specs.Suggestions.{first_answer as spec_first_answer};
ghost use Rattle.mailmap_suggestions.specs.Suggestions.{lines_in, login_kind as spec_login_kind};
ghost use Rattle.mailmap_suggestions.specs.Suggestions.{name_kind as spec_name_kind, stage_suggestions};
ghost use Rattle.mailmap_suggestions.specs.Suggestions.{still_suggested, suggestion, suggestions};
ghost use Rattle.mailmap_suggestions.specs.GroupEntries.{groups};
ghost use Rattle.mailmap_suggestions.specs.LinkViews.{AreLoginKeys, AreWhole};
ghost use Rattle.mailmap_suggestions.specs.Private.{contacts_of, tallies_in};
ghost use Rattle.mailmap_suggestions.specs.RememberedViews.{Remembers};
ghost use Rattle.mailmap_suggestions.specs.Shared.{shared_emails};
ghost use Rattle.mailmap_suggestions.specs.Stages.{AddsLater, AreByLogin, AreByName, HasKeysOf, added, kind_by, stage};
ghost use Rattle.mailmap_suggestions.specs.Views.{kind_of, listed_suggestion, suggestion_of};

use crate::answers::Answers;
use crate::counted::{counted_answers, counted_git_answers, nobody, proper_or_nobody};
use crate::entries::entries_to;
use crate::groups::{groups_by_email, groups_by_links};
use crate::histories::Histories;
pub use crate::kinds::Kind;
use crate::links::{LoginKeys, name_links};
use crate::members::{members_of, participants};
use crate::remembered::Remembered;
use crate::shared::SharedEmails;
use crate::text::is_cut_by_git;
use mailmap_contacts::answers::Tally;
use mailmap_contacts::counter::Contacts;
use mailmap_entries::Entry;
use mailmap_entries::fold::cmp_ignore_ascii_case;
use std::alloc::{AllocError, Global};

/// What is suggested for a group of contacts whose answers have something in common: entries that give all of them one
/// answer, here and in git.
#[derive(Drop)]
pub struct Suggestion<'a> {
    pub kind: Kind<'a>,
    /// The distinct answers without these entries, the most frequent first. The entries of earlier suggestions count
    /// already.
    pub answers: Vec<Tally<'a>>,
    /// git's answers to the contacts that it answers otherwise than this library, the most frequent first. Their first
    /// lines are no lines, but the ranks, from 1, of the most frequent contacts with these answers.
    pub git_answers: Vec<Tally<'a>>,
    /// The answer that all of them get.
    pub proper: Tally<'a>,
    /// None if several people share the email, or if git would cut one of the lines. Those for review that a mailmap
    /// has as lines with `#?` are left out.
    pub entries: Vec<Entry<'a>>,
    /// Whether git would cut a line.
    pub is_cut: bool,
}

/// Suggests entries for the contacts that were counted.
///
/// Answers that share an email come first, whatever the case of ASCII letters. Then, with the entries for these added,
/// those with names that are alike. Then, with the entries for these added, too, those where the login of an email is
/// the name of another; their entries are right also without those for names. Groups come in the order of their first
/// contacts. A group for review is left out if mailmaps have all its lines with `#?`.
///
/// Two contacts `jane <jane@x>` and three `Jane Doe <jane@x>` get the entry `Jane Doe <jane@x>`.
pub fn suggest<'a>(
    alloc: Global,
    buffers: &[&'a [u8]],
    contacts: &'a Contacts,
) -> Result<Vec<Suggestion<'a>>, AllocError>
    ensures { (lines : List Text) → AreContactsOf lines contacts.now
        → let mailmaps = map (λ b. b.now) buffers.now in
        let h = histories_of mailmaps in
        let ts = tallied (contacts_from 1 lines) in
        let shared = shared_emails h ts in
        IfOk result (λ found. (c : GroupClasses) × AreGroupClasses shared h ts c
        × (map suggestion_of found.items ≡ suggestions shared c (lines_in mailmaps) h ts)) }
{
    let counted = contacts.in_order(alloc)?;
    let contacts = counted.as_slice();
    let histories = Histories::read(alloc, buffers)?;
    let remembered = Remembered::read(alloc, buffers)?;
    let shared = SharedEmails::read(alloc, &histories, contacts)?;
    all_stages(alloc, &shared, &remembered, histories, contacts)
}

fn all_stages<'a>(
    alloc: Global,
    shared: &SharedEmails<'a>,
    remembered: &Remembered,
    histories: Histories<'a>,
    contacts: &[Tally<'a>],
) -> Result<Vec<Suggestion<'a>>, AllocError>
    ensures { (lines : List Text) → Remembers lines remembered.now
        → let h = histories.entry in
        let ts = map tally_of contacts.now in
        IfOk result (λ found. (c : GroupClasses) × AreGroupClasses shared.now h ts c
        × (map suggestion_of found.items ≡ suggestions shared.now c lines h ts)) }
{
    let mut histories = histories;
    let mut found = by_email(alloc, shared, &histories, contacts)?;
    add_entries(&mut histories, found.as_slice())?;
    push_later(alloc, shared, remembered, &histories, contacts, &mut found)?;
    Ok(found)
}

// Stage 1.
fn by_email<'a>(
    alloc: Global,
    shared: &SharedEmails<'a>,
    histories: &Histories<'a>,
    contacts: &[Tally<'a>],
) -> Result<Vec<Suggestion<'a>>, AllocError>
    ensures { IfOk result (λ found. map suggestion_of found.items
        ≡ email_suggestions shared.now histories.now (map tally_of contacts.now)) }
{
    let answers = Answers::new(alloc, histories)?;
    let groups = groups_by_email(alloc, &answers, contacts)?;
    suggest_for_each(alloc, shared, &answers, &answers, &Common::Email, &groups)
}

// The other stages, for histories with the entries of the first: appends what they suggest.
fn push_later<'a>(
    alloc: Global,
    shared: &SharedEmails<'a>,
    remembered: &Remembered,
    histories: &Histories<'a>,
    contacts: &[Tally<'a>],
    found: &mut Vec<Suggestion<'a>>,
) -> Result<(), AllocError>
    ensures { (lines : List Text) → Remembers lines remembered.now → OnOk result (AddsLater shared.now lines
        histories.now (map tally_of contacts.now) (map suggestion_of found.old.items)
        (map suggestion_of found.new.items)) }
{
    let answers = Answers::new(alloc, histories)?;
    let by_name = by_name(alloc, shared, &answers, contacts)?;
    let by_login = by_login(
        alloc,
        shared,
        histories,
        &answers,
        by_name.as_slice(),
        contacts,
    )?;
    push_new(alloc, found, by_name, remembered)?;
    push_new(alloc, found, by_login, remembered)?;
    Ok(())
}

// Stage 2.
fn by_name<'a>(
    alloc: Global,
    shared: &SharedEmails<'a>,
    answers: &Answers<'_, 'a>,
    contacts: &[Tally<'a>],
) -> Result<Vec<Suggestion<'a>>, AllocError>
    ensures { IfOk result (λ found. AreByName shared.now (map tally_of contacts.now) answers.now
        (map suggestion_of found.items)) }
{
    let all = members_of(alloc, answers, contacts)?;
    let members = all.as_slice();
    let participants = participants(alloc, shared, members)?;
    let links = name_links(alloc, participants.as_slice())?;
    let groups = groups_by_links(alloc, answers, contacts, members, links)?;
    suggest_for_each(alloc, shared, answers, answers, &Common::Name, &groups)
}

// Stage 3: groups by the answers with the suggestions of the second, but entries for `base`, the answers without them.
fn by_login<'a>(
    alloc: Global,
    shared: &SharedEmails<'a>,
    histories: &Histories<'a>,
    base: &Answers<'_, 'a>,
    by_name: &[Suggestion<'a>],
    contacts: &[Tally<'a>],
) -> Result<Vec<Suggestion<'a>>, AllocError>
    ensures { IfOk result (λ found. AreByLogin shared.now (map tally_of contacts.now) base.now
        (added histories.now (map suggestion_of by_name.now)) (map suggestion_of found.items)) }
{
    let mut all = histories.copy(alloc)?;
    add_entries(&mut all, by_name)?;
    let answers = Answers::new(alloc, &all)?;
    // `base` is lent again, for as long as `all` lives.
    suggest_by_login(alloc, shared, &*base, &answers, contacts)
}

fn suggest_by_login<'h, 'a>(
    alloc: Global,
    shared: &SharedEmails<'a>,
    base: &Answers<'h, 'a>,
    answers: &Answers<'h, 'a>,
    contacts: &[Tally<'a>],
) -> Result<Vec<Suggestion<'a>>, AllocError>
    ensures { IfOk result (λ found. AreByLogin shared.now (map tally_of contacts.now) base.now answers.now
        (map suggestion_of found.items)) }
{
    let all = members_of(alloc, answers, contacts)?;
    let members = all.as_slice();
    let taking_part = participants(alloc, shared, members)?;
    let participants = taking_part.as_slice();
    let (keys, links) = LoginKeys::read(alloc, shared, members, participants)?;
    let groups = groups_by_links(alloc, answers, contacts, members, links)?;
    suggest_for_each(alloc, shared, base, answers, &Common::Login(keys), &groups)
}

// What the answers of each group of a stage have in common.
#[derive(Drop)]
enum Common<'m, 'a> {
    Email,
    Name,
    // the login of an email and a name, by these keys
    Login(LoginKeys<'m, 'a>),
}

// What is suggested for the groups of a stage, one after another.
fn suggest_for_each<'h, 'a>(
    alloc: Global,
    shared: &SharedEmails<'a>,
    base: &Answers<'h, 'a>,
    answers: &Answers<'h, 'a>,
    common: &Common<'_, 'a>,
    grouped: &[Vec<Tally<'a>>],
) -> Result<Vec<Suggestion<'a>>, AllocError>
    ensures { let h = answers.now in
        (ts : List ATally) (class : Contact → Text) → HasKeysOf common.now shared.now h ts
        → map tallies_in grouped.now ≡ groups class h ts → IfOk result (λ found. map suggestion_of found.items
        ≡ stage_suggestions (kind_by common.now shared.now h ts) (stage shared.now ts base.now h class)) }
{
    let mut found = Vec::with_capacity(alloc, grouped.len())?;
    for group in grouped {
        let group = group.as_slice();
        let kind = common_kind(alloc, shared, answers, common, group)?;
        let suggestion = suggest_for(alloc, shared, base, answers, kind, group)?;
        found.push(suggestion)?;
    }
    Ok(found)
}

fn common_kind<'a>(
    alloc: Global,
    shared: &SharedEmails<'a>,
    answers: &Answers<'_, 'a>,
    common: &Common<'_, 'a>,
    group: &[Tally<'a>],
) -> Result<Kind<'a>, AllocError>
    ensures { let h = answers.now in
        let g = map tally_of group.now in
        (ts : List ATally) → HasKeysOf common.now shared.now h ts → AreWhole h ts g
        → IfOk result (λ kind. kind_of kind ≡ kind_by common.now shared.now h ts g) }
{
    match common {
        Common::Email => Ok(email_kind(shared, answers, group)),
        Common::Name => Ok(name_kind(answers, group)),
        Common::Login(keys) => login_kind(alloc, shared, answers, keys, group),
    }
}

// What is suggested for a group: entries for the answers of `base`.
fn suggest_for<'h, 'a>(
    alloc: Global,
    shared: &SharedEmails<'a>,
    base: &Answers<'h, 'a>,
    answers: &Answers<'h, 'a>,
    kind: Kind<'a>,
    group: &[Tally<'a>],
) -> Result<Suggestion<'a>, AllocError>
    ensures { IfOk result (λ s. suggestion_of s
        ≡ suggestion shared.now base.now answers.now (kind_of kind.entry) (map tally_of group.now)) }
{
    let counted = counted_answers(alloc, answers, group)?;
    let git_answers = counted_git_answers(alloc, answers, group)?;
    let proper = proper_or_nobody(alloc, shared, counted.as_slice())?;
    let wanted = entries_for(alloc, shared, base, kind, &proper, group)?;
    let is_cut = are_cut(wanted.as_slice());
    let entries = unless_cut(alloc, is_cut, wanted);
    Ok(Suggestion {
        kind,
        answers: counted,
        git_answers,
        proper,
        entries,
        is_cut,
    })
}

// Whether git would cut a line.
fn are_cut(entries: &[Entry<'_>]) -> bool
    ensures { result ≡ list_any (λ e. spec_is_cut_by_git (mapping_of e)) entries.now }
{
    entries.iter().any(|entry| is_cut_by_git(entry))
}

fn unless_cut<'a>(alloc: Global, is_cut: bool, entries: Vec<Entry<'a>>) -> Vec<Entry<'a>>
    ensures { map mapping_of result.items ≡ (if is_cut then [] else map mapping_of entries.entry.items) }
{
    if is_cut { Vec::new(alloc) } else { entries }
}

fn entries_for<'a>(
    alloc: Global,
    shared: &SharedEmails<'a>,
    base: &Answers<'_, 'a>,
    kind: Kind<'a>,
    to: &Tally<'a>,
    group: &[Tally<'a>],
) -> Result<Vec<Entry<'a>>, AllocError>
    ensures { IfOk result (λ entries. map mapping_of entries.items
        ≡ (if is_of_several (kind_of kind.entry) then []
        else entries_to shared.now base.now (tally_of to.now).contact (contacts_of group.now))) }
{
    if kind.is_of_several() {
        return Ok(Vec::new(alloc));
    }
    entries_to(alloc, shared, base, to, group)
}

fn email_kind<'a>(
    shared: &SharedEmails<'a>,
    answers: &Answers<'_, 'a>,
    group: &[Tally<'a>],
) -> Kind<'a>
    ensures { kind_of result ≡ spec_email_kind shared.now answers.now (map tally_of group.now) }
{
    let email = first_answer(answers, group).email;
    if shared.contains(email) {
        Kind::SharedEmail(email)
    } else {
        Kind::Email
    }
}

fn name_kind<'a>(answers: &Answers<'_, 'a>, group: &[Tally<'a>]) -> Kind<'a>
    ensures { kind_of result ≡ spec_name_kind answers.now (map tally_of group.now) }
{
    let name = first_answer(answers, group).name;
    if have_name(answers, name, group) {
        Kind::Name
    } else {
        Kind::Alike
    }
}

fn login_kind<'a>(
    alloc: Global,
    shared: &SharedEmails<'a>,
    answers: &Answers<'_, 'a>,
    keys: &LoginKeys<'_, 'a>,
    group: &[Tally<'a>],
) -> Result<Kind<'a>, AllocError>
    ensures { let h = answers.now in
        let g = map tally_of group.now in
        (ts : List ATally) → AreLoginKeys shared.now h ts keys.now → AreWhole h ts g
        → IfOk result (λ kind. kind_of kind ≡ spec_login_kind shared.now h ts g) }
{
    let members = members_of(alloc, answers, group)?;
    let login = keys.first_login(alloc, shared, members.as_slice())?;
    Ok(Kind::Login(login))
}

// The answer to the first of a group, nobody if it is empty.
fn first_answer<'a>(answers: &Answers<'_, 'a>, group: &[Tally<'a>]) -> Tally<'a>
    ensures { (tally_of result).contact ≡ spec_first_answer answers.now (map tally_of group.now) }
{
    match group.first() {
        Some(first) => answers.ours(first),
        None => nobody(),
    }
}

// Whether all answers have a name, ASCII case aside.
fn have_name<'a>(answers: &Answers<'_, 'a>, name: &[u8], group: &[Tally<'a>]) -> bool
    ensures { result ≡ list_all (λ t. bytes_eq (folded (answer_to answers.now.ours (tally_of t).contact).name)
        (folded name.now)) group.now }
{
    group.iter().all(|contact| has_name(answers, name, contact))
}

// Whether the answer to a contact has a name, ASCII case aside.
fn has_name<'a>(answers: &Answers<'_, 'a>, name: &[u8], contact: &Tally<'a>) -> bool
    ensures { result
        ≡ bytes_eq (folded (answer_to answers.now.ours (tally_of contact.now).contact).name) (folded name.now) }
{
    cmp_ignore_ascii_case(answers.ours(contact).name, name).is_eq()
}

// Appends the entries of suggestions to those that this library has read, and to those that git reads.
fn add_entries<'a>(
    histories: &mut Histories<'a>,
    found: &[Suggestion<'a>],
) -> Result<(), AllocError>
    ensures { OnOk result (histories.new
        ≡ plus histories.old (accepted (flat_map (λ s. s.entries) (map suggestion_of found.now)))) }
{
    for suggestion in found {
        histories.add(&suggestion.entries)?;
    }
    Ok(())
}

// Appends suggestions without what is remembered.
fn push_new<'a>(
    alloc: Global,
    found: &mut Vec<Suggestion<'a>>,
    more: Vec<Suggestion<'a>>,
    remembered: &Remembered,
) -> Result<(), AllocError>
    ensures { (lines : List Text) → Remembers lines remembered.now → OnOk result (map suggestion_of found.new.items
        ≡ map suggestion_of found.old.items ++ flat_map (still_suggested lines) (map suggestion_of more.entry.items)) }
{
    for suggestion in more {
        let listed = remembered.still_suggested(alloc, suggestion)?;
        push_listed(found, listed)?;
    }
    Ok(())
}

fn push_listed<'a>(
    found: &mut Vec<Suggestion<'a>>,
    suggestion: Option<Suggestion<'a>>,
) -> Result<(), AllocError>
    ensures { OnOk result (map suggestion_of found.new.items
        ≡ map suggestion_of found.old.items ++ listed_suggestion suggestion.entry) }
{
    if let Some(suggestion) = suggestion {
        found.push(suggestion)?;
    }
    Ok(())
}

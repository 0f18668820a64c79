//! Links answers with alike names, and answers by logins.
ghost use Rattle.std.specs.Prelude.{◌≡◌, ◌==◌, ◌<◌, ◌++◌, ℕ, All, IfOk, List, OnOk, Some, filter, if◌then◌else◌};
ghost use Rattle.std.specs.Prelude.{◌∷◌, [], decimal, fold, length, map, option_to_list, slice_get};
ghost use Rattle.std.specs.List.{flat_map, list_any};
ghost use Rattle.std.specs.Option.{option_copied};
ghost use Rattle.mailmap_contacts.specs.Answers.{tally_of};
ghost use Rattle.mailmap_contacts.specs.Contacts.{Contact, Tally as ATally, has_text as spec_has_text};
ghost use Rattle.mailmap_entries.specs.Folding.{Text, folded};
ghost use Rattle.mailmap_names.specs.Keys.{first_words as spec_first_words, keys, marks};
ghost use Rattle.mailmap_suggestions.specs.FirstLogins.{is_missing as spec_is_missing, login_in};
ghost use Rattle.mailmap_suggestions.specs.FirstLogins.{own_login, with_login};
ghost use Rattle.mailmap_suggestions.specs.Forests.{links_of};
ghost use Rattle.mailmap_suggestions.specs.Forms.{Histories};
ghost use Rattle.mailmap_suggestions.specs.LinkViews.{AreLinksOf, AreLoginKeys, AreMembers, AreWhole, HoldersOf};
ghost use Rattle.mailmap_suggestions.specs.LinkViews.{answer_in, email_links_of, is_login_in, is_name_by, is_name_in};
ghost use Rattle.mailmap_suggestions.specs.LinkViews.{known_email_keys, links_to, mark_texts, name_key_links_of};
ghost use Rattle.mailmap_suggestions.specs.LinkViews.{name_links_of, own_and, pairs_by, vec_texts};
ghost use Rattle.mailmap_suggestions.specs.Links.{AreClassesBy, another_has, answers as spec_answers};
ghost use Rattle.mailmap_suggestions.specs.Links.{email_keys as spec_email_keys};
ghost use Rattle.mailmap_suggestions.specs.Links.{linking_logins, login_marks, takes_part};
ghost use Rattle.mailmap_suggestions.specs.Suggestions.{first_or_empty};
ghost use Rattle.mailmap_suggestions.specs.declared.members.Member.{Member as AMember};

use crate::classes::{Link, classes_of};
use crate::holders::Holders;
use crate::marks::{Mark, copies, marks_of};
use crate::members::{Member, has_own};
use crate::shared::SharedEmails;
use itoa::Buffer;
use mailmap_contacts::answers::Tally;
use mailmap_contacts::proper::has_text;
use mailmap_names::logins::login;
use mailmap_names::names::{self, login_keys, name_marks};
use std::alloc::{AllocError, Global};

/// The links of answers by the marks of their names and of those of their contacts.
pub(crate) fn name_links(
    alloc: Global,
    participants: &[Member<'_, '_>],
) -> Result<Vec<Link>, AllocError>
    ensures { IfOk result (λ links. links_of links.items ≡ flat_map name_links_of participants.now) }
{
    let mut links = Vec::new(alloc);
    for member in participants {
        if has_own(member) {
            push_marks(&mut links, member.answer.name, member.first)?;
        }
        push_marks(&mut links, member.contact.name, member.first)?;
    }
    Ok(links)
}

fn push_marks(links: &mut Vec<Link>, name: &[u8], item: usize) -> Result<(), AllocError>
    ensures { OnOk result (links_of links.new.items ≡ links_of links.old.items ++ links_to item (marks name.now)) }
{
    let alloc = *links.allocator();
    for mark in marks_of(alloc, name_marks(alloc, name)?)? {
        links.push(Link { mark, item })?;
    }
    Ok(())
}

/// The keys of names and logins, with the answers that have them.
#[derive(Drop)]
pub(crate) struct LoginKeys<'m, 'a> {
    names: Holders<'m, 'a>,
    logins: Holders<'m, 'a>,
    first_names: Holders<'m, 'a>,
}

impl<'m, 'a> LoginKeys<'m, 'a> {
    /// Those of all answers with an email, as far as first names go, and those of the answers that take part; and the
    /// links of these by a key that a name of one and a login of another have.
    pub(crate) fn read(
        alloc: Global,
        shared: &SharedEmails<'a>,
        members: &'m [Member<'_, 'a>],
        participants: &'m [Member<'_, 'a>],
    ) -> Result<(LoginKeys<'m, 'a>, Vec<Link>), AllocError>
        ensures { (h : Histories) (ts : List ATally) → AreMembers h ts members.now
            → participants.now ≡ filter (λ m. takes_part shared.now h ts (answer_in m)) members.now
            → IfOk result (λ read. AreLoginKeys shared.now h ts read.0
            × AreLinksOf (login_marks shared.now h ts) members.now (links_of read.1.items)) }
    {
        let first_names = first_names_of(alloc, members)?;
        let mut name_keys = Vec::with_capacity(alloc, participants.len())?;
        let names = names_of(alloc, participants, &mut name_keys)?;
        let mut links = Vec::new(alloc);
        let logins = logins_of(shared, &names, &first_names, participants, &mut links)?;
        let keys = LoginKeys {
            names,
            logins,
            first_names,
        };
        keys.push_name_links(&mut links, participants, &name_keys)?;
        Ok((keys, links))
    }

    // Those by the keys of names, which were read before.
    fn push_name_links(
        &self,
        links: &mut Vec<Link>,
        participants: &[Member<'_, 'a>],
        name_keys: &[Vec<Mark>],
    ) -> Result<(), AllocError>
        requires { length name_keys.now ≡ length participants.now }
        ensures { map vec_texts name_keys.now ≡ map (own_and (λ c. keys c.name)) participants.now
            → OnOk result (links_of links.new.items ≡ links_of links.old.items
            ++ flat_map (name_key_links_of self.now) participants.now) }
    {
        for (index, member) in participants.iter().enumerate() {
            self.push_links(links, member, &name_keys[index])?;
        }
        Ok(())
    }

    fn push_links(
        &self,
        links: &mut Vec<Link>,
        member: &Member<'_, 'a>,
        name_keys: &[Mark],
    ) -> Result<(), AllocError>
        ensures { OnOk result (links_of links.new.items ≡ links_of links.old.items ++ links_to member.now.first
            (filter (is_login_in self.now (answer_in member.now)) (mark_texts name_keys.now))) }
    {
        for key in name_keys {
            if self.is_login_of_another(key, &member.answer) {
                push_link(links, key, member.first)?;
            }
        }
        Ok(())
    }

    fn is_login_of_another(&self, key: &Mark, answer: &Tally<'a>) -> bool
        ensures { result ≡ is_login_in self.now (tally_of answer.now).contact key.now.text.items }
    {
        self.logins.has_another(key, answer) && !self.first_names.are_several(key)
    }

    fn is_name_of_another(&self, key: &Mark, answer: &Tally<'a>) -> bool
        ensures { result ≡ is_name_in self.now (tally_of answer.now).contact key.now.text.items }
    {
        is_name_of_another(&self.names, &self.first_names, key, answer)
    }

    /// The first login that links answers of a group: as the answers first come, an answer's own email before those of
    /// its contacts.
    pub(crate) fn first_login(
        &self,
        alloc: Global,
        shared: &SharedEmails<'a>,
        group: &[Member<'_, 'a>],
    ) -> Result<&'a [u8], AllocError>
        ensures { (h : Histories) (ts us : List ATally) → AreLoginKeys shared.now h ts self.now
            → AreMembers h us group.now → AreWhole h ts us → IfOk result (λ found. found.now
            ≡ first_or_empty (flat_map (linking_logins shared.now h ts) (spec_answers h us))) }
    {
        let own = self.own_logins(alloc, shared, group)?;
        let found = self.with_contact_logins(alloc, shared, group, own)?;
        Ok(first_found(&found))
    }

    // Those by the answers' own emails, each at the first contact with the answer.
    fn own_logins(
        &self,
        alloc: Global,
        shared: &SharedEmails<'a>,
        group: &[Member<'_, 'a>],
    ) -> Result<Vec<Option<&'a [u8]>>, AllocError>
        ensures { (h : Histories) (ts : List ATally) → AreLoginKeys shared.now h ts self.now
            → IfOk result (λ found. map option_copied found.items ≡ map (own_login shared.now h ts) group.now) }
    {
        let mut found = Vec::with_capacity(alloc, group.len())?;
        for member in group {
            found.push(self.own_login(alloc, shared, member)?)?;
        }
        Ok(found)
    }

    fn own_login(
        &self,
        alloc: Global,
        shared: &SharedEmails<'a>,
        member: &Member<'_, 'a>,
    ) -> Result<Option<&'a [u8]>, AllocError>
        ensures { (h : Histories) (ts : List ATally) → AreLoginKeys shared.now h ts self.now
            → IfOk result (λ found. option_copied found ≡ own_login shared.now h ts member.now) }
    {
        if !member.is_first {
            return Ok(None);
        }
        self.linking_login(alloc, shared, &member.answer, member.answer.email)
    }

    // For answers without one, those by the emails of contacts.
    fn with_contact_logins(
        &self,
        alloc: Global,
        shared: &SharedEmails<'a>,
        group: &[Member<'_, 'a>],
        own: Vec<Option<&'a [u8]>>,
    ) -> Result<Vec<Option<&'a [u8]>>, AllocError>
        ensures { (h : Histories) (ts : List ATally) → AreLoginKeys shared.now h ts self.now
            → IfOk result (λ found. map option_copied found.items
            ≡ fold (with_login shared.now h ts) (map option_copied own.entry.items) group.now) }
    {
        let mut found = own;
        for member in group {
            if is_missing(&found, member.first) {
                let email = member.contact.email;
                let login = self.linking_login(alloc, shared, &member.answer, email)?;
                found[member.first] = login;
            }
        }
        Ok(found)
    }

    // The login of an email of an answer, if it is the name of another.
    fn linking_login(
        &self,
        alloc: Global,
        shared: &SharedEmails<'a>,
        answer: &Tally<'a>,
        email: &'a [u8],
    ) -> Result<Option<&'a [u8]>, AllocError>
        ensures { (h : Histories) (ts : List ATally) → AreLoginKeys shared.now h ts self.now
            → IfOk result (λ found. option_copied found
            ≡ login_in shared.now h ts (tally_of answer.now).contact email.now) }
    {
        let keys = email_keys(alloc, shared, email)?;
        for key in &keys {
            if self.is_name_of_another(key, answer) {
                return Ok(Some(login(email)));
            }
        }
        Ok(None)
    }
}

fn is_name_of_another<'a>(
    names: &Holders<'_, 'a>,
    first_names: &Holders<'_, 'a>,
    key: &Mark,
    answer: &Tally<'a>,
) -> bool
    ensures { result ≡ is_name_by names.now first_names.now (tally_of answer.now).contact key.now.text.items }
{
    names.has_another(key, answer) && !first_names.are_several(key)
}

fn push_link(links: &mut Vec<Link>, key: &Mark, item: usize) -> Result<(), AllocError>
    ensures { OnOk result (links_of links.new.items ≡ links_of links.old.items ++ (key.now.text.items, item) ∷ []) }
{
    let mark = key.copy(*links.allocator())?;
    links.push(Link { mark, item })?;
    Ok(())
}

// The keys of names, with the answers that have them. Appends those of each member to `name_keys`, for the links.
fn names_of<'m, 'a>(
    alloc: Global,
    participants: &'m [Member<'_, 'a>],
    name_keys: &mut Vec<Vec<Mark>>,
) -> Result<Holders<'m, 'a>, AllocError>
    ensures names { IfOk result (HoldersOf (flat_map (pairs_by (λ c. keys c.name)) participants.now)) }
    ensures keys { IfOk result (λ _. map vec_texts name_keys.new.items
        ≡ map vec_texts name_keys.old.items ++ map (own_and (λ c. keys c.name)) participants.now) }
{
    let mut names = Holders::new(alloc);
    for member in participants {
        let keys = all_name_keys(alloc, member)?;
        name_keys.push(copies(alloc, &keys)?)?;
        names.add_all(keys, &member.answer)?;
    }
    Ok(names)
}

// Those of a contact, after those of its answer if that is to be read with it.
fn all_name_keys(alloc: Global, member: &Member<'_, '_>) -> Result<Vec<Mark>, AllocError>
    ensures { IfOk result (λ found. mark_texts found.items ≡ own_and (λ c. keys c.name) member.now) }
{
    let found = name_keys(alloc, member.contact.name)?;
    if has_own(member) {
        return both(name_keys(alloc, member.answer.name)?, found);
    }
    Ok(found)
}

fn both(own: Vec<Mark>, others: Vec<Mark>) -> Result<Vec<Mark>, AllocError>
    ensures { IfOk result (λ found. mark_texts found.items ≡ mark_texts own.items ++ mark_texts others.items) }
{
    let mut found = own;
    let mut others = others;
    found.append(&mut others)?;
    Ok(found)
}

// The keys of the logins of emails that names have, too, with the answers that have them. No other is asked for.
// Appends the links by those that are names of other answers.
fn logins_of<'m, 'a>(
    shared: &SharedEmails<'a>,
    names: &Holders<'_, 'a>,
    first_names: &Holders<'_, 'a>,
    participants: &'m [Member<'_, 'a>],
    links: &mut Vec<Link>,
) -> Result<Holders<'m, 'a>, AllocError>
    ensures logins { IfOk result (HoldersOf
        (flat_map (pairs_by (λ c. known_email_keys shared.now names.now c.email)) participants.now)) }
    ensures links { IfOk result (λ _. links_of links.new.items ≡ links_of links.old.items
        ++ flat_map (email_links_of shared.now names.now first_names.now) participants.now) }
{
    let mut logins = Holders::new(*links.allocator());
    for member in participants {
        let keys = all_known_keys(*links.allocator(), shared, names, member)?;
        push_email_links(links, names, first_names, member, &keys)?;
        logins.add_all(keys, &member.answer)?;
    }
    Ok(logins)
}

fn push_email_links<'a>(
    links: &mut Vec<Link>,
    names: &Holders<'_, 'a>,
    first_names: &Holders<'_, 'a>,
    member: &Member<'_, 'a>,
    email_keys: &[Mark],
) -> Result<(), AllocError>
    ensures { OnOk result (links_of links.new.items ≡ links_of links.old.items ++ links_to member.now.first
        (filter (is_name_by names.now first_names.now (answer_in member.now)) (mark_texts email_keys.now))) }
{
    for key in email_keys {
        if is_name_of_another(names, first_names, key, &member.answer) {
            push_link(links, key, member.first)?;
        }
    }
    Ok(())
}

// Those of the email of a contact, after those of its answer if that is to be read with it.
fn all_known_keys<'a>(
    alloc: Global,
    shared: &SharedEmails<'a>,
    names: &Holders<'_, 'a>,
    member: &Member<'_, 'a>,
) -> Result<Vec<Mark>, AllocError>
    ensures { IfOk result (λ found. mark_texts found.items
        ≡ own_and (λ c. known_email_keys shared.now names.now c.email) member.now) }
{
    let found = known_email_keys(alloc, shared, names, member.contact.email)?;
    if has_own(member) {
        return both(
            known_email_keys(alloc, shared, names, member.answer.email)?,
            found,
        );
    }
    Ok(found)
}

fn known_email_keys<'a>(
    alloc: Global,
    shared: &SharedEmails<'a>,
    names: &Holders<'_, 'a>,
    email: &'a [u8],
) -> Result<Vec<Mark>, AllocError>
    ensures { IfOk result (λ found. mark_texts found.items ≡ known_email_keys shared.now names.now email.now) }
{
    let mut keys = email_keys(alloc, shared, email)?;
    keys.retain(|key| names.has(key));
    Ok(keys)
}

// The keys of the first words of names, with the answers that have them and an email.
fn first_names_of<'m, 'a>(
    alloc: Global,
    members: &'m [Member<'_, 'a>],
) -> Result<Holders<'m, 'a>, AllocError>
    ensures { IfOk result (HoldersOf (flat_map (pairs_by (λ c. spec_first_words c.name))
        (filter (λ m. spec_has_text (answer_in m).email) members.now))) }
{
    let mut first_names = Holders::new(alloc);
    for member in members {
        if has_text(member.answer.email) {
            first_names.add_all(all_first_words(alloc, member)?, &member.answer)?;
        }
    }
    Ok(first_names)
}

// Those of the name of a contact, after those of its answer if that is to be read with it.
fn all_first_words(alloc: Global, member: &Member<'_, '_>) -> Result<Vec<Mark>, AllocError>
    ensures { IfOk result (λ found. mark_texts found.items ≡ own_and (λ c. spec_first_words c.name) member.now) }
{
    let found = first_words(alloc, member.contact.name)?;
    if has_own(member) {
        return both(first_words(alloc, member.answer.name)?, found);
    }
    Ok(found)
}

// Whether there is no login yet for the answer that first comes at this index.
fn is_missing(found: &[Option<&[u8]>], first: usize) -> bool
    ensures { result ≡ spec_is_missing (slice_get found.now first) }
{
    match found.get(first) {
        Some(login) => login.is_none(),
        None => false,
    }
}

fn first_found<'a>(found: &[Option<&'a [u8]>]) -> &'a [u8]
    ensures { result.now ≡ first_or_empty (flat_map option_to_list (map option_copied found.now)) }
{
    for login in found {
        if let Some(login) = login {
            return login;
        }
    }
    b""
}

fn name_keys(alloc: Global, name: &[u8]) -> Result<Vec<Mark>, AllocError>
    ensures { IfOk result (λ found. mark_texts found.items ≡ keys name.now) }
{
    marks_of(alloc, names::name_keys(alloc, name)?)
}

fn first_words(alloc: Global, name: &[u8]) -> Result<Vec<Mark>, AllocError>
    ensures { IfOk result (λ found. mark_texts found.items ≡ spec_first_words name.now) }
{
    marks_of(alloc, names::first_words(alloc, name)?)
}

// The keys of the login of an email that one person has.
fn email_keys<'a>(
    alloc: Global,
    shared: &SharedEmails<'a>,
    email: &'a [u8],
) -> Result<Vec<Mark>, AllocError>
    ensures { IfOk result (λ found. mark_texts found.items ≡ spec_email_keys shared.now email.now) }
{
    if shared.contains(email) {
        return Ok(Vec::new(alloc));
    }
    marks_of(alloc, login_keys(alloc, email)?)
}

/// The class of each contact, that of its answer, as a text: empty if there is no link to the answer.
pub(crate) fn classes_by(
    alloc: Global,
    members: &[Member<'_, '_>],
    links: Vec<Link>,
) -> Result<Vec<Vec<u8>>, AllocError>
    requires links { All (λ link. link.item < length members.now) links.items }
    requires firsts { All (λ m. m.first < length members.now) members.now }
    ensures { (h : Histories) (ts : List ATally) (marks_of : Contact → List Text) → AreMembers h ts members.now
        → AreLinksOf marks_of members.now (links_of links.items) → IfOk result (λ classes. (class : Contact → Text)
        × AreClassesBy marks_of (spec_answers h ts) class
        × (map (λ v. folded v.items) classes.items ≡ map (λ m. class (answer_in m)) members.now)) }
{
    let linked = linked(alloc, members.len(), &links)?;
    let classes = classes_of(alloc, members.len(), links)?;
    let mut found = Vec::with_capacity(alloc, members.len())?;
    for member in members {
        let first = member.first;
        found.push(class_text(alloc, linked[first], classes[first])?)?;
    }
    Ok(found)
}

// The digits of a class's number.
fn class_text(alloc: Global, is_linked: bool, number: usize) -> Result<Vec<u8>, AllocError>
    ensures { IfOk result (λ text. text.items ≡ (if is_linked then decimal number else [])) }
{
    if !is_linked {
        return Ok(Vec::new(alloc));
    }
    let mut digits = Buffer::new();
    Vec::from_slice(alloc, digits.format(number).as_bytes())
}

// Whether there is a link to each item.
fn linked(alloc: Global, count: usize, links: &[Link]) -> Result<Vec<bool>, AllocError>
    requires { All (λ link. link.item < count) links.now }
    ensures len { IfOk result (λ linked. length linked.items ≡ count) }
    ensures linked { IfOk result (λ linked. (item : ℕ) → item < count
        → slice_get linked.items item ≡ Some (list_any (λ l. l.1 == item) (links_of links.now))) }
{
    let mut linked = vec![in alloc; false; count]?;
    for link in links {
        linked[link.item] = true;
    }
    Ok(linked)
}

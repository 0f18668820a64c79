//! Lookups: a binary search for the email, then one for the name among the names of that email.
ghost use Rattle.std.specs.Prelude.{◌≡◌, ◌≤◌, ◌+◌, ◌-◌, ◌||◌, List, Some, length, min, is_some, option_map, IsTrue};
ghost use Rattle.std.specs.Prelude.{IfSome};
ghost use Rattle.std.specs.Option.{ForSome};
ghost use Rattle.mailmap_entries.specs.Entries.{Mapping};
ghost use Rattle.mailmap_tables.specs.Groups.{AreGroups, listing};
ghost use Rattle.mailmap_entries.specs.Semantics.{IsNormal, fields_with_spelling, answer_of};
ghost use Rattle.mailmap_tables.specs.Pool.{LiesIn, spelled};
ghost use Rattle.mailmap_entries.specs.Search.{digits};
ghost use Rattle.mailmap_snapshot.specs.Signatures.{resolved_fields, email_count, name_count};

use crate::actor::SignatureRef;
use crate::snapshot::Snapshot;
use mailmap_entries::fold::Steps;
use mailmap_tables::search::{find_email_counted, find_name_counted};
use mailmap_tables::texts::Span;
use mailmap_tables::view::View;

/// A name and an email that replace those of a signature. They borrow from the snapshot: they can outlive the
/// signature, but not the next merge into the snapshot.
///
/// Every answer has at least one of the two.
#[derive(Drop)]
pub struct ResolvedSignature<'a> {
    /// The name, `None` if the signature keeps its own.
    pub name: Option<&'a [u8]>,
    /// The email, `None` if the signature keeps its own.
    pub email: Option<&'a [u8]>,
}

/// What tables answer to a name and an email.
#[inline(always)]
#[tactic(auto, using(crate::proofs::Resolved::name_laws))]
fn look_up<'a>(
    tables: &View<'a>,
    name: &[u8],
    email: &[u8],
    steps: &mut Steps,
) -> Option<ResolvedSignature<'a>>
    requires groups { AreGroups tables.now.groups }
    requires countable { steps.old ≤ usize.MAX - 128 }
    ensures fields { option_map resolved_fields result ≡ answer_of (listing tables.now.groups) name.now email.now }
    ensures says { IfSome result (λ r. IsTrue (is_some r.name || is_some r.email)) }
    ensures at_most { steps.new ≤ steps.old + digits (length tables.now.groups)
        + digits (name_count (listing tables.now.groups) email.now) }
    ensures at_least { steps.old + min 1 (length tables.now.groups)
        + min 1 (name_count (listing tables.now.groups) email.now) ≤ steps.new }
{
    let Ok(index) = find_email_counted(tables, email, steps) else {
        return None;
    };
    let (email_texts, names) = tables.email(index);
    let texts = match find_name_counted(tables, names, name, steps) {
        Ok(i) => names[i],
        Err(_) => email_texts,
    };
    let (new_name, new_email) = tables.fields(texts);
    answer(tables, email_texts.old(), new_name, new_email, email)
}

// The answer from the stored fields, for an email that was looked up as `current_email`. Without a new email, the stored
// spelling replaces a different one.
#[tactic(auto, using(crate::proofs::Resolved::same_text))]
fn answer<'a>(
    tables: &View<'a>,
    old_email: Span,
    new_name: Option<Span>,
    new_email: Option<Span>,
    current_email: &[u8],
) -> Option<ResolvedSignature<'a>>
    requires old_email_lies { LiesIn (length tables.now.pool) old_email }
    requires new_name_lies { ForSome new_name (LiesIn (length tables.now.pool)) }
    requires new_email_lies { ForSome new_email (LiesIn (length tables.now.pool)) }
    ensures fields { option_map resolved_fields result ≡ fields_with_spelling current_email.now (record {
      name = option_map (spelled tables.now.pool) new_name;
      email = option_map (spelled tables.now.pool) new_email;
    }) (Some (spelled tables.now.pool old_email)) }
    ensures says { IfSome result (λ r. IsTrue (is_some r.name || is_some r.email)) }
{
    let matched_email = tables.text(old_email);
    let email = match tables.optional_text(new_email) {
        Some(email) => Some(email),
        None if matched_email == current_email => None,
        None => Some(matched_email),
    };
    let name = tables.optional_text(new_name);
    if name.is_none() && email.is_none() {
        return None;
    }
    Some(ResolvedSignature { name, email })
}

/// Lookups. They don't allocate.
impl Snapshot {
    /// The name and the email that replace those of a signature, `None` if nothing is mapped.
    ///
    /// Entries for the signature's name and email take precedence over those for all names with the email, and then
    /// decide both fields: if they have no new name, the others don't provide one. The case of ASCII letters is ignored
    /// in names and emails. If there is no new email, and the signature's email differs from the stored spelling in any
    /// byte, the answer has the stored spelling. Git leaves such an email as it is.
    ///
    /// The answer borrows only from the snapshot, so it can outlive the signature.
    pub fn try_resolve_ref(&self, signature: SignatureRef<'_>) -> Option<ResolvedSignature<'_>>
        ensures view { option_map resolved_fields result
            ≡ answer_of self.now signature.entry.name.now signature.entry.email.now }

        // the answer of all mappings with this normal list, such as all merged entries
        ensures history { (h : List Mapping) → IsNormal h self.now →
            option_map resolved_fields result ≡ answer_of h signature.entry.name.now signature.entry.email.now }
        ensures says { IfSome result (λ r. IsTrue (is_some r.name || is_some r.email)) }
    {
        self.try_resolve_contact(signature.name, signature.email)
    }

    /// Does what [`try_resolve_ref`](Snapshot::try_resolve_ref()) does, for a name and an email without a signature.
    #[inline(always)]
    #[tactic(auto, using(mailmap_entries::proofs::Alike::alike_answer, mailmap_entries::proofs::Normal::alike_normal))]
    pub fn try_resolve_contact(&self, name: &[u8], email: &[u8]) -> Option<ResolvedSignature<'_>>
        ensures view { option_map resolved_fields result ≡ answer_of self.now name.now email.now }

        // the answer of all mappings with this normal list, such as all merged entries
        ensures history { (h : List Mapping) → IsNormal h self.now →
            option_map resolved_fields result ≡ answer_of h name.now email.now }
        ensures says { IfSome result (λ r. IsTrue (is_some r.name || is_some r.email)) }
    {
        look_up(&self.tables.view(), name, email, &mut Steps::new())
    }

    /// Does what [`try_resolve_ref`](Snapshot::try_resolve_ref()) does, and counts the comparisons of emails and names
    /// in `steps`.
    ///
    /// With E distinct emails in the snapshot and N old names for the email that is found, there are at most as many
    /// comparisons as E and N have binary digits together. There is at least one for each of E and N that is not 0. If
    /// the email is not found, N is 0.
    #[inline(always)]
    #[tactic(auto, using(mailmap_entries::proofs::Alike::alike_answer, mailmap_entries::proofs::Normal::alike_normal, crate::proofs::Resolved::listed_emails))]
    pub fn try_resolve_ref_counted(
        &self,
        signature: SignatureRef<'_>,
        steps: &mut Steps,
    ) -> Option<ResolvedSignature<'_>>
        requires { steps.old ≤ usize.MAX - 128 }
        ensures view { option_map resolved_fields result
            ≡ answer_of self.now signature.entry.name.now signature.entry.email.now }

        // the answer of all mappings with this normal list, such as all merged entries
        ensures history { (h : List Mapping) → IsNormal h self.now →
            option_map resolved_fields result ≡ answer_of h signature.entry.name.now signature.entry.email.now }
        ensures says { IfSome result (λ r. IsTrue (is_some r.name || is_some r.email)) }
        ensures at_most { steps.new ≤ steps.old + digits (email_count self.now)
            + digits (name_count self.now signature.entry.email.now) }
        ensures at_least { steps.old + min 1 (email_count self.now)
            + min 1 (name_count self.now signature.entry.email.now) ≤ steps.new }
    {
        look_up(&self.tables.view(), signature.name, signature.email, steps)
    }
}

//! Findings about what the entry of a line does.
ghost use Rattle.std.specs.Prelude.{◌≡◌};
ghost use Rattle.std.specs.Option.{option_copied, option_map};
ghost use Rattle.mailmap_entries.specs.Entries.{mapping_of};
ghost use Rattle.mailmap_entries.specs.Semantics.{key};
ghost use Rattle.mailmap_redundancy.specs.Redundancy.{entries, last_of_key};
ghost use Rattle.mailmap_findings.specs.Explanations.{explained};
ghost use Rattle.mailmap_findings.specs.Findings.{contact_of, kind_of, reported_of_proper as spec_proper};
ghost use Rattle.mailmap_findings.specs.Findings.{proper_contact as spec_contact, replaced_contact as spec_replaced};
ghost use Rattle.mailmap_findings.specs.Findings.{no_effect_beside};
ghost use Rattle.mailmap_findings.specs.Marks.{unmarked_fields, unmarked_name};

use crate::explain::{Explanation, explanation_of};
use crate::verify::lines::after_mark;
use crate::verify::{Contact, FindingKind};
use mailmap_entries::Entry;
use mailmap_grammar::contacts::{non_empty, trim};
use mailmap_redundancy::Effective;

/// Reports an effective entry whose contact is itself mapped. `bare` says that the entry is that of a line without its
/// byte order mark. Then a new name counts without such a mark, since the line itself may give it.
pub(crate) fn reported_of_proper<'a>(
    effective: &Effective<'_, 'a>,
    entry: Entry<'a>,
    bare: bool,
) -> Option<FindingKind<'a>>
    ensures { option_map kind_of result
        ≡ spec_proper (entries effective.now.history) effective.now.kept bare (mapping_of entry.entry) }
{
    let contact = proper_contact(&entry);
    let name = contact.name.unwrap_or(b"");
    let found = explanation_of(effective, name, contact.email)?;
    let to = replaced_contact(contact, &unmarked(found, bare));
    if contact == to {
        return None;
    }
    Some(FindingKind::ItselfMapped {
        contact,
        to,
        first: found.first,
        second: found.second,
    })
}

/// Reports an entry without effect. `taken` is what is compared with the entry that has an effect.
pub(crate) fn reported_without_effect<'a>(
    effective: &Effective<'_, 'a>,
    entry: &Entry<'a>,
    taken: Entry<'a>,
) -> Option<FindingKind<'a>>
    ensures { option_map kind_of result
        ≡ option_map (no_effect_beside (mapping_of taken.entry)) (last_of_key effective.now.kept (key (mapping_of entry.now))) }
{
    let beside = effective.beside(entry)?;
    Some(FindingKind::NoEffect {
        beside: beside.position,
        is_same: taken.new_name() == beside.entry.new_name()
            && taken.new_email() == beside.entry.new_email(),
    })
}

// Without a byte order mark before the new name, if `bare` is set.
fn unmarked<'a>(found: Explanation<'a>, bare: bool) -> Explanation<'a>
    ensures { explained result ≡ unmarked_fields bare (explained found.entry) }
{
    let name = match found.name {
        Some(name) if bare => unmarked_name(name),
        name => name,
    };
    Explanation {
        name,
        email: found.email,
        first: found.first,
        second: found.second,
    }
}

fn unmarked_name(name: &[u8]) -> Option<&[u8]>
    ensures { option_copied result ≡ unmarked_name name.now }
{
    non_empty(trim(after_mark(name).unwrap_or(name)))
}

// The contact that an entry maps to.
fn proper_contact<'a>(entry: &Entry<'a>) -> Contact<'a>
    ensures { contact_of result ≡ spec_contact (mapping_of entry.now) }
{
    Contact {
        name: entry.new_name().or(entry.old_name()),
        email: entry.new_email().unwrap_or(entry.old_email()),
    }
}

// The contact with its fields overridden by what is found. A contact without a name gets none.
fn replaced_contact<'a>(contact: Contact<'a>, found: &Explanation<'a>) -> Contact<'a>
    ensures { contact_of result ≡ spec_replaced (explained found.now) (contact_of contact.entry) }
{
    Contact {
        name: contact.name.and(found.name).or(contact.name),
        email: found.email.unwrap_or(contact.email),
    }
}

//! Lines of mailmaps that none of the contacts that were counted needs.
ghost use Rattle.std.specs.Prelude.{◌≡◌, IfOk, List, filter, not};
ghost use Rattle.mailmap_contacts.specs.Counts.{AreContactsOf};
ghost use Rattle.mailmap_entries.specs.Folding.{Text};
ghost use Rattle.mailmap_findings.specs.Needs.{AreUnneeded, any_needs};
ghost use Rattle.mailmap_findings.specs.Positions.{whole_lines};

use mailmap_contacts::counter::Contacts;
use mailmap_findings::needs::Needs;
use mailmap_findings::verify::{Mailmaps, Position};
use mailmap_grammar::contacts::trim;
use std::alloc::{AllocError, Global};

/// The lines of the mailmaps that no contact needs, in their order.
pub fn unneeded_by(
    alloc: Global,
    mailmaps: &Mailmaps<'_, '_>,
    contacts: &Contacts,
) -> Result<Vec<Position>, AllocError>
    ensures { (text : Text) → AreContactsOf (whole_lines text) contacts.now
        → IfOk result (λ found. AreUnneeded mailmaps.now text found.items) }
{
    let mut needs = Needs::new(alloc, mailmaps)?;
    add_to_needs(contacts, &mut needs);
    needs.unneeded(alloc)
}

/// Adds all contacts to those whose lines are needed.
pub fn add_to_needs(contacts: &Contacts, needs: &mut Needs<'_, '_>)
    ensures history { needs.new.history ≡ needs.old.history }
    ensures kept { needs.new.kept ≡ needs.old.kept }
    ensures left { (lines : List Text) → AreContactsOf lines contacts.now
        → needs.new.left ≡ filter (λ p. not (any_needs needs.old.kept lines p)) needs.old.left }
{
    for ((name, email), _) in contacts.tallies().iter() {
        needs.add_contact(trim(name.as_slice()), trim(email.as_slice()));
    }
}

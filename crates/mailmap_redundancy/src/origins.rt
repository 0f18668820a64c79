//! The entries behind the answer to a name and an email, and what they map them to.
ghost use Rattle.std.specs.Prelude.{◌≡◌};
ghost use Rattle.std.specs.Option.{option_and_then, option_copied, option_map};
ghost use Rattle.mailmap_entries.specs.Semantics as semantics;
ghost use Rattle.mailmap_redundancy.specs.Origins as spec;
ghost use Rattle.mailmap_redundancy.specs.Summaries.{fields_of, origins_of, referred};

use crate::located::{LocatedEntry, new_email, new_name, old_email};

/// A new name and a new email. `None` leaves a field as it is.
#[derive(Clone, Copy, Debug, PartialEq, Eq)]
pub struct Fields<'a> {
    pub name: Option<&'a [u8]>,
    pub email: Option<&'a [u8]>,
}

/// The entries behind an answer: the one that sets the new name, the one that sets the new email, and if none sets an
/// email, the first entry of the email, whose spelling counts.
///
/// Given the lines `<jane@x> <JD@x>` and `Jane <jd@x>`, the signature `JD <jd@X>` gets its name from the second line
/// and its email from the first.
#[derive(Clone, Copy, Debug)]
pub struct Origins<'p, 'a> {
    pub name: Option<&'p LocatedEntry<'a>>,
    pub email: Option<&'p LocatedEntry<'a>>,
    pub spelling: Option<&'p LocatedEntry<'a>>,
}

impl<'p, 'a> Origins<'p, 'a> {
    /// The answer for `email`, `None` if nothing changes.
    pub fn fields(&self, email: &[u8]) -> Option<Fields<'a>>
        ensures { option_map fields_of result ≡ spec.given (origins_of self.now) email.now }
    {
        let email = new_email(self.email).or(respelling(self.spelling, email));
        unless_empty(new_name(self.name), email)
    }

    /// What git answers, `None` if nothing changes: it keeps the spelling of an email that no entry sets.
    pub fn git_fields(&self) -> Option<Fields<'a>>
        ensures { option_map fields_of result ≡ spec.git_given (origins_of self.now) }
    {
        unless_empty(new_name(self.name), new_email(self.email))
    }
}

fn unless_empty<'a>(name: Option<&'a [u8]>, email: Option<&'a [u8]>) -> Option<Fields<'a>>
    ensures { option_map fields_of result ≡ semantics.unless_empty (record {
      name = option_copied name.entry;
      email = option_copied email.entry;
    }) }
{
    if name.is_none() && email.is_none() {
        return None;
    }
    Some(Fields { name, email })
}

// The entry's spelling of the email, if it differs in any byte.
#[tactic(auto, using(crate::proofs::Giving::equal_texts))]
fn respelling<'a>(origin: Option<&LocatedEntry<'a>>, email: &[u8]) -> Option<&'a [u8]>
    ensures { option_copied result
        ≡ option_and_then (λ x. semantics.respelled x.entry.old_email email.now) (referred origin.entry) }
{
    let stored = old_email(origin)?;
    if stored == email { None } else { Some(stored) }
}

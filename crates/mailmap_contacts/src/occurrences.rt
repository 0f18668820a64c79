//! How often things come, and where first.
ghost use Rattle.std.specs.Prelude.{◌≡◌, IfSome, OnErr, OnOk};
ghost use Rattle.mailmap_contacts.specs.Contacts.{sum_of};
ghost use Rattle.mailmap_contacts.specs.Counts.{HasMore};

use std::alloc::AllocError;
use std::collections::BTreeMap;
use std::collections::btree_map::Entry;

/// How often something comes, and the number of its first line.
#[derive(Clone, Copy, Debug, PartialEq, Eq)]
pub struct Occurrences {
    pub count: usize,
    pub first_line: usize,
}

/// The occurrences of both together, `None` if the count exceeds its type.
pub fn sum_of(a: Occurrences, b: Occurrences) -> Option<Occurrences>
    ensures { IfSome result (λ sum. sum ≡ sum_of a b) }
{
    let count = a.count.checked_add(b.count)?;
    let first_line = a.first_line.min(b.first_line);
    Some(Occurrences { count, first_line })
}

/// Adds to the occurrences of a key. Fails if memory runs out, or if the count exceeds its type.
pub fn add_to<K: Ord + Drop>(
    tallies: &mut BTreeMap<K, Occurrences>,
    key: K,
    seen: Occurrences,
) -> Result<(), AllocError>
    ensures ok { OnOk result (HasMore K.cmp tallies.old.entries key seen tallies.new.entries) }
    ensures err { OnErr result (tallies.new.entries ≡ tallies.old.entries) }
{
    match tallies.entry(key)? {
        Entry::Occupied(mut known) => {
            let Some(sum) = sum_of(*known.get(), seen) else {
                return Err(AllocError);
            };
            known.insert(sum);
        }
        Entry::Vacant(place) => {
            place.insert(seen);
        }
    }
    Ok(())
}

//! Makes entries of fields, for the other crates of the library.
ghost use Rattle.std.specs.Prelude.{◌≡◌, IsSome};
ghost use Rattle.std.specs.Option.{option_copied};
ghost use Rattle.mailmap_entries.specs.Entries.{mapping, mapping_of};

use crate::entry::Entry;

/// The entry with these fields.
pub fn entry_of<'a>(
    new_name: Option<&'a [u8]>,
    new_email: Option<&'a [u8]>,
    old_name: Option<&'a [u8]>,
    old_email: &'a [u8],
) -> Entry<'a>
    requires { IsSome old_name → IsSome new_email }
    ensures { mapping_of result
        ≡ mapping (option_copied new_name.entry) (option_copied new_email.entry) (option_copied old_name.entry)
        old_email.now }
{
    Entry {
        new_name,
        new_email,
        old_name,
        old_email,
    }
}

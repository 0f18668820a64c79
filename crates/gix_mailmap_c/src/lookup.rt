//! Looks up a name and an email in a handle's mailmap.
ghost use Rattle.std.specs.Prelude.{◌≡◌, [], IfSome, IfNone, unwrap_or};
ghost use Rattle.std.specs.Option.{option_copied};
ghost use Rattle.mailmap_entries.specs.Semantics.{fields_for};
ghost use Rattle.gix_mailmap_c.specs.Buffers.{ArePut};
ghost use Rattle.gix_mailmap_c.specs.Handles.{content_of, handle_listing};
ghost use Rattle.gix_mailmap_c.specs.Listed.{field_of};
ghost use Rattle.gix_mailmap_c.specs.declared.status.TheConstants.{CLOSED};

use crate::buffers::put_both;
use crate::held::{Handle, held_in};
use mailmap_snapshot::Snapshot;

/// The length of a text, and whether the mailmap sets it.
#[repr(C)]
#[derive(Clone, Copy)]
pub struct Field {
    pub len: usize,
    pub is_given: bool,
}

impl Field {
    /// Describes a text that the mailmap may set, or `other`, which is used if it doesn't. Assigns field by field, so
    /// that the padding between the fields isn't written.
    #[inline(always)]
    pub(crate) fn describe(&mut self, given: Option<&[u8]>, other: &[u8])
        ensures { self.new ≡ field_of (option_copied given.entry) other.now }
    {
        self.len = given.unwrap_or(other).len();
        self.is_given = given.is_some();
    }

    pub(crate) fn of_optional(text: Option<&[u8]>) -> Field
        ensures { result ≡ field_of (option_copied text.entry) [] }
    {
        Field {
            len: text.unwrap_or(&[]).len(),
            is_given: text.is_some(),
        }
    }
}

/// Looks up a name and an email, and copies what the mailmap maps them to into `name_out` and `email_out`; a field that
/// it doesn't set is the caller's own. `name_field` and `email_field` tell the length of each, and whether the mailmap
/// set it. The handle is unchanged.
///
/// Returns `OK`; `TOO_SHORT` if one of the buffers is too short: then both are unchanged, but the lengths are set; or
/// `CLOSED`, and nothing is written. The rest of each buffer is unchanged.
#[unsafe(no_mangle)]
pub extern "C" fn gix_mailmap_handle_lookup(
    m: &mut Handle,
    name: &[u8],
    email: &[u8],
    name_out: &mut [u8],
    name_field: &mut Field,
    email_out: &mut [u8],
    email_field: &mut Field,
) -> u32
    ensures unchanged { content_of m.new ≡ content_of m.old }
    ensures described { IfSome (handle_listing m.old) (λ n. let f = fields_for n name.now email.now in
        (name_field.new ≡ field_of f.name name.now) × (email_field.new ≡ field_of f.email email.now)) }
    ensures answer { IfSome (handle_listing m.old) (λ n. let f = fields_for n name.now email.now in
        ArePut (unwrap_or f.name name.now) name_out.old name_out.new
        (unwrap_or f.email email.now) email_out.old email_out.new result) }
    ensures closed { IfNone (handle_listing m.old)
        ((result ≡ CLOSED) × (name_out.new ≡ name_out.old) × (name_field.new ≡ name_field.old)
        × (email_out.new ≡ email_out.old) × (email_field.new ≡ email_field.old)) }
{
    held_in!(m, Mailmap(snapshot));
    answer(
        snapshot,
        name,
        email,
        name_out,
        name_field,
        email_out,
        email_field,
    )
}

#[inline(always)]
fn answer(
    snapshot: &Snapshot,
    name: &[u8],
    email: &[u8],
    name_out: &mut [u8],
    name_field: &mut Field,
    email_out: &mut [u8],
    email_field: &mut Field,
) -> u32
    ensures name { name_field.new ≡ field_of (fields_for snapshot.now name.now email.now).name name.now }
    ensures email { email_field.new ≡ field_of (fields_for snapshot.now name.now email.now).email email.now }
    ensures answer { let f = fields_for snapshot.now name.now email.now in
        ArePut (unwrap_or f.name name.now) name_out.old name_out.new
        (unwrap_or f.email email.now) email_out.old email_out.new result }
{
    let (found_name, found_email) = found(snapshot, name, email);
    name_field.describe(found_name, name);
    email_field.describe(found_email, email);
    put_both(
        found_name.unwrap_or(name),
        name_out,
        found_email.unwrap_or(email),
        email_out,
    )
}

// The new name and the new email, as the snapshot sets them.
#[inline(always)]
fn found<'a>(
    snapshot: &'a Snapshot,
    name: &[u8],
    email: &[u8],
) -> (Option<&'a [u8]>, Option<&'a [u8]>)
    ensures name { option_copied result.0 ≡ (fields_for snapshot.now name.now email.now).name }
    ensures email { option_copied result.1 ≡ (fields_for snapshot.now name.now email.now).email }
{
    match snapshot.try_resolve_contact(name, email) {
        Some(found) => (found.name, found.email),
        None => (None, None),
    }
}

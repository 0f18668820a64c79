//! The rows of tables.
ghost use Rattle.std.specs.Prelude.{◌≡◌};
ghost use Rattle.mailmap_tables.specs.Rows.{names_start};

use crate::texts::RowTexts;

/// The texts of one of an email's names: its old name and the fields that replace it. There is always a new email.
pub type NameRow = RowTexts;

/// The texts of an email: the old email, and the new fields for all names without a row. The rows of its names begin at
/// `names_start` in the table of names, and end where those of the next email begin.
#[derive(Clone, Copy)]
pub struct EmailRow {
    pub texts: RowTexts,
    pub names_start: usize,
}

/// Where the names of the email at an index begin. For the index after the last email, that is where all names end.
pub(crate) fn names_start(emails: &[EmailRow], names: &[NameRow], index: usize) -> usize
    ensures { result ≡ names_start emails.now names.now index }
{
    match emails.get(index) {
        Some(email) => email.names_start,
        None => names.len(),
    }
}

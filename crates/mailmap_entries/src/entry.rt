//! An entry is what one line of a mailmap says.
//!
//! A commit names its author and its committer by a name and an email. The old fields of an [`Entry`] say which commits
//! it applies to, and its new fields say what to show in their place. A line can have five combinations of fields, and
//! there is a constructor for each.
//!
//! | line | new name | new email | old name | old email |
//! |---|---|---|---|---|
//! | `Proper <commit@x>` | `Proper` | | | `commit@x` |
//! | `<proper@x> <commit@x>` | | `proper@x` | | `commit@x` |
//! | `<proper@x> Commit <commit@x>` | | `proper@x` | `Commit` | `commit@x` |
//! | `Proper <proper@x> <commit@x>` | `Proper` | `proper@x` | | `commit@x` |
//! | `Proper <proper@x> Commit <commit@x>` | `Proper` | `proper@x` | `Commit` | `commit@x` |
ghost use Rattle.std.specs.Prelude.{◌≡◌, IsSome};

mod fields;

pub use fields::entry_of;

/// A mapping of names and emails. It borrows its texts: from the buffer that was parsed, from a snapshot that lists it,
/// or from the caller.
///
/// The old email, and the old name if there is one, are compared without regard to the case of ASCII letters. The new
/// name and the new email replace what the commit has; either can be missing. An entry with an old name always has a
/// new email. Texts are bytes and need not be UTF-8.
///
/// Entries come from the lines of a mailmap, from the listing of a snapshot, or from the constructors below. The
/// constructors accept any text, even an empty one, or one with white space or brackets that no line could hold.
///
/// Entries are ordered by new name, new email, old name and old email, byte by byte and with regard to case. A missing
/// field sorts before any that is there. The default entry has only an empty old email; it maps nothing, and merging it
/// changes nothing.
#[derive(Clone, Copy, Debug, PartialEq, Eq, PartialOrd, Ord, Hash)]
pub struct Entry<'a> {
    new_name: Option<&'a [u8]>,
    new_email: Option<&'a [u8]>,
    old_name: Option<&'a [u8]>,
    old_email: &'a [u8],
    ghost paired: { IsSome old_name → IsSome new_email },
}

impl<'a> Default for Entry<'a> {
    ghost use Rattle.std.specs.Prelude.{◌≡◌};
    ghost use Rattle.mailmap_entries.specs.Entries.{mapping_of, nothing};

    ghost is_default = { λ e. mapping_of e ≡ nothing };

    fn default() -> Self {
        Entry {
            new_name: None,
            new_email: None,
            old_name: None,
            old_email: &[],
        }
    }
}

/// Constructors, one for each combination of fields that a line of a mailmap can have.
impl<'a> Entry<'a> {
    ghost use Rattle.mailmap_entries.specs.Entries.{mapping, mapping_of};

    /// An entry that changes the name by an email, as the line `Proper <commit@x>` does.
    pub fn change_name_by_email(proper_name: &'a [u8], commit_email: &'a [u8]) -> Self
        ensures { mapping_of result ≡ mapping (Some proper_name.now) None None commit_email.now }
    {
        Entry {
            new_name: Some(proper_name),
            old_email: commit_email,
            new_email: None,
            old_name: None,
        }
    }

    /// An entry that changes the email by an email, as the line `<proper@x> <commit@x>` does.
    pub fn change_email_by_email(proper_email: &'a [u8], commit_email: &'a [u8]) -> Self
        ensures { mapping_of result ≡ mapping None (Some proper_email.now) None commit_email.now }
    {
        Entry {
            new_email: Some(proper_email),
            old_email: commit_email,
            new_name: None,
            old_name: None,
        }
    }

    /// An entry that changes the email by a name and an email, as the line `<proper@x> Commit <commit@x>` does.
    pub fn change_email_by_name_and_email(
        proper_email: &'a [u8],
        commit_name: &'a [u8],
        commit_email: &'a [u8],
    ) -> Self
        ensures { mapping_of result ≡ mapping None (Some proper_email.now) (Some commit_name.now) commit_email.now }
    {
        Entry {
            new_email: Some(proper_email),
            old_name: Some(commit_name),
            old_email: commit_email,
            new_name: None,
        }
    }

    /// An entry that changes the name and the email by an email, as the line `Proper <proper@x> <commit@x>` does.
    pub fn change_name_and_email_by_email(
        proper_name: &'a [u8],
        proper_email: &'a [u8],
        commit_email: &'a [u8],
    ) -> Self
        ensures { mapping_of result ≡ mapping (Some proper_name.now) (Some proper_email.now) None commit_email.now }
    {
        Entry {
            new_name: Some(proper_name),
            new_email: Some(proper_email),
            old_email: commit_email,
            old_name: None,
        }
    }

    /// An entry that changes the name and the email by a name and an email, as the line
    /// `Proper <proper@x> Commit <commit@x>` does.
    pub fn change_name_and_email_by_name_and_email(
        proper_name: &'a [u8],
        proper_email: &'a [u8],
        commit_name: &'a [u8],
        commit_email: &'a [u8],
    ) -> Self
        ensures { mapping_of result
            ≡ mapping (Some proper_name.now) (Some proper_email.now) (Some commit_name.now) commit_email.now }
    {
        Entry {
            new_name: Some(proper_name),
            new_email: Some(proper_email),
            old_name: Some(commit_name),
            old_email: commit_email,
        }
    }
}

/// Getters. The returned texts can outlive the entry, and the iterator that yielded it.
impl<'a> Entry<'a> {
    ghost use Rattle.std.specs.Option.{option_copied};
    ghost use Rattle.mailmap_entries.specs.Entries.{mapping_of};

    /// The name to map to, `None` if this entry gives none.
    pub fn new_name(&self) -> Option<&'a [u8]>
        ensures { option_copied result ≡ (mapping_of self.now).new_name }
    {
        self.new_name
    }

    /// The email to map to, `None` if this entry gives none.
    pub fn new_email(&self) -> Option<&'a [u8]>
        ensures { option_copied result ≡ (mapping_of self.now).new_email }
    {
        self.new_email
    }

    /// The name to look for and replace, `None` if the entry applies to any name with its old email.
    pub fn old_name(&self) -> Option<&'a [u8]>
        ensures { option_copied result ≡ (mapping_of self.now).old_name }
    {
        self.old_name
    }

    /// The email to look for and replace.
    pub fn old_email(&self) -> &'a [u8]
        ensures { result.now ≡ (mapping_of self.now).old_email }
    {
        self.old_email
    }
}

//! Writes a snapshot as a mailmap, with one line for each entry of its listing.
ghost use Rattle.std.specs.Prelude.{◌≡◌, ◌≤◌, ◌^◌, length, IfOk, IfErr, OnOk, MatchOption};
ghost use Rattle.std.specs.List.{All};
ghost use Rattle.mailmap_grammar.specs.CanonicalText.{IsWritable, canonical_text};
ghost use Rattle.mailmap_entries.specs.Building.{IsListing};
ghost use Rattle.mailmap_snapshot.specs.Writing.{IsFirstUnwritable, IsUnwrittenBy};

use crate::snapshot::Snapshot;
use mailmap_grammar::writing::{is_writable, len_with_line, push_line};
use std::alloc::{AllocError, Global};
use thiserror::Error;

/// Why a snapshot wasn't written.
#[derive(Debug, PartialEq, Eq, Drop, Error)]
pub enum WriteError {
    /// No line can hold the entry at this place of the listing, counted from 0, because parsing the line would give
    /// another entry. Entries that were parsed from lines always fit, so this happens only with the constructors of
    /// [`Entry`](mailmap_entries::Entry).
    #[error("entry {place} cannot be written")]
    Unwritable { place: usize },
    /// Memory ran out.
    #[error("out of memory")]
    Memory(AllocError),
}

impl From<AllocError> for WriteError {
    ghost use Rattle.std.specs.Prelude.{◌≡◌};
    ghost use Rattle.mailmap_snapshot.specs.declared.snapshot.text.WriteError.TheVariants.{Memory};

    ghost from_gives = { λ error e. e ≡ Memory error };

    fn from(error: AllocError) -> Self {
        WriteError::Memory(error)
    }
}

impl Snapshot {
    /// Writes the snapshot as a mailmap, from which [`Snapshot::from_bytes`] makes an equal snapshot.
    ///
    /// There is one line for each entry of [`Snapshot::iter`], in this order. A line is a space, the new name, the new
    /// email in `<` and `>`, the old name, the old email in `<` and `>`, and a line feed, with a space between the
    /// parts. The space in front keeps a name that begins with `#` from making the line a comment. Equal snapshots have
    /// the same text.
    ///
    /// `Err` has the place of the first entry that no line can hold, or says that memory ran out. It is out of memory
    /// only if every entry can be written.
    ///
    /// An entry that maps the empty email to `n@y` is written as ` <n@y> <>`. One that maps it only to the name `N`
    /// can't be written.
    pub fn write(&self, alloc: Global) -> Result<Vec<u8>, WriteError>
        ensures ok { IfOk result (λ v. v.items ≡ canonical_text self.now) }
        ensures writable { OnOk result (All IsWritable self.now) }

        // the first entry that no line can hold, or out of memory if there is none
        ensures err { IfErr result (IsUnwrittenBy self.now) }

        // whatever was merged, the listing is its own normal list, so parsing the text gives the listing again
        ensures own { IsListing self.now }
    {
        if let Some(place) = self.first_unwritable() {
            return Err(WriteError::Unwritable { place });
        }
        Ok(self.write_lines(alloc)?)
    }

    /// Writes the text of [`Snapshot::write`] without checking whether lines can hold the entries. The caller must know
    /// that they can. That is so for every snapshot that was built only from buffers, as `law_text` says in its clause
    /// `builds`.
    ///
    /// `Err` if memory runs out.
    ///
    /// After a merge of `parse_ignore_errors(b"N <a@x>")` into an empty snapshot, this returns ` N <a@x>` and a line
    /// feed.
    pub fn write_lines(&self, alloc: Global) -> Result<Vec<u8>, AllocError>
        requires { All IsWritable self.now }
        ensures { IfOk result (λ v. v.items ≡ canonical_text self.now) }
    {
        let mut out = Vec::with_capacity(alloc, self.text_len().ok_or(AllocError)?)?;
        for entry in self.iter() {
            push_line(&mut out, &entry)?;
        }
        Ok(out)
    }

    // The place of the first entry that no line can hold.
    fn first_unwritable(&self) -> Option<usize>
        ensures place { MatchOption result (All IsWritable self.now) (IsFirstUnwritable self.now) }
        ensures own { IsListing self.now }
    {
        // no listing has more entries than the tables have rows, so the place can't overflow
        let _rows = self.tables.view().row_count();
        self.iter().position(|entry| !is_writable(&entry))
    }

    // The length of the text, `None` if it overflows.
    fn text_len(&self) -> Option<usize>
        ensures { let len = length (canonical_text self.now) in MatchOption result (2 ^ 64 ≤ len) (λ n. n ≡ len) }
    {
        let mut len = 0;
        for entry in self.iter() {
            len = len_with_line(len, &entry)?;
        }
        Some(len)
    }
}

//! The author or committer of a commit: a name, an email and a time.
ghost use Rattle.mailmap_snapshot.specs.Times.{IsTimeOf, ParsesTime};

use crate::date::Time;

/// The author or committer of a commit, with its three texts as the commit has them.
///
/// It is made from its fields; callers split the commit's line themselves. Signatures are equal if all three texts are,
/// so two spellings of the same time differ.
#[derive(Clone, Copy, PartialEq, Eq, Debug)]
pub struct SignatureRef<'a> {
    /// The name, as recorded.
    pub name: &'a [u8],
    /// The email, as recorded, without its brackets.
    pub email: &'a [u8],
    /// The time: seconds since the epoch, a space and the offset to UTC, as in `1711398853 +0800`.
    pub time: &'a str,
}

impl SignatureRef<'_> {
    /// Parses the time as [`Time::read`] does: `None` if the text isn't in git's format.
    pub fn time(&self) -> Option<Time>
        ensures { ParsesTime self.now.time.now result }
    {
        Time::read(self.time)
    }

    pub(crate) fn time_or_default(&self) -> Time
        ensures { IsTimeOf self.now.time.now result }
    {
        self.time().unwrap_or_default()
    }
}

/// The author or committer of a commit. It owns its texts, so it can outlive the commit and the mailmap.
///
/// Signatures are equal if the bytes of both texts and the times are.
#[derive(PartialEq, Eq, Debug, Drop)]
pub struct Signature {
    /// The name, as bytes that need not be UTF-8.
    pub name: Vec<u8>,
    /// The email, without its brackets.
    pub email: Vec<u8>,
    /// The time of the signature.
    pub time: Time,
}

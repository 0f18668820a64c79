//! The entry of a line with its trailing text, which parsing ignores. `gix_mailmap` doesn't re-export this.
use mailmap_entries::Entry;

/// The entry of a line and its trailing text: all that follows the second contact, or the first one if the line has no
/// second contact with a `>`. The text is not trimmed.
#[derive(Clone, Copy, Debug)]
pub struct WithTrailing<'a> {
    pub entry: Entry<'a>,
    pub trailing: &'a [u8],
}

//! Hashes lines, for caches and counters of lines.
ghost use Rattle.std.specs.Hash.FoldHasher.{finish, initial, write};
ghost use Rattle.std.specs.Prelude.{◌≡◌};

use std::hash::{FoldHasher, Hasher};

/// The hash of a text. Not collision resistant: texts with the same hash are easy to choose.
pub fn hash_of(text: &[u8]) -> u64
    ensures { result ≡ finish (write initial text.now) }
{
    let mut hasher = FoldHasher::default();
    hasher.write(text);
    hasher.finish()
}

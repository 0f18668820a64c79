//! Entries of mailmaps, and the order of their keys. Users need only `gix_mailmap`, which re-exports the public parts.
#![tactic(auto)]

mod entry;
pub mod fold;
pub mod laws;
pub mod semantics;

pub use entry::{Entry, entry_of};

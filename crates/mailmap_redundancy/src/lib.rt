//! Finds redundant entries: those whose removal changes nothing. An internal crate of `gix_mailmap`, which re-exports
//! what users need.
#![tactic(auto)]

mod effective;
mod keys;
pub mod laws;
mod located;
mod origins;
mod passes;
mod table;

pub use effective::{Effective, without_redundant};
pub use located::{LocatedEntry, Position};
pub use origins::{Fields, Origins};

//! Parses the lines of mailmaps, and writes entries as lines. Users need only `gix_mailmap`, which re-exports the
//! public parts.
#![tactic(auto)]

pub mod cache;
pub mod contacts;
pub mod hashing;
pub mod laws;
pub mod lines;
mod skip;
pub mod strict;
pub mod trailing;
pub mod writing;

pub use lines::{parse, parse_ignore_errors, parse_strict};

//! What the programs share: reading files, streams and contacts, writing text, messages and exit statuses.
#![tactic(auto)]

pub mod answering;
pub mod arguments;
pub mod counting;
pub mod failure;
pub mod files;
pub mod messages;
pub mod outcome;
pub mod piped;
pub mod printer;
pub mod start;
pub mod streams;

/// The version of all programs, as in the file `VERSION`.
pub const VERSION: &str = "0.1.0";

//! Finds what is wrong with the lines of mailmaps, and which lines can be deleted. An internal crate of `gix_mailmap`,
//! which re-exports what users need.
#![tactic(auto)]

pub mod explain;
pub mod git;
pub mod laws;
pub mod needs;
pub mod remarks;
pub mod verify;

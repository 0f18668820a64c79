//! The tables of a snapshot, and merges of entries into them. This is internal to the library.
#![tactic(auto)]

pub mod listing;
mod merge;
mod put;
pub mod rows;
pub mod search;
pub mod tables;
pub mod texts;
pub mod view;

//! Batches of entries, sorted so that the entries of each key are neighbours. This is internal to the library.
#![tactic(auto)]

pub mod batch;
pub mod groups;
pub mod indexed;

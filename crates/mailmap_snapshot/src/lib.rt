//! Snapshots of mailmaps, their answers to contacts, and signatures of commits. `gix_mailmap` re-exports all of these.
#![tactic(auto)]

pub mod actor;
pub mod check;
pub mod date;
pub mod laws;
pub mod snapshot;

pub use snapshot::Snapshot;

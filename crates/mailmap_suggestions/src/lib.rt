//! Which lines a mailmap lacks for the contacts of a history. An internal crate of `gix_mailmap`.
#![tactic(auto)]

mod answers;
mod changes;
mod classes;
mod counted;
mod entries;
pub mod findings;
mod git_contacts;
mod groups;
mod histories;
mod holders;
mod keys;
pub mod kinds;
pub mod laws;
mod links;
mod marks;
mod members;
mod remembered;
mod shared;
pub mod shortened;
pub mod suggestions;
pub mod text;
pub mod unneeded;

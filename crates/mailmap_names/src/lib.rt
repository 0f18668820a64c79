//! What the names of one person, and the logins of that person's emails, have in common. An internal crate of
//! `gix_mailmap`.
#![tactic(auto)]

mod keys;
pub mod logins;
pub mod names;
pub mod words;

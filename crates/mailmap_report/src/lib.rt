//! The words of a report: what is said about findings in mailmaps and about contacts, as lines or as JSON, and which
//! lines are behind the answer to a contact. Programs print them, and the library for C hands them out.
#![tactic(auto)]

mod alike;
mod escapes;
pub mod explanation;
mod github;
mod json;
pub mod kinds;
mod message;
pub mod notice;
pub mod pieces;
pub mod places;
pub mod settings;
pub mod suggested;
mod texts;

//! The program `mailmap_verify`, except for its `main`: its arguments and its modes, over any reader, writer and file
//! system. `command_line` has what the programs share, and `mailmap_report` the words that are printed.
#![tactic(auto)]

mod asked;
pub mod contacts;
pub mod explanation;
pub mod failure;
pub mod in_place;
pub mod replacing;
pub mod report;
pub mod request;
pub mod task;

//! Escapes in texts that are shown in a terminal or in a log. The library and the programs use it.
#![tactic(auto)]

pub mod shown;

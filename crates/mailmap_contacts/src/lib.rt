//! The contacts of a history: counts them, adds up the counts of their answers, and says which of some answers is the
//! proper one.
#![tactic(auto)]

pub mod answers;
pub mod counter;
pub mod folded;
pub mod laws;
pub mod occurrences;
pub mod proper;

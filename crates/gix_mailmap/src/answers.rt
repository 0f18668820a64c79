//! Contacts and answers with their occurrences, and the lines that contacts need.

pub use mailmap_contacts::answers::{Tally, answers_in, by_first_lines};
pub use mailmap_suggestions::unneeded::add_to_needs;

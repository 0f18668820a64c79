//! What callers can rely on, proved from the contracts and laws of `gix_mailmap` alone. A contract that lost anything
//! needed here would be refused.
//!
//! - `calls` and `answers`: the headline of the library, for a snapshot built from any sources, by any calls that
//!   merge, and for all calls that resolve. A source without an accepted entry is never left out.
//! - `listings`: the headline for all calls that list, copy or compare.
//! - `rebuilding`: the entries of any snapshot rebuild it, and its text parses to an equal one.
//! - `pruning`: the findings in a pruned mailmap; that it maps the same and no line of it can be dropped; and git's
//!   answers.
//! - `shelf`: files whose bytes contracts know, and which were replaced, for what the programs' contracts say of files.
//! - `suggesting`: from the bytes of mailmaps and of contacts to the lines that are suggested, and to the answers with
//!   these lines appended.
#![tactic(auto)]

pub mod answers;
pub mod calls;
pub mod listings;
pub mod pruning;
pub mod rebuilding;
pub mod shelf;
pub mod suggesting;

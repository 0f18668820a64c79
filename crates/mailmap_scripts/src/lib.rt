//! Scripts for tests: calls of the library, each with its answer below it.
//!
//! ```text
//! # an email in another case gets the spelling that is kept
//! new P <x@y>
//! lookups Bob <X@y>
//!     P <x@y>
//!     P <x@y>
//!     P <x@y>
//! ```
//!
//! A line that isn't indented is a call: a word, and what the call is given. The indented lines below it are its
//! answer. A line with `#` says what the calls below it show, and empties the snapshot that calls change and ask; one
//! with `##` begins a subject. Each module has the words of its subject, beginning with [`lines`].
//!
//! In what is given and in answers, `\n`, `\r` and `\xff` stand for a byte, and `""` for an empty text. Given texts
//! are parted by `; `. Where memory ran out, the answer is another one.
//!
//! Calls are imported from the crates that have them: a check of a crate over `gix_mailmap`, which re-exports them,
//! takes longer.
#![tactic(auto)]

mod answers;
mod lines;
mod orders;
mod script;
mod snapshots;

pub use script::answered;

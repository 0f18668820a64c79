//! The functions behind the C library: they write the answers of the crate `gix_mailmap` into the caller's buffers.
//!
//! C programs call the functions in `c/gix_mailmap.c`, which call these in a few lines each. Each call returns one of
//! the codes in [`status`].
#![tactic(auto)]

mod buffers;
mod copies;
pub mod handle;
mod held;
pub mod listing;
pub mod lookup;
pub mod notices;
pub mod parsing;
pub mod several;
pub mod status;
pub mod stream;
pub mod texts;

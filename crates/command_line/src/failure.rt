//! Errors that end a program.
ghost use Rattle.std.specs.Prelude.{◌≡◌};
ghost use Rattle.command_line.specs.declared.failure.Failure.TheVariants.{Memory};

use std::alloc::{AllocError, AllocFailed};
use std::io::ErrorKind;
use thiserror::Error;

/// Why a program ends early, with the exit status 2. The `Display` text leaves out the path and the cause, as in
/// `cannot read file 1`; [`messages`](crate::messages) adds them.
#[derive(Clone, Copy, Debug, PartialEq, Eq, Error)]
pub enum Failure {
    /// A file can't be read: its number among the paths, from 1, and the cause.
    #[error("cannot read file {number}")]
    File { number: usize, cause: ErrorKind },
    /// Standard input can't be read.
    #[error("cannot read standard input")]
    Input { cause: ErrorKind },
    /// The contacts are in git log's own format.
    #[error("the contacts are git log's own format")]
    GitLog,
    /// There is no memory for the arguments, for the bytes that are read, or for processing them.
    #[error("out of memory")]
    Memory,
    /// Standard output can't be written, whatever the cause.
    #[error("cannot write output")]
    Output,
}

impl From<AllocError> for Failure {
    ghost from_gives = { λ _ failure. failure ≡ Memory };

    fn from(_error: AllocError) -> Failure {
        Failure::Memory
    }
}

impl<T: Drop> From<AllocFailed<T>> for Failure {
    ghost from_gives = { λ _ failure. failure ≡ Memory };

    fn from(_error: AllocFailed<T>) -> Failure {
        Failure::Memory
    }
}

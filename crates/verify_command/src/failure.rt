//! Errors that end `mailmap_verify`.
ghost use Rattle.std.specs.Prelude.{◌≡◌};
ghost use Rattle.command_line.specs.declared.failure.Failure.TheVariants.{Memory};
ghost use Rattle.verify_command.specs.declared.failure.TaskFailure.TheVariants.{Run};

use command_line::failure::Failure;
use mailmap_findings::verify::Position;
use std::alloc::AllocError;
use std::io::ErrorKind;

/// Why a task failed.
#[derive(Clone, Copy)]
pub enum TaskFailure {
    /// A failure that other programs have, too.
    Run(Failure),
    /// The file with contacts can't be read.
    Contacts { cause: ErrorKind },
    /// More than one file for `--prune`, which prints one mailmap. Nothing is read then.
    TooManyFiles,
    /// The first line of the mailmaps to prune that git reads in another way. git's answers could change by pruning, so
    /// nothing is written.
    ReadOtherwise { position: Position },
    /// A file can't be replaced: its index among the paths, and the cause. It is as it was, as are those after it.
    Unreplaced { index: usize, cause: ErrorKind },
}

impl From<Failure> for TaskFailure {
    ghost from_gives = { λ cause failure. failure ≡ Run cause };

    fn from(cause: Failure) -> TaskFailure {
        TaskFailure::Run(cause)
    }
}

impl From<AllocError> for TaskFailure {
    ghost from_gives = { λ _ failure. failure ≡ Run Memory };

    fn from(_error: AllocError) -> TaskFailure {
        TaskFailure::Run(Failure::Memory)
    }
}

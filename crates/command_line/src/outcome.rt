//! The exit status of a program.
ghost use Rattle.std.specs.Prelude.{◌≡◌};
ghost use Rattle.std.specs.Process.{exit_status};
ghost use Rattle.command_line.specs.Outcome.{status_of};

use std::process::ExitCode;

/// The result of a run without a failure.
#[derive(Clone, Copy, Debug, PartialEq, Eq)]
pub enum Outcome {
    /// Nothing is wrong.
    Clean,
    /// The input has findings, which the output lists.
    Found,
}

/// 0 if nothing is wrong, 1 if there are findings, and 2 after a failure.
pub fn exit_code<E: Drop>(ended: Result<Outcome, E>) -> ExitCode
    ensures { exit_status result ≡ status_of ended }
{
    match ended {
        Ok(Outcome::Clean) => ExitCode::SUCCESS,
        Ok(Outcome::Found) => ExitCode::from(1),
        Err(_) => ExitCode::from(2),
    }
}

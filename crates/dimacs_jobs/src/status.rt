//! How a run ends.

ghost use Rattle.std.specs.Prelude.{◌≡◌, Some, None, IfSome, IfNone};
ghost use Rattle.dimacs_jobs.specs.Outcomes.{complaint_of, status_number};

use dimacs_lines::{DeviceFault, Memory};
use thiserror::Error;

/// The end of a run that had no error.
#[derive(Clone, Copy, Debug, PartialEq, Eq)]
pub enum Status {
    /// It wrote the answer. A solver that finds that no flow is feasible is done too.
    Done,
    /// It wrote a refusal: a text has a fault, or a test fails.
    Refused,
    /// It wrote the line `g limit`: the solver gave up.
    GaveUp,
}

/// Why a run did not write all of its output.
#[derive(Clone, Copy, Debug, PartialEq, Eq, Error)]
pub enum RunError {
    /// An I/O error: a call of a source, a sink or a file failed.
    #[error("I/O error")]
    Device,
    /// Out of memory.
    #[error("out of memory")]
    Memory,
}

impl From<DeviceFault> for RunError {
    ghost use Rattle.dimacs_jobs.specs.declared.status.RunError.TheVariants.{Device};

    ghost from_gives = { λ fault error. error ≡ Device };

    fn from(_fault: DeviceFault) -> RunError {
        RunError::Device
    }
}

impl From<Memory> for RunError {
    ghost use Rattle.dimacs_jobs.specs.declared.status.RunError.TheVariants as errors;

    ghost from_gives = { λ memory error. error ≡ errors.Memory };

    fn from(_memory: Memory) -> RunError {
        RunError::Memory
    }
}

/// The exit status of the command: 0, 1 and 5 for `Done`, `Refused` and `GaveUp`, 3 and 4 for `Device` and `Memory`.
pub fn exit_status(outcome: &Result<Status, RunError>) -> u8
    ensures { result ≡ status_number outcome.now }
{
    match outcome {
        Ok(Status::Done) => 0,
        Ok(Status::Refused) => 1,
        Ok(Status::GaveUp) => 5,
        Err(RunError::Device) => 3,
        Err(RunError::Memory) => 4,
    }
}

/// The exit status if the arguments ask for no run.
pub const NO_RUN: u8 = 2;

/// The line on the standard error for an exit status, if it has one.
pub fn complaint(status: u8) -> Option<&'static str>
    ensures line { IfSome result (λ line. complaint_of status ≡ Some line.now) }
    ensures no_line { IfNone result (complaint_of status ≡ None) }
{
    match status {
        NO_RUN => Some("dimacs: usage"),
        3 => Some("dimacs: device fault"),
        4 => Some("dimacs: out of memory"),
        _ => None,
    }
}

//! The errors of a command, which name the file.

ghost use Rattle.std.specs.Prelude.{◌≡◌};
ghost use Rattle.dimacs_runs.specs.{Outcomes.{failed_call, failed_device}, inside.Commands.{named}};

use dimacs_jobs::RunError;
use std::fmt;
use thiserror::Error;

/// An operation on a file.
#[derive(Clone, Copy, Debug, PartialEq, Eq)]
pub enum FileCall {
    Open,
    Create,
    Read,
    Write,
}

/// An operation that failed.
#[derive(Clone, Copy, Debug, PartialEq, Eq)]
pub enum Failure<'a> {
    /// On the file with this name.
    File(FileCall, &'a str),
    /// A write to the standard output.
    Output,
}

impl<'a> Failure<'a> {
    /// The name of the file, or `standard output`.
    pub fn device(&self) -> &'a str
        ensures { result.now ≡ failed_device self.now }
    {
        match self {
            Failure::File(_, name) => name,
            Failure::Output => "standard output",
        }
    }

    /// The end of a message that begins with the name, such as `cannot be opened`.
    pub fn call(&self) -> &'static str
        ensures { result.now ≡ failed_call self.now }
    {
        match self {
            Failure::File(FileCall::Open, _) => "cannot be opened",
            Failure::File(FileCall::Create, _) => "cannot be created",
            Failure::File(FileCall::Read, _) => "cannot be read",
            Failure::File(FileCall::Write, _) | Failure::Output => "cannot be written",
        }
    }
}

impl fmt::Display for Failure<'_> {
    fn fmt<W: fmt::Write>(&self, f: &mut fmt::Formatter<W>) -> fmt::Result {
        write!(f, "{} {}", self.device(), self.call())
    }
}

/// Why a command did not write all of its output.
#[derive(Clone, Copy, Debug, PartialEq, Eq, Error)]
pub enum CommandError<'a> {
    /// An I/O error.
    #[error("{0}")]
    Device(Failure<'a>),
    /// Out of memory.
    #[error("out of memory")]
    Memory,
}

/// The same error, of a command that could not open or create this file.
pub(crate) fn on_file<'a>(error: RunError, call: FileCall, name: &'a str) -> CommandError<'a>
    ensures device { error ≡ RunError.Device → result ≡ CommandError.Device (Failure.File call name.entry) }
    ensures memory { error ≡ RunError.Memory → result ≡ CommandError.Memory }
{
    match error {
        RunError::Device => CommandError::Device(Failure::File(call, name)),
        RunError::Memory => CommandError::Memory,
    }
}

/// Adds the failed operation to an I/O error. If no file failed, the standard output did: a run has no other device.
pub(crate) fn name_failure<'a, X>(
    ended: Result<X, RunError>,
    failure: Option<Failure<'a>>,
) -> Result<X, CommandError<'a>>
    ensures { result ≡ named ended failure.entry }
{
    match ended {
        Ok(value) => Ok(value),
        Err(RunError::Device) => Err(CommandError::Device(failure.unwrap_or(Failure::Output))),
        Err(RunError::Memory) => Err(CommandError::Memory),
    }
}

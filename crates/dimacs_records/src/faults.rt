//! Where a text is refused, and what else may stop reading.

ghost use Rattle.std.specs.Prelude.{◌≡◌};
ghost use Rattle.dimacs_records.specs.declared.faults.TakeError.TheVariants.{Refused};

use crate::reasons::Reason;
use dimacs_lines::Memory;
use std::alloc::AllocFailed;
use std::fmt;
use thiserror::Error;

/// A fault of a line. Fields count from 1; 0 is the whole line.
#[derive(Clone, Copy, Debug, PartialEq, Eq, Error)]
#[error("field {field}: {reason}")]
pub struct LineFault {
    pub field: u32,
    pub reason: Reason,
}

/// A place in a text. Lines count from 1; the field is as in [`LineFault`]. A fault at the end of a text has the number
/// of lines plus one, and field 0.
#[derive(Clone, Copy, Debug, PartialEq, Eq)]
pub struct At {
    pub line: u64,
    pub field: u32,
}

impl fmt::Display for At {
    fn fmt<W: fmt::Write>(&self, f: &mut fmt::Formatter<W>) -> fmt::Result {
        write!(f, "line {}, field {}", self.line, self.field)
    }
}

/// Why a record isn't taken, or the records give no value.
#[derive(Clone, Copy, Debug, PartialEq, Eq, Error)]
pub enum TakeError {
    /// The record has this fault.
    #[error("{0}")]
    Refused(LineFault),
    /// Out of memory.
    #[error("out of memory")]
    Memory,
}

impl TakeError {
    /// A refusal at this field.
    pub fn refused(field: u32, reason: Reason) -> TakeError
        ensures { result ≡ Refused (record { field = field; reason = reason }) }
    {
        TakeError::Refused(LineFault { field, reason })
    }
}

impl From<Memory> for TakeError {
    ghost use Rattle.dimacs_records.specs.declared.faults.TakeError.TheVariants as errors;

    ghost from_gives = { λ memory error. error ≡ errors.Memory };

    fn from(_memory: Memory) -> TakeError {
        TakeError::Memory
    }
}

impl<T: Drop> From<AllocFailed<T>> for TakeError {
    ghost use Rattle.dimacs_records.specs.declared.faults.TakeError.TheVariants as errors;

    ghost from_gives = { λ failed error. error ≡ errors.Memory };

    fn from(_failed: AllocFailed<T>) -> TakeError {
        TakeError::Memory
    }
}

/// Why a text couldn't be read.
#[derive(Clone, Copy, Debug, PartialEq, Eq, Error)]
pub enum ReadError {
    /// The text's first fault.
    #[error("{0}: {1}")]
    Refused(At, Reason),
    /// I/O error: a read failed.
    #[error("I/O error")]
    Device,
    /// Out of memory.
    #[error("out of memory")]
    Memory,
}

impl From<Memory> for ReadError {
    ghost use Rattle.dimacs_records.specs.declared.faults.ReadError.TheVariants as errors;

    ghost from_gives = { λ memory error. error ≡ errors.Memory };

    fn from(_memory: Memory) -> ReadError {
        ReadError::Memory
    }
}

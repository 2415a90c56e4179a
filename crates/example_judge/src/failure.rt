//! Why the answer isn't yes.

use dimacs_judge::{JudgeError, Where};
use dimacs_lines::{DeviceFault, Memory};
use dimacs_records::{At, ReadError, Reason};
use std::io;

/// An error, or a refusal.
#[derive(Clone, Copy, Debug, PartialEq, Eq)]
pub enum Failure {
    /// The arguments aren't two names.
    Misused,
    /// I/O error: a file or the output failed.
    Device,
    /// Out of memory.
    Memory,
    /// The first fault of a text, by the text's name.
    Fault(&'static str, At, Reason),
    /// The first test that fails.
    Refused(Where, Reason),
}

impl Failure {
    /// The error of reading this text.
    pub fn of(text: &'static str, error: ReadError) -> Failure {
        match error {
            ReadError::Refused(at, reason) => Failure::Fault(text, at, reason),
            ReadError::Device => Failure::Device,
            ReadError::Memory => Failure::Memory,
        }
    }

    /// Prints a refusal, and returns the exit status.
    pub fn status(self, rt: &HostRuntime) -> u8 {
        let printed = match self {
            Failure::Misused => return 2,
            Failure::Device => return 3,
            Failure::Memory => return 4,
            Failure::Fault(text, at, reason) => println!(rt; "x {text}, {at}: {reason}"),
            Failure::Refused(place, reason) => println!(rt; "x {place}: {reason}"),
        };
        if printed.is_ok() { 1 } else { 3 }
    }
}

impl From<JudgeError> for Failure {
    fn from(error: JudgeError) -> Failure {
        match error {
            JudgeError::Refused(place, reason) => Failure::Refused(place, reason),
            JudgeError::Memory => Failure::Memory,
        }
    }
}

impl From<Memory> for Failure {
    fn from(_memory: Memory) -> Failure {
        Failure::Memory
    }
}

impl From<DeviceFault> for Failure {
    fn from(_fault: DeviceFault) -> Failure {
        Failure::Device
    }
}

impl From<io::Error> for Failure {
    fn from(error: io::Error) -> Failure {
        match error.kind() {
            io::ErrorKind::OutOfMemory => Failure::Memory,
            _ => Failure::Device,
        }
    }
}

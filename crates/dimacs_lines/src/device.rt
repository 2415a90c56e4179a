//! Traits for input and output, piece by piece, and their errors.

ghost use Rattle.std.specs.Prelude.{◌≡◌, ◌<◌, ◌≤◌, [], ℕ, List, Option, take, length, IfOk, IfSome, OnErr, Ok};
ghost use Rattle.dimacs_lines.specs.{Devices.{before_piece, after_piece, CountsFault, CountsPut, Written}, Puts.{Puts}};

use std::alloc::{AllocError, AllocFailed};
use thiserror::Error;

/// An I/O error: a read or a write failed, or a sink accepted nothing of some bytes.
#[derive(Clone, Copy, Debug, PartialEq, Eq, Error)]
#[error("I/O error")]
pub struct DeviceFault;

/// Out of memory: an allocation failed.
#[derive(Clone, Copy, Debug, PartialEq, Eq, Error)]
#[error("out of memory")]
pub struct Memory;

impl From<AllocError> for Memory {
    fn from(_: AllocError) -> Memory {
        Memory
    }
}

impl<T: Drop> From<AllocFailed<T>> for Memory {
    fn from(_: AllocFailed<T>) -> Memory {
        Memory
    }
}

/// Input: the bytes of a text, piece by piece.
pub trait Source {
    /// The bytes still to come; `None` if they aren't known, as those of files.
    ghost coming: { Self → Option (List ℕ) };

    /// How many calls have failed, modulo 2^64.
    ghost faults: { Self → ℕ };

    /// Fills the front of `into` with the next bytes, and returns their count. If `into` isn't empty, 0 means the end.
    /// A call that fails takes no bytes, and may be repeated.
    fn pull(&mut self, into: &mut [u8]) -> Result<usize, DeviceFault>
        ensures room { IfOk result (λ k. k ≤ length into.old) }
        ensures given { IfOk result (λ k. coming self.old ≡ before_piece (take k into.new) (coming self.new)) }
        ensures end { 0 < length into.old → result ≡ Ok 0 → IfSome (coming self.old) (λ bytes. bytes ≡ []) }
        ensures unchanged { OnErr result (coming self.new ≡ coming self.old) }
        ensures faults { CountsFault result (faults self.old) (faults self.new) };
}

/// Output: accepts the bytes of a text, piece by piece.
pub trait Sink {
    /// The bytes accepted so far, and how many calls have failed.
    ghost seen: { Self → Written };

    /// Accepts some of the first bytes, and returns how many; a call that fails, none. `Ok(0)` for a piece that isn't
    /// empty counts as a fault too: a caller that tries again might never end.
    fn put(&mut self, bytes: &[u8]) -> Result<usize, DeviceFault>
        ensures room { IfOk result (λ k. k ≤ length bytes.now) }
        ensures taken { IfOk result (λ k. (seen self.new).accepted ≡ after_piece (seen self.old).accepted (take k bytes.now)) }
        ensures unchanged { OnErr result ((seen self.new).accepted ≡ (seen self.old).accepted) }
        ensures faults { CountsPut result bytes.now (seen self.old).faults (seen self.new).faults };
}

/// Writes all bytes, in as many calls as it takes. After an error the sink has accepted the first of them, or none.
pub fn put_all<S: Sink>(sink: &mut S, bytes: &[u8]) -> Result<(), DeviceFault>
    ensures { Puts result (S.seen sink.old) bytes.now (S.seen sink.new) }
{
    let mut done = 0;
    while done < bytes.len() {
        let count = sink.put(&bytes[done..])?;
        if count == 0 {
            return Err(DeviceFault);
        }
        done += count;
    }
    Ok(())
}

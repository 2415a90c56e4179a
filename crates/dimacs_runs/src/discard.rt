//! A sink that keeps nothing.

ghost use Rattle.std.specs.Prelude.{None};

use dimacs_lines::{DeviceFault, Sink};

/// Stands for an output that a run doesn't have.
#[derive(Drop)]
pub(crate) struct Discard;

// The contracts are those of `Sink`, in dimacs_lines/src/device.rt.
impl Sink for Discard {
    ghost seen = { λ s. record { accepted = None; faults = 0 } };

    fn put(&mut self, bytes: &[u8]) -> Result<usize, DeviceFault> {
        Ok(bytes.len())
    }
}

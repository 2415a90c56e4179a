//! A sink of this program's own.

use dimacs_lines::{DeviceFault, Sink};

/// FNV-1a: the checksum of no bytes, and the factor of each byte.
pub const START: u32 = 0x811c_9dc5;

const PRIME: u32 = 0x0100_0193;

/// Writes to another sink, and has the checksum of the bytes that it accepted. Nothing is proved of the checksum.
#[derive(Drop)]
pub struct Checksum<K> {
    pub sink: K,
    pub sum: u32,
}

/// It states the bytes and faults of the other sink.
// The contracts are those of `Sink`, in dimacs_lines/src/device.rt.
impl<K: Sink> Sink for Checksum<K> {
    ghost seen = { λ s. K.seen s.sink };

    fn put(&mut self, bytes: &[u8]) -> Result<usize, DeviceFault> {
        let count = self.sink.put(bytes)?;
        let mut sum = self.sum;
        for byte in &bytes[..count] {
            sum = (sum ^ u32::from(*byte)).wrapping_mul(PRIME);
        }
        self.sum = sum;
        Ok(count)
    }
}

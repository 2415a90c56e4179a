//! Sinks in memory, one of them for tests.

ghost use Rattle.std.specs.Prelude.{◌≡◌, ◌≤◌, [], Some, IfOk, OnErr, IsErr, IsTrue, take, length};
ghost use Rattle.dimacs_lines.specs.Devices.{InMemory, Flaky, after_piece, CountsPut, cut_by, next_call, fails_next, sizes_left};

use crate::device::{DeviceFault, Sink};
use crate::sources::next_piece;
use std::alloc::Global;
use std::marker::Model;

/// Keeps the bytes that it accepts. Out of memory counts as a fault.
#[derive(Drop)]
pub struct MemorySink {
    bytes: Vec<u8>,
    faults: u64,
}

impl Model for MemorySink {
    ghost Value = { InMemory };

    ghost view = { λ s. record { bytes = s.bytes.items; faults = s.faults } };
}

impl MemorySink {
    /// An empty sink. The first put allocates.
    pub fn new(alloc: Global) -> MemorySink
        ensures { result ≡ record { bytes = []; faults = 0 } }
    {
        MemorySink {
            bytes: Vec::new(alloc),
            faults: 0,
        }
    }

    /// The bytes accepted so far.
    pub fn bytes(&self) -> &[u8]
        ensures { result.now ≡ self.now.bytes }
    {
        self.bytes.as_slice()
    }
}

impl Sink for MemorySink {
    ghost seen = { λ s. record { accepted = Some s.bytes; faults = s.faults } };

    fn put(&mut self, bytes: &[u8]) -> Result<usize, DeviceFault>
        ensures whole { IfOk result (λ count. count ≡ length bytes.now) }

        // These hold for every sink.
        ensures room { IfOk result (λ count. count ≤ length bytes.now) }
        ensures taken { IfOk result (λ count. Some self.new.bytes ≡ after_piece (Some self.old.bytes) (take count bytes.now)) }
        ensures unchanged { OnErr result (Some self.new.bytes ≡ Some self.old.bytes) }
        ensures faults { CountsPut result bytes.now self.old.faults self.new.faults }
    {
        match self.bytes.extend_from_slice(bytes) {
            Ok(()) => Ok(bytes.len()),
            Err(_) => {
                self.faults = self.faults.wrapping_add(1);
                Err(DeviceFault)
            }
        }
    }
}

/// A `MemorySink` for tests. Each put accepts at most the next of `sizes` (a 0 counts as 1); after the list, all bytes.
/// The puts listed in `fails`, counted from 1, fail, and use up no size.
#[derive(Drop)]
pub struct FlakySink<'a> {
    memory: MemorySink,
    sizes: &'a [usize],
    fails: &'a [u64],
    puts: u64,
}

impl<'a> Model for FlakySink<'a> {
    ghost Value = { Flaky };

    ghost view = { λ s. record { bytes = s.memory.bytes; faults = s.memory.faults; sizes = s.sizes.now; fails = s.fails.now; calls = s.puts } };
}

impl<'a> FlakySink<'a> {
    /// An empty sink.
    pub fn new(alloc: Global, sizes: &'a [usize], fails: &'a [u64]) -> FlakySink<'a>
        ensures { result ≡ record { bytes = []; faults = 0; sizes = sizes.now; fails = fails.now; calls = 0 } }
    {
        FlakySink {
            memory: MemorySink::new(alloc),
            sizes,
            fails,
            puts: 0,
        }
    }

    /// The bytes accepted so far.
    pub fn bytes(&self) -> &[u8]
        ensures { result.now ≡ self.now.bytes }
    {
        self.memory.bytes()
    }

    /// How many puts failed so far, modulo 2^64.
    pub fn faults(&self) -> u64
        ensures { result ≡ self.now.faults }
    {
        self.memory.faults
    }
}

impl<'a> Sink for FlakySink<'a> {
    ghost seen = { λ s. record { accepted = Some s.bytes; faults = s.faults } };

    fn put(&mut self, bytes: &[u8]) -> Result<usize, DeviceFault>
        ensures fails_as_listed { IsTrue (fails_next self.old) → IsErr result }
        ensures piece { IfOk result (λ count. count ≡ cut_by self.old.sizes (length bytes.now)) }
        ensures sizes { self.new.sizes ≡ sizes_left self.old }
        ensures calls { self.new.calls ≡ next_call self.old }
        ensures list_unchanged { self.new.fails ≡ self.old.fails }

        // These hold for every sink.
        ensures room { IfOk result (λ count. count ≤ length bytes.now) }
        ensures taken { IfOk result (λ count. Some self.new.bytes ≡ after_piece (Some self.old.bytes) (take count bytes.now)) }
        ensures unchanged { OnErr result (Some self.new.bytes ≡ Some self.old.bytes) }
        ensures faults { CountsPut result bytes.now self.old.faults self.new.faults }
    {
        self.puts = self.puts.saturating_add(1);
        if self.fails.contains(&self.puts) {
            self.memory.faults = self.memory.faults.wrapping_add(1);
            return Err(DeviceFault);
        }
        let count = next_piece(&mut self.sizes, bytes.len());
        self.memory.put(&bytes[..count])
    }
}

//! Sources in memory, two of them for tests.

ghost use Rattle.std.specs.Prelude.{◌≡◌, ◌↔◌, ◌≤◌, ◌<◌, [], List, ℕ, Some, Ok, IfOk, OnErr, IsErr, IsTrue, drop, take, length, min};
ghost use Rattle.dimacs_lines.specs.Devices.{InPieces, Flaky, before_piece, CountsFault, cut_by, next_call, fails_next, sizes_left};

use crate::device::{DeviceFault, Source};
use std::marker::Model;

/// Bytes in memory. Each pull gives as many as fit.
#[derive(Drop)]
pub struct MemorySource<'a> {
    rest: &'a [u8],
}

impl<'a> Model for MemorySource<'a> {
    ghost Value = { List ℕ };

    ghost view = { λ s. s.rest.now };
}

impl<'a> MemorySource<'a> {
    /// A source of these bytes. It never fails.
    pub fn new(bytes: &'a [u8]) -> MemorySource<'a>
        ensures { result ≡ bytes.now }
    {
        MemorySource { rest: bytes }
    }
}

impl<'a> Source for MemorySource<'a> {
    ghost coming = { λ s. Some s };

    ghost faults = { λ s. 0 };

    fn pull(&mut self, into: &mut [u8]) -> Result<usize, DeviceFault>
        ensures piece { result ≡ Ok (min (length into.old) (length self.old)) }

        // These hold for every source.
        ensures room { IfOk result (λ count. count ≤ length into.old) }
        ensures given { IfOk result (λ count. Some self.old ≡ before_piece (take count into.new) (Some self.new)) }
        ensures end { 0 < length into.old → result ≡ Ok 0 → self.old ≡ [] }
        ensures unchanged { OnErr result (Some self.new ≡ Some self.old) }
        ensures faults { CountsFault result 0 0 }
    {
        let count = into.len().min(self.rest.len());
        let (front, back) = self.rest.split_at(count);
        into[..count].copy_from_slice(front);
        self.rest = back;
        Ok(count)
    }
}

/// Bytes in memory, in pieces. Each pull gives at most the next of `sizes` (a 0 counts as 1); after the list, as many
/// as fit.
#[derive(Drop)]
pub struct CutSource<'a> {
    text: MemorySource<'a>,
    sizes: &'a [usize],
}

impl<'a> Model for CutSource<'a> {
    ghost Value = { InPieces };

    ghost view = { λ s. record { bytes = s.text; sizes = s.sizes.now } };
}

impl<'a> CutSource<'a> {
    /// A source of these bytes. It never fails.
    pub fn new(bytes: &'a [u8], sizes: &'a [usize]) -> CutSource<'a>
        ensures { result ≡ record { bytes = bytes.now; sizes = sizes.now } }
    {
        let text = MemorySource::new(bytes);
        CutSource { text, sizes }
    }
}

impl<'a> Source for CutSource<'a> {
    ghost coming = { λ s. Some s.bytes };

    ghost faults = { λ s. 0 };

    fn pull(&mut self, into: &mut [u8]) -> Result<usize, DeviceFault>
        ensures piece { result ≡ Ok (min (cut_by self.old.sizes (length into.old)) (length self.old.bytes)) }
        ensures sizes { self.new.sizes ≡ drop 1 self.old.sizes }

        // These hold for every source.
        ensures room { IfOk result (λ count. count ≤ length into.old) }
        ensures given { IfOk result (λ count. Some self.old.bytes ≡ before_piece (take count into.new) (Some self.new.bytes)) }
        ensures end { 0 < length into.old → result ≡ Ok 0 → self.old.bytes ≡ [] }
        ensures unchanged { OnErr result (Some self.new.bytes ≡ Some self.old.bytes) }
        ensures faults { CountsFault result 0 0 }
    {
        let count = next_piece(&mut self.sizes, into.len());
        self.text.pull(&mut into[..count])
    }
}

/// The size of the next piece: up to `most`, and to the next of `sizes`, which it uses up. A 0 counts as 1.
pub(crate) fn next_piece<'a>(sizes: &mut &'a [usize], most: usize) -> usize
    ensures cut { result ≡ cut_by sizes.old.now most }
    ensures used { sizes.new.now ≡ drop 1 sizes.old.now }
{
    match sizes.split_first() {
        Some((size, rest)) => {
            *sizes = rest;
            most.min((*size).max(1))
        }
        None => most,
    }
}

/// A `CutSource` for tests. The pulls listed in `fails`, counted from 1, fail, and use up no size.
#[derive(Drop)]
pub struct FlakySource<'a> {
    text: CutSource<'a>,
    fails: &'a [u64],
    pulls: u64,
    faults: u64,
}

impl<'a> Model for FlakySource<'a> {
    ghost Value = { Flaky };

    ghost view = { λ s. record { bytes = s.text.bytes; faults = s.faults; sizes = s.text.sizes; fails = s.fails.now; calls = s.pulls } };
}

impl<'a> FlakySource<'a> {
    /// A source of these bytes.
    pub fn new(bytes: &'a [u8], sizes: &'a [usize], fails: &'a [u64]) -> FlakySource<'a>
        ensures { result ≡ record { bytes = bytes.now; faults = 0; sizes = sizes.now; fails = fails.now; calls = 0 } }
    {
        FlakySource {
            text: CutSource::new(bytes, sizes),
            fails,
            pulls: 0,
            faults: 0,
        }
    }

    /// How many pulls failed so far, modulo 2^64.
    pub fn faults(&self) -> u64
        ensures { result ≡ self.now.faults }
    {
        self.faults
    }
}

impl<'a> Source for FlakySource<'a> {
    ghost coming = { λ s. Some s.bytes };

    ghost faults = { λ s. s.faults };

    fn pull(&mut self, into: &mut [u8]) -> Result<usize, DeviceFault>
        ensures fails_as_listed { IsErr result ↔ IsTrue (fails_next self.old) }
        ensures piece { IfOk result (λ count. count ≡ min (cut_by self.old.sizes (length into.old)) (length self.old.bytes)) }
        ensures sizes { self.new.sizes ≡ sizes_left self.old }
        ensures calls { self.new.calls ≡ next_call self.old }
        ensures list_unchanged { self.new.fails ≡ self.old.fails }

        // These hold for every source.
        ensures room { IfOk result (λ count. count ≤ length into.old) }
        ensures given { IfOk result (λ count. Some self.old.bytes ≡ before_piece (take count into.new) (Some self.new.bytes)) }
        ensures end { 0 < length into.old → result ≡ Ok 0 → self.old.bytes ≡ [] }
        ensures unchanged { OnErr result (Some self.new.bytes ≡ Some self.old.bytes) }
        ensures faults { CountsFault result self.old.faults self.new.faults }
    {
        self.pulls = self.pulls.saturating_add(1);
        if self.fails.contains(&self.pulls) {
            self.faults = self.faults.wrapping_add(1);
            return Err(DeviceFault);
        }
        self.text.pull(into)
    }
}

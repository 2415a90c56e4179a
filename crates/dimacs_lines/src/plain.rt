//! Fast reading of numbers in their most common form, from the buffer of a reader: right after each stands a given
//! byte, a blank or the line's end. `Scan` reads all other lines.

ghost use Rattle.std.specs.Prelude.{◌≡◌, ◌≤◌, ◌<◌, ◌+◌, ◌∷◌, pos, length, take, drop, IfSome, IfNone};
ghost use Rattle.std.specs.Bool.{MatchBool};
ghost use Rattle.dimacs_lines.specs.{Plain.{StandsAt}, inside.Plain.{DigitsAt, IsRunOfDigits, TakesMinus, ends_of}};

use crate::digits::digits_value;
use std::marker::Model;
use std::simd::prelude::*;

/// The 32 bytes and eight more: a number that starts in the 32 is read as eight bytes.
const ROOM: usize = 40;

/// The numbers of a line, from left to right. The ends of all numbers in 32 bytes are found at once.
#[derive(Drop)]
pub struct PlainNumbers<'a> {
    bytes: &'a [u8],
    /// Where the 32 bytes start.
    start: usize,
    /// A bit for each of them that is no digit, the first one lowest, but none before `at`.
    ends: u32,
    /// The place of the next number, counted from `start`.
    at: usize,
}

/// A number, and those after it.
#[derive(Drop)]
struct Taken<'a> {
    size: u64,
    rest: PlainNumbers<'a>,
}

impl<'a> Model for PlainNumbers<'a> {
    ghost use Rattle.std.specs.Prelude.{◌≡◌, ◌≤◌, ◌+◌, length};
    ghost use Rattle.dimacs_lines.specs.Plain.{NumbersLeft};
    ghost use Rattle.dimacs_lines.specs.inside.Plain.{ends_from};

    ghost Value = { NumbersLeft };

    ghost view = { λ s. record { bytes = s.bytes.now; at = s.start + s.at } };

    ghost invariant = { λ s. (s.start + 40 ≤ length s.bytes.now) × (s.at ≤ 33) × (s.ends ≡ ends_from s.bytes.now s.start s.at) };
}

impl<'a> PlainNumbers<'a> {
    /// The numbers after a letter and a blank; none if the bytes begin otherwise, or are fewer than 42.
    #[inline(always)]
    pub fn after(letter: u8, bytes: &'a [u8]) -> Option<PlainNumbers<'a>>
        ensures begins { IfSome result (λ numbers. bytes.now ≡ letter ∷ 32 ∷ drop 2 bytes.now) }
        ensures left { IfSome result (λ numbers. numbers ≡ record { bytes = bytes.now; at = 2 }) }
    {
        if bytes.len() < 2 + ROOM || bytes[0] != letter || bytes[1] != b' ' {
            return None;
        }
        Some(PlainNumbers::from(bytes, 2))
    }

    #[inline(always)]
    fn from(bytes: &'a [u8], start: usize) -> PlainNumbers<'a>
        requires { start + 40 ≤ length bytes.now }
        ensures { result ≡ record { bytes = bytes.now; at = start } }
    {
        let ends = ends(&bytes[start..]);
        PlainNumbers {
            bytes,
            start,
            ends,
            at: 0,
        }
    }

    /// The place after the numbers that were taken.
    #[inline(always)]
    pub fn at(&self) -> usize
        ensures { result ≡ self.now.at }
    {
        self.start + self.at
    }

    /// Takes an ID of one to eight digits with `stop` right after it. None if it is 0, or the bytes have another form.
    #[inline(always)]
    pub fn id(&mut self, stop: u8) -> Option<u32>
        ensures stands { IfSome result (λ id. StandsAt self.old.bytes self.old.at stop (pos id) self.new.at) }
        ensures range { IfSome result (λ id. (1 ≤ id) × (id < 100000000)) }
        ensures bytes { self.new.bytes ≡ self.old.bytes }
    {
        let id = self.digits(stop)?;
        if id == 0 {
            return None;
        }
        Some(id)
    }

    /// Takes a number of one to sixteen digits with `stop` right after it. None if the bytes have another form. Up to
    /// eight digits are the fast case.
    #[inline(always)]
    pub fn size(&mut self, stop: u8) -> Option<i64>
        ensures stands { IfSome result (λ n. StandsAt self.old.bytes self.old.at stop n self.new.at) }
        ensures bytes { self.new.bytes ≡ self.old.bytes }
    {
        let size = self.sixteen_digits(stop)?;
        Some(size as i64)
    }

    /// Takes a number as `size` does, perhaps after a minus, on which no branch depends.
    #[inline(always)]
    pub fn whole(&mut self, stop: u8) -> Option<i64>
        ensures stands { IfSome result (λ n. StandsAt self.old.bytes self.old.at stop n self.new.at) }
        ensures bytes { self.new.bytes ≡ self.old.bytes }
    {
        let minus = self.minus();
        let size = self.sixteen_digits(stop)? as i64;
        Some(if minus { -size } else { size })
    }

    /// Takes a minus, if one is next.
    #[inline(always)]
    fn minus(&mut self) -> bool
        ensures { MatchBool result (TakesMinus self.old self.new) (self.new ≡ self.old) }
    {
        let minus = (self.at < 32) & (self.bytes[self.at()] == b'-');
        self.ends &= self.ends.wrapping_sub(u32::from(minus));
        self.at += usize::from(minus);
        minus
    }

    /// Takes one to sixteen digits with `stop` right after them.
    #[inline(always)]
    fn sixteen_digits(&mut self, stop: u8) -> Option<u64>
        ensures digits { IfSome result (λ n. DigitsAt self.old.bytes self.old.at stop n self.new.at) }
        ensures range { IfSome result (λ n. n < 10000000000000000) }
        ensures bytes { self.new.bytes ≡ self.old.bytes }
    {
        if let Some(size) = self.digits(stop) {
            return Some(u64::from(size));
        }
        let Taken { size, rest } = digits_from(self.bytes, self.at(), stop)?;
        *self = rest;
        Some(size)
    }

    /// The numbers from `start` on. None if fewer than 40 bytes are left.
    #[inline(always)]
    fn starting(bytes: &'a [u8], start: usize) -> Option<PlainNumbers<'a>>
        requires { start ≤ length bytes.now }
        ensures { IfSome result (λ numbers. numbers ≡ record { bytes = bytes.now; at = start }) }
    {
        if bytes.len() - start < ROOM {
            return None;
        }
        Some(PlainNumbers::from(bytes, start))
    }

    /// Takes one to eight digits with `stop` right after them, or nothing.
    #[inline(always)]
    fn digits(&mut self, stop: u8) -> Option<u32>
        ensures digits { IfSome result (λ n. DigitsAt self.old.bytes self.old.at stop n self.new.at) }
        ensures range { IfSome result (λ n. n < 100000000) }
        ensures bytes { self.new.bytes ≡ self.old.bytes }
        ensures none { IfNone result (self.new ≡ self.old) }
    {
        let at = self.at();
        let count = self.digit_run(1, stop)?;
        Some(digits_value(self.bytes, at, count))
    }

    /// Takes one to sixteen digits of the 32 bytes with `stop` right after them.
    #[inline(always)]
    fn more_digits(&mut self, stop: u8) -> Option<u64>
        ensures digits { IfSome result (λ n. DigitsAt self.old.bytes self.old.at stop n self.new.at) }
        ensures range { IfSome result (λ n. n < 10000000000000000) }
        ensures bytes { self.new.bytes ≡ self.old.bytes }
    {
        if let Some(size) = self.digits(stop) {
            return Some(u64::from(size));
        }
        let at = self.at();
        let count = self.digit_run(9, stop)?;
        let high = digits_value(self.bytes, at, count - 8);
        let low = digits_value(self.bytes, at + count - 8, 8);
        Some(u64::from(high) * 100_000_000 + u64::from(low))
    }

    /// Takes a run of `least` to `least + 7` digits with `stop` right after it, or nothing. Returns its length.
    #[inline(always)]
    fn digit_run(&mut self, least: usize, stop: u8) -> Option<usize>
        requires positive { 0 < least }
        requires at_most_nine { least ≤ 9 }
        ensures run { IfSome result (λ count. IsRunOfDigits self.old.bytes self.old.at stop count self.new.at) }
        ensures length { IfSome result (λ count. (least ≤ count) × (count ≤ least + 7)) }
        ensures bytes { self.new.bytes ≡ self.old.bytes }
        ensures none { IfNone result (self.new ≡ self.old) }
    {
        let end = self.ends.trailing_zeros() as usize;
        let count = end.wrapping_sub(self.at);
        if count.wrapping_sub(least) >= 8 || self.bytes[self.start + end] != stop {
            return None;
        }
        self.ends &= self.ends.wrapping_sub(1);
        self.at = end + 1;
        Some(count)
    }
}

/// Takes one to sixteen digits from `at` on. It stays a call, so that the lines of such numbers are small enough to be
/// inlined.
#[inline(never)]
fn digits_from<'a>(bytes: &'a [u8], at: usize, stop: u8) -> Option<Taken<'a>>
    requires { at ≤ length bytes.now }
    ensures digits { IfSome result (λ taken. DigitsAt bytes.now at stop taken.size taken.rest.at) }
    ensures range { IfSome result (λ taken. taken.size < 10000000000000000) }
    ensures bytes { IfSome result (λ taken. taken.rest.bytes ≡ bytes.now) }
{
    let mut rest = PlainNumbers::starting(bytes, at)?;
    let size = rest.more_digits(stop)?;
    Some(Taken { size, rest })
}

/// A bit for each of the first 32 bytes that is no digit.
#[inline(always)]
fn ends(bytes: &[u8]) -> u32
    requires { 32 ≤ length bytes.now }
    ensures { result ≡ ends_of (take 32 bytes.now) }
{
    let values = u8x32::from_slice(bytes) - u8x32::splat(b'0');
    values.simd_gt(u8x32::splat(9)).to_bitmask() as u32
}

//! Buffered output.

ghost use Rattle.std.specs.Prelude.{◌≡◌, ◌+◌, ◌/◌, ◌%◌, ◌<◌, ◌≤◌, [], ◌∷◌, ◌++◌, ℕ, List, false, length};
ghost use Rattle.std.specs.Fmt.{decimal, signed_decimal};
ghost use Rattle.dimacs_lines.specs.{Puts.{Puts}, Devices.{Written}, inside.OutputBuffers.{IsPut}};
ghost use Rattle.dimacs_lines.specs.OutputBuffers.{Appends, IsWritten, number_field, numbers_line};
ghost use Rattle.dimacs_lines.specs.inside.Decimals.{two_digits};

use crate::decimals::{first_digits, two_digits};
use crate::device::{DeviceFault, Sink, put_all};
use itoa::Buffer;
use std::marker::Model;

/// The size of the buffer in bytes.
const CAPACITY: usize = 16_384;

/// The most bytes of a 64-bit number in decimal, with its sign.
const LONGEST_NUMBER: usize = 20;

/// The most bytes of a line with a letter and up to five numbers.
const LONGEST_LINE: usize = 107;

/// A buffer in front of a sink. Each call takes the sink; pass the same one each time.
///
/// After an I/O error nothing more is written, and `finish` reports the error.
pub struct OutputBuffer {
    bytes: [u8; 16_384],
    length: usize,
    failed: bool,
}

impl Drop for OutputBuffer {
    fn drop(self) {
        let OutputBuffer {
            bytes: _,
            length: _,
            failed: _,
        } = self;
    }
}

impl Model for OutputBuffer {
    ghost use Rattle.std.specs.Prelude.{◌≤◌, take};
    ghost use Rattle.dimacs_lines.specs.OutputBuffers.{BufferState};

    ghost Value = { BufferState };

    ghost view = { λ output. record { kept = take output.length output.bytes; failed = output.failed } };

    ghost invariant = { λ output. output.length ≤ 16384 };
}

impl OutputBuffer {
    /// An empty buffer.
    pub fn new() -> OutputBuffer
        ensures empty { result ≡ record { kept = []; failed = false } }
        ensures written { (start : Written) → IsWritten start [] start result }
    {
        OutputBuffer {
            bytes: [0; 16_384],
            length: 0,
            failed: false,
        }
    }

    /// Appends the bytes.
    #[inline(always)]
    pub fn write<S: Sink>(&mut self, sink: &mut S, bytes: &[u8])
        ensures { Appends bytes.now (S.seen sink.old) self.old (S.seen sink.new) self.new }
    {
        if CAPACITY - self.length < bytes.len() {
            self.flush_and_append(sink, bytes);
        } else {
            self.append(bytes);
        }
    }

    /// Appends a 64-bit number in decimal.
    #[inline(always)]
    pub fn number<S: Sink>(&mut self, sink: &mut S, n: i64)
        ensures { Appends (signed_decimal n) (S.seen sink.old) self.old (S.seen sink.new) self.new }
    {
        self.make_room(sink, LONGEST_NUMBER);
        self.append_number(n);
    }

    /// Appends a line: a letter, then up to five numbers with a blank before each. It tests once for room.
    pub fn line<S: Sink>(&mut self, sink: &mut S, letter: u8, numbers: &[i64])
        requires at_most_five { length numbers.now ≤ 5 }
        ensures { Appends (numbers_line letter numbers.now) (S.seen sink.old) self.old (S.seen sink.new) self.new }
    {
        self.make_room(sink, LONGEST_LINE);
        self.append_line(letter, numbers);
    }

    /// As `line`, of three numbers, as arcs of most kinds have. Without a loop the processor predicts the branches of
    /// each number separately.
    pub fn line_of_three<S: Sink>(
        &mut self,
        sink: &mut S,
        letter: u8,
        first: i64,
        second: i64,
        third: i64,
    )
        ensures { Appends (numbers_line letter (first ∷ second ∷ third ∷ [])) (S.seen sink.old) self.old (S.seen sink.new) self.new }
    {
        self.make_room(sink, LONGEST_LINE);
        self.append_line_of_three(letter, first, second, third);
    }

    /// Appends a 128-bit number in decimal.
    pub fn wide<S: Sink>(&mut self, sink: &mut S, n: i128)
        ensures { Appends (signed_decimal n) (S.seen sink.old) self.old (S.seen sink.new) self.new }
    {
        let mut digits = Buffer::new();
        self.write(sink, digits.format(n).as_bytes());
    }

    /// Writes the rest. Fails if any write since `new` failed.
    pub fn finish<S: Sink>(&mut self, sink: &mut S) -> Result<(), DeviceFault>
        ensures { (start : Written) (text : List ℕ) → IsWritten start text (S.seen sink.old) self.old
            → Puts result start text (S.seen sink.new) }
    {
        self.flush(sink);
        if self.failed {
            return Err(DeviceFault);
        }
        Ok(())
    }

    /// Appends bytes for which there is no room: empties the buffer first.
    #[inline(never)]
    fn flush_and_append<S: Sink>(&mut self, sink: &mut S, bytes: &[u8])
        ensures { Appends bytes.now (S.seen sink.old) self.old (S.seen sink.new) self.new }
    {
        self.flush(sink);
        if CAPACITY < bytes.len() {
            self.failed = put_unless_failed(self.failed, sink, bytes);
        } else {
            self.append(bytes);
        }
    }

    /// Empties the buffer if `bytes` more bytes don't fit.
    #[inline(always)]
    fn make_room<S: Sink>(&mut self, sink: &mut S, bytes: usize)
        requires { bytes ≤ 16384 }
        ensures written { (start : Written) (text : List ℕ)
            → IsWritten start text (S.seen sink.old) self.old → IsWritten start text (S.seen sink.new) self.new }
        ensures room { length self.new.kept + bytes ≤ 16384 }
    {
        if CAPACITY - self.length < bytes {
            self.flush(sink);
        }
    }

    /// Writes what the buffer holds, and empties it.
    fn flush<S: Sink>(&mut self, sink: &mut S)
        ensures written { (start : Written) (text : List ℕ)
            → IsWritten start text (S.seen sink.old) self.old → IsWritten start text (S.seen sink.new) self.new }
        ensures empty { self.new.kept ≡ [] }
    {
        self.failed = put_unless_failed(self.failed, sink, &self.bytes[..self.length]);
        self.length = 0;
    }

    /// Appends bytes that fit.
    #[inline(always)]
    fn append(&mut self, bytes: &[u8])
        requires { length self.old.kept + length bytes.now ≤ 16384 }
        ensures appended { self.new.kept ≡ self.old.kept ++ bytes.now }
        ensures failed { self.new.failed ≡ self.old.failed }
    {
        let end = self.length + bytes.len();
        self.bytes[self.length..end].copy_from_slice(bytes);
        self.length = end;
    }

    #[inline(always)]
    fn append_line(&mut self, letter: u8, numbers: &[i64])
        requires at_most_five { length numbers.now ≤ 5 }
        requires room { length self.old.kept + 107 ≤ 16384 }
        ensures appended { self.new.kept ≡ self.old.kept ++ numbers_line letter numbers.now }
        ensures failed { self.new.failed ≡ self.old.failed }
    {
        self.append(&[letter]);
        for n in numbers {
            self.append_field(*n);
        }
        self.append(b"\n");
    }

    #[inline(always)]
    fn append_line_of_three(&mut self, letter: u8, first: i64, second: i64, third: i64)
        requires { length self.old.kept + 107 ≤ 16384 }
        ensures appended { self.new.kept ≡ self.old.kept ++ numbers_line letter (first ∷ second ∷ third ∷ []) }
        ensures failed { self.new.failed ≡ self.old.failed }
    {
        self.append(&[letter]);
        self.append_field(first);
        self.append_field(second);
        self.append_field(third);
        self.append(b"\n");
    }

    /// Appends a blank and the number.
    #[inline(always)]
    fn append_field(&mut self, n: i64)
        requires { length self.old.kept + 21 ≤ 16384 }
        ensures appended { self.new.kept ≡ self.old.kept ++ number_field n }
        ensures short { length self.new.kept ≤ length self.old.kept + 21 }
        ensures failed { self.new.failed ≡ self.old.failed }
    {
        self.append(b" ");
        self.append_number(n);
    }

    #[inline(always)]
    fn append_number(&mut self, n: i64)
        requires { length self.old.kept + 20 ≤ 16384 }
        ensures appended { self.new.kept ≡ self.old.kept ++ signed_decimal n }
        ensures failed { self.new.failed ≡ self.old.failed }
    {
        if n < 0 {
            self.append(b"-");
        }
        self.append_digits(n.unsigned_abs());
    }

    /// Writes up to eight digits in place, two at a time, and copies longer numbers. It may write a byte past the
    /// digits.
    #[inline(always)]
    fn append_digits(&mut self, n: u64)
        requires short { length (decimal n) ≤ 19 }
        requires room { length self.old.kept + 19 ≤ 16384 }
        ensures appended { self.new.kept ≡ self.old.kept ++ decimal n }
        ensures failed { self.new.failed ≡ self.old.failed }
    {
        if n < 10_000 {
            self.append_short(n);
        } else if n < 100_000_000 {
            self.append_short(n / 10_000);
            self.append_four(n % 10_000);
        } else {
            self.append_long(n);
        }
    }

    /// Not inlined, since long numbers are rare and the code of lines stays short.
    #[inline(never)]
    fn append_long(&mut self, n: u64)
        requires { length self.old.kept + length (decimal n) ≤ 16384 }
        ensures appended { self.new.kept ≡ self.old.kept ++ decimal n }
        ensures failed { self.new.failed ≡ self.old.failed }
    {
        let mut digits = Buffer::new();
        self.append(digits.format(n).as_bytes());
    }

    /// Appends a number of at most four digits.
    #[inline(always)]
    fn append_short(&mut self, n: u64)
        requires short { n < 10000 }
        requires room { length self.old.kept + 4 ≤ 16384 }
        ensures appended { self.new.kept ≡ self.old.kept ++ decimal n }
        ensures failed { self.new.failed ≡ self.old.failed }
    {
        if n < 100 {
            self.append_first(n);
        } else {
            self.append_first(n / 100);
            self.append(&two_digits(n % 100));
        }
    }

    /// Appends a number as four digits, with leading zeros.
    #[inline(always)]
    fn append_four(&mut self, n: u64)
        requires short { n < 10000 }
        requires room { length self.old.kept + 4 ≤ 16384 }
        ensures appended { self.new.kept ≡ self.old.kept ++ (two_digits (n / 100) ++ two_digits (n % 100)) }
        ensures failed { self.new.failed ≡ self.old.failed }
    {
        let (high, low) = (two_digits(n / 100), two_digits(n % 100));
        self.append(&[high[0], high[1], low[0], low[1]]);
    }

    /// Appends one or two digits without a branch: it writes two bytes, and counts those of the number.
    #[inline(always)]
    fn append_first(&mut self, n: u64)
        requires short { n < 100 }
        requires room { length self.old.kept + 2 ≤ 16384 }
        ensures appended { self.new.kept ≡ self.old.kept ++ decimal n }
        ensures failed { self.new.failed ≡ self.old.failed }
    {
        let (digits, count) = first_digits(n);
        let start = self.length;
        self.bytes[start..start + 2].copy_from_slice(&digits);
        self.length = start + count;
    }
}

/// Writes the bytes, unless a write failed before. Returns whether one has failed by now.
fn put_unless_failed<S: Sink>(failed: bool, sink: &mut S, bytes: &[u8]) -> bool
    ensures { IsPut failed (S.seen sink.old) bytes.now result (S.seen sink.new) }
{
    failed || put_all(sink, bytes).is_err()
}

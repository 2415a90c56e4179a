//! Numbers in fields: an optional sign, then one or more digits.

ghost use Rattle.std.specs.{Prelude.{◌≡◌, ◌^◌, ◌-◌, ◌↔◌, pos, neg_ℤ, ◌≤ℤ◌, min, length, IsTrue, ◌<◌}, List.{All}};
ghost use Rattle.std.specs.Char.{IsAsciiDigit};
ghost use Rattle.dimacs_lines.specs.Number.{ReadsNumber, is_negative, digits_of, place_sum};

use thiserror::Error;

/// Why a field isn't a number of its range.
#[derive(Clone, Copy, Debug, PartialEq, Eq, Error)]
pub enum NumberFault {
    /// It isn't an optional sign and one or more digits.
    #[error("not a whole number")]
    BadNumber,
    /// It spells a number outside of the range.
    #[error("a number out of range")]
    NumberRange,
}

/// The greatest absolute value of a 128-bit number: 10^30.
pub const WIDE: i128 = 1_000_000_000_000_000_000_000_000_000_000;

/// One more than `WIDE`.
const PAST_WIDE: u128 = 1_000_000_000_000_000_000_000_000_000_001;

/// Reads a 64-bit number, from -2^63 to 2^63 - 1.
pub fn number(text: &[u8]) -> Result<i64, NumberFault>
    ensures { ReadsNumber (neg_ℤ (pos (2 ^ 63))) (pos (2 ^ 63 - 1)) text.now result }
{
    match number_in_range(text, i128::from(i64::MIN), i128::from(i64::MAX)) {
        Ok(n) => Ok(n as i64),
        Err(fault) => Err(fault),
    }
}

/// Reads a 128-bit number, from -10^30 to 10^30, as values, costs, potentials and distances are.
pub fn wide(text: &[u8]) -> Result<i128, NumberFault>
    ensures { ReadsNumber (neg_ℤ (pos (10 ^ 30))) (pos (10 ^ 30)) text.now result }
{
    number_in_range(text, -WIDE, WIDE)
}

fn number_in_range(text: &[u8], low: i128, high: i128) -> Result<i128, NumberFault>
    requires low { neg_ℤ (pos (10 ^ 30)) ≤ℤ low }
    requires high { high ≤ℤ pos (10 ^ 30) }
    ensures { ReadsNumber low high text.now result }
{
    let (negative, digits) = split_sign(text);
    if !is_digits(digits) {
        return Err(NumberFault::BadNumber);
    }
    let size = size(digits) as i128;
    let n = if negative { -size } else { size };
    if n < low || high < n {
        return Err(NumberFault::NumberRange);
    }
    Ok(n)
}

/// Whether the text begins with a minus, and what follows the sign.
fn split_sign(text: &[u8]) -> (bool, &[u8])
    ensures negative { result.0 ≡ is_negative text.now }
    ensures digits { result.1.now ≡ digits_of text.now }
{
    match text.split_first() {
        Some((first, rest)) if *first == b'-' => (true, rest),
        Some((first, rest)) if *first == b'+' => (false, rest),
        _ => (false, text),
    }
}

fn is_digits(text: &[u8]) -> bool
    ensures { IsTrue result ↔ (0 < length text.now) × All IsAsciiDigit text.now }
{
    !text.is_empty() && text.iter().all(|b| b.is_ascii_digit())
}

/// The value of the digits, or `PAST_WIDE` if it is greater.
fn size(digits: &[u8]) -> u128
    requires { All IsAsciiDigit digits.now }
    ensures { result ≡ min (place_sum digits.now) 1000000000000000000000000000001 }
{
    if digits.len() < 20 {
        u128::from(short_size(digits))
    } else {
        long_size(digits)
    }
}

/// The value of up to 19 digits, which fits into 64 bits.
fn short_size(digits: &[u8]) -> u64
    requires digits { All IsAsciiDigit digits.now }
    requires short { length digits.now < 20 }
    ensures { result ≡ place_sum digits.now }
{
    let mut total = 0u64;
    for b in digits {
        total = total * 10 + u64::from(*b - b'0');
    }
    total
}

/// As `size`, for any number of digits.
fn long_size(digits: &[u8]) -> u128
    requires { All IsAsciiDigit digits.now }
    ensures { result ≡ min (place_sum digits.now) 1000000000000000000000000000001 }
{
    let mut total = 0u128;
    for b in digits {
        total = PAST_WIDE.min(total * 10 + u128::from(*b - b'0'));
    }
    total
}

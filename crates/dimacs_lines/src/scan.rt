//! The fields of a line, from left to right.

ghost use Rattle.std.specs.Prelude.{◌≡◌, ◌≤◌, ◌<◌, ◌+◌, ◌-◌, ◌^◌, [], ◌∷◌, ℤ, pos, neg_ℤ, Some, not, true, length, take, drop, slice_index, IsTrue, ◌↔◌, IfNone, IfSome};
ghost use Rattle.std.specs.{List.{position_or_len, All}, Char.{IsAsciiDigit}};
ghost use Rattle.dimacs_lines.specs.{Fields.{is_blank, fields_of}, Number.{ReadsNumber, Spells, place_sum}};

use crate::digits::digits_at;
use crate::numbers::{NumberFault, number, wide};
use std::marker::Model;

/// A field of a line, and the index of its first byte in the line, from 0.
#[derive(Clone, Copy, Debug, PartialEq, Eq)]
pub struct Field<'a> {
    pub text: &'a [u8],
    pub start: usize,
}

/// A field, and its number if that was found on the way to the field's end.
#[derive(Clone, Copy)]
pub struct Token<'a> {
    pub field: Field<'a>,
    plain: Option<i64>,
    ghost right: { (n : ℤ) → plain ≡ Some n → Spells field.text.now n },
}

impl<'a> Token<'a> {
    /// Reads the field as a 64-bit number: from -2^63 to 2^63 - 1.
    #[inline(always)]
    pub fn number(&self) -> Result<i64, NumberFault>
        ensures { ReadsNumber (neg_ℤ (pos (2 ^ 63))) (pos (2 ^ 63 - 1)) self.now.field.text.now result }
    {
        match self.plain {
            Some(n) => Ok(n),
            None => number(self.field.text),
        }
    }

    /// Reads the field as a 128-bit number: from -10^30 to 10^30.
    #[inline(always)]
    pub fn wide(&self) -> Result<i128, NumberFault>
        ensures { ReadsNumber (neg_ℤ (pos (10 ^ 30))) (pos (10 ^ 30)) self.now.field.text.now result }
    {
        match self.plain {
            Some(n) => Ok(i128::from(n)),
            None => wide(self.field.text),
        }
    }
}

/// The part of a line that isn't scanned yet.
#[derive(Drop)]
pub struct Scan<'a> {
    line: &'a [u8],
    at: usize,
}

impl<'a> Model for Scan<'a> {
    ghost use Rattle.std.specs.Prelude.{◌≤◌, List, length, drop};
    ghost use Rattle.dimacs_lines.specs.Fields.{Run, runs_from};

    ghost Value = { List Run };

    ghost view = { λ s. runs_from s.at (drop s.at s.line.now) };

    ghost invariant = { λ s. s.at ≤ length s.line.now };
}

impl<'a> Scan<'a> {
    ghost use Rattle.dimacs_lines.specs.FieldViews.{view_field};

    /// A scan from the start of this line.
    pub fn new(line: &'a [u8]) -> Scan<'a>
        ensures { result ≡ fields_of line.now }
    {
        Scan { line, at: 0 }
    }

    /// Takes the next field; none at the end of the line.
    #[inline(always)]
    pub fn next_token(&mut self) -> Option<Token<'a>>
        ensures none { IfNone result ((self.old ≡ []) × (self.new ≡ [])) }
        ensures some { IfSome result (λ token. self.old ≡ view_field token.field ∷ self.new) }
    {
        let line = self.line;
        let start = self.at + leading_blanks(&line[self.at..]);
        self.at = start;
        if start == line.len() {
            return None;
        }
        let token = token_at(line, start);
        self.at = start + token.field.text.len();
        Some(token)
    }
}

/// Iterates over the fields of a line, from left to right.
#[derive(Drop)]
pub struct Fields<'a> {
    scan: Scan<'a>,
}

impl<'a> Model for Fields<'a> {
    ghost use Rattle.std.specs.Prelude.{List};
    ghost use Rattle.dimacs_lines.specs.Fields.{Run};

    ghost Value = { List Run };

    ghost view = { λ s. s.scan };
}

impl<'a> Iterator for Fields<'a> {
    ghost use Rattle.std.specs.Iterator.{YieldsFirstBy, item_count};
    ghost use Rattle.dimacs_lines.specs.FieldViews.{view_field};

    type Item = Field<'a>;

    ghost next_gives = { YieldsFirstBy view_field (λ left. left) };

    ghost remaining = { item_count (λ left. left) };

    fn next(&mut self) -> Option<Field<'a>> {
        match self.scan.next_token() {
            Some(token) => Some(token.field),
            None => None,
        }
    }
}

impl<'a> Fields<'a> {
    /// The fields of this line.
    pub fn new(line: &'a [u8]) -> Fields<'a>
        ensures { result ≡ fields_of line.now }
    {
        Fields {
            scan: Scan::new(line),
        }
    }
}

#[inline(always)]
fn token_at(line: &[u8], start: usize) -> Token<'_>
    requires { start < length line.now }
    ensures start { result.field.start ≡ start }
    ensures text { result.field.text.now ≡ take (position_or_len is_blank (drop start line.now)) (drop start line.now) }
{
    if let Some(plain) = plain_number(line, start) {
        let text = &line[start..start + plain.length];
        return Token {
            field: Field { text, start },
            plain: Some(plain.number),
        };
    }
    let text = &line[start..start + field_length(&line[start..])];
    Token {
        field: Field { text, start },
        plain: None,
    }
}

/// A number, and its length in bytes.
#[derive(Clone, Copy)]
struct Plain {
    length: usize,
    number: i64,
}

/// The field at `start`, if it is one to eight digits, perhaps after a minus.
#[inline(always)]
fn plain_number(line: &[u8], start: usize) -> Option<Plain>
    requires { start < length line.now }
    ensures length { IfSome result (λ plain. plain.length ≡ position_or_len is_blank (drop start line.now)) }
    ensures within { IfSome result (λ plain. start + plain.length ≤ length line.now) }
    ensures number { IfSome result (λ plain. Spells (take plain.length (drop start line.now)) plain.number) }
{
    if line[start] == b'-' {
        let (count, size) = plain_digits(line, start + 1)?;
        Some(Plain {
            length: count + 1,
            number: -i64::from(size),
        })
    } else {
        let (count, size) = plain_digits(line, start)?;
        Some(Plain {
            length: count,
            number: i64::from(size),
        })
    }
}

/// The count and value of one to eight digits at `at`, if a blank or the line's end follows.
#[inline(always)]
fn plain_digits(line: &[u8], at: usize) -> Option<(usize, u32)>
    requires { at ≤ length line.now }
    ensures positive { IfSome result (λ found. 0 < found.0) }
    ensures within { IfSome result (λ found. at + found.0 ≤ length line.now) }
    ensures run { IfSome result (λ found. found.0 ≡ position_or_len is_blank (drop at line.now)) }
    ensures digits { IfSome result (λ found. All IsAsciiDigit (take found.0 (drop at line.now))) }
    ensures value { IfSome result (λ found. found.1 ≡ place_sum (take found.0 (drop at line.now))) }
{
    let (count, size) = digits_at(line, at)?;
    if ends_at(line, at + count) {
        Some((count, size))
    } else {
        None
    }
}

/// Whether a blank or the line's end is at `at`.
#[inline(always)]
fn ends_at(line: &[u8], at: usize) -> bool
    requires { at ≤ length line.now }
    ensures { IsTrue result ↔ (at < length line.now → is_blank (slice_index line.now at) ≡ true) }
{
    at == line.len() || is_blank(line[at])
}

#[inline(always)]
fn is_blank(b: u8) -> bool
    ensures { result ≡ is_blank b }
{
    b == b' ' || b == b'\t' || b == b'\r'
}

#[inline(always)]
fn leading_blanks(bytes: &[u8]) -> usize
    ensures length { result ≡ position_or_len (λ b. not (is_blank b)) bytes.now }
    ensures within { result ≤ length bytes.now }
{
    for (i, b) in bytes.iter().enumerate() {
        if !is_blank(*b) {
            return i;
        }
    }
    bytes.len()
}

#[inline(always)]
fn field_length(bytes: &[u8]) -> usize
    ensures length { result ≡ position_or_len is_blank bytes.now }
    ensures within { result ≤ length bytes.now }
{
    for (i, b) in bytes.iter().enumerate() {
        if is_blank(*b) {
            return i;
        }
    }
    bytes.len()
}

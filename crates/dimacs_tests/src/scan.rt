//! The fields of a line, and the numbers that are read in passing.

use crate::checks::same;
use dimacs_lines::{Field, NumberFault, Scan, Token, fields, number, wide};

/// The fields of a line, each with its start and as a 64-bit and a 128-bit number.
static FIELDS: [(
    &str,
    usize,
    Result<i64, NumberFault>,
    Result<i128, NumberFault>,
); 5] = [
    (
        "a",
        1,
        Err(NumberFault::BadNumber),
        Err(NumberFault::BadNumber),
    ),
    ("-12345678", 4, Ok(-12_345_678), Ok(-12_345_678)),
    ("123456789", 14, Ok(123_456_789), Ok(123_456_789)),
    (
        "9223372036854775808",
        24,
        Err(NumberFault::NumberRange),
        Ok(9_223_372_036_854_775_808),
    ),
    ("+7", 44, Ok(7), Ok(7)),
];

const LINE: &[u8] = b" a\t -12345678 123456789 9223372036854775808\r+7";

/// A field's text, its start, and its numbers.
type Parts<'a> = (
    &'a [u8],
    usize,
    Result<i64, NumberFault>,
    Result<i128, NumberFault>,
);

fn of_token<'a>(token: Token<'a>) -> Parts<'a> {
    let field = token.field;
    (field.text, field.start, token.number(), token.wide())
}

fn of_field<'a>(field: Field<'a>) -> Parts<'a> {
    let text = field.text;
    (text, field.start, number(text), wide(text))
}

#[test]
fn tokens_are_the_fields_of_a_line(rt: HostRuntime) {
    let mut scan = Scan::new(LINE);
    let mut fields = fields(LINE);
    for &(text, start, short, long) in &FIELDS {
        let wanted = Some((text.as_bytes(), start, short, long));
        same(&rt, text, scan.next_token().map(of_token), wanted);
        same(&rt, text, fields.next().map(of_field), wanted);
    }
    same(&rt, "after the last", scan.next_token().map(of_token), None);
}

//! Quotes of lines.

use crate::escape::escape;
use crate::prose::Prose;
use crate::say;
use crate::sentence::Value;
use dimacs_lines::{Field, fields};
use dimacs_records::At;
use std::alloc::Global;

/// The most bytes of a line that a quote shows, around the field in question.
const SHOWN: usize = 100;

/// How many of them come before the field.
const BEFORE: usize = 40;

/// Quotes a line after the name of its file and its number, and marks its field, from 1; 0 marks none.
pub(crate) fn quote(alloc: Global, file: &str, at: At, bytes: &[u8]) -> Prose {
    let marked = field_at(bytes, at.field);
    let (start, length) = marked.map_or((0, 0), |field| (field.start, field.text.len()));
    let from = start.saturating_sub(BEFORE);
    let end = bytes.len().min(from.saturating_add(SHOWN));
    let stop = end.min(start.saturating_add(length));
    let mut quote = Prose::new(alloc);
    say!(quote; "{}:{}: ", Value::File(file), at.line);
    quote.push(if from > 0 { ".." } else { "" });
    escape(&mut quote, bytes.get(from..start).unwrap_or(&[]));
    let begin = quote.text.chars().count();
    escape(&mut quote, bytes.get(start..stop).unwrap_or(&[]));
    let width = quote.text.chars().count().saturating_sub(begin);
    escape(&mut quote, bytes.get(stop..end).unwrap_or(&[]));
    quote.push(if end < bytes.len() { "..\n" } else { "\n" });
    if marked.is_some() {
        repeat(&mut quote, " ", begin);
        repeat(&mut quote, "^", width.max(1));
        quote.push("\n");
    }
    quote
}

/// A field of a line, from 1.
fn field_at(line: &[u8], field: u32) -> Option<Field<'_>> {
    let place = usize::try_from(field.checked_sub(1)?).ok()?;
    fields(line).nth(place)
}

/// The bytes of a field of a line, from 1; none if it has fewer.
pub(crate) fn text_at(line: &[u8], field: u32) -> &[u8] {
    field_at(line, field).map_or(&[], |field| field.text)
}

pub(crate) fn repeat(out: &mut Prose, what: &str, times: usize) {
    for _ in 0..times {
        out.push(what);
    }
}

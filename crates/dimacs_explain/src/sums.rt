//! Sums and lists, of which the first items are shown.

use dimacs_claims::Cut;
use dimacs_network::ArcView;
use dimacs_quote::Value::{Arc, Cap, Node};
use dimacs_quote::{Prose, TextFile, Value, entry_arc, say};
use std::alloc::Global;

/// The most items that are shown.
pub(crate) const SHOWN: u64 = 6;

/// A list of lines, and the sum of a number for each.
#[derive(Drop)]
pub(crate) struct Sum {
    /// The first lines.
    lines: Prose,
    terms: Prose,
    pub(crate) count: u64,
    /// None if a number or a sum didn't fit 128 bits.
    pub(crate) total: Option<i128>,
    /// The sum of the numbers after the first ones; none if it didn't fit.
    rest: Option<i128>,
}

impl Sum {
    pub(crate) fn new(alloc: Global) -> Sum {
        Sum {
            lines: Prose::new(alloc),
            terms: Prose::new(alloc),
            count: 0,
            total: Some(0),
            rest: Some(0),
        }
    }

    /// The sum, or 0 if it didn't fit.
    pub(crate) fn sum(&self) -> i128 {
        self.total.unwrap_or(0)
    }

    pub(crate) fn shows_next(&self) -> bool {
        self.count < SHOWN
    }

    /// Adds a number; none is one that doesn't fit.
    pub(crate) fn add(&mut self, number: Option<i128>) {
        self.total = plus(self.total, number);
        if self.shows_next() {
            write_term(&mut self.terms, number.unwrap_or(0));
        } else {
            self.rest = plus(self.rest, number);
            self.total = self.rest.and(self.total);
        }
        self.count = self.count.saturating_add(1);
    }

    /// Writes the line of the next number, if that is shown.
    pub(crate) fn write(&mut self, sentence: &str, values: &[Value<'_>]) {
        if self.shows_next() {
            self.lines.write(sentence, values);
        }
    }

    /// Adds the number of this name of an arc, which is the one with this index, and writes a line.
    pub(crate) fn add_arc(&mut self, index: u32, arc: ArcView, name: &str) {
        let number = number_of(arc, name);
        say!(self; "  arc {}: {} -> {}, {} {}\n", Arc(index.saturating_add(1)), Node(arc.tail), Node(arc.head), name,
            bound(name, number));
        self.add(Some(i128::from(number)));
    }

    /// Adds the flow of the entry on a line, and writes that line, or the arc if it is of arrays.
    pub(crate) fn add_entry(
        &mut self,
        text: TextFile<'_>,
        line: u64,
        tail: u32,
        head: u32,
        flow: i64,
    ) {
        if text.is_of_arrays() {
            say!(self; "  arc {}: {} -> {}, FLOW {}\n", Arc(entry_arc(line)), Node(tail), Node(head), flow);
        } else {
            say!(self; "  {}:{}: f {} {} {}\n", text, line, Node(tail), Node(head), flow);
        }
        self.add(Some(i128::from(flow)));
    }

    /// Writes what the lines are, how many they are, and the first of them.
    pub(crate) fn write_lines(&self, out: &mut Prose, what: &str) {
        say!(out; "{}: {}\n", what, self.count);
        out.append(&self.lines);
        if self.count > SHOWN {
            say!(out; "  all others: {}\n", self.rest.unwrap_or(0));
        }
    }

    /// Writes the numbers, and what they add up to.
    pub(crate) fn write_to(&self, out: &mut Prose) {
        if self.count > 1 {
            out.append(&self.terms);
            if self.count > SHOWN {
                write_term(out, self.rest.unwrap_or(0));
            }
            say!(out; " = ");
        }
        say!(out; "{}", self.sum());
    }
}

/// The number of an arc with this name; 0, the flow of an empty arc, for another name.
pub(crate) fn number_of(arc: ArcView, name: &str) -> i64 {
    match name {
        "LOW" => arc.low,
        "CAP" => arc.cap,
        "WEIGHT" => arc.cost,
        _ => 0,
    }
}

/// A number of an arc with this name.
pub(crate) fn bound(name: &str, number: i64) -> Value<'static> {
    match name {
        "CAP" => Cap(number),
        _ => Value::from(number),
    }
}

fn plus(one: Option<i128>, other: Option<i128>) -> Option<i128> {
    one?.checked_add(other?)
}

/// Writes a number, with its sign between blanks unless it is the first.
fn write_term(out: &mut Prose, term: i128) {
    let is_first = out.is_empty();
    say!(out; "{}", if is_first { Value::Number(term) } else { Value::Term(term) });
}

/// Writes the first nodes of a set, and how many it has.
pub(crate) fn write_set(out: &mut Prose, set: &Cut) {
    let count = u64::from(set.len());
    say!(out; "{} of the {} nodes:", count, u64::from(set.nodes()));
    let (mut id, mut left, end) = (1, count.min(SHOWN), set.nodes().saturating_add(1));
    for _ in 0..end {
        if left == 0 || id >= end {
            break;
        }
        if set.contains(id) {
            say!(out; " {}", Node(id));
            left -= 1;
        }
        id = set.next(id + 1, end);
    }
    say!(out; if count > SHOWN { " ..\n" } else { "\n" });
}

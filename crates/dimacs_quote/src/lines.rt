//! The lines of a text, one after another.

ghost use Rattle.std.specs.Iterator.{at_most};

use dimacs_lines::{Lines, MAX_LINES, Memory, Source};
use dimacs_records::{Record, TextKind, record};
use std::alloc::Global;

/// The lines of a text, to be read once.
#[derive(Drop)]
pub struct TextLines<I> {
    lines: Lines,
    source: I,
    kind: TextKind,
    /// The most lines that are left: no text has more than `MAX_LINES`.
    left: u64,
}

impl<I: Source + Drop> TextLines<I> {
    pub(crate) fn new(alloc: Global, source: I, kind: TextKind) -> Result<TextLines<I>, Memory> {
        Ok(TextLines {
            lines: Lines::new(alloc)?,
            source,
            kind,
            left: MAX_LINES,
        })
    }

    /// The bytes of the last line.
    pub(crate) fn bytes(&self) -> &[u8] {
        self.lines.line()
    }
}

/// Ends where the rest of the text can't be read, too.
impl<I: Source + Drop> Iterator for TextLines<I> {
    /// The number of a line, and its record; none if the line is skipped or has a fault.
    type Item = (u64, Option<Record>);

    ghost remaining = { λ s. at_most s.left };

    fn next(&mut self) -> Option<(u64, Option<Record>)> {
        self.left = self.left.checked_sub(1)?;
        let number = self.lines.next_line(&mut self.source).ok().flatten()?;
        Some((number, record(self.kind, self.lines.line()).ok().flatten()))
    }
}

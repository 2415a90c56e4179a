//! Why explanations end early.

use dimacs_lines::Memory;

/// Why an explanation ends early.
#[derive(Clone, Copy)]
pub enum Stop<'a> {
    /// Memory ran out.
    Memory,
    /// This file can't be read again.
    Unread(&'a str),
    /// There is no more to say.
    Done,
}

/// A value, or why the explanation ends before it.
pub type OrStop<'a, T> = Result<T, Stop<'a>>;

/// Nothing, or why the explanation ends.
pub type Said<'a> = OrStop<'a, ()>;

impl<'a> From<Memory> for Stop<'a> {
    fn from(_: Memory) -> Stop<'a> {
        Stop::Memory
    }
}

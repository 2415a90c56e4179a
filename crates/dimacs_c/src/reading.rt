//! The ends of calls that read a text into arrays.

ghost use Rattle.std.specs.Prelude.{◌≡◌};
ghost use Rattle.dimacs_c.specs.{Calls.{handed}, inside.Reading.{EndsUnfilled, EndsUnread}};

use crate::answer::{NO_MEMORY, misuse};
use crate::lines::Line;
use dimacs_fill::FillError;
use dimacs_judging::Where;
use dimacs_records::ReadError;
use std::alloc::Global;

const DONE: u32 = 0;

/// Ends a call that read its text: there is no line.
pub(crate) fn end_read(needed: &mut usize) -> u32
    ensures needed { needed.new ≡ 0 }
    ensures status { result ≡ 0 }
{
    *needed = 0;
    DONE
}

/// Copies the line of a text's fault, and returns the status. `text` is the word for the text. A text in memory has no
/// device that fails.
pub(crate) fn end_unread(
    alloc: Global,
    text: &str,
    error: ReadError,
    out: &mut [u8],
    needed: &mut usize,
) -> u32
    ensures { EndsUnread text.now error result (handed out.old out.new needed.new) }
{
    match error {
        ReadError::Refused(place, reason) => {
            Line::Refused(text, place, reason).hand(alloc, out, needed)
        }
        ReadError::Device | ReadError::Memory => {
            misuse(needed);
            NO_MEMORY
        }
    }
}

/// The same, or copies the line of the node that is refused.
pub(crate) fn end_unfilled(
    alloc: Global,
    text: &str,
    error: FillError,
    out: &mut [u8],
    needed: &mut usize,
) -> u32
    ensures { EndsUnfilled text.now error result (handed out.old out.new needed.new) }
{
    match error {
        FillError::Unread(error) => end_unread(alloc, text, error, out, needed),
        FillError::Node(id, reason) => {
            Line::No(Where::Node(id), reason).hand(alloc, out, needed)
        }
    }
}

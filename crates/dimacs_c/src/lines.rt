//! The lines of answers over arrays, with their statuses.

ghost use Rattle.std.specs.Prelude.{◌≡◌, IfOk};
ghost use Rattle.dimacs_lines.specs.Puts.{Puts};
ghost use Rattle.dimacs_runs.specs.Refusals.{refusal_line};
ghost use Rattle.dimacs_c.specs.{Arrays.{printed, verdict_printed}, Calls.{handed}};
ghost use Rattle.dimacs_c.specs.inside.Printed.{EndsAs, EndsWhole, line_status, line_text};

use crate::answer::{MISUSED, NO_MEMORY, hand_printed};
use dimacs_arrays::ArrayError;
use dimacs_judging::{Verdict, Where};
use dimacs_lines::{DeviceFault, MemorySink, Sink};
use dimacs_records::{At, Reason};
use dimacs_runs::{put_failure, put_gave_up, put_refusal, put_verdict};
use std::alloc::Global;

const DONE: u32 = 0;

/// The status of a test that fails, or of a text with a fault.
const NO: u32 = 1;

/// The status if a solver gave up, or the answer doesn't fit into arrays.
const GAVE_UP: u32 = 5;

/// The place of a refusal of a whole flow.
pub(crate) const WHOLE_FLOW: Where = Where::Solution { line: 0, field: 0 };

/// The place of a fault of a whole text.
pub(crate) const WHOLE_TEXT: At = At { line: 0, field: 0 };

/// The line of an answer.
#[derive(Drop)]
pub(crate) enum Line<'a> {
    /// There is none: a text was read.
    Read,
    Yes(Verdict),
    /// A test fails.
    No(Where, Reason),
    /// The text that this word names is refused at this place.
    Refused(&'a str, At, Reason),
    GaveUp,
    /// A wrong length and out of memory have no line.
    Error(ArrayError),
}

impl<'a> Line<'a> {
    /// Copies the line, and returns its status.
    pub(crate) fn hand(&self, alloc: Global, out: &mut [u8], needed: &mut usize) -> u32
        ensures { EndsAs (line_status self.now) (line_text self.now) result (handed out.old out.new needed.new) }
    {
        let mut line = MemorySink::new(alloc);
        let status = self.put(&mut line);
        hand_printed(status, line.bytes(), out, needed)
    }

    /// Writes the line, and returns its status.
    pub(crate) fn put<K: Sink>(&self, sink: &mut K) -> Result<u32, DeviceFault>
        ensures status { IfOk result (λ status. status ≡ line_status self.now) }
        ensures line { Puts result (K.seen sink.old) (line_text self.now) (K.seen sink.new) }
    {
        self.write(sink)?;
        Ok(self.status())
    }

    fn write<K: Sink>(&self, sink: &mut K) -> Result<(), DeviceFault>
        ensures { Puts result (K.seen sink.old) (line_text self.now) (K.seen sink.new) }
    {
        match self {
            Line::Read => Ok(()),
            Line::Yes(verdict) => put_verdict(sink, verdict),
            Line::No(place, reason) => put_failure(sink, *place, *reason),
            Line::Refused(text, place, reason) => put_refusal(sink, text, *place, *reason),
            Line::GaveUp => put_gave_up(sink),
            Line::Error(ArrayError::Refused(place, reason) | ArrayError::Limit(place, reason)) => {
                put_failure(sink, *place, *reason)
            }
            Line::Error(ArrayError::Length(_) | ArrayError::Memory) => Ok(()),
        }
    }

    fn status(&self) -> u32
        ensures { result ≡ line_status self.now }
    {
        match self {
            Line::Read | Line::Yes(_) => DONE,
            Line::No(_, _) | Line::Refused(_, _, _) | Line::Error(ArrayError::Refused(_, _)) => NO,
            Line::GaveUp => GAVE_UP,
            Line::Error(ArrayError::Limit(_, _) | ArrayError::Length(_)) => MISUSED,
            Line::Error(ArrayError::Memory) => NO_MEMORY,
        }
    }
}

/// Copies the line of a judge's answer, and returns its status.
pub(crate) fn hand_judged(
    alloc: Global,
    answer: Result<Verdict, ArrayError>,
    out: &mut [u8],
    needed: &mut usize,
) -> u32
    ensures { EndsWhole (printed verdict_printed answer) result (handed out.old out.new needed.new) }
{
    match answer {
        Ok(verdict) => Line::Yes(verdict).hand(alloc, out, needed),
        Err(error) => Line::Error(error).hand(alloc, out, needed),
    }
}

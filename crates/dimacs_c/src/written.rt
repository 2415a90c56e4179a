//! The ends of calls that write what arrays spell as a text.

ghost use Rattle.std.specs.Prelude.{◌≡◌, IfOk};
ghost use Rattle.dimacs_lines.specs.Puts.{Puts};
ghost use Rattle.dimacs_c.specs.{Arrays.{only, printed}, Calls.{handed}, inside.Printed.{EndsWhole}};

use crate::answer::hand_printed;
use crate::lines::Line;
use dimacs_arrays::ArrayError;
use dimacs_lines::{DeviceFault, MemorySink, Sink};
use dimacs_records::Writable;
use std::alloc::Global;

const DONE: u32 = 0;

/// Copies the text of an answer, or the line of an error, and returns the status.
pub(crate) fn hand_text<T: Writable>(
    alloc: Global,
    answer: &Result<T, ArrayError>,
    out: &mut [u8],
    needed: &mut usize,
) -> u32
    ensures { EndsWhole (printed (λ v. only 0 (T.canonical (T.content v))) answer.now) result (handed out.old out.new needed.new) }
{
    let mut text = MemorySink::new(alloc);
    let status = put_text(&mut text, answer);
    hand_printed(status, text.bytes(), out, needed)
}

fn put_text<T: Writable, K: Sink>(
    sink: &mut K,
    answer: &Result<T, ArrayError>,
) -> Result<u32, DeviceFault>
    ensures status { IfOk result (λ status. status ≡ (printed (λ v. only 0 (T.canonical (T.content v))) answer.now).status) }
    ensures text { Puts result (K.seen sink.old) (printed (λ v. only 0 (T.canonical (T.content v))) answer.now).line (K.seen sink.new) }
{
    match answer {
        Ok(value) => {
            value.write(sink)?;
            Ok(DONE)
        }
        Err(error) => Line::Error(*error).put(sink),
    }
}

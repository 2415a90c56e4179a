//! The end of each call: its status, and what it copies to the caller.

ghost use Rattle.std.specs.Prelude.{◌≡◌};
ghost use Rattle.dimacs_c.specs.{Calls.{HandsOut, handed}, inside.Calls.{Ends, EndsPrinted}};

use dimacs_jobs::{RunError, Status, exit_status};
use dimacs_lines::DeviceFault;

/// The status of a misused call.
pub(crate) const MISUSED: u32 = 2;

/// The status if memory runs out.
pub(crate) const NO_MEMORY: u32 = 4;

/// Copies the output of a run, and returns its exit status. The run writes to memory: any error is out of memory.
pub(crate) fn end(
    ended: Result<Status, RunError>,
    bytes: &[u8],
    out: &mut [u8],
    needed: &mut usize,
) -> u32
    ensures { Ends ended bytes.now result (handed out.old out.new needed.new) }
{
    match ended {
        Ok(_) => {
            hand_out(bytes, out, needed);
            u32::from(exit_status(&ended))
        }
        Err(_) => {
            *needed = 0;
            NO_MEMORY
        }
    }
}

/// Copies items of a call over arrays, and returns its status. The call wrote its line to memory, which fails only if
/// memory runs out.
pub(crate) fn hand_printed<T: Copy>(
    status: Result<u32, DeviceFault>,
    items: &[T],
    buffer: &mut [T],
    needed: &mut usize,
) -> u32
    ensures { EndsPrinted status items.now result (handed buffer.old buffer.new needed.new) }
{
    match status {
        Ok(status) => {
            hand_out(items, buffer, needed);
            status
        }
        Err(_) => {
            *needed = 0;
            NO_MEMORY
        }
    }
}

/// Ends a misused call, and copies nothing.
pub(crate) fn misuse(needed: &mut usize) -> u32
    ensures needed { needed.new ≡ 0 }
    ensures status { result ≡ 2 }
{
    *needed = 0;
    MISUSED
}

/// Copies as much as fits into the buffer, and sets the length of the whole.
pub(crate) fn hand_out<T: Copy>(items: &[T], buffer: &mut [T], needed: &mut usize)
    ensures { HandsOut items.now (handed buffer.old buffer.new needed.new) }
{
    let count = items.len().min(buffer.len());
    buffer[..count].copy_from_slice(&items[..count]);
    *needed = items.len();
}

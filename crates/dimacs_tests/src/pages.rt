//! A page puts nothing before it is full, and nothing after a fault.

use crate::checks::same;
use dimacs_lines::{DeviceFault, FlakySink, OutputBuffer};

/// Writes lines of eight bytes; a page takes 2,048. Returns how many bytes were put before the end, and the result.
fn write_lines(sink: &mut FlakySink<'_>, count: usize) -> (usize, Result<(), DeviceFault>) {
    let mut page = OutputBuffer::new();
    for _ in 0..count {
        page.line_of_three(sink, b'a', 1, 2, 3);
    }
    let put = sink.bytes().len();
    (put, page.finish(sink))
}

/// Lines, the put that fails, bytes before the end, result, bytes at the end.
static PUTS: [(usize, u64, usize, Result<(), DeviceFault>, usize); 5] = [
    (0, 1, 0, Ok(()), 0),
    (2_000, 9, 0, Ok(()), 16_000),
    (2_000, 1, 0, Err(DeviceFault), 0),
    (9_000, 1, 0, Err(DeviceFault), 0),
    (9_000, 2, 10, Err(DeviceFault), 10),
];

#[test]
fn nothing_is_put_before_a_page_is_full_or_after_a_fault(rt: HostRuntime) {
    for &(count, fail, early, answer, all) in &PUTS {
        let fails = [fail];
        let mut sink = FlakySink::new(rt.alloc(), &[10], &fails);
        let written = write_lines(&mut sink, count);
        same(&rt, "bytes before the end", written, (early, answer));
        same(&rt, "bytes", sink.bytes().len(), all);
    }
}

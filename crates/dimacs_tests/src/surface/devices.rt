//! Sources and sinks over memory and files: their pieces, and their faults in mid-stream.

use crate::checks::same;
use crate::surface::spelling::spell_pulls;
use dimacs_lines::{
    CutSource, DeviceFault, FileSink, FlakySink, FlakySource, MemorySink, MemorySource, Sink,
    Source, put_all,
};
use std::alloc::Global;
use std::process::Abort;
use std::test::Fail;

/// The bytes of the sources and puts below.
const BYTES: &[u8] = b"abcdefg";

/// The space for each pull, and the pieces of a source in memory.
static ROOMS: [(usize, &str); 5] = [
    (9, "abcdefg|"),
    (7, "abcdefg|"),
    (3, "abc|def|g|"),
    (1, "a|b|c|d|e|f|g|"),
    (0, ""),
];

/// Other sources: name, sizes of pieces, pulls that fail, space for each pull, what is read.
static SOURCES: [(&str, &[usize], &[u64], usize, &str); 13] = [
    ("no list", &[], &[], 9, "abcdefg|"),
    ("a short list", &[2], &[], 9, "ab|cdefg|"),
    ("sizes that differ", &[2, 1, 3], &[], 9, "ab|c|def|g|"),
    ("a nought is one", &[0, 2], &[], 9, "a|bc|defg|"),
    ("a size past the room", &[9, 2], &[], 3, "abc|de|fg|"),
    ("a size past the end", &[5, 5, 5], &[], 9, "abcde|fg|"),
    ("a fault at once", &[2, 1], &[1], 9, "fault|ab|c|defg|"),
    ("faults amid", &[2, 1], &[2, 3], 9, "ab|fault|fault|c|defg|"),
    ("unordered", &[2, 1], &[4, 2], 9, "ab|fault|c|fault|defg|"),
    ("a fault at the end", &[2, 1], &[4], 9, "ab|c|defg|fault|"),
    ("a fault after the end", &[2, 1], &[5], 9, "ab|c|defg|"),
    ("no pull 0", &[2, 1], &[0], 9, "ab|c|defg|"),
    ("no fault", &[2, 1], &[], 9, "ab|c|defg|"),
];

/// Tests what is read from a source.
fn gives<S: Source>(
    rt: &impl Abort,
    alloc: Global,
    name: &str,
    source: &mut S,
    room: usize,
    wanted: &str,
) -> Result<(), Fail> {
    let spelled = spell_pulls(rt, alloc, source, room)?;
    same(rt, name, spelled.as_str(), wanted);
    Ok(())
}

#[test]
fn sources_give_pieces(rt: HostRuntime) -> Result<(), Fail> {
    let alloc = rt.alloc();
    for &(room, wanted) in &ROOMS {
        gives(
            &rt,
            alloc,
            "memory",
            &mut MemorySource::new(BYTES),
            room,
            wanted,
        )?;
    }
    for &(name, sizes, fails, room, wanted) in &SOURCES {
        gives(
            &rt,
            alloc,
            name,
            &mut FlakySource::new(BYTES, sizes, fails),
            room,
            wanted,
        )?;
        if fails.is_empty() {
            gives(
                &rt,
                alloc,
                name,
                &mut CutSource::new(BYTES, sizes),
                room,
                wanted,
            )?;
        }
    }
    Ok(())
}

/// Puts of `abcdefg`: name, sizes that are accepted, puts that fail, whether all is put, content of the sink.
static PUTS: [(&str, &[usize], &[u64], bool, &str); 7] = [
    ("whole", &[], &[], true, "abcdefg"),
    ("by bytes", &[1, 1, 1, 1, 1, 1, 1], &[], true, "abcdefg"),
    ("pieces that differ", &[3, 1], &[], true, "abcdefg"),
    ("a nought is one", &[0], &[], true, "abcdefg"),
    ("a fault at once", &[], &[1], false, ""),
    ("a fault amid", &[3, 1], &[3], false, "abcd"),
    ("a fault after", &[3, 1], &[4], true, "abcdefg"),
];

#[test]
fn sinks_take_pieces(rt: HostRuntime) {
    for &(name, sizes, fails, all, wanted) in &PUTS {
        let mut sink = FlakySink::new(rt.alloc(), sizes, fails);
        same(&rt, name, put_all(&mut sink, BYTES).is_ok(), all);
        same(&rt, name, sink.bytes(), wanted.as_bytes());
    }
}

#[test]
fn a_sink_in_memory_keeps_what_it_takes(rt: HostRuntime) {
    let mut sink = MemorySink::new(rt.alloc());
    same(&rt, "a put", sink.put(b"ab"), Ok(2));
    same(&rt, "a put of nothing", sink.put(b""), Ok(0));
    same(&rt, "another put", sink.put(b"cde"), Ok(3));
    same(&rt, "bytes", sink.bytes(), b"abcde".as_slice());
    let mut failing = FlakySink::new(rt.alloc(), &[], &[1]);
    same(
        &rt,
        "a put that fails",
        failing.put(b"ab"),
        Err(DeviceFault),
    );
    same(&rt, "nothing to put", put_all(&mut failing, b""), Ok(()));
}

#[test]
fn a_file_that_takes_no_more_is_a_fault(rt: HostRuntime) {
    let mut room = [0u8; 3];
    let mut sink = FileSink::new(room.as_mut_slice());
    same(&rt, "a put", sink.put(b"ab"), Ok(2));
    same(&rt, "a put of which a part fits", sink.put(b"cd"), Ok(1));
    same(&rt, "a put of nothing", sink.put(b""), Ok(0));
    let put = sink.put(b"d");
    same(&rt, "a put of which nothing fits", put, Err(DeviceFault));
}

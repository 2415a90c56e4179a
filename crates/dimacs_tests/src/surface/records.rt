//! What lines spell, how records are written, and readings.

use crate::checks::{holds, same};
use dimacs_instance::{GraphReading, Network};
use dimacs_lines::MemorySink;
use dimacs_records::{LineFault, Reading, Reason, TakeError, TextKind, put_record, record};
use std::test::Fail;

/// A canonical line of each record, by the kind of its text.
static CANONICAL: [(TextKind, &str); 18] = [
    (TextKind::Max, "p max 134217728 268435456\n"),
    (TextKind::Max, "n 1 s\n"),
    (TextKind::Max, "n 2 t\n"),
    (TextKind::Max, "a 1 2 0\n"),
    (TextKind::Min, "p min 0 0\n"),
    (TextKind::Min, "n 1 -5\n"),
    (TextKind::Min, "a 1 2 0 3 -9223372036854775808\n"),
    (TextKind::Graph, "p sp 2 1\n"),
    (TextKind::Graph, "a 134217728 1 -7\n"),
    (TextKind::Queries, "p aux sp ss 1\n"),
    (TextKind::Queries, "p aux sp p2p 1\n"),
    (TextKind::Queries, "s 1\n"),
    (TextKind::Queries, "q 1 2\n"),
    (TextKind::Solution, "s -1000000000000000000000000000000\n"),
    (TextKind::Solution, "f 1 2 -3\n"),
    (TextKind::Cut, "u 4\n"),
    (
        TextKind::Potentials,
        "y 1 1000000000000000000000000000000\n",
    ),
    (TextKind::Labels, "d 2 5 1\n"),
];

#[test]
fn records_have_one_canonical_line(rt: HostRuntime) -> Result<(), Fail> {
    for &(kind, line) in &CANONICAL {
        let Ok(Some(rec)) = record(kind, line.trim_end().as_bytes()) else {
            return Err(Fail::from(line));
        };
        let mut sink = MemorySink::new(rt.alloc());
        put_record(&mut sink, &rec)?;
        holds(&rt, line, sink.bytes() == line.as_bytes());
    }
    Ok(())
}

/// Gives a reading the record of a line.
fn take(reading: &mut GraphReading, number: u64, line: &str) -> Result<(), TakeError> {
    match record(TextKind::Graph, line.as_bytes()) {
        Ok(Some(rec)) => reading.take(number, rec),
        Ok(None) => Ok(()),
        Err(fault) => Err(TakeError::Refused(fault)),
    }
}

/// Lines for a reading in turn, each with the field and the reason if it is refused.
static TAKEN: [(&str, u32, Option<Reason>); 7] = [
    ("a 1 1 0", 0, Some(Reason::ProblemMissing)),
    ("p sp 2 2", 0, None),
    ("p sp 9 9", 0, Some(Reason::ProblemTwice)),
    ("a 2 3 0", 3, Some(Reason::NodeRange)),
    ("a 1 2 5", 0, None),
    ("a 2 2 -5", 0, None),
    ("a 1 1 0", 0, Some(Reason::TooMany)),
];

#[test]
fn a_refused_record_leaves_the_reading_as_it_was(rt: HostRuntime) -> Result<(), Fail> {
    let mut reading = GraphReading::new(rt.alloc());
    for (&(line, field, reason), number) in TAKEN.iter().zip(1..=u64::MAX) {
        let wanted = match reason {
            Some(reason) => Err(TakeError::Refused(LineFault { field, reason })),
            None => Ok(()),
        };
        same(&rt, line, take(&mut reading, number, line), wanted);
    }
    let graph = reading.finish()?;
    let arcs = graph.network();
    same(&rt, "arcs", (arcs.nodes(), arcs.arcs()), (2, 2));
    same(&rt, "the loop", arcs.find(2, 2, 0), Some(1));
    Ok(())
}

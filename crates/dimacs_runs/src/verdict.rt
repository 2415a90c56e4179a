//! The lines of verdicts and of tests that fail.

ghost use Rattle.std.specs.List.{flat_map};
ghost use Rattle.dimacs_lines.specs.{OutputBuffers.{Appends}, Puts.{Puts}};
ghost use Rattle.dimacs_runs.specs.Verdicts.{answer_line, distances_line, failure_line, gave_up_line, numbered_line, verdict_lines};

use crate::refusal::put_refusal;
use dimacs_judging::{Answer, Verdict, Where};
use dimacs_lines::{DeviceFault, OutputBuffer, Sink};
use dimacs_records::{At, Part, Reason, put_line, write_line};

/// Writes the line of a verdict, or a line for each pair of the queries.
pub fn put_verdict<K: Sink>(sink: &mut K, verdict: &Verdict) -> Result<(), DeviceFault>
    ensures { Puts result (K.seen sink.old) (verdict_lines verdict.now) (K.seen sink.new) }
{
    match verdict {
        Verdict::Max(value) => put_line(sink, b"v", &[Part::Word(b"max"), Part::Wide(*value)]),
        Verdict::Min(cost) => put_line(sink, b"v", &[Part::Word(b"min"), Part::Wide(*cost)]),
        Verdict::Infeasible => put_line(sink, b"v", &[Part::Word(b"infeasible")]),
        Verdict::Sources(count) => {
            let count = Part::Number(i64::from(*count));
            put_line(sink, b"v", &[Part::Word(b"sp"), Part::Word(b"ss"), count])
        }
        Verdict::Pairs(answers) => put_answers(sink, answers),
    }
}

fn put_answers<K: Sink>(sink: &mut K, answers: &[Answer]) -> Result<(), DeviceFault>
    ensures { Puts result (K.seen sink.old) (flat_map answer_line answers.now) (K.seen sink.new) }
{
    let mut output = OutputBuffer::new();
    for answer in answers {
        write_answer(&mut output, sink, answer);
    }
    output.finish(sink)
}

/// Writes `v FROM TO` and a distance, `more` and a radius, or `unreachable`.
fn write_answer<K: Sink>(output: &mut OutputBuffer, sink: &mut K, answer: &Answer)
    ensures { Appends (answer_line answer.now) (K.seen sink.old) output.old (K.seen sink.new) output.new }
{
    let from = Part::Number(i64::from(answer.from));
    let to = Part::Number(i64::from(answer.to));
    match answer.distance {
        Some(distance) => write_line(output, sink, b"v", &[from, to, Part::Wide(distance)]),
        None => match answer.beyond {
            Some(radius) => {
                let more = Part::Word(b"more");
                write_line(output, sink, b"v", &[from, to, more, Part::Wide(radius)]);
            }
            None => write_line(output, sink, b"v", &[from, to, Part::Word(b"unreachable")]),
        },
    }
}

/// Writes `v sp distances COUNT`: the claimed distances from this many sources are right.
pub(crate) fn put_distances<K: Sink>(sink: &mut K, sources: u32) -> Result<(), DeviceFault>
    ensures { Puts result (K.seen sink.old) (distances_line sources) (K.seen sink.new) }
{
    let count = Part::Number(i64::from(sources));
    put_line(
        sink,
        b"v",
        &[Part::Word(b"sp"), Part::Word(b"distances"), count],
    )
}

/// Writes `g limit`: a solver gave up.
pub fn put_gave_up<K: Sink>(sink: &mut K) -> Result<(), DeviceFault>
    ensures { Puts result (K.seen sink.old) gave_up_line (K.seen sink.new) }
{
    put_line(sink, b"g", &[Part::Word(b"limit")])
}

/// Writes the line of a test that fails: `x`, the place and the reason.
pub fn put_failure<K: Sink>(sink: &mut K, place: Where, reason: Reason) -> Result<(), DeviceFault>
    ensures { Puts result (K.seen sink.old) (failure_line place reason) (K.seen sink.new) }
{
    match place {
        Where::Solution { line, field } => {
            put_refusal(sink, "solution", At { line, field }, reason)
        }
        Where::Certificate => put_refusal(sink, "certificate", At { line: 0, field: 0 }, reason),
        Where::Arc(number) => put_numbered(sink, "arc", number, reason),
        Where::Node(id) => put_numbered(sink, "node", id, reason),
    }
}

/// Writes `x arc NUMBER REASON` or `x node NUMBER REASON`.
fn put_numbered<K: Sink>(
    sink: &mut K,
    what: &str,
    number: u32,
    reason: Reason,
) -> Result<(), DeviceFault>
    ensures { Puts result (K.seen sink.old) (numbered_line what.now number reason) (K.seen sink.new) }
{
    let number = Part::Number(i64::from(number));
    let reason = Part::Word(reason.name().as_bytes());
    put_line(sink, b"x", &[Part::Word(what.as_bytes()), number, reason])
}

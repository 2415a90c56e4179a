//! Writing records in the canonical form: one blank between fields, numbers in decimal, a line end.

ghost use Rattle.std.specs.Prelude.{◌≡◌, ◌<◌, ◌≤◌, ℕ, List, [], ◌∷◌, ◌++◌, length, slice_get, pos, codes};
ghost use Rattle.dimacs_lines.specs.{Puts.{Puts}, OutputBuffers.{Appends}};
ghost use Rattle.dimacs_records.specs.{declared.printed.Part.TheVariants.{Number}, declared.records.Record.{Record}};
ghost use Rattle.dimacs_records.specs.Canonical.{AreLines, SkipsNone, canonical_line, canonical_text, line_of, records_of_line};
ghost use Rattle.dimacs_records.specs.Spelling.{Text, Amount};

use crate::printed::{Part, write_line};
use crate::records::Record;
use dimacs_lines::{DeviceFault, OutputBuffer, Sink};

/// Writes the line of a record.
pub fn put_record<S: Sink>(sink: &mut S, rec: &Record) -> Result<(), DeviceFault>
    ensures { Puts result (S.seen sink.old) (canonical_line rec.now) (S.seen sink.new) }
{
    let mut output = OutputBuffer::new();
    write_record(&mut output, sink, rec);
    output.finish(sink)
}

/// Writes the lines of `first`, then those of the records that `line` gives for the numbers below `count`.
pub fn put_text<S: Sink, F: Fn(usize) -> Option<Record>>(
    sink: &mut S,
    first: &[Record],
    count: usize,
    line: F,
) -> Result<(), DeviceFault>
    requires { (i : ℕ) → i < count → F.pre line i }
    ensures { (below : ℕ → List Record) → AreLines (F.post line) count below
        → Puts result (S.seen sink.old) (canonical_text (first.now ++ below count)) (S.seen sink.new) }
{
    let mut output = OutputBuffer::new();
    write_all(&mut output, sink, first);
    write_lines(&mut output, sink, count, line);
    output.finish(sink)
}

/// The same where few numbers have a line: `next` leads from a number to the first from there on that may have one.
pub fn put_sparse_text<S: Sink, N: Fn(usize) -> usize, F: Fn(usize) -> Option<Record>>(
    sink: &mut S,
    first: &[Record],
    count: usize,
    next: N,
    line: F,
) -> Result<(), DeviceFault>
    requires lines { (i : ℕ) → i < count → F.pre line i }
    requires numbers { (i : ℕ) → i ≤ count → N.pre next i }
    requires onward { (i j : ℕ) → N.post next i j → (i ≤ j) × (j ≤ count) }
    ensures { (below : ℕ → List Record) → AreLines (F.post line) count below → SkipsNone (N.post next) below
        → Puts result (S.seen sink.old) (canonical_text (first.now ++ below count)) (S.seen sink.new) }
{
    let mut output = OutputBuffer::new();
    write_all(&mut output, sink, first);
    write_sparse_lines(&mut output, sink, count, next, line);
    output.finish(sink)
}

/// Not inlined: `write_record` is large if the kind of record isn't known.
#[inline(never)]
fn write_all<S: Sink>(output: &mut OutputBuffer, sink: &mut S, records: &[Record])
    ensures { Appends (canonical_text records.now) (S.seen sink.old) output.old (S.seen sink.new) output.new }
{
    write_lines(
        output,
        sink,
        records.len(),
        |i|
            requires { i < length records.now }
            ensures { result ≡ slice_get records.entry.now i }
        { Some(records[i]) },
    );
}

/// Writes the lines of the records that `line` gives for the numbers below `count`, in order.
#[inline(always)]
pub fn write_lines<S: Sink, F: Fn(usize) -> Option<Record>>(
    output: &mut OutputBuffer,
    sink: &mut S,
    count: usize,
    line: F,
)
    requires { (i : ℕ) → i < count → F.pre line i }
    ensures { (below : ℕ → List Record) → AreLines (F.post line) count below
        → Appends (canonical_text (below count)) (S.seen sink.old) output.old (S.seen sink.new) output.new }
{
    for i in 0..count {
        write_if_any(output, sink, line(i));
    }
}

/// The same where few numbers have a line: `next` leads from a number to the first from there on that may have one.
#[inline(always)]
pub fn write_sparse_lines<S: Sink, N: Fn(usize) -> usize, F: Fn(usize) -> Option<Record>>(
    output: &mut OutputBuffer,
    sink: &mut S,
    count: usize,
    next: N,
    line: F,
)
    requires lines { (i : ℕ) → i < count → F.pre line i }
    requires numbers { (i : ℕ) → i ≤ count → N.pre next i }
    requires onward { (i j : ℕ) → N.post next i j → (i ≤ j) × (j ≤ count) }
    ensures { (below : ℕ → List Record) → AreLines (F.post line) count below → SkipsNone (N.post next) below
        → Appends (canonical_text (below count)) (S.seen sink.old) output.old (S.seen sink.new) output.new }
{
    let mut i = 0;
    while i < count {
        write_if_any(output, sink, line(i));
        i = next(i + 1);
    }
}

#[inline(always)]
fn write_if_any<S: Sink>(output: &mut OutputBuffer, sink: &mut S, rec: Option<Record>)
    ensures { Appends (canonical_text (records_of_line rec)) (S.seen sink.old) output.old (S.seen sink.new) output.new }
{
    if let Some(rec) = rec {
        write_record(output, sink, &rec);
    }
}

/// Writes the line of a record through a buffer.
#[inline(always)]
pub fn write_record<S: Sink>(output: &mut OutputBuffer, sink: &mut S, rec: &Record)
    ensures { Appends (canonical_line rec.now) (S.seen sink.old) output.old (S.seen sink.new) output.new }
{
    match *rec {
        Record::MaxProblem { nodes, arcs } => write_problem(output, sink, b"max", nodes, arcs),
        Record::MaxNode { id, end } => {
            write_line(output, sink, b"n", &[unsigned(id), Part::Word(end.word())])
        }
        Record::MaxArc { tail, head, cap } => write_arc(output, sink, b'a', tail, head, cap),
        Record::MinProblem { nodes, arcs } => write_problem(output, sink, b"min", nodes, arcs),
        Record::MinNode { id, supply } => output.line(sink, b'n', &[i64::from(id), supply]),
        Record::MinArc {
            tail,
            head,
            low,
            cap,
            cost,
        } => output.line(
            sink,
            b'a',
            &[i64::from(tail), i64::from(head), low, cap, cost],
        ),
        Record::GraphProblem { nodes, arcs } => write_problem(output, sink, b"sp", nodes, arcs),
        Record::GraphArc { tail, head, weight } => write_arc(
            output, sink, b'a', tail, head, weight,
        ),
        Record::QueriesProblem { asks, count } => write_line(
            output,
            sink,
            b"p",
            &[
                Part::Word(b"aux"),
                Part::Word(b"sp"),
                Part::Word(asks.word()),
                unsigned(count),
            ],
        ),
        Record::SourceQuery { id } => output.line(sink, b's', &[i64::from(id)]),
        Record::PairQuery { from, to } => {
            output.line(sink, b'q', &[i64::from(from), i64::from(to)]);
        }
        Record::SolutionValue { value } => write_line(output, sink, b"s", &[Part::Wide(value)]),
        Record::SolutionEntry { tail, head, flow } => write_arc(
            output, sink, b'f', tail, head, flow,
        ),
        Record::CutProblem { nodes, count } => write_problem(output, sink, b"cut", nodes, count),
        Record::CutNode { id } => output.line(sink, b'u', &[i64::from(id)]),
        Record::PotentialsProblem { nodes, count } => {
            write_problem(output, sink, b"pot", nodes, count)
        }
        Record::PotentialsNode { id, value } => write_number(output, sink, b'y', id, value),
        Record::LabelsProblem { nodes, blocks } => {
            write_problem(output, sink, b"dist", nodes, blocks)
        }
        Record::LabelsBlock {
            source,
            count,
            radius: None,
        } => output.line(sink, b't', &[i64::from(source), i64::from(count)]),
        Record::LabelsBlock {
            source,
            count,
            radius: Some(radius),
        } => write_line(
            output,
            sink,
            b"t",
            &[unsigned(source), unsigned(count), Part::Wide(radius)],
        ),
        Record::LabelsNode { id, dist, pred } => write_label(output, sink, id, dist, pred),
        Record::DistancesProblem { nodes, blocks } => {
            write_problem(output, sink, b"distances", nodes, blocks)
        }
        Record::DistancesBlock { source, count } => {
            output.line(sink, b't', &[i64::from(source), i64::from(count)]);
        }
        Record::DistancesNode { id, dist } => write_number(output, sink, b'd', id, dist),
    }
}

#[inline(always)]
fn write_problem<S: Sink>(
    output: &mut OutputBuffer,
    sink: &mut S,
    word: &[u8],
    nodes: u32,
    count: u32,
)
    ensures { Appends (line_of (codes "p") (Text word.now ∷ Amount (pos nodes) ∷ Amount (pos count) ∷ []))
        (S.seen sink.old) output.old (S.seen sink.new) output.new }
{
    write_line(
        output,
        sink,
        b"p",
        &[Part::Word(word), unsigned(nodes), unsigned(count)],
    );
}

#[inline(always)]
fn write_arc<S: Sink>(
    output: &mut OutputBuffer,
    sink: &mut S,
    letter: u8,
    tail: u32,
    head: u32,
    n: i64,
)
    ensures { Appends (line_of (letter ∷ []) (Amount (pos tail) ∷ Amount (pos head) ∷ Amount n ∷ []))
        (S.seen sink.old) output.old (S.seen sink.new) output.new }
{
    output.line_of_three(sink, letter, i64::from(tail), i64::from(head), n);
}

/// Writes the line of a node's number. Those of 64 bits, as most are, aren't formatted apart.
#[inline(always)]
fn write_number<S: Sink>(output: &mut OutputBuffer, sink: &mut S, letter: u8, id: u32, n: i128)
    ensures { Appends (line_of (letter ∷ []) (Amount (pos id) ∷ Amount n ∷ [])) (S.seen sink.old) output.old (S.seen sink.new) output.new }
{
    match i64::try_from(n) {
        Ok(n) => output.line(sink, letter, &[i64::from(id), n]),
        Err(_) => write_line(output, sink, &[letter], &[unsigned(id), Part::Wide(n)]),
    }
}

/// As `write_number`, for a label.
#[inline(always)]
fn write_label<S: Sink>(output: &mut OutputBuffer, sink: &mut S, id: u32, dist: i128, pred: u32)
    ensures { Appends (line_of (codes "d") (Amount (pos id) ∷ Amount dist ∷ Amount (pos pred) ∷ []))
        (S.seen sink.old) output.old (S.seen sink.new) output.new }
{
    match i64::try_from(dist) {
        Ok(dist) => output.line_of_three(sink, b'd', i64::from(id), dist, i64::from(pred)),
        Err(_) => write_line(
            output,
            sink,
            b"d",
            &[unsigned(id), Part::Wide(dist), unsigned(pred)],
        ),
    }
}

#[inline(always)]
fn unsigned(n: u32) -> Part<'static>
    ensures { result ≡ Number (pos n) }
{
    Part::Number(i64::from(n))
}

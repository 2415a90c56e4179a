//! Types of one's own for the traits of the crates, without the members that have a default, and runs of each kind over
//! them.

ghost use Rattle.std.specs.Prelude.{[], ◌∷◌, ◌≡◌, None, pos};

use crate::checks::{holds, same};
use dimacs_claims::{CutReading, read_cut, read_solution};
use dimacs_instance::{ArcView, MaxInstance, Network};
use dimacs_jobs::{JudgeKind, RunError, SolveJob, SpreadKind, Status};
use dimacs_judge::{Verdict, judge_max};
use dimacs_lines::{DeviceFault, Sink, Source};
use dimacs_records::{Reading, Record, TakeError, TextKind, read_text};
use dimacs_runs::{run_certify, run_convert, run_judge, run_show, run_solve, run_spread};
use std::alloc::Global;
use std::test::Fail;

/// Gives a byte a pull.
#[derive(Drop)]
struct Bytewise<'a> {
    left: &'a [u8],
}

impl<'a> Bytewise<'a> {
    fn of(text: &'a str) -> Bytewise<'a> {
        Bytewise {
            left: text.as_bytes(),
        }
    }
}

// The contracts are those of `Source`, in dimacs_lines/src/device.rt.
impl<'a> Source for Bytewise<'a> {
    ghost coming = { λ _. None };

    ghost faults = { λ _. 0 };

    fn pull(&mut self, into: &mut [u8]) -> Result<usize, DeviceFault> {
        match (into.first_mut(), self.left.split_first()) {
            (Some(place), Some((first, rest))) => {
                *place = *first;
                self.left = rest;
                Ok(1)
            }
            _ => Ok(0),
        }
    }
}

/// Accepts a byte a put, and compares it with the next of those that are wanted.
#[derive(Drop)]
struct Wanted<'a> {
    left: &'a [u8],
    differ: bool,
}

impl<'a> Wanted<'a> {
    fn bytes_of(text: &'a str) -> Wanted<'a> {
        Wanted {
            left: text.as_bytes(),
            differ: false,
        }
    }

    fn is_met(&self) -> bool {
        self.left.is_empty() && !self.differ
    }
}

// The contracts are those of `Sink`, in dimacs_lines/src/device.rt.
impl<'a> Sink for Wanted<'a> {
    ghost seen = { λ _. record { accepted = None; faults = 0 } };

    fn put(&mut self, bytes: &[u8]) -> Result<usize, DeviceFault> {
        let Some(byte) = bytes.first() else {
            return Ok(0);
        };
        match self.left.split_first() {
            Some((first, rest)) if first == byte => self.left = rest,
            _ => self.differ = true,
        }
        Ok(1)
    }
}

/// Counts the records that a reading takes.
#[derive(Drop)]
struct Counting<R: Reading> {
    inner: R,
    taken: u32,
}

// The contracts are those of `Reading`, in dimacs_records/src/reading.rt.
impl<R: Reading> Reading for Counting<R> {
    type Value = R::Value;

    ghost kind = { λ counting. R.kind counting.inner };

    ghost stands_for = { λ counting rs. R.stands_for counting.inner rs };

    ghost gives = { λ rs value. R.gives rs value };

    fn take(&mut self, line: u64, rec: Record) -> Result<(), TakeError> {
        self.inner.take(line, rec)?;
        self.taken = self.taken.wrapping_add(1);
        Ok(())
    }

    fn finish(self) -> Result<R::Value, TakeError> {
        self.inner.finish()
    }
}

impl<R: Reading> Counting<R> {
    fn of(inner: R) -> Counting<R>
        ensures { result.inner ≡ inner }
    {
        Counting { inner, taken: 0 }
    }
}

/// Two nodes, and an arc of capacity 3 from the first to the second.
#[derive(Drop)]
struct OneArc;

// The contracts are those of `Network`, in dimacs_network/src/network.rt.
impl Network for OneArc {
    ghost node_count = { λ _. 2 };

    ghost list = { λ _. record { tail = 1; head = 2; low = pos 0; cap = pos 3; cost = pos 0 } ∷ [] };

    fn nodes(&self) -> u32 {
        2
    }

    fn arcs(&self) -> u32 {
        1
    }

    fn arc(&self, i: u32) -> ArcView {
        match i {
            0 => ArcView {
                tail: 1,
                head: 2,
                low: 0,
                cap: 3,
                cost: 0,
            },
            _ => unreachable!(),
        }
    }
}

#[test]
fn a_reading_of_ones_own_reads_a_text(rt: HostRuntime) -> Result<(), Fail> {
    let reading = Counting::of(CutReading::new(rt.alloc()));
    let text = &mut Bytewise::of("p cut 4 2\nu 3\nu 1\n");
    let cut = read_text(rt.alloc(), TextKind::Cut, reading, text)?;
    let inside = (
        cut.nodes(),
        cut.contains(1),
        cut.contains(2),
        cut.contains(3),
    );
    same(&rt, "the cut", inside, (4, true, false, true));
    Ok(())
}

#[test]
fn a_network_of_ones_own_is_judged(rt: HostRuntime) -> Result<(), Fail> {
    let alloc = rt.alloc();
    let instance = MaxInstance::over(OneArc, 1, 2);
    let solution = read_solution(alloc, &mut Bytewise::of("s 3\nf 1 2 3\n"))?;
    let cut = read_cut(alloc, &mut Bytewise::of("p cut 2 1\nu 1\n"))?;
    let verdict = judge_max(alloc, &instance, &solution, &cut);
    same(&rt, "verdict", verdict, Ok(Verdict::Max(3)));
    Ok(())
}

/// A run.
#[derive(Clone, Copy)]
enum Run {
    Convert(TextKind),
    Show(TextKind),
    Judge(JudgeKind),
    Certify(JudgeKind),
    Spread(SpreadKind),
    Solve(SolveJob),
}

const MAX: &str = "p max 4 5\nn 1 s\nn 4 t\na 1 2 4\na 1 3 2\na 2 3 2\na 2 4 3\na 3 4 5\n";

const FLOW: &str = "s 6\nf 1 2 4\nf 1 3 2\nf 2 3 1\nf 2 4 3\nf 3 4 3\n";

const CYCLE: &str = "p sp 4 3\na 1 2 5\na 3 4 0\na 4 3 0\n";

const PAIRS: &str = "p aux sp p2p 2\nq 1 2\nq 1 4\n";

const LABELS: &str = "p dist 4 1\nt 1 1\nd 2 5 1\n";

/// Runs: what is read, what is written before the report, and the report.
static RUNS: [(Run, [&str; 3], [&str; 2], &str); 6] = [
    (
        Run::Convert(TextKind::Cut),
        ["p cut 4 2\nu 3\nu 1", "", ""],
        ["", ""],
        "p cut 4 2\nu 1\nu 3\n",
    ),
    (
        Run::Show(TextKind::Max),
        [MAX, "", ""],
        ["", ""],
        "i max 4 5 1 4\n",
    ),
    (
        Run::Judge(JudgeKind::Paths),
        [CYCLE, PAIRS, LABELS],
        ["", ""],
        "v 1 2 5\nv 1 4 unreachable\n",
    ),
    (
        Run::Certify(JudgeKind::Max),
        [MAX, FLOW, ""],
        ["", "p cut 4 1\nu 1\n"],
        "v max 6\n",
    ),
    (
        Run::Spread(SpreadKind::Max),
        [MAX, FLOW, ""],
        ["", FLOW],
        "",
    ),
    (
        Run::Solve(SolveJob::Paths),
        [CYCLE, PAIRS, ""],
        ["", LABELS],
        "v 1 2 5\nv 1 4 unreachable\n",
    ),
];

/// Runs this, each text by bytes.
fn ended(
    alloc: Global,
    run: Run,
    texts: &[&str; 3],
    claim: &mut Wanted<'_>,
    certificate: &mut Wanted<'_>,
    report: &mut Wanted<'_>,
) -> Result<Status, RunError> {
    let first = &mut Bytewise::of(texts[0]);
    let second = &mut Bytewise::of(texts[1]);
    let third = &mut Bytewise::of(texts[2]);
    match run {
        Run::Convert(kind) => run_convert(alloc, kind, first, report),
        Run::Show(kind) => run_show(alloc, kind, first, report),
        Run::Judge(kind) => run_judge(alloc, kind, first, second, third, report),
        Run::Certify(kind) => run_certify(alloc, kind, first, second, certificate, report),
        Run::Spread(kind) => run_spread(alloc, kind, first, second, certificate, report),
        Run::Solve(job) => run_solve(alloc, job, first, second, claim, certificate, report),
    }
}

#[test]
fn runs_take_any_source_and_any_sink(rt: HostRuntime) {
    for (run, texts, written, report) in &RUNS {
        let mut claim = Wanted::bytes_of(written[0]);
        let mut certificate = Wanted::bytes_of(written[1]);
        let mut report = Wanted::bytes_of(report);
        let end = ended(
            rt.alloc(),
            *run,
            texts,
            &mut claim,
            &mut certificate,
            &mut report,
        );
        same(&rt, texts[0], end, Ok(Status::Done));
        let are_met = claim.is_met() && certificate.is_met() && report.is_met();
        holds(&rt, texts[0], are_met);
    }
}

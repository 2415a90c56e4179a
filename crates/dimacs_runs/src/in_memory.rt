//! Runs over texts in memory.

ghost use Rattle.std.specs.Prelude.{◌≡◌, ◌∷◌, [], None, IfOk};
ghost use Rattle.dimacs_runs.specs.{InMemory.{HasKept, Makes, MakesJudged, MakesSolved, OnlyReports}, Runs.{Prints}};
ghost use Rattle.dimacs_runs.specs.{Reports.{report_lines}, inside.Outcomes.{Keeps, outcome_texts, shown_texts}};

use crate::certify::certify_claim;
use crate::judge::judge_texts;
use crate::outcome::{Outcome, write_outcome};
use crate::solve::solve_texts;
use crate::spread::spread_claim;
use crate::text::{TextForm, run_text};
use dimacs_jobs::{JudgeKind, RunError, SolveJob, Status, Verb};
use dimacs_lines::{Memory, MemorySink, MemorySource};
use dimacs_records::TextKind;
use std::alloc::Global;

/// Texts that stand for the files that a run reads, in order. It doesn't read those after them.
#[derive(Clone, Copy)]
pub struct MemoryTexts<'a> {
    /// The first.
    pub first: &'a [u8],
    /// The second.
    pub second: &'a [u8],
    /// The third.
    pub third: &'a [u8],
}

/// What a run over texts wrote.
#[derive(Drop)]
pub struct Ran {
    /// How it ended.
    pub status: Status,
    /// The text for the first file that it creates.
    pub made: MemorySink,
    /// The text for the second.
    pub more: MemorySink,
    /// The report, then what explains it.
    pub printed: MemorySink,
    /// The outcome, until it is taken.
    pub(crate) kept: Option<Outcome>,
}

impl Ran {
    /// Takes the outcome out, for its explanation.
    pub fn take_outcome(&mut self) -> Option<Outcome>
        ensures taken { result ≡ self.old.kept }
        ensures others { self.new ≡ record { status = self.old.status; made = self.old.made; more = self.old.more; printed = self.old.printed; kept = None } }
    {
        self.kept.take()
    }
}

/// Runs a verb over texts. The only error is out of memory.
pub fn run_in_memory(alloc: Global, verb: Verb, texts: MemoryTexts<'_>) -> Result<Ran, Memory>
    ensures makes { IfOk result (λ ran. Makes verb texts.entry.first.now texts.entry.second.now texts.entry.third.now
        ran.status ran.made.bytes ran.more.bytes ran.printed.bytes) }
    ensures kept { IfOk result HasKept }
{
    let mut first = MemorySource::new(texts.first);
    let mut second = MemorySource::new(texts.second);
    match verb {
        Verb::Convert(kind) => print(alloc, TextForm::Canonical, kind, texts.first),
        Verb::Show(kind) => print(alloc, TextForm::Summary, kind, texts.first),
        Verb::Judge(kind) => judge(alloc, kind, texts),
        Verb::Certify(kind) => make_one(alloc, certify_claim(alloc, kind, &mut first, &mut second)),
        Verb::Spread(kind) => make_one(alloc, spread_claim(alloc, kind, &mut first, &mut second)),
        Verb::Solve(job) => solve(alloc, job, texts),
    }
}

/// Prints a text in this form.
fn print(alloc: Global, form: TextForm, kind: TextKind, text: &[u8]) -> Result<Ran, Memory>
    ensures reports { IfOk result (λ ran. OnlyReports (Prints form kind text.now) ran.status ran.made.bytes ran.more.bytes ran.printed.bytes) }
    ensures kept { IfOk result HasKept }
{
    let mut printed = MemorySink::new(alloc);
    let mut kept = None;
    match run_text(
        alloc,
        form,
        kind,
        &mut MemorySource::new(text),
        &mut printed,
        &mut kept,
    ) {
        Ok(status) => Ok(Ran {
            status,
            made: MemorySink::new(alloc),
            more: MemorySink::new(alloc),
            printed,
            kept,
        }),
        Err(_) => Err(Memory),
    }
}

/// Judges a claim. That no flow is feasible has no text.
fn judge(alloc: Global, kind: JudgeKind, texts: MemoryTexts<'_>) -> Result<Ran, Memory>
    ensures makes { IfOk result (λ ran. MakesJudged kind texts.entry.first.now texts.entry.second.now texts.entry.third.now
        ran.status ran.made.bytes ran.more.bytes ran.printed.bytes) }
    ensures kept { IfOk result HasKept }
{
    let mut first = MemorySource::new(texts.first);
    let mut second = MemorySource::new(texts.second);
    let mut third = MemorySource::new(texts.third);
    match kind {
        JudgeKind::Infeasible => {
            report(
                alloc,
                judge_texts(alloc, kind, &mut first, &mut third, &mut second),
            )
        }
        _ => report(
            alloc,
            judge_texts(alloc, kind, &mut first, &mut second, &mut third),
        ),
    }
}

/// Solves an instance.
fn solve(alloc: Global, job: SolveJob, texts: MemoryTexts<'_>) -> Result<Ran, Memory>
    ensures makes { IfOk result (λ ran. MakesSolved job texts.entry.first.now texts.entry.second.now
        ran.status ran.made.bytes ran.more.bytes ran.printed.bytes) }
    ensures kept { IfOk result HasKept }
{
    let mut first = MemorySource::new(texts.first);
    let mut second = MemorySource::new(texts.second);
    let outcome = solve_texts(alloc, job, &mut first, &mut second);
    match job {
        SolveJob::Paths => make_one(alloc, outcome),
        _ => make(alloc, outcome),
    }
}

/// Writes the report of an outcome.
fn report(alloc: Global, outcome: Result<Outcome, RunError>) -> Result<Ran, Memory>
    ensures keeps { IfOk result (λ ran. Keeps (λ o. report_lines o.report) outcome ran.status ran.printed.bytes) }
    ensures alone { IfOk result (λ ran. (ran.made.bytes ≡ []) × (ran.more.bytes ≡ [])) }
    ensures kept { IfOk result HasKept }
{
    let ran = make(alloc, outcome)?;
    Ok(Ran {
        made: MemorySink::new(alloc),
        more: MemorySink::new(alloc),
        ..ran
    })
}

/// Writes an outcome without what a solver made.
fn make_one(alloc: Global, outcome: Result<Outcome, RunError>) -> Result<Ran, Memory>
    ensures keeps { IfOk result (λ ran. Keeps shown_texts outcome ran.status (ran.made.bytes ∷ ran.printed.bytes ∷ [])) }
    ensures one { IfOk result (λ ran. ran.more.bytes ≡ []) }
    ensures kept { IfOk result HasKept }
{
    let ran = make(alloc, outcome)?;
    Ok(Ran {
        made: ran.more,
        more: MemorySink::new(alloc),
        ..ran
    })
}

/// Writes an outcome.
fn make(alloc: Global, outcome: Result<Outcome, RunError>) -> Result<Ran, Memory>
    ensures keeps { IfOk result (λ ran. Keeps outcome_texts outcome ran.status (ran.made.bytes ∷ ran.more.bytes ∷ ran.printed.bytes ∷ [])) }
    ensures kept { IfOk result HasKept }
{
    let mut made = MemorySink::new(alloc);
    let mut more = MemorySink::new(alloc);
    let mut printed = MemorySink::new(alloc);
    let mut kept = None;
    match write_outcome(outcome, &mut made, &mut more, &mut printed, &mut kept) {
        Ok(status) => Ok(Ran {
            status,
            made,
            more,
            printed,
            kept,
        }),
        Err(_) => Err(Memory),
    }
}

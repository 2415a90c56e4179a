//! A run, and the explanation of its answer.

ghost use Rattle.std.specs.{Prelude.{◌≡◌, IfSome, IsTrue, List, Some, ℕ}, String.{string_bytes}};
ghost use Rattle.dimacs_runs.specs.Commands.{seen_by};
ghost use Rattle.dimacs_explained.specs.Explained as explained;
ghost use Rattle.dimacs_explained.specs.Explained.{EndsLine, Explains, FollowedBy, MayFollow};
ghost use Rattle.dimacs_explained.specs.inside.Retold.{RetellsKept};
ghost use Rattle.dimacs_jobs.specs.Jobs.{HasFiles};

use crate::texts::texts_of;
use dimacs_explain::Explanation;
use dimacs_jobs::{Job, SolveJob, Status, Verb};
use dimacs_judging::Verdict;
use dimacs_lines::{Memory, MemorySink, MemorySource, Sink, put_all};
use dimacs_quote::{Reopen, StandFor, Texts};
use dimacs_runs::{CommandError, Failure, Files, Outcome, Report, run_and_keep};
use std::alloc::Global;

/// Runs a job, and writes lines that explain its yes or its refusal. For these it reads files again, by `Reopen`: they
/// may have changed, so their bytes aren't known. If memory runs out, no explanation is written. If the output fails at
/// it, that is the result; else the run's is.
pub fn explain_job<'a, F: Files + Reopen, K: Sink>(
    alloc: Global,
    job: Job<'a>,
    files: &mut F,
    output: &mut K,
) -> Result<Status, CommandError<'a>>
    requires named { HasFiles job }
    requires unknown { (again : F) (name bytes : List ℕ) → ¬ F.reopens again name (Some bytes) }
    ensures explains { Explains job.entry (F.holds files.old) F.empty result
        (seen_by (F.seen files.old) (K.seen output.old)) (seen_by (F.seen files.new) (K.seen output.new)) }
{
    let mut kept = None;
    let ended = run_and_keep(alloc, job, files, output, &mut kept);
    write_explanation(alloc, job, StandFor::Files, ended, &kept, files, output)
}

/// Writes the explanation of what a run that ended so answered, if it has one.
pub(crate) fn write_explanation<'a, A: Reopen, K: Sink>(
    alloc: Global,
    job: Job<'a>,
    stand_for: StandFor,
    ended: Result<Status, CommandError<'a>>,
    kept: &Option<Outcome>,
    again: &A,
    output: &mut K,
) -> Result<Status, CommandError<'a>>
    requires { RetellsKept job (A.reopens again.now) ended kept.now }
    ensures follows { FollowedBy job.entry ended.entry result (K.seen output.old) (K.seen output.new) }
{
    match ended {
        Ok(status) if is_explained(job.verb, status) => {
            let texts = texts_of(stand_for, job);
            let lines = lines(alloc, texts, limit_of(job.verb), kept, again);
            write_lines(status, lines, output)
        }
        _ => ended,
    }
}

/// The lines that explain an outcome, if there is one, and memory for all of them.
fn lines<A: Reopen>(
    alloc: Global,
    texts: Texts<'_>,
    limit: u64,
    kept: &Option<Outcome>,
    again: &A,
) -> Option<String>
    ensures { IfSome result (λ text. EndsLine (string_bytes text)) }
{
    let outcome = kept.as_ref()?;
    match explanation(alloc, texts, limit, outcome, again) {
        Ok(text) if ends_line(text.as_bytes()) => Some(text),
        _ => None,
    }
}

/// Writes lines after a run that ended with this status.
fn write_lines<'a, K: Sink>(
    status: Status,
    lines: Option<String>,
    output: &mut K,
) -> Result<Status, CommandError<'a>>
    requires { IfSome lines (λ text. EndsLine (string_bytes text)) }
    ensures follows { MayFollow status result (K.seen output.old) (K.seen output.new) }
{
    let Some(text) = lines else {
        return Ok(status);
    };
    match put_all(output, text.as_bytes()) {
        Ok(()) => Ok(status),
        Err(_) => Err(CommandError::Device(Failure::Output)),
    }
}

/// Whether the last byte is a line end.
fn ends_line(bytes: &[u8]) -> bool
    ensures { IsTrue result → EndsLine bytes.now }
{
    match bytes.split_last() {
        Some((last, _front)) => *last == b'\n',
        None => false,
    }
}

/// Whether an end of a run is explained: all are but that of a run which makes no claim, and is done.
fn is_explained(verb: Verb, status: Status) -> bool
    ensures { result ≡ explained.is_explained verb status }
{
    match (verb, status) {
        (Verb::Convert(_) | Verb::Show(_) | Verb::Spread(_), Status::Done) => false,
        _ => true,
    }
}

/// The explanation of an outcome.
fn explanation<A: Reopen>(
    alloc: Global,
    texts: Texts<'_>,
    limit: u64,
    outcome: &Outcome,
    again: &A,
) -> Result<String, Memory> {
    let made = outcome.solution();
    let mut text = Explanation::new(alloc, again, texts, made);
    match outcome.report() {
        Report::Yes(verdict) => explain_yes(alloc, texts, Some(verdict), outcome, again, &mut text),
        Report::Distances(_) => explain_yes(alloc, texts, None, outcome, again, &mut text),
        Report::No(place, reason) => text.explain_failure(*place, *reason),
        Report::Refused(kind, at, reason) => text.explain_refusal(*kind, *at, *reason),
        Report::GaveUp => text.explain_gave_up(limit),
        Report::Nothing => (),
    }
    text.finish()
}

/// The limit of a solver that may give up.
fn limit_of(verb: Verb) -> u64 {
    match verb {
        Verb::Solve(SolveJob::Max(limit) | SolveJob::Min(limit)) => limit,
        _ => 0,
    }
}

/// Explains a yes by its certificate, which no file has if a certifier dropped it.
fn explain_yes<A: Reopen>(
    alloc: Global,
    texts: Texts<'_>,
    verdict: Option<&Verdict>,
    outcome: &Outcome,
    again: &A,
    text: &mut Explanation<'_, A>,
) {
    if let Ok(written) = texts.certificate() {
        return text.explain_yes(verdict, again.open(written.file));
    }
    let mut dropped = MemorySink::new(alloc);
    let certificate = match outcome.write_shown(&mut dropped) {
        Ok(()) => Some(MemorySource::new(dropped.bytes())),
        Err(_) => None,
    };
    text.explain_yes(verdict, certificate);
}

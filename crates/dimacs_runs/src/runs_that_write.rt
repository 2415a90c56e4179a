//! Runs that solve an instance in files.

ghost use Rattle.std.specs.{Prelude.{◌≡◌, ◌≢◌, ◌∷◌, [], length, map}, String.{string_bytes}};
ghost use Rattle.dimacs_jobs.specs.{Jobs.{TakesFiles, texts_of}, declared.jobs.Verb.TheVariants.{Solve}};
ghost use Rattle.dimacs_jobs.specs.declared.jobs.SolveJob.TheVariants as solves;
ghost use Rattle.dimacs_runs.specs.{inside.Commands.{reads_first}, Commands.{RunsFiles, WritesSolved, seen_by}};

use crate::discard::Discard;
use crate::failure::{CommandError, name_failure};
use crate::files::Files;
use crate::open_files::{close_read, close_written, create, open};
use crate::outcome::{Outcome, write_outcome};
use crate::solve::solve_texts;
use dimacs_jobs::{SolveJob, Status};
use dimacs_lines::{MemorySource, Sink};
use std::alloc::Global;

/// Solves an instance in the files with these names.
pub(crate) fn solve_files<'a, F: Files, K: Sink>(
    alloc: Global,
    job: SolveJob,
    names: &'a [String],
    files: &mut F,
    output: &mut K,
    kept: &mut Option<Outcome>,
) -> Result<Status, CommandError<'a>>
    requires { TakesFiles (Solve job) (length names.now) }
    ensures runs { RunsFiles (reads_first (texts_of (Solve job)).read (map string_bytes names.now)) (F.holds files.old) F.empty (WritesSolved job) result
        (seen_by (F.seen files.old) (K.seen output.old))
        (seen_by (F.seen files.new) (K.seen output.new)) }
{
    let [first, second, third] = names else {
        unreachable!()
    };
    let (first, second, third) = (first.as_str(), second.as_str(), third.as_str());
    match job {
        SolveJob::Paths => solve_distances(alloc, first, second, third, files, output, kept),
        flow => solve_flow(alloc, flow, first, second, third, files, output, kept),
    }
}

/// Solves a flow instance. `MemorySource` stands for queries, which aren't read.
fn solve_flow<'a, F: Files, K: Sink>(
    alloc: Global,
    job: SolveJob,
    instance: &'a str,
    claim: &'a str,
    certificate: &'a str,
    files: &mut F,
    output: &mut K,
    kept: &mut Option<Outcome>,
) -> Result<Status, CommandError<'a>>
    requires { job ≢ solves.Paths }
    ensures runs { RunsFiles (reads_first 1 (instance.now ∷ claim.now ∷ certificate.now ∷ [])) (F.holds files.old) F.empty (WritesSolved job) result
        (seen_by (F.seen files.old) (K.seen output.old))
        (seen_by (F.seen files.new) (K.seen output.new)) }
{
    let mut instance = open(files, instance)?;
    let mut claim = create(files, claim)?;
    let mut certificate = match create(files, certificate) {
        Ok(certificate) => certificate,
        Err(error) => {
            close_written(files, claim);
            return Err(error);
        }
    };
    let outcome = solve_texts(
        alloc,
        job,
        &mut instance.device,
        &mut MemorySource::new(&[]),
    );
    let ended = write_outcome(
        outcome,
        &mut claim.device,
        &mut certificate.device,
        output,
        kept,
    );
    let failure = close_read(files, instance)
        .or(close_written(files, claim))
        .or(close_written(files, certificate));
    name_failure(ended, failure)
}

/// Answers queries. `Discard` stands for the claim: the labels are claim and certificate in one.
fn solve_distances<'a, F: Files, K: Sink>(
    alloc: Global,
    graph: &'a str,
    queries: &'a str,
    labels: &'a str,
    files: &mut F,
    output: &mut K,
    kept: &mut Option<Outcome>,
) -> Result<Status, CommandError<'a>>
    ensures runs { RunsFiles (reads_first 2 (graph.now ∷ queries.now ∷ labels.now ∷ [])) (F.holds files.old) F.empty (WritesSolved solves.Paths) result
        (seen_by (F.seen files.old) (K.seen output.old))
        (seen_by (F.seen files.new) (K.seen output.new)) }
{
    let mut graph = open(files, graph)?;
    let mut queries = open(files, queries)?;
    let mut labels = create(files, labels)?;
    let outcome = solve_texts(
        alloc,
        SolveJob::Paths,
        &mut graph.device,
        &mut queries.device,
    );
    let ended = write_outcome(outcome, &mut Discard, &mut labels.device, output, kept);
    let failure = close_read(files, graph)
        .or(close_read(files, queries))
        .or(close_written(files, labels));
    name_failure(ended, failure)
}

//! The command, from its arguments to its exit status.

ghost use Rattle.std.specs.{Prelude.{◌≡◌, map}, String.{string_bytes}};
ghost use Rattle.dimacs_runs.specs.{Commands.{Commands, RunsJob, seen_by}, Outcomes.{command_number}};
ghost use Rattle.dimacs_jobs.specs.Jobs.{HasFiles};

use crate::failure::CommandError;
use crate::files::Files;
use crate::outcome::Outcome;
use crate::runs_that_make::{ClaimJob, certify_files, make_of_claim};
use crate::runs_that_read::{judge_files, print_file};
use crate::runs_that_write::solve_files;
use crate::text::TextForm::{Canonical, Summary};
use dimacs_jobs::{Job, NO_RUN, RunError, Status, Verb, exit_status, job};
use dimacs_lines::Sink;
use std::alloc::Global;

/// Runs what the arguments, without the program's name, ask for. None if they ask for no run. `output` is the standard
/// output.
///
/// It opens the files to read, then creates those to write, in the order of the arguments. The first that fails ends
/// the run. To certify and to spread, it creates the file later: after it has closed the others, and only if there is a
/// text to write.
pub fn run_command<'a, F: Files, K: Sink>(
    alloc: Global,
    arguments: &'a [String],
    files: &mut F,
    output: &mut K,
) -> Option<Result<Status, CommandError<'a>>>
    ensures commands { Commands (map string_bytes arguments.now) (F.holds files.old) F.empty result
        (seen_by (F.seen files.old) (K.seen output.old))
        (seen_by (F.seen files.new) (K.seen output.new)) }
{
    let wanted = job(arguments)?;
    Some(run_job(alloc, wanted, files, output))
}

/// The exit status for the result of a command.
pub fn command_status(ended: &Option<Result<Status, CommandError<'_>>>) -> u8
    ensures { result ≡ command_number ended.now }
{
    match ended {
        Some(Ok(status)) => exit_status(&Ok(*status)),
        Some(Err(CommandError::Device(_))) => exit_status(&Err(RunError::Device)),
        Some(Err(CommandError::Memory)) => exit_status(&Err(RunError::Memory)),
        None => NO_RUN,
    }
}

/// The same for a job that arguments ask for.
pub fn run_job<'a, F: Files, K: Sink>(
    alloc: Global,
    job: Job<'a>,
    files: &mut F,
    output: &mut K,
) -> Result<Status, CommandError<'a>>
    requires { HasFiles job }
    ensures runs { RunsJob job.entry (F.holds files.old) F.empty result
        (seen_by (F.seen files.old) (K.seen output.old))
        (seen_by (F.seen files.new) (K.seen output.new)) }
{
    run_and_keep(alloc, job, files, output, &mut None)
}

/// The same, and keeps the outcome.
pub fn run_and_keep<'a, F: Files, K: Sink>(
    alloc: Global,
    job: Job<'a>,
    files: &mut F,
    output: &mut K,
    kept: &mut Option<Outcome>,
) -> Result<Status, CommandError<'a>>
    requires { HasFiles job }
    ensures runs { RunsJob job.entry (F.holds files.old) F.empty result
        (seen_by (F.seen files.old) (K.seen output.old))
        (seen_by (F.seen files.new) (K.seen output.new)) }
{
    let names = job.files;
    match job.verb {
        Verb::Convert(kind) => print_file(alloc, Canonical, kind, names, files, output, kept),
        Verb::Show(kind) => print_file(alloc, Summary, kind, names, files, output, kept),
        Verb::Judge(kind) => judge_files(alloc, kind, names, files, output, kept),
        Verb::Certify(kind) => certify_files(alloc, kind, names, files, output, kept),
        Verb::Spread(kind) => {
            make_of_claim(alloc, ClaimJob::Spread(kind), names, files, output, kept)
        }
        Verb::Solve(job) => solve_files(alloc, job, names, files, output, kept),
    }
}

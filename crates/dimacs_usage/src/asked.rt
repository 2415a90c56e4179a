//! What arguments ask for, in words.

ghost use Rattle.std.specs.Prelude.{◌≡◌, ◌≢◌, ◌↔◌, IfOk, IsSome, IsTrue, List, [], None, map, ℕ};
ghost use Rattle.std.specs.String.{string_bytes};
ghost use Rattle.dimacs_jobs.specs.Jobs.{WritesTwice};
ghost use Rattle.dimacs_usage.specs.{Answers.{Answers, RequestsRun}, Plans.{BeginsWithMarks}, Slips.{IsSolver}};

use crate::misuse::{complaint_of, complaint_of_slip};
use crate::plan::{first_file, marks};
use crate::slips::Slip;
use crate::usage::{self, Command};
use dimacs_jobs::{Job, Request, Verb, request, version, words_ask_for_one_thing};
use dimacs_quote::Shown;
use std::alloc::{AllocError, Global};

/// What arguments ask for.
#[derive(Drop)]
pub enum Asked<'a> {
    /// Nothing: what is told on the standard error.
    Nothing(String),
    /// A text on the standard output.
    Text(String),
    /// A run.
    Run(Run<'a>),
}

/// A run that arguments ask for.
#[derive(Drop)]
pub struct Run<'a> {
    /// The run.
    pub job: Job<'a>,
    /// Whether it is explained.
    pub explains: bool,
    /// What is told of its files on the standard error when it has ended.
    pub told: String,
    /// The words that ask for it.
    pub words: &'a [String],
}

/// What these arguments, without the program's name, ask for. `same` has for each argument the place of the first that
/// names the same regular file, or its own, as for a file that isn't there yet.
pub fn ask<'a>(
    alloc: Global,
    arguments: &'a [String],
    same: &[u32],
) -> Result<Asked<'a>, AllocError>
    ensures { IfOk result (Answers (map string_bytes arguments.now) same.now) }
{
    match request(arguments) {
        None => Ok(Asked::Nothing(complaint_of(alloc, arguments)?)),
        Some(Request::Help) => Ok(Asked::Text(usage::of_all(alloc)?)),
        Some(Request::HelpOn(name)) => Ok(Asked::Text(help_on(alloc, name)?)),
        Some(Request::Version) => Ok(Asked::Text(format!(in alloc; "dimacs {}\n", version())?)),
        Some(Request::Run(job)) => ask_run(alloc, arguments, same, job, false),
        Some(Request::Explain(job)) => ask_run(alloc, arguments, same, job, true),
    }
}

/// The usage of the command with this name.
fn help_on(alloc: Global, name: &str) -> Result<String, AllocError> {
    match Command::named(name) {
        Some(command) => usage::of_one(alloc, command),
        None => usage::of_all(alloc),
    }
}

/// A slip is told at the end of a run that solves: it has emptied the file by then. No other run begins.
#[tactic(auto, using(crate::proofs::FileLemmas::names_files))]
fn ask_run<'a>(
    alloc: Global,
    arguments: &'a [String],
    same: &[u32],
    job: Job<'a>,
    explains: bool,
) -> Result<Asked<'a>, AllocError>
    requires { RequestsRun (map string_bytes arguments.now) job explains }
    ensures { IfOk result (Answers (map string_bytes arguments.now) same.now) }
{
    words_ask_for_one_thing();
    match Slip::of(job, explains, same) {
        Some(slip) if explains || !solves(job.verb) => {
            let line = slip.line(alloc, job, arguments)?;
            Ok(Asked::Nothing(complaint_of_slip(alloc, arguments, line)?))
        }
        slip => Ok(Asked::Run(Run {
            job,
            explains,
            told: told(alloc, job, slip, arguments)?,
            words: arguments,
        })),
    }
}

/// Whether a run solves.
fn solves(verb: Verb) -> bool
    ensures { IsTrue result ↔ IsSolver verb }
{
    matches!(verb, Verb::Solve(_))
}

/// What is told of the files that a run has written. The words of the run name them.
fn told(
    alloc: Global,
    job: Job<'_>,
    slip: Option<Slip<'_>>,
    words: &[String],
) -> Result<String, AllocError>
    ensures nothing { slip.entry ≡ None → ((name : List ℕ) → ¬ WritesTwice job.entry name) → IfOk result (λ text. string_bytes text ≡ []) }
    ensures slip { IsSome slip.entry → IfOk result (λ text. string_bytes text ≢ []) }
    ensures twice { (name : List ℕ) → WritesTwice job.entry name → IfOk result (λ text. string_bytes text ≢ []) }
{
    if let Some(slip) = slip {
        return message(alloc, slip.line(alloc, job, words)?.as_str());
    }
    match job.written_twice() {
        Some(name) => message(
            alloc,
            format!(in alloc; "{}: written twice", Shown(name))?.as_str(),
        ),
        None => Ok(String::new(alloc)),
    }
}

/// A message of this line.
fn message(alloc: Global, line: &str) -> Result<String, AllocError>
    ensures { IfOk result (λ text. string_bytes text ≢ []) }
{
    format!(in alloc; "dimacs: {line}\n")
}

impl Run<'_> {
    /// In one line a mark for each word; then a line for each file, in the order of the words, with its name as messages
    /// have it; then what is told.
    pub fn plan(&self, alloc: Global) -> Result<String, AllocError>
        ensures { IfOk result (λ text. BeginsWithMarks self.now (string_bytes text)) }
    {
        let mut text = marks(alloc, self.job, self.explains, self.words.len())?;
        text.push('\n')?;
        text.push_str(self.named(alloc)?.as_str())?;
        Ok(text)
    }

    /// The names of the files in lines, and what is told.
    fn named(&self, alloc: Global) -> Result<String, AllocError> {
        let mut text = String::new(alloc);
        let first = first_file(self.job, self.explains);
        let files = self.words.get(first..).unwrap_or_default();
        for name in files.iter().take(self.job.files.len()) {
            write!(text, "{}\n", Shown(name.as_str()))?;
        }
        text.push_str(self.told.as_str())?;
        Ok(text)
    }
}

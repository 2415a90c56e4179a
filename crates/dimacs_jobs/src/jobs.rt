//! What the command can run.

ghost use Rattle.std.specs.{Prelude.{◌≡◌, IfNone, IfSome, List, map, slice_get, ℕ}, Option.{option_map}};
ghost use Rattle.std.specs.String.{string_bytes};
ghost use Rattle.dimacs_jobs.specs.Jobs.{WritesTwice, names_read, names_written};

use dimacs_records::TextKind;

/// A claim, which is judged by a certificate, or certified without one.
#[derive(Clone, Copy, Debug, PartialEq, Eq)]
pub enum JudgeKind {
    /// A flow is maximum; a cut shows it.
    Max,
    /// A flow costs least; potentials show it.
    Min,
    /// No flow is feasible; a set of nodes shows it.
    Infeasible,
    /// Distances are right; labels show it, and answer queries.
    Paths,
}

/// An instance whose flows can be dealt out to parallel arcs.
#[derive(Clone, Copy, Debug, PartialEq, Eq)]
pub enum SpreadKind {
    /// Maximum flow.
    Max,
    /// Minimum cost flow.
    Min,
}

/// What can be solved.
#[derive(Clone, Copy, Debug, PartialEq, Eq)]
pub enum SolveJob {
    /// A maximum flow. The limit counts the flows that are tested for being maximum, from the zero flow on.
    Max(u64),
    /// A flow of least cost. The limit counts steps, each to a better flow.
    Min(u64),
    /// Distances that answer queries.
    Paths,
}

/// What a run does. `Verb::texts` says which texts it reads and writes.
#[derive(Clone, Copy, Debug, PartialEq, Eq)]
pub enum Verb {
    /// Prints the canonical form of a text.
    Convert(TextKind),
    /// Prints a line that describes a text.
    Show(TextKind),
    /// Judges a claim by its certificate.
    Judge(JudgeKind),
    /// Certifies a claim, by a certificate or a better solution.
    Certify(JudgeKind),
    /// Deals a claimed flow out to parallel arcs.
    Spread(SpreadKind),
    /// Solves an instance.
    Solve(SolveJob),
}

/// A run, with the names of its files in the order of the arguments.
#[derive(Clone, Copy, Debug, PartialEq, Eq)]
pub struct Job<'a> {
    /// What it does.
    pub verb: Verb,
    /// The names of its files.
    pub files: &'a [String],
}

/// What the arguments ask for.
#[derive(Clone, Copy, Debug, PartialEq, Eq)]
pub enum Request<'a> {
    /// The usage of all commands.
    Help,
    /// The usage of the command with this name.
    HelpOn(&'a str),
    /// The version.
    Version,
    /// A run.
    Run(Job<'a>),
    /// A run, and an explanation if it refuses.
    Explain(Job<'a>),
}

impl<'a> Job<'a> {
    /// The names of the files that the run reads, which come first.
    pub fn names_read(&self) -> &'a [String]
        ensures { map string_bytes result.now ≡ names_read self.now }
    {
        &self.files[..self.verb.texts().read.min(self.files.len())]
    }

    /// The names of the files that it writes.
    pub fn names_written(&self) -> &'a [String]
        ensures { map string_bytes result.now ≡ names_written self.now }
    {
        self.files.get(self.verb.texts().read..).unwrap_or_default()
    }

    /// The name under which the run writes two texts, if it does: one would destroy the other. Two different names may
    /// still be the same file.
    pub fn written_twice(&self) -> Option<&'a str>
        ensures twice { IfSome result (λ name. WritesTwice self.now name.now) }
        ensures once { IfNone result ((name : List ℕ) → ¬ WritesTwice self.now name) }
    {
        let written = self.names_written();
        match (name_at(written, 0), name_at(written, 1)) {
            (Some(claim), Some(certificate)) if claim == certificate => Some(claim),
            _ => None,
        }
    }
}

/// The name at this place, from 0.
pub fn name_at(names: &[String], place: usize) -> Option<&str>
    ensures { option_map (λ name. name.now) result ≡ slice_get (map string_bytes names.now) place }
{
    match names.get(place) {
        Some(name) => Some(name.as_str()),
        None => None,
    }
}

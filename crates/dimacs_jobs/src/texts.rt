//! The texts that a run reads and writes: one table, from which all else that tells of them follows.

ghost use Rattle.std.specs.Prelude.{◌≡◌, ◌∷◌, [], length};
ghost use Rattle.dimacs_jobs.specs.Jobs.{least_count, texts_of};

use crate::jobs::{JudgeKind, SolveJob, SpreadKind, Verb};
use dimacs_records::TextKind;

/// What a run does with the files after those that it reads.
#[derive(Clone, Copy, Debug, PartialEq, Eq)]
pub enum Writes {
    /// There are none.
    Nothing,
    /// There may be one. It is created once there is a text for it.
    MayMake,
    /// There is one. It is created once there is a text for it.
    Makes,
    /// They are created before the others are read.
    Creates,
}

/// The texts of a run, in the order of its files.
#[derive(Clone, Copy, Debug, PartialEq, Eq)]
pub struct RunTexts {
    /// Their kinds. A better solution may stand in the place of a certificate, and a set of nodes in that of potentials.
    pub kinds: &'static [TextKind],
    /// How many of them, from the first one on, the run reads.
    pub read: usize,
    /// What it does with the others.
    pub writes: Writes,
}

const MAX: &[TextKind] = &[TextKind::Max, TextKind::Solution, TextKind::Cut];

const MIN: &[TextKind] = &[TextKind::Min, TextKind::Solution, TextKind::Potentials];

const INFEASIBLE: &[TextKind] = &[TextKind::Min, TextKind::Cut];

const PATHS: &[TextKind] = &[TextKind::Graph, TextKind::Queries, TextKind::Labels];

const DISTANCES: &[TextKind] = &[TextKind::Graph, TextKind::Distances, TextKind::Labels];

const SPREAD_MAX: &[TextKind] = &[TextKind::Max, TextKind::Solution, TextKind::Solution];

const SPREAD_MIN: &[TextKind] = &[TextKind::Min, TextKind::Solution, TextKind::Solution];

impl Verb {
    /// The texts of a run with this verb.
    pub fn texts(self) -> RunTexts
        ensures kinds { result.kinds.now ≡ (texts_of self).kinds }
        ensures read { result.read ≡ (texts_of self).read }
        ensures writes { result.writes ≡ (texts_of self).writes }
    {
        let (kinds, read, writes) = match self {
            Verb::Convert(kind) | Verb::Show(kind) => (alone(kind), 1, Writes::Nothing),
            Verb::Judge(JudgeKind::Max) => (MAX, 3, Writes::Nothing),
            Verb::Judge(JudgeKind::Min) => (MIN, 3, Writes::Nothing),
            Verb::Judge(JudgeKind::Infeasible) => (INFEASIBLE, 2, Writes::Nothing),
            Verb::Judge(JudgeKind::Paths) => (PATHS, 3, Writes::Nothing),
            Verb::Certify(JudgeKind::Max) => (MAX, 2, Writes::MayMake),
            Verb::Certify(JudgeKind::Min) => (MIN, 2, Writes::MayMake),
            Verb::Certify(JudgeKind::Infeasible) => (INFEASIBLE, 1, Writes::MayMake),
            Verb::Certify(JudgeKind::Paths) => (DISTANCES, 2, Writes::MayMake),
            Verb::Spread(SpreadKind::Max) => (SPREAD_MAX, 2, Writes::Makes),
            Verb::Spread(SpreadKind::Min) => (SPREAD_MIN, 2, Writes::Makes),
            Verb::Solve(SolveJob::Max(_)) => (MAX, 1, Writes::Creates),
            Verb::Solve(SolveJob::Min(_)) => (MIN, 1, Writes::Creates),
            Verb::Solve(SolveJob::Paths) => (PATHS, 2, Writes::Creates),
        };
        RunTexts {
            kinds,
            read,
            writes,
        }
    }
}

impl RunTexts {
    /// How many files there are at least.
    pub fn least(self) -> usize
        ensures { result ≡ least_count self.writes self.read (length self.kinds.now) }
    {
        match self.writes {
            Writes::MayMake => self.read,
            _ => self.kinds.len(),
        }
    }
}

/// A text of this kind alone.
fn alone(kind: TextKind) -> &'static [TextKind]
    ensures { result.now ≡ kind ∷ [] }
{
    match kind {
        TextKind::Max => &[TextKind::Max],
        TextKind::Min => &[TextKind::Min],
        TextKind::Graph => &[TextKind::Graph],
        TextKind::Queries => &[TextKind::Queries],
        TextKind::Solution => &[TextKind::Solution],
        TextKind::Cut => &[TextKind::Cut],
        TextKind::Potentials => &[TextKind::Potentials],
        TextKind::Labels => &[TextKind::Labels],
        TextKind::Distances => &[TextKind::Distances],
    }
}

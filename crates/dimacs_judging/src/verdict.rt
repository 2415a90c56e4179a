//! The results of judges.

use dimacs_lines::Memory;
use dimacs_records::Reason;
use std::fmt;
use thiserror::Error;

/// The place that a refusal names. Lines, arcs and nodes count from 1; field 0 is the whole line. A certificate is
/// named as a whole.
#[derive(Clone, Copy, Debug, PartialEq, Eq)]
pub enum Where {
    Solution { line: u64, field: u32 },
    Certificate,
    Arc(u32),
    Node(u32),
}

impl fmt::Display for Where {
    fn fmt<W: fmt::Write>(&self, f: &mut fmt::Formatter<W>) -> fmt::Result {
        match self {
            Where::Solution { line, field } => write!(f, "solution, line {line}, field {field}"),
            Where::Certificate => f.write_str("certificate"),
            Where::Arc(number) => write!(f, "arc {number}"),
            Where::Node(id) => write!(f, "node {id}"),
        }
    }
}

/// Why a judge doesn't answer yes.
#[derive(Clone, Copy, Debug, PartialEq, Eq, Error)]
pub enum JudgeError {
    /// The first test that fails, by its place and reason.
    #[error("{0}: {1}")]
    Refused(Where, Reason),
    /// Out of memory; it leaves the claim open.
    #[error("out of memory")]
    Memory,
}

impl From<(Where, Reason)> for JudgeError {
    ghost use Rattle.std.specs.Prelude.{◌≡◌};
    ghost use Rattle.dimacs_judging.specs.declared.verdict.JudgeError.TheVariants.{Refused};

    ghost from_gives = { λ refusal error. error ≡ Refused refusal.0 refusal.1 };

    fn from((place, reason): (Where, Reason)) -> JudgeError {
        JudgeError::Refused(place, reason)
    }
}

impl From<Memory> for JudgeError {
    ghost use Rattle.std.specs.Prelude.{◌≡◌};
    ghost use Rattle.dimacs_judging.specs.declared.verdict.JudgeError.TheVariants as errors;

    ghost from_gives = { λ memory error. error ≡ errors.Memory };

    fn from(_memory: Memory) -> JudgeError {
        JudgeError::Memory
    }
}

/// What a judge has found to be true.
#[derive(Debug, PartialEq, Eq, Drop)]
pub enum Verdict {
    /// The flow is maximum and has this value.
    Max(i128),
    /// The flow costs least, and this is its cost.
    Min(i128),
    /// There is no feasible flow.
    Infeasible,
    /// All labels are distances; the number of sources asked for.
    Sources(u32),
    /// All labels are distances; the answers to the pairs, in order.
    Pairs(Vec<Answer>),
}

/// The distance between two nodes. If `distance` is none and `beyond` is a radius, every walk weighs more than the
/// radius; if both are none, there is no walk.
#[derive(Clone, Copy, Debug, PartialEq, Eq)]
pub struct Answer {
    pub from: u32,
    pub to: u32,
    pub distance: Option<i128>,
    pub beyond: Option<i128>,
}

//! The errors of calls over arrays.

use crate::limits::PastLimit;
use dimacs_judging::{JudgeError, Where};
use dimacs_lines::Memory;
use dimacs_records::Reason;
use std::fmt;
use thiserror::Error;

/// An array whose length a call tests. The length of `tails` is the number of arcs.
#[derive(Clone, Copy, Debug, PartialEq, Eq)]
pub enum Array {
    Heads,
    Lows,
    Caps,
    Costs,
    Weights,
    Supplies,
    Flows,
    Inside,
    Potentials,
    Distances,
    Predecessors,
    Froms,
    Tos,
}

impl fmt::Display for Array {
    fn fmt<W: fmt::Write>(&self, f: &mut fmt::Formatter<W>) -> fmt::Result {
        f.write_str(match self {
            Array::Heads => "heads",
            Array::Lows => "lows",
            Array::Caps => "caps",
            Array::Costs => "costs",
            Array::Weights => "weights",
            Array::Supplies => "supplies",
            Array::Flows => "flows",
            Array::Inside => "inside",
            Array::Potentials => "potentials",
            Array::Distances => "distances",
            Array::Predecessors => "predecessors",
            Array::Froms => "froms",
            Array::Tos => "tos",
        })
    }
}

/// Why a call over arrays fails, or answers no.
#[derive(Clone, Copy, Debug, PartialEq, Eq, Error)]
pub enum ArrayError {
    /// The length of this array isn't the number of arcs, or of nodes.
    #[error("the length of {0}")]
    Length(Array),
    /// The first number past the limits of instances, with the reason why a text with it is refused.
    #[error("{0}: {1}")]
    Limit(Where, Reason),
    /// The first test of the claim that fails; of `solve_paths_arrays` the first arc of negative weight.
    #[error("{0}: {1}")]
    Refused(Where, Reason),
    /// Out of memory.
    #[error("out of memory")]
    Memory,
}

impl From<JudgeError> for ArrayError {
    ghost use Rattle.std.specs.Prelude.{◌≡◌};
    ghost use Rattle.dimacs_arrays.specs.Answers.{of_judge};

    ghost from_gives = { λ error given. given ≡ of_judge error };

    fn from(error: JudgeError) -> ArrayError {
        match error {
            JudgeError::Refused(place, reason) => ArrayError::Refused(place, reason),
            JudgeError::Memory => ArrayError::Memory,
        }
    }
}

impl From<PastLimit> for ArrayError {
    ghost use Rattle.std.specs.Prelude.{◌≡◌};
    ghost use Rattle.dimacs_arrays.specs.declared.error.ArrayError.TheVariants.{Limit};

    ghost from_gives = { λ limit given. given ≡ Limit limit.place limit.reason };

    fn from(limit: PastLimit) -> ArrayError {
        ArrayError::Limit(limit.place, limit.reason)
    }
}

impl From<Memory> for ArrayError {
    ghost use Rattle.std.specs.Prelude.{◌≡◌};
    ghost use Rattle.dimacs_arrays.specs.declared.error.ArrayError.TheVariants as errors;

    ghost from_gives = { λ memory given. given ≡ errors.Memory };

    fn from(_memory: Memory) -> ArrayError {
        ArrayError::Memory
    }
}

//! The errors of solvers.

use dimacs_judging::Where;
use dimacs_lines::Memory;
use dimacs_records::Reason;
use thiserror::Error;

/// Why a solver returns no answer.
#[derive(Clone, Copy, Debug, PartialEq, Eq, Error)]
pub enum SolveError {
    /// The number of the first arc with a negative weight, from 1. Only `solve_paths` refuses it.
    #[error("arc {0}: NegativeWeight")]
    NegativeWeight(u32),
    /// A query names a node above the number of nodes; the place is the first such node.
    #[error("{0}: {1}")]
    Refused(Where, Reason),
    /// Out of memory.
    #[error("out of memory")]
    Memory,
}

impl From<(Where, Reason)> for SolveError {
    ghost use Rattle.std.specs.Prelude.{◌≡◌};
    ghost use Rattle.dimacs_solve.specs.declared.error.SolveError.TheVariants.{Refused};

    ghost from_gives = { λ refusal error. error ≡ Refused refusal.0 refusal.1 };

    fn from((place, reason): (Where, Reason)) -> SolveError {
        SolveError::Refused(place, reason)
    }
}

impl From<Memory> for SolveError {
    ghost use Rattle.std.specs.Prelude.{◌≡◌};
    ghost use Rattle.dimacs_solve.specs.declared.error.SolveError.TheVariants as errors;

    ghost from_gives = { λ memory error. error ≡ errors.Memory };

    fn from(_memory: Memory) -> SolveError {
        SolveError::Memory
    }
}

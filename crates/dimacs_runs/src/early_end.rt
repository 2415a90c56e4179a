//! The early ends of a run.

ghost use Rattle.std.specs.Prelude.{◌≡◌};
ghost use Rattle.dimacs_runs.specs.inside.Outcomes.{outcome_of, unread_end};

use crate::outcome::Outcome;
use crate::report::Report;
use dimacs_jobs::RunError;
use dimacs_judging::{JudgeError, Where};
use dimacs_lines::Memory;
use dimacs_records::{ReadError, Reason, TextKind};
use dimacs_solve::SolveError;

/// Ends a run before it has a text.
#[derive(Drop)]
pub(crate) enum EarlyEnd {
    Report(Report),
    Error(RunError),
}

impl From<Memory> for EarlyEnd {
    ghost use Rattle.dimacs_jobs.specs.declared.status.RunError.TheVariants as errors;
    ghost use Rattle.dimacs_runs.specs.declared.early_end.EarlyEnd.TheVariants.{Error};

    ghost from_gives = { λ memory ended. ended ≡ Error errors.Memory };

    fn from(_memory: Memory) -> EarlyEnd {
        EarlyEnd::Error(RunError::Memory)
    }
}

impl EarlyEnd {
    /// The end of a run at a text of this kind that can't be read.
    pub(crate) fn at_text(kind: TextKind, error: ReadError) -> EarlyEnd
        ensures { result ≡ unread_end kind error }
    {
        match error {
            ReadError::Refused(place, reason) => {
                EarlyEnd::Report(Report::Refused(kind, place, reason))
            }
            ReadError::Device => EarlyEnd::Error(RunError::Device),
            ReadError::Memory => EarlyEnd::Error(RunError::Memory),
        }
    }
}

impl From<JudgeError> for EarlyEnd {
    ghost use Rattle.dimacs_runs.specs.inside.Outcomes.{judge_end};

    ghost from_gives = { λ error ended. ended ≡ judge_end error };

    fn from(error: JudgeError) -> EarlyEnd {
        match error {
            JudgeError::Refused(place, reason) => EarlyEnd::Report(Report::No(place, reason)),
            JudgeError::Memory => EarlyEnd::Error(RunError::Memory),
        }
    }
}

impl From<SolveError> for EarlyEnd {
    ghost use Rattle.dimacs_runs.specs.inside.Outcomes.{solve_end};

    ghost from_gives = { λ error ended. ended ≡ solve_end error };

    fn from(error: SolveError) -> EarlyEnd {
        match error {
            SolveError::NegativeWeight(arc) => {
                EarlyEnd::Report(Report::No(Where::Arc(arc), Reason::NegativeWeight))
            }
            SolveError::Refused(place, reason) => EarlyEnd::Report(Report::No(place, reason)),
            SolveError::Memory => EarlyEnd::Error(RunError::Memory),
        }
    }
}

/// The outcome of a run: a report that ended it early is an outcome too.
pub(crate) fn outcome_of(answer: Result<Outcome, EarlyEnd>) -> Result<Outcome, RunError>
    ensures { result ≡ outcome_of answer }
{
    match answer {
        Ok(outcome) => Ok(outcome),
        Err(EarlyEnd::Report(report)) => Ok(Outcome::reporting(report)),
        Err(EarlyEnd::Error(error)) => Err(error),
    }
}

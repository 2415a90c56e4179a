//! The numbers of the kinds, as `dimacs.h` defines them.

ghost use Rattle.std.specs.Prelude.{◌≡◌};
ghost use Rattle.dimacs_c.specs.Kinds.{judge_kind, number_of_queries, query_kind, solve_job, spread_kind, text_kind};

use dimacs_jobs::{JudgeKind, SolveJob, SpreadKind};
use dimacs_records::{QueryKind, TextKind};

pub(crate) fn judge_of(number: u32) -> Option<JudgeKind>
    ensures { result ≡ judge_kind number }
{
    match number {
        0 => Some(JudgeKind::Max),
        1 => Some(JudgeKind::Min),
        2 => Some(JudgeKind::Infeasible),
        3 => Some(JudgeKind::Paths),
        _ => None,
    }
}

pub(crate) fn spread_of(number: u32) -> Option<SpreadKind>
    ensures { result ≡ spread_kind number }
{
    match number {
        0 => Some(SpreadKind::Max),
        1 => Some(SpreadKind::Min),
        _ => None,
    }
}

/// There is no 2: minimum cost flow also finds that no flow is feasible.
pub(crate) fn solve_of(number: u32, limit: u64) -> Option<SolveJob>
    ensures { result ≡ solve_job number limit }
{
    match number {
        0 => Some(SolveJob::Max(limit)),
        1 => Some(SolveJob::Min(limit)),
        3 => Some(SolveJob::Paths),
        _ => None,
    }
}

/// Any number but 0 stands for pairs.
pub(crate) fn queries_of(number: u32) -> QueryKind
    ensures { result ≡ query_kind number }
{
    match number {
        0 => QueryKind::Sources,
        _ => QueryKind::Pairs,
    }
}

pub(crate) fn number_of_queries(kind: QueryKind) -> u32
    ensures { result ≡ number_of_queries kind }
{
    match kind {
        QueryKind::Sources => 0,
        QueryKind::Pairs => 1,
    }
}

pub(crate) fn text_of(number: u32) -> Option<TextKind>
    ensures { result ≡ text_kind number }
{
    match number {
        0 => Some(TextKind::Max),
        1 => Some(TextKind::Min),
        2 => Some(TextKind::Graph),
        3 => Some(TextKind::Queries),
        4 => Some(TextKind::Solution),
        5 => Some(TextKind::Cut),
        6 => Some(TextKind::Potentials),
        7 => Some(TextKind::Labels),
        8 => Some(TextKind::Distances),
        _ => None,
    }
}

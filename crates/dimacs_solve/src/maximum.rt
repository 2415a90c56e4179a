//! Solving maximum flow.

ghost use Rattle.dimacs_solve.specs.SolveMax.{SolvesMax};

use crate::answer::MaxFlowAnswer;
use crate::climb::solve_max_flow;
use crate::error::SolveError;
use dimacs_claims::{Cut, Solution};
use dimacs_decide::max_solution;
use dimacs_instance::MaxInstance;
use dimacs_network::Network;
use std::alloc::Global;

/// The answer to a maximum flow instance.
#[derive(Drop)]
pub enum MaxAnswer {
    /// A maximum flow, with an entry for every arc, and a cut that shows it.
    Optimal(Solution, Cut),
    /// As many better and better flows as the limit aren't maximum.
    GaveUp,
}

/// Finds a maximum flow, starting at the zero flow. It tests at most `limit` flows for being maximum. `Memory` is the
/// only error.
pub fn solve_max<N: Network>(
    alloc: Global,
    instance: &MaxInstance<N>,
    limit: u64,
) -> Result<MaxAnswer, SolveError>
    ensures { SolvesMax instance.now limit result }
{
    match solve_max_flow(alloc, instance, limit)? {
        MaxFlowAnswer::Optimal(flow, cut) => {
            let solution = max_solution(alloc, instance, &flow)?;
            Ok(MaxAnswer::Optimal(solution, cut))
        }
        MaxFlowAnswer::GaveUp => Ok(MaxAnswer::GaveUp),
    }
}

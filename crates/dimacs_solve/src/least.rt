//! Solving minimum cost flow.

ghost use Rattle.std.specs.Prelude.{◌≡◌, ℕ, Ok};
ghost use Rattle.dimacs_claims.specs.Potentials.{potential_of};
ghost use Rattle.dimacs_judging.specs.{Optimum.{Least}, Potentials.{Slack}};
ghost use Rattle.dimacs_solve.specs.{Descending.{start_flow}, SolveMin.{SolvesMin}};

use crate::answer::MinFlowAnswer;
use crate::descend::solve_min_flow;
use crate::error::SolveError;
use dimacs_claims::{Cut, Potentials, Solution};
use dimacs_decide::min_solution;
use dimacs_instance::MinInstance;
use dimacs_judging::Flow;
use dimacs_network::Network;
use std::alloc::Global;

/// The answer to a minimum cost flow instance.
#[derive(Drop)]
pub enum MinAnswer {
    /// A flow of least cost, with an entry for every arc, and potentials that show it.
    Optimal(Solution, Potentials),
    /// No feasible flow; the set of nodes shows it.
    Infeasible(Cut),
    /// Neither was found within the limit, or a sum of costs is out of range.
    GaveUp,
}

/// Finds a flow of least cost in at most `limit` steps, each to a better flow.
///
/// The start flow gives each arc its lower bound, or its capacity if its cost is negative. `GaveUp` comes if more than
/// `limit` steps would be needed, or if the least cost, summed up arc by arc, leaves the range from -10^30 to 10^30.
/// `Memory` is the only error.
pub fn solve_min<N: Network>(
    alloc: Global,
    instance: &MinInstance<N>,
    limit: u64,
) -> Result<MinAnswer, SolveError>
    ensures { SolvesMin instance.now limit result }
{
    match solve_min_flow(alloc, instance, limit)? {
        MinFlowAnswer::Optimal(flow, potentials) => outcome(alloc, instance, &flow, potentials),
        MinFlowAnswer::Infeasible(set) => Ok(MinAnswer::Infeasible(set)),
        MinFlowAnswer::GaveUp => Ok(MinAnswer::GaveUp),
    }
}

/// `GaveUp` if the cost, summed up arc by arc, leaves its range.
fn outcome<N: Network>(
    alloc: Global,
    instance: &MinInstance<N>,
    flow: &Flow,
    potentials: Potentials,
) -> Result<MinAnswer, SolveError>
    requires least { Least instance.now flow.now }
    requires slack { Slack instance.now.arcs flow.now (potential_of potentials) }
    requires nodes { potentials.nodes ≡ instance.now.nodes }
    ensures { (limit : ℕ) → (limit ≡ 0 → flow.now ≡ start_flow instance.now.arcs) → SolvesMin instance.now limit result }
{
    let Some(solution) = min_solution(alloc, instance, flow)? else {
        return Ok(MinAnswer::GaveUp);
    };
    Ok(MinAnswer::Optimal(solution, potentials))
}

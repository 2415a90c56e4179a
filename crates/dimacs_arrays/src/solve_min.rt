//! Finds a flow of least cost over arrays.

ghost use Rattle.std.specs.Prelude.{◌≡◌, ℕ, IfOk, Ok};
ghost use Rattle.dimacs_claims.specs.Potentials.{potential_of};
ghost use Rattle.dimacs_judging.specs.{Optimum.{Least}, Potentials.{Slack}};
ghost use Rattle.dimacs_solve.specs.Descending.{start_flow};
ghost use Rattle.dimacs_arrays.specs.MinArrays.{SolvesMinArrays, SolvesMinFlow};

use crate::by_node::{bytes_of, fit_array};
use crate::error::ArrayError;
use crate::min::MinArrays;
use dimacs_claims::Potentials;
use dimacs_instance::MinInstance;
use dimacs_judging::{Flow, JudgeError, cost_within};
use dimacs_lines::Memory;
use dimacs_network::Network;
use dimacs_solve::{MinFlowAnswer, solve_min_flow};
use std::alloc::Global;

/// The answer to a minimum cost flow instance.
#[derive(Drop)]
pub enum MinSolved {
    /// A flow of least cost, and its cost. `judge_min_arrays` accepts the potentials.
    Optimal {
        cost: i128,
        flow: Flow,
        potentials: Vec<i64>,
    },
    /// The same, but the potentials don't fit into an array: two of them are 2^64 or more apart. Others might fit.
    Wide {
        cost: i128,
        flow: Flow,
        potentials: Potentials,
    },
    /// No flow is feasible. The bytes show it: 1 for the nodes of a set that `judge_infeasible_arrays` accepts,
    /// otherwise 0.
    Infeasible {
        inside: Vec<u8>,
    },
    /// More steps than the limit would be needed, or the least cost is out of range.
    GaveUp,
}

/// Finds a flow of least cost in at most `limit` steps, each to a better flow. The start flow gives each arc its lower
/// bound, or its capacity if its cost is negative. First it tests the lengths and limits, in the order of
/// `judge_min_arrays`.
pub fn solve_min_arrays(
    alloc: Global,
    arrays: &MinArrays<'_>,
    limit: u64,
) -> Result<MinSolved, ArrayError>
    ensures { SolvesMinArrays arrays.now limit result }
{
    arrays.lengths_hold()?;
    let instance = arrays.instance(alloc)?;
    Ok(solve_over(alloc, &instance, limit)?)
}

fn solve_over<N: Network>(
    alloc: Global,
    instance: &MinInstance<N>,
    limit: u64,
) -> Result<MinSolved, JudgeError>
    ensures { SolvesMinFlow instance.now limit result }
{
    match solve_min_flow(alloc, instance, limit)? {
        MinFlowAnswer::Optimal(flow, potentials) => Ok(least_by(
            alloc, instance, flow, potentials,
        )?),
        MinFlowAnswer::Infeasible(set) => Ok(MinSolved::Infeasible {
            inside: bytes_of(alloc, &set)?,
        }),
        MinFlowAnswer::GaveUp => Ok(MinSolved::GaveUp),
    }
}

/// The answer for a flow of least cost with slack potentials; `GaveUp` if its cost is out of range.
fn least_by<N: Network>(
    alloc: Global,
    instance: &MinInstance<N>,
    flow: Flow,
    potentials: Potentials,
) -> Result<MinSolved, Memory>
    requires least { Least instance.now flow }
    requires slack { Slack instance.now.arcs flow (potential_of potentials) }
    requires nodes { potentials.nodes ≡ instance.now.nodes }
    ensures { IfOk result (λ solved. (limit : ℕ) → (limit ≡ 0 → flow ≡ start_flow instance.now.arcs)
        → SolvesMinFlow instance.now limit (Ok solved)) }
{
    let Ok(cost) = cost_within(instance.network(), &flow) else {
        return Ok(MinSolved::GaveUp);
    };
    match fit_array(alloc, &potentials)? {
        Some(numbers) => Ok(MinSolved::Optimal {
            cost,
            flow,
            potentials: numbers,
        }),
        None => Ok(MinSolved::Wide {
            cost,
            flow,
            potentials,
        }),
    }
}

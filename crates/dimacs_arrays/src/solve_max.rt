//! Finds a maximum flow over arrays.

ghost use Rattle.dimacs_arrays.specs.MaxArrays.{SolvesMaxArrays, SolvesMaxFlow};

use crate::by_node::bytes_of;
use crate::error::ArrayError;
use crate::max::MaxArrays;
use dimacs_instance::MaxInstance;
use dimacs_judging::{Flow, JudgeError, value_of};
use dimacs_network::Network;
use dimacs_solve::{MaxFlowAnswer, solve_max_flow};
use std::alloc::Global;

/// The answer to a maximum flow instance.
#[derive(Drop)]
pub enum MaxSolved {
    /// A maximum flow, and its value. The bytes show it: 1 for the nodes of a cut that `judge_max_arrays` accepts,
    /// otherwise 0.
    Optimal {
        value: i128,
        flow: Flow,
        inside: Vec<u8>,
    },
    /// None of the flows within the limit is maximum.
    GaveUp,
}

/// Finds a maximum flow, from the zero flow on. At most `limit` flows are tested for being maximum. First it tests the
/// lengths and limits, in the order of `judge_max_arrays`.
pub fn solve_max_arrays(
    alloc: Global,
    arrays: &MaxArrays<'_>,
    limit: u64,
) -> Result<MaxSolved, ArrayError>
    ensures { SolvesMaxArrays arrays.now limit result }
{
    arrays.lengths_hold()?;
    let instance = arrays.instance()?;
    Ok(solve_over(alloc, &instance, limit)?)
}

fn solve_over<N: Network>(
    alloc: Global,
    instance: &MaxInstance<N>,
    limit: u64,
) -> Result<MaxSolved, JudgeError>
    ensures { SolvesMaxFlow instance.now limit result }
{
    match solve_max_flow(alloc, instance, limit)? {
        MaxFlowAnswer::Optimal(flow, cut) => {
            let inside = bytes_of(alloc, &cut)?;
            Ok(MaxSolved::Optimal {
                value: value_of(instance, &flow),
                flow,
                inside,
            })
        }
        MaxFlowAnswer::GaveUp => Ok(MaxSolved::GaveUp),
    }
}

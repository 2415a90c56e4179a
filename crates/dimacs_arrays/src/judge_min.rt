//! Judges over arrays that a flow costs least.

ghost use Rattle.std.specs.Prelude.{◌≡◌, length};
ghost use Rattle.dimacs_arrays.specs.{ByNode.{number_of}, MinArrays.{JudgesMinArrays, JudgesMinFlow}};

use crate::by_node::potentials_of;
use crate::error::{Array, ArrayError};
use crate::lengths::{ArrayLength, lengths_hold};
use crate::min::MinArrays;
use dimacs_instance::MinInstance;
use dimacs_judging::{Flow, JudgeError, Verdict, judge_min_flow};
use dimacs_network::Network;
use std::alloc::Global;

/// Judges that the flow costs least, by potentials. The answer `Min` with the flow's cost means that no feasible flow
/// of whole numbers costs less.
///
/// The tests, in order: the lengths of `heads`, `lows`, `caps`, `costs`, `supplies`, `flows` and `potentials`; the
/// limits: `NumberRange` for the number of nodes, then of arcs; for each arc, from 1, `NodeRange` if an end is no node
/// and `BoundOrder` if its lower bound is negative or its capacity less than it; then those of `judge_min_flow`.
pub fn judge_min_arrays(
    alloc: Global,
    arrays: &MinArrays<'_>,
    flows: &[i64],
    potentials: &[i64],
) -> Result<Verdict, ArrayError>
    ensures { JudgesMinArrays arrays.now flows.now potentials.now result }
{
    arrays.lengths_hold()?;
    lengths_hold(&[
        ArrayLength::of(Array::Flows, flows.len(), arrays.tails.len()),
        ArrayLength::of(Array::Potentials, potentials.len(), arrays.nodes as usize),
    ])?;
    let instance = arrays.instance(alloc)?;
    Ok(judge_over(alloc, &instance, flows, potentials)?)
}

fn judge_over<N: Network>(
    alloc: Global,
    instance: &MinInstance<N>,
    flows: &[i64],
    potentials: &[i64],
) -> Result<Verdict, JudgeError>
    requires flows { length flows.now ≡ length instance.now.arcs }
    requires potentials { length potentials.now ≡ instance.now.nodes }
    ensures { JudgesMinFlow instance.now flows.now (number_of potentials.now) result }
{
    let flow = Flow::of(alloc, flows)?;
    let potentials = potentials_of(alloc, instance.network().nodes(), potentials)?;
    judge_min_flow(alloc, instance, &flow, &potentials)
}

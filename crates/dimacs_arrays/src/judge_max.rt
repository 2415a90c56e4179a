//! Judges over arrays that a flow is maximum.

ghost use Rattle.std.specs.Prelude.{◌≡◌, length};
ghost use Rattle.dimacs_arrays.specs.{ByNode.{marked}, MaxArrays.{JudgesMaxArrays, JudgesMaxFlow}};

use crate::by_node::cut_of;
use crate::error::{Array, ArrayError};
use crate::lengths::{ArrayLength, lengths_hold};
use crate::max::MaxArrays;
use dimacs_instance::MaxInstance;
use dimacs_judging::{Flow, JudgeError, Verdict, judge_max_flow};
use dimacs_network::Network;
use std::alloc::Global;

/// Judges that the flow is maximum, by the cut of the nodes whose byte isn't 0. The answer `Max` with the flow's value
/// means that no feasible flow of whole numbers has a greater value.
///
/// The tests, in order: the lengths of `heads`, `caps`, `flows` and `inside`; the limits: `NumberRange` for the number
/// of nodes, then of arcs; `NodeRange` at the source, then at the sink, if it is no node; `NodeTwice` if both are the
/// same; for each arc, from 1, `NodeRange` if an end is no node and `BoundOrder` if its capacity is negative; then
/// those of `judge_max_flow`.
pub fn judge_max_arrays(
    alloc: Global,
    arrays: &MaxArrays<'_>,
    flows: &[i64],
    inside: &[u8],
) -> Result<Verdict, ArrayError>
    ensures { JudgesMaxArrays arrays.now flows.now inside.now result }
{
    arrays.lengths_hold()?;
    lengths_hold(&[
        ArrayLength::of(Array::Flows, flows.len(), arrays.tails.len()),
        ArrayLength::of(Array::Inside, inside.len(), arrays.nodes as usize),
    ])?;
    let instance = arrays.instance()?;
    Ok(judge_over(alloc, &instance, flows, inside)?)
}

fn judge_over<N: Network>(
    alloc: Global,
    instance: &MaxInstance<N>,
    flows: &[i64],
    inside: &[u8],
) -> Result<Verdict, JudgeError>
    requires flows { length flows.now ≡ length instance.now.arcs }
    requires inside { length inside.now ≡ instance.now.nodes }
    ensures { JudgesMaxFlow instance.now flows.now (marked inside.now) result }
{
    let flow = Flow::of(alloc, flows)?;
    let cut = cut_of(alloc, instance.network().nodes(), inside)?;
    judge_max_flow(alloc, instance, &flow, &cut)
}

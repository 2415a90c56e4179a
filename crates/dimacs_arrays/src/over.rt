//! The instances that arrays spell, over the arrays themselves, and sets and potentials: for functions over values, as `write_max`.

ghost use Rattle.std.specs.Prelude.{◌≡◌, ◌≤◌, ◌<◌, ◌+◌, IfErr, OnOk};
ghost use Rattle.dimacs_lines.specs.Limits.{most_nodes};
ghost use Rattle.dimacs_records.specs.declared.reasons.Reason.TheVariants.{NumberRange};
ghost use Rattle.dimacs_judging.specs.declared.verdict.Where.TheVariants.{Node};
ghost use Rattle.dimacs_arrays.specs.Spelled.{SpellsCutArray, SpellsGraphArrays, SpellsMaxArrays, SpellsMinArrays, SpellsPotentialsArray};

use crate::by_node::{cut_of, potentials_of};
use crate::error::ArrayError;
use crate::graph::GraphArrays;
use crate::lent_arcs::LentArcs;
use crate::limits::PastLimit;
use crate::max::MaxArrays;
use crate::min::MinArrays;
use dimacs_claims::{Cut, Potentials};
use dimacs_instance::{Graph, MaxInstance, MinInstance};
use dimacs_judging::Where;
use dimacs_records::{MAX_NODES, Reason};
use std::alloc::Global;

/// The maximum flow instance that the arrays spell. It tests the lengths and limits, in the order of `judge_max_arrays`,
/// and copies nothing.
pub fn max_over<'a>(
    arrays: &MaxArrays<'a>,
) -> Result<MaxInstance<LentArcs<MaxArrays<'a>>>, ArrayError>
    ensures { SpellsMaxArrays arrays.now result }
{
    arrays.lengths_hold()?;
    let instance = arrays.instance()?;
    Ok(instance)
}

/// The minimum cost flow instance that the arrays spell. It tests the lengths and limits, in the order of
/// `judge_min_arrays`, and copies the supplies.
pub fn min_over<'a>(
    alloc: Global,
    arrays: &MinArrays<'a>,
) -> Result<MinInstance<LentArcs<MinArrays<'a>>>, ArrayError>
    ensures { SpellsMinArrays arrays.now result }
{
    arrays.lengths_hold()?;
    let instance = arrays.instance(alloc)?;
    let _lawful = instance.network();
    Ok(instance)
}

/// The graph that the arrays spell. It tests the lengths and limits, in the order of `judge_paths_arrays` but without a
/// source, and copies nothing.
pub fn graph_over<'a>(
    arrays: &GraphArrays<'a>,
) -> Result<Graph<LentArcs<GraphArrays<'a>>>, ArrayError>
    ensures { SpellsGraphArrays arrays.now result }
{
    arrays.lengths_hold()?;
    let graph = arrays.without_source()?;
    Ok(graph)
}

/// The set of the nodes whose byte isn't 0, of as many nodes as there are bytes. Beyond the limit, the place is the first
/// node past it.
pub fn cut_over(alloc: Global, inside: &[u8]) -> Result<Cut, ArrayError>
    ensures { SpellsCutArray inside.now result }
{
    nodes_hold(inside.len())?;
    Ok(cut_of(alloc, inside.len() as u32, inside)?)
}

/// The potentials of these numbers, one for each node. Beyond the limit of nodes, as `cut_over`.
pub fn potentials_over(alloc: Global, numbers: &[i64]) -> Result<Potentials, ArrayError>
    ensures { SpellsPotentialsArray numbers.now result }
{
    nodes_hold(numbers.len())?;
    Ok(potentials_of(alloc, numbers.len() as u32, numbers)?)
}

/// Tests a number of nodes.
pub(crate) fn nodes_hold(nodes: usize) -> Result<(), PastLimit>
    ensures few { OnOk result (nodes ≤ most_nodes) }
    ensures past { IfErr result (λ limit. (most_nodes < nodes) × (limit.place ≡ Node (most_nodes + 1)) × (limit.reason ≡ NumberRange)) }
{
    if nodes > MAX_NODES as usize {
        return Err(PastLimit {
            place: Where::Node(MAX_NODES + 1),
            reason: Reason::NumberRange,
        });
    }
    Ok(())
}

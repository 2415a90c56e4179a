//! Judges distances over arrays.

ghost use Rattle.dimacs_arrays.specs.GraphArrays.{JudgesPathsArrays};

use crate::distances::judge_paths_by_node;
use crate::error::{Array, ArrayError};
use crate::graph::GraphArrays;
use crate::lengths::{ArrayLength, lengths_hold};
use dimacs_judging::Verdict;
use std::alloc::Global;

/// Judges by predecessors that these are the distances from the source. A node that can't be reached has the distance
/// `i64::MAX` and the predecessor 0; the source has the predecessor 0, too. The answer `Sources(1)` means that each
/// other distance is the least weight of all walks to its node, that no walk leads to a node without one, and that the
/// predecessors lead back to the source along such walks.
///
/// The tests, in order: the lengths of `heads`, `weights`, `distances` and `predecessors`; the limits: `NumberRange`
/// for the number of nodes, then of arcs; `NodeRange` if the source is no node; for each arc, from 1, `NodeRange` if an
/// end is no node; then those of `judge_paths_by_node`.
pub fn judge_paths_arrays(
    alloc: Global,
    arrays: &GraphArrays<'_>,
    source: u32,
    distances: &[i64],
    predecessors: &[u32],
) -> Result<Verdict, ArrayError>
    ensures { JudgesPathsArrays arrays.now source distances.now predecessors.now result }
{
    arrays.lengths_hold()?;
    lengths_hold(&[
        ArrayLength::of(Array::Distances, distances.len(), arrays.nodes as usize),
        ArrayLength::of(
            Array::Predecessors,
            predecessors.len(),
            arrays.nodes as usize,
        ),
    ])?;
    let graph = arrays.graph(source)?;
    Ok(judge_paths_by_node(alloc, &graph, source, distances, predecessors)?)
}

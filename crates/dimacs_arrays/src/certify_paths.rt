//! Certifies distances over arrays.

ghost use Rattle.dimacs_arrays.specs.GraphArrays.{CertifiesPathsArrays};

use crate::distances::certify_paths_by_node;
use crate::error::{Array, ArrayError};
use crate::graph::GraphArrays;
use crate::lengths::{ArrayLength, lengths_hold};
use std::alloc::Global;

/// Decides whether these are the distances from the source; `i64::MAX` stands for no distance. If they are, it returns
/// predecessors that `judge_paths_arrays` accepts: 0 at the source and at nodes without a distance.
///
/// It tests the lengths and limits, in the order of `judge_paths_arrays`, then makes the tests of `decide_distances`.
pub fn certify_paths_arrays(
    alloc: Global,
    arrays: &GraphArrays<'_>,
    source: u32,
    distances: &[i64],
) -> Result<Vec<u32>, ArrayError>
    ensures { CertifiesPathsArrays arrays.now source distances.now result }
{
    arrays.lengths_hold()?;
    lengths_hold(&[ArrayLength::of(Array::Distances, distances.len(), arrays.nodes as usize)])?;
    let graph = arrays.graph(source)?;
    Ok(certify_paths_by_node(alloc, &graph, source, distances)?)
}

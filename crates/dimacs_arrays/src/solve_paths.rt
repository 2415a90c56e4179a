//! Finds distances from a source over arrays.

ghost use Rattle.std.specs.Prelude.{◌≡◌};
ghost use Rattle.dimacs_lines.specs.Limits.{IsNode};
ghost use Rattle.dimacs_arrays.specs.{GraphArrays.{SolvesPathsArrays}, Paths.{SolvesByNode}};
ghost use Rattle.dimacs_arrays.specs.inside.LabelDistances.{of_solver};

use crate::distances::all_from;
use crate::error::ArrayError;
use crate::graph::GraphArrays;
use crate::label_distances::distances_of;
use crate::predecessors::predecessors_of;
use dimacs_claims::Labels;
use dimacs_instance::Graph;
use dimacs_judging::{JudgeError, Where};
use dimacs_network::Network;
use dimacs_records::Reason;
use dimacs_solve::{SolveError, solve_paths};
use std::alloc::Global;

/// The distances from a source.
#[derive(Drop)]
pub enum PathsSolved {
    /// The distance of each node, `i64::MAX` if it can't be reached, and its predecessor, 0 at such nodes and at the
    /// source. `judge_paths_arrays` accepts both.
    Distances {
        distances: Vec<i64>,
        predecessors: Vec<u32>,
    },
    /// A distance is `i64::MAX` or more, which doesn't fit into an array. The labels have all distances.
    Wide(Labels),
}

/// Finds the distances from the source, and predecessors that show them. `Refused` with `NegativeWeight` names the
/// first arc of negative weight, if there is one. First it tests the lengths and limits, in the order of
/// `judge_paths_arrays`.
pub fn solve_paths_arrays(
    alloc: Global,
    arrays: &GraphArrays<'_>,
    source: u32,
) -> Result<PathsSolved, ArrayError>
    ensures { SolvesPathsArrays arrays.now source result }
{
    arrays.lengths_hold()?;
    let graph = arrays.graph(source)?;
    Ok(solve_over(alloc, &graph, source)?)
}

fn solve_over<N: Network>(
    alloc: Global,
    graph: &Graph<N>,
    source: u32,
) -> Result<PathsSolved, JudgeError>
    requires source { IsNode graph.now.nodes source }
    ensures { SolvesByNode graph.now source result }
{
    let nodes = graph.network().nodes();
    let labels = match solve_paths(alloc, graph, &all_from(alloc, source)?) {
        Ok(labels) => labels,
        Err(error) => return Err(refused(error)),
    };
    let block = &labels.blocks()[0];
    let Some(distances) = distances_of(alloc, nodes, block)? else {
        return Ok(PathsSolved::Wide(labels));
    };
    let predecessors = predecessors_of(alloc, nodes, block)?;
    Ok(PathsSolved::Distances {
        distances,
        predecessors,
    })
}

fn refused(error: SolveError) -> JudgeError
    ensures { result ≡ of_solver error }
{
    match error {
        SolveError::NegativeWeight(arc) => {
            JudgeError::Refused(Where::Arc(arc), Reason::NegativeWeight)
        }
        SolveError::Refused(place, reason) => JudgeError::Refused(place, reason),
        SolveError::Memory => JudgeError::Memory,
    }
}

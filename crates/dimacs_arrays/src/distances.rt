//! Distances by node: judged with predecessors, and certified without them.

ghost use Rattle.std.specs.Prelude.{◌≡◌, ◌∷◌, [], length, IfOk};
ghost use Rattle.dimacs_lines.specs.Limits.{IsNode};
ghost use Rattle.dimacs_instance.specs.QueryTexts.{Sources, asked};
ghost use Rattle.dimacs_decide.specs.{Claims.{claimed_by_node}, Predecessors.{pred_by_node}};
ghost use Rattle.dimacs_arrays.specs.Paths.{CertifiesByNode, JudgesByNode};

use crate::labels::labels_by_node;
use crate::predecessors::predecessors_of;
use crate::tight_predecessors::{are_tight_predecessors, tight_predecessors};
use dimacs_decide::{DistancesByNode, decide_distances};
use dimacs_instance::{Graph, Queries};
use dimacs_judging::{JudgeError, Verdict, judge_paths};
use dimacs_lines::Memory;
use dimacs_network::Network;
use std::alloc::Global;

/// Judges by predecessors that these are the distances from the source. `i64::MAX` stands for no distance; the source
/// and nodes without a distance have the predecessor 0. The answer is that of `judge_paths` to the query for all
/// distances from the source, by labels of these numbers, each after its predecessor's, otherwise in the order of IDs.
///
/// The tests, in order: `NotShortest` at the source if its distance isn't 0; for each node, by ID, `NodeRange` if its
/// predecessor isn't a node, or isn't 0 although it has to be; for each node with a distance, by ID, `PredUnknown` if
/// its predecessors don't lead back to the source; then those of `label_tests`. If each distance has a tight arc of
/// positive weight from its predecessor, one pass over the arcs replaces all of them.
pub fn judge_paths_by_node<N: Network>(
    alloc: Global,
    graph: &Graph<N>,
    source: u32,
    distances: &[i64],
    predecessors: &[u32],
) -> Result<Verdict, JudgeError>
    requires source { IsNode graph.now.nodes source }
    requires distances { length distances.now ≡ graph.now.nodes }
    requires predecessors { length predecessors.now ≡ graph.now.nodes }
    ensures { JudgesByNode graph.now source (claimed_by_node distances.now) (pred_by_node predecessors.now) result }
{
    if are_tight_predecessors(alloc, graph.network(), source, distances, predecessors)? {
        return Ok(Verdict::Sources(1));
    }
    let nodes = graph.network().nodes();
    let labels = labels_by_node(alloc, nodes, source, distances, predecessors)?;
    judge_paths(alloc, graph, &all_from(alloc, source)?, &labels)
}

/// The query for all distances from a source.
pub(crate) fn all_from(alloc: Global, source: u32) -> Result<Queries, Memory>
    ensures { IfOk result (λ queries. asked queries ≡ Sources (source ∷ [])) }
{
    let mut sources = Vec::new(alloc);
    sources.push(source)?;
    Ok(Queries::Sources(sources))
}

/// Decides whether these are the distances from the source. If they are, it returns predecessors that the judge
/// accepts: 0 at the source and at nodes without a distance. Otherwise `Refused` has the first test of
/// `decide_distances` that fails. If each distance has a tight arc of positive weight, one pass over the arcs suffices.
pub fn certify_paths_by_node<N: Network>(
    alloc: Global,
    graph: &Graph<N>,
    source: u32,
    distances: &[i64],
) -> Result<Vec<u32>, JudgeError>
    requires source { IsNode graph.now.nodes source }
    ensures { CertifiesByNode graph.now source (claimed_by_node distances.now) result }
{
    if let Some(predecessors) = tight_predecessors(alloc, graph.network(), source, distances)? {
        return Ok(predecessors);
    }
    let nodes = graph.network().nodes();
    let labels = decide_distances(alloc, graph, source, &DistancesByNode { distances })?;
    Ok(predecessors_of(alloc, nodes, &labels.blocks()[0])?)
}

//! Shows distances by one pass over the arcs, if each has a tight arc of positive weight.

ghost use Rattle.std.specs.Prelude.{◌≡◌, ◌≤◌, ◌↔◌, length, All, IfOk, IfSome, IsTrue, Some, pos};
ghost use Rattle.dimacs_lines.specs.Limits.{most_nodes};
ghost use Rattle.dimacs_network.specs.Arcs.{JoinsNodes};
ghost use Rattle.dimacs_decide.specs.{Claims.{claimed_by_node}, Predecessors.{NeedsPredecessor, pred_by_node}};
ghost use Rattle.dimacs_arrays.specs.inside.TightPredecessors.{AreTightPredecessorsFrom, HavePredecessors};

use dimacs_decide::{
    DistanceClaim, DistancesByNode, predecessor_of, source_holds, tails_of_tight_arcs,
};
use dimacs_lines::Memory;
use dimacs_network::Network;
use std::alloc::Global;

/// The tails of tight arcs of positive weight as predecessors, if each node with a distance but the source has such an
/// arc; 0 at other nodes. None doesn't mean that the distances are wrong.
pub(crate) fn tight_predecessors<N: Network>(
    alloc: Global,
    network: &N,
    source: u32,
    distances: &[i64],
) -> Result<Option<Vec<u32>>, Memory>
    requires node_limit { N.node_count network.now ≤ most_nodes }
    requires joined { All (JoinsNodes (N.node_count network.now)) (N.list network.now) }
    ensures { IfOk result (λ found. IfSome found (λ predecessors. AreTightPredecessorsFrom (N.node_count network.now) source (N.list network.now)
        distances.now predecessors.items)) }
{
    if !length_and_source_hold(network.nodes(), source, distances) {
        return Ok(None);
    }
    let claim = DistancesByNode { distances };
    let Some(predecessors) = tails_of_tight_arcs(alloc, network, &claim, None)? else {
        return Ok(None);
    };
    if all_have_predecessors(source, distances, &predecessors) {
        Ok(Some(predecessors))
    } else {
        Ok(None)
    }
}

/// Whether the predecessor of each node with a distance, except the source, is the tail of such an arc, and the other
/// predecessors are 0. False doesn't mean that the distances are wrong.
pub(crate) fn are_tight_predecessors<N: Network>(
    alloc: Global,
    network: &N,
    source: u32,
    distances: &[i64],
    predecessors: &[u32],
) -> Result<bool, Memory>
    requires node_limit { N.node_count network.now ≤ most_nodes }
    requires joined { All (JoinsNodes (N.node_count network.now)) (N.list network.now) }
    ensures { IfOk result (λ yes. IsTrue yes → AreTightPredecessorsFrom (N.node_count network.now) source (N.list network.now)
        distances.now predecessors.now) }
{
    if !length_and_source_hold(network.nodes(), source, distances)
        || !all_have_predecessors(source, distances, predecessors)
    {
        return Ok(false);
    }
    let claim = DistancesByNode { distances };
    match tails_of_tight_arcs(alloc, network, &claim, Some(predecessors))? {
        Some(tails) => Ok(&tails[..] == predecessors),
        None => Ok(false),
    }
}

fn length_and_source_hold(nodes: u32, source: u32, distances: &[i64]) -> bool
    ensures { IsTrue result → ((length distances.now ≡ nodes) × (claimed_by_node distances.now source ≡ Some (pos 0))) }
{
    distances.len() == nodes as usize
        && source_holds(source, &DistancesByNode { distances }).is_ok()
}

/// Whether each node that needs a predecessor has one, and the source has none.
fn all_have_predecessors(source: u32, distances: &[i64], predecessors: &[u32]) -> bool
    requires { length distances.now ≤ most_nodes }
    ensures source { IsTrue result → pred_by_node predecessors.now source ≡ 0 }
    ensures others { IsTrue result → HavePredecessors source (claimed_by_node distances.now) (pred_by_node predecessors.now) }
{
    if predecessor_of(predecessors, source) != 0 {
        return false;
    }
    for v in 1..distances.len() as u32 + 1 {
        if lacks_predecessor(source, distances, predecessors, v) {
            return false;
        }
    }
    true
}

#[inline(always)]
fn lacks_predecessor(source: u32, distances: &[i64], predecessors: &[u32], node: u32) -> bool
    ensures { IsTrue result ↔ (NeedsPredecessor source (claimed_by_node distances.now) node × (pred_by_node predecessors.now node ≡ 0)) }
{
    node != source
        && (DistancesByNode { distances }).of(node).is_some()
        && predecessor_of(predecessors, node) == 0
}

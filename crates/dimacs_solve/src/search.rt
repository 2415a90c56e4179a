//! Dijkstra's search from one source.

ghost use Rattle.std.specs.Prelude.{◌≡◌, ◌<◌, ◌≤◌, ◌+◌, ◌*◌, ◌^◌, [], IfOk, OnOk};
ghost use Rattle.dimacs_lines.specs.Limits.{IsNode};
ghost use Rattle.dimacs_solve.specs.{inside.Adjacency.{AreByNode}, inside.Frontiers.{walk_of}};
ghost use Rattle.dimacs_solve.specs.inside.NodeStates.{known};
ghost use Rattle.dimacs_solve.specs.inside.Search.{IsPopped, IsReady, IsPathSearch, IsPathTree, Offers, Relaxes, work};

use crate::adjacency::Adjacency;
use crate::distance::SearchDistance;
use crate::frontier::Frontier;
use crate::node_states::NodeStates;
use crate::piles::Walk;
use dimacs_claims::{Block, Label};
use dimacs_lines::Memory;
use std::alloc::Global;

/// Labels all nodes that can be reached from a source, in the order in which they are settled. Takes time and memory
/// for what it reaches.
pub(crate) fn search<D: SearchDistance>(
    alloc: Global,
    adjacency: &Adjacency,
    source: u32,
    node_states: &mut NodeStates<D>,
    frontier: &mut Frontier<D>,
) -> Result<Block, Memory>
    requires adjacent { AreByNode adjacency.now }
    requires bounded { adjacency.now.nodes * adjacency.now.greatest < D.limit }
    requires source { IsNode adjacency.now.nodes source }
    requires rounds { node_states.old.round + 1 < 2 ^ 32 }
    requires empty { frontier.old ≡ [] }
    ensures tree { IfOk result (IsPathTree adjacency.now source) }
    ensures round { OnOk result (node_states.new.round ≡ node_states.old.round + 1) }
    ensures empty { OnOk result (frontier.new ≡ []) }
{
    node_states.next_round();
    let mut block = Block::new(alloc, source);
    node_states.settle(source, D::zero())?;
    relax(adjacency, source, D::zero(), node_states, frontier)?;
    while let Some(walk) = frontier.pop() {
        visit(adjacency, walk, node_states, frontier, &mut block)?;
    }
    Ok(block)
}

/// Settles the node of the nearest walk, unless it is settled already, and relaxes its arcs.
fn visit<D: SearchDistance>(
    adjacency: &Adjacency,
    walk: Walk<D>,
    node_states: &mut NodeStates<D>,
    frontier: &mut Frontier<D>,
    block: &mut Block,
) -> Result<(), Memory>
    requires bounded { adjacency.now.nodes * adjacency.now.greatest < D.limit }
    requires popped { IsPopped adjacency.now block.old (known D.value node_states.old) (walk_of D.value walk) frontier.old }
    ensures search { OnOk result (IsPathSearch adjacency.now block.new (known D.value node_states.new) frontier.new) }
    ensures less { OnOk result (work adjacency.now (known D.value node_states.new) frontier.new
        ≤ work adjacency.now (known D.value node_states.old) frontier.old) }
    ensures source { OnOk result (block.new.source ≡ block.old.source) }
    ensures round { OnOk result (node_states.new.round ≡ node_states.old.round) }
{
    if node_states.is_settled(walk.node) {
        return Ok(());
    }
    block.add(Label {
        dist: walk.dist.to_i128(),
        id: walk.node,
        pred: walk.pred,
    })?;
    node_states.settle(walk.node, walk.dist)?;
    relax(adjacency, walk.node, walk.dist, node_states, frontier)?;
    Ok(())
}

fn relax<D: SearchDistance>(
    adjacency: &Adjacency,
    node: u32,
    dist: D,
    node_states: &mut NodeStates<D>,
    frontier: &mut Frontier<D>,
) -> Result<(), Memory>
    requires bounded { adjacency.now.nodes * adjacency.now.greatest < D.limit }
    requires ready { IsReady adjacency.now node (D.value dist) (known D.value node_states.old) frontier.old }
    ensures relaxes { OnOk result (Relaxes adjacency.now node (D.value dist) (known D.value node_states.old) frontier.old
        (known D.value node_states.new) frontier.new) }
    ensures round { OnOk result (node_states.new.round ≡ node_states.old.round) }
{
    let out_arcs = adjacency.leaving(node);
    for out_arc in out_arcs {
        let walk = Walk {
            dist: dist.plus(out_arc.weight()),
            node: out_arc.head(),
            pred: node,
        };
        offer(walk, node_states, frontier)?;
    }
    Ok(())
}

/// Queues a walk that is shorter than those found to its node before.
#[inline(always)]
fn offer<D: SearchDistance>(
    walk: Walk<D>,
    node_states: &mut NodeStates<D>,
    frontier: &mut Frontier<D>,
) -> Result<(), Memory>
    ensures offers { OnOk result (Offers (walk_of D.value walk) (known D.value node_states.old) frontier.old (known D.value node_states.new) frontier.new) }
    ensures round { OnOk result (node_states.new.round ≡ node_states.old.round) }
{
    if node_states.is_within(walk.node, walk.dist) {
        return Ok(());
    }
    node_states.reach(walk.node, walk.dist)?;
    frontier.push(walk)
}

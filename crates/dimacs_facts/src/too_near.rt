//! Labels that are less than the weight of every walk.

ghost use Rattle.std.specs.Prelude.{IfOk, IfSome};
ghost use Rattle.dimacs_judging.specs.Walks.{Beyond};

use crate::search::walks_along;
use crate::steps::Steps;
use dimacs_claims::Labels;
use dimacs_lines::Memory;
use dimacs_network::{AdjacencyLists, Network, Side};
use std::alloc::Global;

/// A label of a node, in the block from this source, that no walk to the node weighs as little as.
#[derive(Clone, Copy)]
pub struct TooNear {
    pub source: u32,
    pub dist: i128,
}

/// The first label of the node that is too near; none if none is found in the steps that are left.
pub fn first_too_near<N: Network>(
    alloc: Global,
    network: &N,
    labels: &Labels,
    node: u32,
    steps: &mut Steps,
) -> Result<Option<TooNear>, Memory>
    ensures { IfOk result (λ found. IfSome found (λ it. Beyond (N.list network.now) it.source node it.dist)) }
{
    let leaving = AdjacencyLists::new(alloc, network, Side::Tail)?;
    for (k, block) in labels.blocks().iter().enumerate() {
        let Some(dist) = labels.label(k, node) else {
            continue;
        };
        let source = block.source();
        if walks_along(alloc, network, &leaving, source, steps)?.lead_beyond(node, dist) {
            return Ok(Some(TooNear { source, dist }));
        }
    }
    Ok(None)
}

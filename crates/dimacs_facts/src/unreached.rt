//! That a node has no distance.

ghost use Rattle.std.specs.Prelude.{◌≡◌, IfSome, None};
ghost use Rattle.dimacs_judging.specs.{Labels.{AreDistances}, Walks.{IsDistance}};

use dimacs_claims::Labels;
use dimacs_instance::Graph;
use dimacs_network::Network;

/// A source from which no walk leads to a node, or none within a radius.
#[derive(Clone, Copy)]
pub struct Unreached {
    pub source: u32,
    pub radius: Option<i128>,
}

/// The source, and the radius of a block from it, if labels that are distances give the node none there.
pub fn unreached_from<N: Network>(
    _graph: &Graph<N>,
    labels: &Labels,
    source: u32,
    node: u32,
) -> Option<Unreached>
    requires { AreDistances _graph.now.arcs labels.now.blocks }
    ensures { IfSome result (λ it. IsDistance _graph.now.arcs it.source node None it.radius) }
{
    for (k, block) in labels.blocks().iter().enumerate() {
        if block.source() == source && labels.label(k, node).is_none() {
            let radius = block.radius();
            return Some(Unreached { source, radius });
        }
    }
    None
}

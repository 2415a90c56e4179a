//! What labels that are distances show of nodes without a label.

ghost use Rattle.std.specs.Prelude.{◌↔◌, ◌≡◌, IfSome, IsTrue, [], None};
ghost use Rattle.dimacs_facts.specs.Blocks.{IsAlone, IsBlockOf, OthersUnreached};
ghost use Rattle.dimacs_judging.specs.Labels.{AreDistances};

use dimacs_claims::{Block, Labels};
use dimacs_instance::Graph;
use dimacs_network::Network;

/// The block from this source, of labels that are distances.
pub fn block_from<'a, N: Network>(
    _graph: &Graph<N>,
    labels: &'a Labels,
    source: u32,
) -> Option<&'a Block>
    requires { AreDistances _graph.now.arcs labels.now.blocks }
    ensures source { IfSome result (λ block. block.now.source ≡ source) }
    ensures distances { IfSome result (λ block. IsBlockOf _graph.now.arcs block.now) }
{
    for block in labels.blocks() {
        if block.source() == source {
            return Some(block);
        }
    }
    None
}

/// Whether the block shows that its source reaches no other node, or none within the radius.
pub fn is_alone<N: Network>(_graph: &Graph<N>, block: &Block) -> bool
    requires { IsBlockOf _graph.now.arcs block.now }
    ensures { IsTrue result → IsAlone _graph.now.arcs block.now.source block.now.radius }
{
    block.labels().is_empty()
}

/// Whether the block shows that no walk leads to the nodes that have no label in it.
pub fn others_unreached<N: Network>(_graph: &Graph<N>, block: &Block) -> bool
    requires { IsBlockOf _graph.now.arcs block.now }
    ensures { IsTrue result → OthersUnreached _graph.now.arcs block.now }
{
    block.radius().is_none()
}

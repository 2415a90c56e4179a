//! Predecessors by node, from labels.

ghost use Rattle.std.specs.Prelude.{IfOk};
ghost use Rattle.dimacs_claims.specs.Labels.{IsBlock};
ghost use Rattle.dimacs_arrays.specs.inside.PredecessorsOf.{ArePredsOf};

use dimacs_claims::Block;
use dimacs_lines::Memory;
use std::alloc::Global;

/// The predecessor of each node, by ID from 1; 0 at the source and at nodes without a label.
pub(crate) fn predecessors_of(alloc: Global, nodes: u32, block: &Block) -> Result<Vec<u32>, Memory>
    requires { IsBlock nodes block.now }
    ensures { IfOk result (λ predecessors. ArePredsOf nodes block.now.labels predecessors.items) }
{
    let mut predecessors = vec![in alloc; 0u32; nodes as usize]?;
    let labels = block.labels();
    for i in 0..labels.len() {
        let label = labels.at(i);
        predecessors[label.id as usize - 1] = label.pred;
    }
    Ok(predecessors)
}

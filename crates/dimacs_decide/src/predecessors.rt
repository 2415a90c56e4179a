//! Predecessors by ID.

ghost use Rattle.std.specs.Prelude.{◌≡◌};
ghost use Rattle.dimacs_decide.specs.Predecessors.{pred_by_node};

/// The predecessor of a node in an array by ID, from 1; 0 if the array doesn't have the node.
#[inline(always)]
pub fn predecessor_of(predecessors: &[u32], id: u32) -> u32
    ensures { result ≡ pred_by_node predecessors.now id }
{
    if id == 0 {
        return 0;
    }
    match predecessors.get(id as usize - 1) {
        Some(predecessor) => *predecessor,
        None => 0,
    }
}

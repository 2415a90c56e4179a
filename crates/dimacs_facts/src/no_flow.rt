//! That no flow is feasible, by a set of nodes.

ghost use Rattle.std.specs.Prelude.{◌≤◌, IsTrue};
ghost use Rattle.dimacs_lines.specs.Limits.{most_nodes};
ghost use Rattle.dimacs_judging.specs.Optimum.{NoFlow};

use dimacs_claims::Cut;
use dimacs_instance::MinInstance;
use dimacs_judging::judge_infeasible;
use dimacs_lines::Memory;
use dimacs_network::Network;
use std::alloc::Global;

/// Whether the set shows that no flow is feasible.
pub fn shows_no_flow<N: Network>(min: &MinInstance<N>, set: &Cut) -> bool
    ensures { IsTrue result → NoFlow min.now }
{
    judge_infeasible(min, set).is_ok()
}

/// The set of one node; the empty set if there is no such node.
pub fn one_node(alloc: Global, nodes: u32, node: u32) -> Result<Cut, Memory>
    requires { nodes ≤ most_nodes }
{
    let mut set = Cut::new(alloc, nodes);
    if 1 <= node && node <= nodes {
        set.add(node)?;
    }
    Ok(set)
}

/// The set of all nodes.
pub fn all_nodes(alloc: Global, nodes: u32) -> Result<Cut, Memory>
    requires { nodes ≤ most_nodes }
{
    let mut set = Cut::new(alloc, nodes);
    for node in 0..nodes {
        set.add(node + 1)?;
    }
    Ok(set)
}

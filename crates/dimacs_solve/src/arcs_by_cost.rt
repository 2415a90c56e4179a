//! The arcs of a network, ordered by cost.

ghost use Rattle.std.specs.Prelude.{IfOk};
ghost use Rattle.dimacs_solve.specs.inside.ArcsByCost.{AreByCost, AreWithCosts};

use dimacs_lines::Memory;
use dimacs_network::Network;
use std::alloc::Global;

/// An arc with its cost. The order is by cost, then by index.
#[derive(Clone, Copy, PartialEq, Eq, PartialOrd, Ord)]
pub(crate) struct ArcOfCost {
    pub(crate) cost: i64,
    pub(crate) arc: u32,
}

pub(crate) fn arcs_by_cost<N: Network>(alloc: Global, network: &N) -> Result<Vec<ArcOfCost>, Memory>
    ensures { IfOk result (λ order. AreByCost (N.list network.now) order.items) }
{
    let mut order = arcs_with_costs(alloc, network)?;
    order.sort_unstable();
    Ok(order)
}

/// All arcs, ordered by index.
fn arcs_with_costs<N: Network>(alloc: Global, network: &N) -> Result<Vec<ArcOfCost>, Memory>
    ensures { IfOk result (λ order. AreWithCosts (N.list network.now) order.items) }
{
    let mut order = Vec::with_capacity(alloc, network.arcs() as usize)?;
    for arc in 0..network.arcs() {
        let cost = network.arc(arc).cost;
        order.push(ArcOfCost { cost, arc })?;
    }
    Ok(order)
}

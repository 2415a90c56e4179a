//! The imbalances of nodes under a flow.

ghost use Rattle.std.specs.Prelude.{◌≡◌, ◌≢◌, ◌≤◌, ◌<◌, ◌+◌, ◌^◌, ◌↔◌, ℕ, IsTrue, pos, IfOk};
ghost use Rattle.dimacs_lines.specs.Limits.{most_nodes};
ghost use Rattle.dimacs_judging.specs.inside.Ranges.{IsOfSize};
ghost use Rattle.dimacs_instance.specs.MinFlows.{supply_of};
ghost use Rattle.dimacs_network.specs.{Skips.{Skips}, Tables.{value_of}};
ghost use Rattle.dimacs_decide.specs.{Bounds.{KeepsBounds}, inside.Imbalances.{AreImbalances, AreSigns}};

use dimacs_instance::MinInstance;
use dimacs_judging::{Balances, Flow};
use dimacs_lines::Memory;
use dimacs_network::{Network, NodeTable};
use std::alloc::Global;

/// The imbalance of each node: its supply minus its net outflow. Takes memory for the ends of arcs, and the nodes where
/// it isn't 0.
pub(crate) fn imbalances<N: Network>(
    alloc: Global,
    instance: &MinInstance<N>,
    flow: &Flow,
) -> Result<NodeTable<i128>, Memory>
    requires { KeepsBounds instance.now.arcs flow.now }
    ensures values { IfOk result (λ table. AreImbalances instance.now flow.now (value_of table)) }
    ensures sizes { IfOk result (λ table. (v : ℕ) → IsOfSize (2 ^ 99) (value_of table v)) }
{
    let network = instance.network();
    let balances = Balances::new(alloc, network, flow)?;
    let mut table = NodeTable::new(alloc, 0i128);
    let end = network.nodes() + 1;
    let mut supplied = 1;
    let mut id = 1;
    while id < end {
        let imbalance = i128::from(instance.supply(id)) - balances.of(id);
        if is_unbalanced(imbalance) {
            table.set(id, imbalance)?;
        }
        supplied = later_supply(instance, supplied, id + 1, end);
        id = balances.next(id + 1, supplied);
    }
    Ok(table)
}

/// As `next_supply`; `known` if that isn't before `from`, so that a loop doesn't look for the same node twice.
#[inline(always)]
fn later_supply<N: Network>(instance: &MinInstance<N>, known: u32, from: u32, end: u32) -> u32
    requires from { from ≤ end }
    requires known { known ≤ end }
    requires nothing { (v : ℕ) → from ≤ v → v < known → supply_of instance.now v ≡ pos 0 }
    ensures { Skips (λ v. supply_of instance.now v ≡ pos 0) from end result }
{
    if known < from {
        instance.next_supply(from, end)
    } else {
        known
    }
}

fn is_unbalanced(imbalance: i128) -> bool
    ensures { IsTrue result ↔ (imbalance ≢ pos 0) }
{
    imbalance != 0
}

/// Which imbalances the nodes have.
#[derive(Clone, Copy)]
pub(crate) enum ImbalanceSigns {
    /// No node has an excess or a deficit.
    Even,
    /// Some node has a deficit, and none an excess.
    Deficit,
    /// Some node has an excess.
    Excess,
}

pub(crate) fn imbalance_signs(nodes: u32, imbalance: &NodeTable<i128>) -> ImbalanceSigns
    requires { nodes ≤ most_nodes }
    ensures { AreSigns nodes (nodes + 1) (value_of imbalance.now) result }
{
    let mut signs = ImbalanceSigns::Even;
    let end = nodes + 1;
    let mut id = 1;
    while id < end {
        let amount = imbalance.get(id);
        if amount > 0 {
            return ImbalanceSigns::Excess;
        }
        if amount < 0 {
            signs = ImbalanceSigns::Deficit;
        }
        id = imbalance.next_nonzero(id + 1, end);
    }
    signs
}

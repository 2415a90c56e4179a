//! Whether a flow is feasible: its bounds, and the balances of the nodes.

ghost use Rattle.std.specs.Prelude.{◌≡◌, ◌≤◌, ◌<◌, ℕ, ℤ, List, Option, length};
ghost use Rattle.dimacs_lines.specs.Limits.{most_count, most_nodes};
ghost use Rattle.dimacs_network.specs.Skips.{Skips};
ghost use Rattle.dimacs_judging.specs.{Feasible.{FeasibleMax, FeasibleMin}, Flows.{net}, Tests.{Settles, TestsRow}};
ghost use Rattle.dimacs_judging.specs.FlowTests.{BoundFails, BalanceFails, bound_row, balance_row, feasible_max_rows, feasible_min_rows, max_demand, min_demand};
ghost use Rattle.dimacs_judging.specs.inside.Tests.{AsksNothing, NamesReason, TestsFeasible};

use crate::arc_test::{ArcTest, arcs_hold};
use crate::balances::{Balances, NodeBalances};
use crate::flow::Flow;
use crate::verdict::{JudgeError, Where};
use dimacs_instance::{MaxInstance, MinInstance};
use dimacs_network::{ArcView, Network};
use dimacs_records::Reason;
use std::alloc::Global;

/// Tests whether a flow is feasible. Allocates a table of the nodes that have arcs.
///
/// The tests in order: for each arc `BelowLow` if it carries less than 0, `AboveCap` if more than its capacity; for
/// each node but source and sink `Balance` if its balance isn't 0.
pub fn feasible_max<N: Network>(
    alloc: Global,
    instance: &MaxInstance<N>,
    flow: &Flow,
) -> Result<(), JudgeError>
    requires { length flow.now ≡ length instance.now.arcs }
    ensures { Settles (λ done. FeasibleMax instance.now flow.now) (feasible_max_rows instance.now flow.now) result }
{
    balances_if_feasible(alloc, instance.network(), flow, instance)?;
    Ok(())
}

/// Tests whether a flow is feasible. Allocates a table of the nodes that have arcs.
///
/// The tests in order: for each arc `BelowLow` or `AboveCap`; for each node `Balance` if its balance isn't its supply.
pub fn feasible_min<N: Network>(
    alloc: Global,
    instance: &MinInstance<N>,
    flow: &Flow,
) -> Result<(), JudgeError>
    requires { length flow.now ≡ length instance.now.arcs }
    ensures { Settles (λ done. FeasibleMin instance.now flow.now) (feasible_min_rows instance.now flow.now) result }
{
    balances_if_feasible(alloc, instance.network(), flow, instance)?;
    Ok(())
}

/// Tests the bounds, then the balances, and returns these.
pub(crate) fn balances_if_feasible<N: Network, D: Demands>(
    alloc: Global,
    network: &N,
    flow: &Flow,
    demands: &D,
) -> Result<Balances, JudgeError>
    requires node_limit { N.node_count network.now ≤ most_nodes }
    requires arc_limit { length (N.list network.now) ≤ most_count }
    requires one_each { length flow.now ≡ length (N.list network.now) }
    ensures { TestsFeasible (N.node_count network.now) (N.list network.now) (D.demand demands.now) flow.now result }
{
    bounds_hold(network, flow)?;
    let balances = Balances::new(alloc, network, flow)?;
    balances_hold(network, &balances, demands)?;
    Ok(balances)
}

/// Tests the bounds: `BelowLow` or `AboveCap` at the first arc that violates one.
pub fn bounds_hold<N: Network>(network: &N, flow: &Flow) -> Result<(), (Where, Reason)>
    requires one_each { length flow.now ≡ length (N.list network.now) }
    ensures { TestsRow (bound_row (N.list network.now) flow.now) result }
{
    arcs_hold(network, flow, &Bounds)
}

pub(crate) struct Bounds;

impl ArcTest for Bounds {
    ghost fails = { λ bounds. BoundFails };

    #[inline(always)]
    fn fault(&self, arc: ArcView, amount: i64) -> Option<Reason> {
        if amount < arc.low {
            Some(Reason::BelowLow)
        } else if amount > arc.cap {
            Some(Reason::AboveCap)
        } else {
            None
        }
    }
}

/// The balances that an instance demands.
pub(crate) trait Demands {
    ghost demand: { Self → ℕ → Option ℤ };

    /// The balance that the node must have; none if any will do.
    fn demand_at(&self, node: u32) -> Option<i64>
        ensures { result ≡ demand self.now node };

    /// Goes from `from` over nodes that demand no balance other than 0, at most to `end`.
    fn next_demand(&self, from: u32, end: u32) -> u32
        requires { from ≤ end }
        ensures { Skips (λ v. AsksNothing (demand self.now v)) from end result };
}

impl<N: Network> Demands for MaxInstance<N> {
    ghost demand = { max_demand };

    fn demand_at(&self, node: u32) -> Option<i64> {
        if node == self.source() || node == self.sink() {
            None
        } else {
            Some(0)
        }
    }

    fn next_demand(&self, _from: u32, end: u32) -> u32 {
        end
    }
}

impl<N: Network> Demands for MinInstance<N> {
    ghost demand = { min_demand };

    fn demand_at(&self, node: u32) -> Option<i64> {
        Some(self.supply(node))
    }

    fn next_demand(&self, from: u32, end: u32) -> u32 {
        self.next_supply(from, end)
    }
}

/// Tests the balances, by node ID.
pub(crate) fn balances_hold<N: Network, B: NodeBalances, D: Demands>(
    network: &N,
    balances: &B,
    demands: &D,
) -> Result<(), (Where, Reason)>
    requires { N.node_count network.now ≤ most_nodes }
    ensures { (x : List ℤ) → ((v : ℕ) → B.balance balances.now v ≡ net (N.list network.now) x v)
        → TestsRow (balance_row (N.node_count network.now) (N.list network.now) (D.demand demands.now) x) result }
{
    let end = network.nodes() + 1;
    let mut demanded = 1;
    let mut v = 1;
    while v < end {
        if let Some(reason) = balance_fault(demands.demand_at(v), balances.of(v)) {
            return Err((Where::Node(v), reason));
        }
        demanded = later_demand(demands, demanded, v + 1, end);
        v = balances.next(v + 1, demanded);
    }
    Ok(())
}

/// As `next_demand`; `known` if that isn't before `from`, so that a loop doesn't look for the same node twice.
#[inline(always)]
fn later_demand<D: Demands>(demands: &D, known: u32, from: u32, end: u32) -> u32
    requires from { from ≤ end }
    requires known { known ≤ end }
    requires nothing { (v : ℕ) → from ≤ v → v < known → AsksNothing (D.demand demands.now v) }
    ensures { Skips (λ v. AsksNothing (D.demand demands.now v)) from end result }
{
    if known < from {
        demands.next_demand(from, end)
    } else {
        known
    }
}

fn balance_fault(demand: Option<i64>, balance: i128) -> Option<Reason>
    ensures { NamesReason (BalanceFails demand balance) result }
{
    match demand {
        Some(amount) if i128::from(amount) != balance => Some(Reason::Balance),
        _ => None,
    }
}

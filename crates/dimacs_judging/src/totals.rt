//! The value and the cost of a flow, in one pass if its tests pass.

ghost use Rattle.std.specs.Prelude.{◌≡◌, ◌≤◌, ◌++◌, ◌∷◌, [], All, IfSome, length};
ghost use Rattle.dimacs_lines.specs.Limits.{most_count, most_nodes};
ghost use Rattle.dimacs_network.specs.Arcs.{JoinsNodes};
ghost use Rattle.dimacs_claims.specs.Potentials.{potential_of};
ghost use Rattle.dimacs_judging.specs.{Cuts.{members}, Feasible.{value}, FlowJudges.{PassesMaxFlow, PassesMinFlow}};
ghost use Rattle.dimacs_judging.specs.{Flows.{cost, net}, FlowTests.{cost_row, feasible_rows}};
ghost use Rattle.dimacs_judging.specs.inside.Tests.{TestsTotal};

use crate::costs::cost_within;
use crate::feasible::{Demands, balances_if_feasible};
use crate::flow::Flow;
use crate::one_pass::{NoPotentials, totals_if_passed};
use crate::verdict::JudgeError;
use dimacs_claims::{Cut, Potentials};
use dimacs_instance::{MaxInstance, MinInstance};
use dimacs_network::Network;
use std::alloc::Global;

/// Tests the bounds, then the balances, and returns the balance of the source.
pub(crate) fn value_if_feasible<N: Network, D: Demands>(
    alloc: Global,
    network: &N,
    flow: &Flow,
    demands: &D,
    source: u32,
) -> Result<i128, JudgeError>
    requires node_limit { N.node_count network.now ≤ most_nodes }
    requires arc_limit { length (N.list network.now) ≤ most_count }
    requires joined { All (JoinsNodes (N.node_count network.now)) (N.list network.now) }
    requires one_each { length flow.now ≡ length (N.list network.now) }
    ensures { TestsTotal (feasible_rows (N.node_count network.now) (N.list network.now) (D.demand demands.now) flow.now)
        (net (N.list network.now) flow.now source) result }
{
    if let Some(totals) = totals_if_passed(alloc, network, flow, demands, &NoPotentials, source) {
        return Ok(totals.balance);
    }
    let balances = balances_if_feasible(alloc, network, flow, demands)?;
    Ok(balances.of(source))
}

/// Tests the bounds, the balances and the range of the costs, and returns the cost.
pub(crate) fn cost_if_feasible<N: Network, D: Demands>(
    alloc: Global,
    network: &N,
    flow: &Flow,
    demands: &D,
) -> Result<i128, JudgeError>
    requires node_limit { N.node_count network.now ≤ most_nodes }
    requires arc_limit { length (N.list network.now) ≤ most_count }
    requires joined { All (JoinsNodes (N.node_count network.now)) (N.list network.now) }
    requires one_each { length flow.now ≡ length (N.list network.now) }
    ensures { TestsTotal (feasible_rows (N.node_count network.now) (N.list network.now) (D.demand demands.now) flow.now
        ++ cost_row (N.list network.now) flow.now ∷ [])
        (cost (N.list network.now) flow.now) result }
{
    if let Some(totals) = totals_if_passed(alloc, network, flow, demands, &NoPotentials, 0) {
        return Ok(totals.cost);
    }
    balances_if_feasible(alloc, network, flow, demands)?;
    let cost = cost_within(network, flow)?;
    Ok(cost)
}

/// The value of a flow, if one pass shows that it is feasible and the cut tight for it. None tells nothing.
pub fn value_if_shown<N: Network>(
    alloc: Global,
    instance: &MaxInstance<N>,
    flow: &Flow,
    cut: &Cut,
) -> Option<i128>
    requires { length flow.now ≡ length instance.now.arcs }
    ensures { IfSome result (λ total. (total ≡ value instance.now flow.now) × PassesMaxFlow instance.now flow.now (members cut.now)) }
{
    let source = instance.source();
    if !cut.contains(source) {
        return None;
    }
    if cut.contains(instance.sink()) {
        return None;
    }
    let totals = totals_if_passed(alloc, instance.network(), flow, instance, cut, source)?;
    Some(totals.balance)
}

/// The cost of a flow, if one pass shows that it is feasible and the potentials slack for it. None tells nothing.
pub fn cost_if_shown<N: Network>(
    alloc: Global,
    instance: &MinInstance<N>,
    flow: &Flow,
    potentials: &Potentials,
) -> Option<i128>
    requires { length flow.now ≡ length instance.now.arcs }
    ensures { IfSome result (λ total. (total ≡ cost instance.now.arcs flow.now) × PassesMinFlow instance.now flow.now (potential_of potentials.now)) }
{
    let totals = totals_if_passed(alloc, instance.network(), flow, instance, potentials, 0)?;
    Some(totals.cost)
}

//! Cancels a cycle of residual arcs.

ghost use Rattle.std.specs.Prelude.{ℕ, ◌≡◌, ◌≤ℤ◌, ◌<ℤ◌, pos, All, length};
ghost use Rattle.dimacs_instance.specs.MinFlows.{HasBounds};
ghost use Rattle.dimacs_judging.specs.Flows.{cost, net};
ghost use Rattle.dimacs_decide.specs.{Bounds.{KeepsBounds}, inside.Cancelling.{HasCapacityFor}};
ghost use Rattle.dimacs_decide.specs.inside.Cycles.{IsSaving};

use crate::residual_capacity::{residual_capacity_from, send_from};
use dimacs_judging::Flow;
use dimacs_methods::ResidualArc;
use dimacs_network::Network;

#[inline(always)]
fn lesser(a: i64, b: i64) -> i64
    ensures first { result ≤ℤ a }
    ensures second { result ≤ℤ b }
    ensures positive { pos 0 <ℤ a → pos 0 <ℤ b → pos 0 <ℤ result }
{
    if a < b { a } else { b }
}

fn least_residual_capacity<N: Network>(network: &N, cycle: &[ResidualArc], flow: &Flow) -> i64
    requires bounds { All HasBounds (N.list network.now) }
    requires within { KeepsBounds (N.list network.now) flow.now }
    requires cycle { IsSaving (N.list network.now) flow.now cycle.now }
    ensures { HasCapacityFor (N.list network.now) flow.now cycle.now (length cycle.now) result }
{
    let mut least = i64::MAX;
    for j in 0..cycle.len() {
        let residual = cycle[j];
        let residual_capacity = residual_capacity_from(network, flow, residual.side, residual.arc);
        least = lesser(least, residual_capacity);
    }
    least
}

/// Sends as much round a cycle as its residual capacity allows.
pub(crate) fn cancel<N: Network>(network: &N, cycle: &[ResidualArc], flow: &mut Flow)
    requires bounds { All HasBounds (N.list network.now) }
    requires within { KeepsBounds (N.list network.now) flow.old }
    requires cycle { IsSaving (N.list network.now) flow.old cycle.now }
    ensures within { KeepsBounds (N.list network.now) flow.new }
    ensures balances { (v : ℕ) → net (N.list network.now) flow.new v ≡ net (N.list network.now) flow.old v }
    ensures less { cost (N.list network.now) flow.new <ℤ cost (N.list network.now) flow.old }
{
    let amount = least_residual_capacity(network, cycle, flow);
    for j in 0..cycle.len() {
        let residual = cycle[j];
        send_from(residual.side, residual.arc, amount, flow);
    }
}

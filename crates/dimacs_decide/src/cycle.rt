//! Tests cycles of residual arcs, and reads them from the labels of nodes.

ghost use Rattle.std.specs.Prelude.{◌≡◌, ◌≤◌, ◌-◌, IsTrue, All, length, IfOk};
ghost use Rattle.dimacs_lines.specs.Limits.{most_nodes};
ghost use Rattle.dimacs_instance.specs.MinFlows.{HasBounds};
ghost use Rattle.dimacs_network.specs.Tables.{value_of};
ghost use Rattle.dimacs_decide.specs.{Bounds.{KeepsBounds}, inside.Cycles.{IsSaving, LeadsFrom, ending_of}};
ghost use Rattle.dimacs_decide.specs.{inside.Heights.{AreHeights}, inside.Traces.{IsCycle}};

use crate::heights::{HeightLabel, gain};
use crate::residual_capacity::residual_capacity_from;
use dimacs_judging::Flow;
use dimacs_lines::Memory;
use dimacs_methods::ResidualArc;
use dimacs_network::{Network, NodeTable};
use std::alloc::Global;

/// A path of nodes, each raised from the next. Its last node is also at `first`, where the cycle begins.
#[derive(Drop)]
pub(crate) struct Cycle {
    pub path: Vec<u32>,
    pub first: usize,
}

/// Whether any residual arcs form a cycle with residual capacity and negative cost that visits no node twice. Takes
/// memory for its nodes.
pub(crate) fn is_saving<N: Network>(
    alloc: Global,
    network: &N,
    flow: &Flow,
    cycle: &[ResidualArc],
) -> Result<bool, Memory>
    requires node_limit { N.node_count network.now ≤ most_nodes }
    requires bounds { All HasBounds (N.list network.now) }
    requires within { KeepsBounds (N.list network.now) flow.now }
    ensures { IfOk result (λ saving. IsTrue saving → IsSaving (N.list network.now) flow.now cycle.now) }
{
    let count = cycle.len();
    if count == 0 || count > network.nodes() as usize {
        return Ok(false);
    }
    let mut reached = NodeTable::new(alloc, false);
    let mut at = ending(network, cycle[count - 1]);
    let mut saved: i128 = 0;
    for j in 0..count {
        let residual = cycle[j];
        if !leads_from(network, flow, at, residual) {
            return Ok(false);
        }
        at = ending(network, residual);
        if reached.get(at) {
            return Ok(false);
        }
        reached.set(at, true)?;
        saved += gain(residual.side, network.arc(residual.arc));
    }
    Ok(saved > 0)
}

#[inline(always)]
fn leads_from<N: Network>(network: &N, flow: &Flow, from: u32, residual: ResidualArc) -> bool
    requires bounds { All HasBounds (N.list network.now) }
    requires within { KeepsBounds (N.list network.now) flow.now }
    ensures { IsTrue result → LeadsFrom (N.list network.now) flow.now from residual }
{
    if residual.arc >= network.arcs() {
        return false;
    }
    residual.side.end_of(network.arc(residual.arc)) == from
        && residual_capacity_from(network, flow, residual.side, residual.arc) > 0
}

/// The node to which a residual arc leads; 0 if its arc doesn't exist.
#[inline(always)]
fn ending<N: Network>(network: &N, residual: ResidualArc) -> u32
    ensures { result ≡ ending_of (N.list network.now) residual }
{
    if residual.arc >= network.arcs() {
        return 0;
    }
    residual.side.other_end(network.arc(residual.arc))
}

/// The residual arcs by which the nodes of a cycle were raised, in the order of the cycle.
pub(crate) fn raised_along<N: Network>(
    alloc: Global,
    _network: &N,
    _flow: &Flow,
    labels: &NodeTable<HeightLabel>,
    cycle: &Cycle,
) -> Result<Vec<ResidualArc>, Memory>
    requires heights { AreHeights (N.list _network.now) _flow.now (value_of labels.now) }
    requires cycle { IsCycle (N.list _network.now) (value_of labels.now) cycle.now.path.items cycle.now.first (length cycle.now.path.items - 1) }
    ensures { IfOk result (λ residuals. IsSaving (N.list _network.now) _flow.now residuals.items) }
{
    let mut residuals = Vec::new(alloc);
    let last = cycle.path.len() - 1;
    for k in 0..last - cycle.first {
        let label = labels.get(cycle.path[last - k - 1]);
        residuals.push(ResidualArc {
            arc: label.arc_number - 1,
            side: label.side,
        })?;
    }
    Ok(residuals)
}

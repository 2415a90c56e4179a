//! Raises potentials over residual arcs.

ghost use Rattle.std.specs.Prelude.{ℕ, ◌≡◌, ◌<◌, ◌≤◌, ◌+◌, ◌≤ℤ◌, pos, All, length, IfOk, OnOk};
ghost use Rattle.dimacs_lines.specs.Limits.{most_count, most_nodes};
ghost use Rattle.dimacs_network.specs.{declared.network.ArcView.{ArcView}, Arcs.{JoinsNodes}, Tables.{value_of}};
ghost use Rattle.dimacs_network.specs.AdjacencyLists.{end_of, other_end};
ghost use Rattle.dimacs_instance.specs.MinFlows.{HasBounds};
ghost use Rattle.dimacs_records.specs.Ranges.{IsWhole};
ghost use Rattle.dimacs_decide.specs.Bounds.{KeepsBounds};
ghost use Rattle.dimacs_decide.specs.inside.Heights.{AreHeights, BelowBound, IsRound, Lifts, below_of, either_of, gain_at, height_of, unraised};

use crate::residual_capacity::residual_capacity_from;
use dimacs_judging::Flow;
use dimacs_lines::Memory;
use dimacs_network::{ArcView, Network, NodeTable, Side};

/// A node's raised potential, and the residual arc that raised it: the number of its arc, from 1, or 0 for none, and the
/// side from which it leads.
#[derive(Clone, Copy)]
pub(crate) struct HeightLabel {
    pub height: i128,
    pub arc_number: u32,
    pub side: Side,
}

pub(crate) fn unraised_label() -> HeightLabel
    ensures { result ≡ unraised }
{
    HeightLabel {
        height: 0,
        arc_number: 0,
        side: Side::Tail,
    }
}

/// The node from which a label was raised; 0 for none.
#[inline(always)]
pub(crate) fn below<N: Network>(network: &N, label: HeightLabel) -> u32
    requires { label.arc_number ≤ length (N.list network.now) }
    ensures { result ≡ below_of (N.list network.now) label }
{
    if label.arc_number == 0 {
        return 0;
    }
    label.side.end_of(network.arc(label.arc_number - 1))
}

/// What sending one unit along the arc from this side saves.
#[inline(always)]
pub(crate) fn gain(side: Side, arc: ArcView) -> i128
    requires { IsWhole arc.cost }
    ensures { result ≡ gain_at side arc }
{
    match side {
        Side::Tail => -i128::from(arc.cost),
        Side::Head => i128::from(arc.cost),
    }
}

/// Raises the node at the other end of an arc, if there is residual capacity from this side and the node is too low.
/// Returns whether it did.
#[inline(always)]
fn lift<N: Network>(
    network: &N,
    flow: &Flow,
    side: Side,
    parent_arc: u32,
    labels: &mut NodeTable<HeightLabel>,
) -> Result<bool, Memory>
    requires parent_arc { parent_arc < length (N.list network.now) }
    requires arc_limit { length (N.list network.now) ≤ most_count }
    requires bounds { All HasBounds (N.list network.now) }
    requires within { KeepsBounds (N.list network.now) flow.now }
    requires not_negative { (v : ℕ) → pos 0 ≤ℤ height_of (value_of labels.old) v }
    requires bounded { BelowBound 1073741824 (value_of labels.old) }
    ensures { IfOk result (λ lifted. Lifts (N.list network.now) flow.now side parent_arc (value_of labels.old) lifted (value_of labels.new)) }
{
    if residual_capacity_from(network, flow, side, parent_arc) <= 0 {
        return Ok(false);
    }
    let arc = network.arc(parent_arc);
    let to = side.other_end(arc);
    let height = labels.get(side.end_of(arc)).height + gain(side, arc);
    if height <= labels.get(to).height {
        return Ok(false);
    }
    let label = HeightLabel {
        height,
        arc_number: parent_arc + 1,
        side,
    };
    labels.set(to, label)?;
    Ok(true)
}

#[inline(always)]
fn either(changed: bool, forward: bool, backward: bool) -> bool
    ensures { result ≡ either_of changed forward backward }
{
    if forward || backward { true } else { changed }
}

/// Goes over all arcs once, in both directions. Returns whether a node was raised.
pub(crate) fn round<N: Network>(
    network: &N,
    flow: &Flow,
    labels: &mut NodeTable<HeightLabel>,
) -> Result<bool, Memory>
    requires node_limit { N.node_count network.now ≤ most_nodes }
    requires arc_limit { length (N.list network.now) ≤ most_count }
    requires joined { All (JoinsNodes (N.node_count network.now)) (N.list network.now) }
    requires bounds { All HasBounds (N.list network.now) }
    requires within { KeepsBounds (N.list network.now) flow.now }
    requires heights { AreHeights (N.list network.now) flow.now (value_of labels.old) }
    requires bounded { BelowBound (N.node_count network.now + 1) (value_of labels.old) }
    ensures heights { OnOk result (AreHeights (N.list network.now) flow.now (value_of labels.new)) }
    ensures round { IfOk result (λ changed. IsRound (N.node_count network.now) (N.list network.now) flow.now
        (length (N.list network.now)) (value_of labels.old) changed (value_of labels.new)) }
{
    let mut changed = false;
    for i in 0..network.arcs() {
        let forward = lift(network, flow, Side::Tail, i, labels)?;
        let backward = lift(network, flow, Side::Head, i, labels)?;
        changed = either(changed, forward, backward);
    }
    Ok(changed)
}

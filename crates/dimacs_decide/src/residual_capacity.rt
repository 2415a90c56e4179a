//! Residual capacities, and sending flow along residual arcs.

ghost use Rattle.std.specs.Prelude.{◌≡◌, ◌<◌, ◌≤ℤ◌, All, pos, length, set};
ghost use Rattle.dimacs_instance.specs.MinFlows.{HasBounds};
ghost use Rattle.dimacs_records.specs.Ranges.{IsWhole};
ghost use Rattle.dimacs_judging.specs.Rows.{amount_at};
ghost use Rattle.dimacs_decide.specs.Bounds.{KeepsBounds};
ghost use Rattle.dimacs_decide.specs.inside.ResidualCapacities.{carried_after, residual_capacity_at, residual_capacity_on};

use dimacs_judging::Flow;
use dimacs_network::{ArcView, Network, Side};

/// The residual capacity of the arc with this index from this side.
#[inline(always)]
pub(crate) fn residual_capacity_from<N: Network>(
    network: &N,
    flow: &Flow,
    side: Side,
    arc_index: u32,
) -> i64
    requires arc_index { arc_index < length (N.list network.now) }
    requires bounds { All HasBounds (N.list network.now) }
    requires within { KeepsBounds (N.list network.now) flow.now }
    ensures { result ≡ residual_capacity_on (N.list network.now) flow.now side arc_index }
{
    capacity_left(
        side,
        network.arc(arc_index),
        flow.amount(arc_index as usize),
    )
}

#[inline(always)]
fn capacity_left(side: Side, arc: ArcView, amount: i64) -> i64
    requires not_negative { pos 0 ≤ℤ arc.low }
    requires low { arc.low ≤ℤ amount }
    requires high { amount ≤ℤ arc.cap }
    ensures { result ≡ residual_capacity_at side arc amount }
{
    match side {
        Side::Tail => arc.cap - amount,
        Side::Head => amount - arc.low,
    }
}

/// Sends the amount from this side along the arc with this index, from 0.
#[inline(always)]
pub(crate) fn send_from(side: Side, arc_index: u32, amount: i64, flow: &mut Flow)
    requires arc_index { arc_index < length flow.old }
    requires whole { IsWhole (carried_after side amount (amount_at flow.old arc_index)) }
    ensures { flow.new ≡ set flow.old arc_index (carried_after side amount (amount_at flow.old arc_index)) }
{
    let carried = flow.amount(arc_index as usize);
    let carries = match side {
        Side::Tail => carried + amount,
        Side::Head => carried - amount,
    };
    flow.set(arc_index as usize, carries);
}

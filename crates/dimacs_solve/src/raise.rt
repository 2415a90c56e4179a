//! Dealing out what exceeds the lower bounds: the cheapest arcs are filled first.

ghost use Rattle.std.specs.{Prelude.{◌≡◌, ◌<◌, ◌≤ℤ◌, List, length, ℕ, pos}, List.{All}};
ghost use Rattle.dimacs_claims.specs.declared.place.Entry.{Entry};
ghost use Rattle.dimacs_instance.specs.MinFlows.{HasBounds};
ghost use Rattle.dimacs_solve.specs.{inside.ArcsByCost.{AreByCost}, inside.Rests.{AddUp, AreLows, AreRests}};
ghost use Rattle.dimacs_solve.specs.inside.Raised.{AreDealt, AreWithin, IsMore, IsRaised};

use crate::arcs_by_cost::ArcOfCost;
use crate::arcs_by_ends::ArcsByEnds;
use dimacs_network::Network;

/// Raises the arcs in this order, from their lower bounds.
pub(crate) fn raise_all<N: Network>(
    arcs: &ArcsByEnds<'_, N>,
    order: &[ArcOfCost],
    rests: &mut [i128],
    amounts: &mut [i64],
)
    requires bounds { All HasBounds arcs.now }
    requires by_cost { AreByCost arcs.now order.now }
    requires rests { (so_many : ℕ) × AreRests arcs.now so_many rests.old }
    requires lows { AreLows arcs.now (length arcs.now) amounts.old }
    ensures dealt { AreDealt arcs.now rests.new amounts.new }
    ensures sums { (entries : List Entry) → AddUp arcs.now entries rests.old amounts.old → AddUp arcs.now entries rests.new amounts.new }
{
    for place in order {
        raise(arcs, place.arc, rests, amounts);
    }
}

/// Raises an arc by as much of the rest between its ends as its capacity allows.
fn raise<N: Network>(arcs: &ArcsByEnds<'_, N>, arc: u32, rests: &mut [i128], amounts: &mut [i64])
    requires bounds { All HasBounds arcs.now }
    requires known { arc < length arcs.now }
    requires rests { length rests.old ≡ length arcs.now }
    requires amounts { AreWithin arcs.now amounts.old }
    ensures { IsRaised arcs.now arc rests.old amounts.old rests.new amounts.new }
{
    let first = arcs.first_parallel(arc) as usize;
    let residual = arcs.arc(arc).cap - amounts[arc as usize];
    let more = more_of(rests[first], residual);
    rests[first] -= i128::from(more);
    amounts[arc as usize] += more;
}

/// The part of a rest that fits the residual capacity; 0 if the rest is negative.
fn more_of(rest: i128, residual: i64) -> i64
    requires { pos 0 ≤ℤ residual }
    ensures { IsMore rest residual result }
{
    if rest < 0 {
        0
    } else if rest < i128::from(residual) {
        rest as i64
    } else {
        residual
    }
}

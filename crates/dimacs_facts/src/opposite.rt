//! That potentials of the opposite sign show that a flow costs least.

ghost use Rattle.std.specs.Prelude.{◌≡◌, ◌<ℤ◌, IsTrue, length, neg_ℤ, pos};
ghost use Rattle.dimacs_claims.specs.Potentials.{potential_of};
ghost use Rattle.dimacs_facts.specs.Facts.{OppositeShows};
ghost use Rattle.dimacs_judging.specs.Potentials as theory;
ghost use Rattle.dimacs_judging.specs.Potentials.{Slack};

use dimacs_claims::Potentials;
use dimacs_instance::MinInstance;
use dimacs_judging::{Flow, feasible_min};
use dimacs_network::{ArcView, Network};
use std::alloc::Global;

/// Whether potentials of the opposite sign show that the flow costs least. False if memory runs out.
pub fn opposite_shows<N: Network>(
    alloc: Global,
    min: &MinInstance<N>,
    flow: &Flow,
    potentials: &Potentials,
) -> bool
    ensures { IsTrue result → OppositeShows min.now flow.now potentials.now }
{
    let network = min.network();
    if flow.len() != network.arcs() as usize {
        return false;
    }
    match feasible_min(alloc, min, flow) {
        Ok(()) => are_opposite(network, flow, potentials),
        Err(_) => false,
    }
}

/// Whether potentials of the opposite sign are slack for the flow.
fn are_opposite<N: Network>(network: &N, flow: &Flow, potentials: &Potentials) -> bool
    requires { length flow.now ≡ length (N.list network.now) }
    ensures { IsTrue result → Slack (N.list network.now) flow.now (λ v. neg_ℤ (potential_of potentials.now v)) }
{
    for i in 0..network.arcs() {
        let arc = network.arc(i);
        if !is_paid(opposite_cost(arc, potentials), arc, flow.amount(i as usize)) {
            return false;
        }
    }
    true
}

/// The reduced cost of an arc by potentials of the opposite sign.
fn opposite_cost(arc: ArcView, potentials: &Potentials) -> i128
    ensures { result ≡ theory.reduced_cost (λ v. neg_ℤ (potential_of potentials.now v)) arc }
{
    i128::from(arc.cost) - potentials.of(arc.head) + potentials.of(arc.tail)
}

/// Whether the amount is the bound at which this reduced cost is paid least.
fn is_paid(reduced: i128, arc: ArcView, amount: i64) -> bool
    ensures { IsTrue result → (pos 0 <ℤ reduced → amount ≡ arc.low) × (reduced <ℤ pos 0 → amount ≡ arc.cap) }
{
    if reduced > 0 {
        amount == arc.low
    } else if reduced < 0 {
        amount == arc.cap
    } else {
        true
    }
}

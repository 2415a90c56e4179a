//! Whether walks are the lightest.

ghost use Rattle.std.specs.Prelude.{◌≡◌, ◌+ℤ◌, ◌≤ℤ◌, ℤ, Some, IfSome, IsTrue, pos};
ghost use Rattle.dimacs_facts.specs.{declared.walks.Walk.{Walk}, inside.Arcs.{IsEased}, Walks.{AreLeast}};
ghost use Rattle.std.specs.FinMap as map;

use crate::walks::Walk;
use dimacs_network::{ArcView, Network, NodeMap};

/// Whether no walk from the source weighs less than the one to its end here.
pub(crate) fn are_least<N: Network>(network: &N, walks: &NodeMap<Walk>, source: u32) -> bool
    ensures { IsTrue result → AreLeast (N.list network.now) source walks.now }
{
    if !begin_light(walks, source) {
        return false;
    }
    for i in 0..network.arcs() {
        if !is_eased(walks, network.arc(i)) {
            return false;
        }
    }
    true
}

/// Whether there is one to the source itself, and it weighs 0 or less.
fn begin_light(walks: &NodeMap<Walk>, source: u32) -> bool
    ensures { IsTrue result → (w : Walk) × (map.get walks.now source ≡ Some w) × (w.weight ≤ℤ pos 0) }
{
    match walks.get(source) {
        Some(start) => start.weight <= 0,
        None => false,
    }
}

/// Whether the arc makes no walk lighter. False if a sum doesn't fit 128 bits.
fn is_eased(walks: &NodeMap<Walk>, arc: ArcView) -> bool
    ensures { IsTrue result → IsEased walks.now arc }
{
    let Some(tail) = walks.get(arc.tail) else {
        return true;
    };
    leads_within(walks, arc.head, with_arc(tail, arc))
}

/// Whether there is one to this node, and it weighs no more than this.
fn leads_within(walks: &NodeMap<Walk>, node: u32, weight: Option<i128>) -> bool
    ensures { IsTrue result → (w : Walk) × (map.get walks.now node ≡ Some w) × ((z : ℤ) × (weight ≡ Some z) × (w.weight ≤ℤ z)) }
{
    match (walks.get(node), weight) {
        (Some(walk), Some(weight)) => walk.weight <= weight,
        _ => false,
    }
}

/// The weight of a walk with one more arc, if it fits 128 bits.
pub(crate) fn with_arc(walk: Walk, arc: ArcView) -> Option<i128>
    ensures { IfSome result (λ weight. weight ≡ (walk.weight +ℤ arc.cost)) }
{
    walk.weight.checked_add(i128::from(arc.cost))
}

//! Cycles of negative weight.

ghost use Rattle.std.specs.Prelude.{◌≡◌, ◌<ℤ◌, ℕ, IfSome, IsTrue, pos};
ghost use Rattle.dimacs_facts.specs.{Cycles.{HasNegativeCycle}, inside.Arcs.{IsStep}, Walks.{AreWalksFrom}};

use crate::walks::{Walk, Walks};
use dimacs_lines::Memory;
use dimacs_network::{ArcView, Network, NodeMap};
use std::alloc::Global;

/// The last arc of the walk to a node, with its index; none if it has no arc.
fn last_arc<N: Network>(network: &N, walks: &NodeMap<Walk>, node: u32) -> Option<(u32, ArcView)> {
    let index = walks.get(node)?.last?;
    if index >= network.arcs() {
        return None;
    }
    Some((index, network.arc(index)))
}

/// The node that is reached from this one by as many steps back along last arcs; none if a walk without arcs comes before.
pub(crate) fn far_back<N: Network>(
    network: &N,
    walks: &NodeMap<Walk>,
    node: Option<u32>,
    steps: u32,
) -> Option<u32> {
    let mut at = node?;
    for _ in 0..steps {
        let (_, arc) = last_arc(network, walks, at)?;
        at = arc.tail;
    }
    Some(at)
}

impl Walks {
    /// The indices of the arcs of a cycle that was found, one after the other; none without one.
    pub fn cycle<N: Network>(&self, alloc: Global, network: &N) -> Result<Vec<u32>, Memory> {
        let mut cycle = Vec::new(alloc);
        let Some(start) = self.on_cycle else {
            return Ok(cycle);
        };
        let mut at = start;
        for _ in 0..network.arcs() {
            let Some((index, arc)) = last_arc(network, &self.by_node, at) else {
                break;
            };
            cycle.push(index)?;
            at = arc.tail;
            if at == start {
                break;
            }
        }
        cycle.reverse();
        Ok(cycle)
    }
}

/// Whether the arcs at these indices, one after the other, are a cycle that a walk reaches and that weighs less than 0.
/// False if a sum doesn't fit 128 bits.
pub fn is_negative_cycle<N: Network>(network: &N, walks: &Walks, cycle: &[u32]) -> bool
    ensures { (s : ℕ) → AreWalksFrom (N.list network.now) s walks.now → IsTrue result → HasNegativeCycle (N.list network.now) s }
{
    let start = tail_of_first(network, cycle);
    let (mut at, mut sum) = (start, 0i128);
    for index in cycle {
        let Some(next) = along(network, *index, at, sum) else {
            return false;
        };
        (at, sum) = next;
    }
    is_back(at, start, sum) && walks.lead_to(start)
}

/// Whether a walk from the node led back to it, and weighs less than 0.
fn is_back(at: u32, start: u32, sum: i128) -> bool
    ensures { IsTrue result → (at ≡ start) × (sum <ℤ pos 0) }
{
    at == start && sum < 0
}

fn tail_of_first<N: Network>(network: &N, cycle: &[u32]) -> u32 {
    match cycle.first() {
        Some(first) if *first < network.arcs() => network.arc(*first).tail,
        _ => 0,
    }
}

/// The end of the walk to this node, of this weight, with the arc of this index, and its weight; none if the arc doesn't
/// leave the node.
fn along<N: Network>(network: &N, index: u32, at: u32, sum: i128) -> Option<(u32, i128)>
    ensures { IfSome result (λ next. IsStep (N.list network.now) at sum next.0 next.1) }
{
    if index >= network.arcs() {
        return None;
    }
    let arc = network.arc(index);
    if arc.tail != at {
        return None;
    }
    let sum = sum.checked_add(i128::from(arc.cost))?;
    Some((arc.head, sum))
}

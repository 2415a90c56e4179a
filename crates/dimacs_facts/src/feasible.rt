//! What a feasible flow is worth.

ghost use Rattle.std.specs.Prelude.{◌≡◌, ◌+ℤ◌, ◌<ℤ◌, IfSome, pos};
ghost use Rattle.dimacs_facts.specs.Facts.{HasCost, HasValue};

use crate::sums::{cost_of, flow_value};
use dimacs_instance::{MaxInstance, MinInstance};
use dimacs_judging::{Flow, feasible_max, feasible_min};
use dimacs_network::Network;
use std::alloc::Global;

/// The value of a feasible flow; none if it isn't feasible, or memory runs out.
pub fn feasible_value<N: Network>(alloc: Global, max: &MaxInstance<N>, flow: &Flow) -> Option<i128>
    ensures { IfSome result (HasValue max.now flow.now) }
{
    if flow.len() != max.network().arcs() as usize {
        return None;
    }
    match feasible_max(alloc, max, flow) {
        Ok(()) => flow_value(max, flow),
        Err(_) => None,
    }
}

/// The cost of a feasible flow; none if it isn't feasible, memory runs out, or the sum leaves its range.
pub fn feasible_cost<N: Network>(alloc: Global, min: &MinInstance<N>, flow: &Flow) -> Option<i128>
    ensures { IfSome result (HasCost min.now flow.now) }
{
    if flow.len() != min.network().arcs() as usize {
        return None;
    }
    match feasible_min(alloc, min, flow) {
        Ok(()) => cost_of(min.network(), flow),
        Err(_) => None,
    }
}

/// How much more one number is than another; none if it isn't more.
pub fn excess(one: i128, other: i128) -> Option<i128>
    ensures { IfSome result (λ more. (pos 0 <ℤ more) × (one ≡ (other +ℤ more))) }
{
    let more = one.checked_sub(other)?;
    if more > 0 { Some(more) } else { None }
}

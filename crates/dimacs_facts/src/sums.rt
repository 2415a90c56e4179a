//! The cost and the value of a flow.

ghost use Rattle.std.specs.Prelude.{◌≡◌, IfSome};
ghost use Rattle.dimacs_judging.specs.{Feasible.{value}, Flows.{cost}};

use dimacs_instance::MaxInstance;
use dimacs_judging::{Flow, cost_within, value_of};
use dimacs_network::Network;

/// The cost of a flow; none if the sum leaves its range, or the flow has no amount for each arc.
pub fn cost_of<N: Network>(network: &N, flow: &Flow) -> Option<i128>
    ensures { IfSome result (λ sum. sum ≡ cost (N.list network.now) flow.now) }
{
    if flow.len() != network.arcs() as usize {
        return None;
    }
    match cost_within(network, flow) {
        Ok(sum) => Some(sum),
        Err(_) => None,
    }
}

/// The value of a flow; none if it has no amount for each arc.
pub fn flow_value<N: Network>(max: &MaxInstance<N>, flow: &Flow) -> Option<i128>
    ensures { IfSome result (λ sum. sum ≡ value max.now flow.now) }
{
    if flow.len() != max.network().arcs() as usize {
        return None;
    }
    Some(value_of(max, flow))
}

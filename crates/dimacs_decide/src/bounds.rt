//! Whether a flow keeps the bounds of the arcs.

ghost use Rattle.std.specs.Prelude.{◌↔◌, IsTrue};
ghost use Rattle.dimacs_decide.specs.Bounds.{KeepsBounds};

use dimacs_judging::{Flow, bounds_hold};
use dimacs_network::Network;

/// Whether a flow has exactly one amount for each arc, from its lower bound to its capacity.
pub fn keeps_bounds<N: Network>(network: &N, flow: &Flow) -> bool
    ensures { IsTrue result ↔ KeepsBounds (N.list network.now) flow.now }
{
    if flow.len() != network.arcs() as usize {
        return false;
    }
    match bounds_hold(network, flow) {
        Ok(()) => true,
        Err(_) => false,
    }
}

//! Improving a flow by a heuristic.

ghost use Rattle.std.specs.Prelude.{◌≡◌, ◌<ℤ◌, ◌≤ℤ◌, length, IfSome, IsTrue};
ghost use Rattle.dimacs_judging.specs.Feasible.{FeasibleMax, value};

use dimacs_claims::Cut;
use dimacs_instance::MaxInstance;
use dimacs_judging::{Flow, feasible_max, value_of};
use dimacs_methods::raise_value;
use dimacs_network::Network;
use std::alloc::Global;

/// A flow, and a cut that may be tight for it.
#[derive(Drop)]
pub(crate) struct Candidate {
    pub flow: Flow,
    pub cut: Cut,
}

/// Returns a feasible flow with at least the value of this one. The preflow method proposes it. If that fails the test,
/// or memory runs out, the flow itself is returned.
pub fn improve_max<N: Network>(alloc: Global, instance: &MaxInstance<N>, flow: Flow) -> Flow
    requires { FeasibleMax instance.now flow }
    ensures feasible { FeasibleMax instance.now result }
    ensures value { value instance.now flow ≤ℤ value instance.now result }
{
    match raise(alloc, instance, &flow) {
        Some(raised) => raised.flow,
        None => flow,
    }
}

/// Looks for a feasible flow with a greater value. The preflow method proposes it. None if that fails the test, or memory
/// runs out.
pub(crate) fn raise<N: Network>(
    alloc: Global,
    instance: &MaxInstance<N>,
    flow: &Flow,
) -> Option<Candidate>
    requires { FeasibleMax instance.now flow.now }
    ensures feasible { IfSome result (λ raised. FeasibleMax instance.now raised.flow) }
    ensures value { IfSome result (λ raised. value instance.now flow.now <ℤ value instance.now raised.flow) }
{
    let proposed = raise_value(alloc, instance, flow.amounts()).ok()?;
    let raised = Candidate {
        flow: Flow::from_vec(proposed.amounts),
        cut: proposed.cut,
    };
    if is_better(alloc, instance, flow, &raised.flow) {
        Some(raised)
    } else {
        None
    }
}

/// False, too, if there is no memory for the test.
fn is_better<N: Network>(
    alloc: Global,
    instance: &MaxInstance<N>,
    flow: &Flow,
    other: &Flow,
) -> bool
    requires { length flow.now ≡ length instance.now.arcs }
    ensures { IsTrue result → FeasibleMax instance.now other.now × (value instance.now flow.now <ℤ value instance.now other.now) }
{
    if other.len() != instance.network().arcs() as usize {
        return false;
    }
    match feasible_max(alloc, instance, other) {
        Ok(()) => value_of(instance, flow) < value_of(instance, other),
        Err(_) => false,
    }
}

//! The end of a descent in one step, by a heuristic.

ghost use Rattle.std.specs.Prelude.{◌<◌, ℕ, IfOk, IfSome};
ghost use Rattle.dimacs_decide.specs.Bounds.{KeepsBounds};
ghost use Rattle.dimacs_solve.specs.Descending.{Descends};

use crate::answer::MinFlowAnswer;
use crate::question::{Reply, ask};
use dimacs_claims::Potentials;
use dimacs_decide::keeps_bounds;
use dimacs_instance::MinInstance;
use dimacs_judging::Flow;
use dimacs_lines::Memory;
use dimacs_methods::make_least_flow;
use dimacs_network::Network;
use std::alloc::Global;

/// None if the heuristic's flow is neither least nor shows that no flow is feasible.
pub(crate) fn jump<N: Network>(
    alloc: Global,
    instance: &MinInstance<N>,
) -> Result<Option<MinFlowAnswer>, Memory>
    ensures { IfOk result (λ found. IfSome found (λ end. (limit : ℕ) → 0 < limit → Descends instance.now limit end)) }
{
    let least_flow = make_least_flow(alloc, instance)?;
    let flow = Flow::from_vec(least_flow.amounts);
    if !keeps_bounds(instance.network(), &flow) {
        return Ok(None);
    }
    end_at(alloc, instance, flow, least_flow.potentials)
}

/// The end of the descent, if the reply about this flow is one.
fn end_at<N: Network>(
    alloc: Global,
    instance: &MinInstance<N>,
    flow: Flow,
    potentials: Potentials,
) -> Result<Option<MinFlowAnswer>, Memory>
    requires { KeepsBounds instance.now.arcs flow }
    ensures { IfOk result (λ found. IfSome found (λ end. (limit : ℕ) → 0 < limit → Descends instance.now limit end)) }
{
    match ask(alloc, instance, &flow, potentials)? {
        Reply::Optimal(slack) => Ok(Some(MinFlowAnswer::Optimal(flow, slack))),
        Reply::Infeasible(set) => Ok(Some(MinFlowAnswer::Infeasible(set))),
        Reply::Better(_better) => Ok(None),
    }
}

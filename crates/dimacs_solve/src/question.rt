//! Tests whether a flow within its bounds costs least: first whether it is feasible, then whether a feasible flow costs
//! less.

ghost use Rattle.std.specs.Prelude.{IfOk};
ghost use Rattle.dimacs_judging.specs.Feasible.{FeasibleMin};
ghost use Rattle.dimacs_decide.specs.{Bounds.{KeepsBounds}, FeasibilityDecision.{DecidesFeasible}};
ghost use Rattle.dimacs_decide.specs.Incidence.{IsIncidenceOf};
ghost use Rattle.dimacs_solve.specs.inside.Descending.{IsReply};

use dimacs_claims::{Cut, Potentials};
use dimacs_decide::{
    FeasibilityDecision, Incidence, MinDecision, decide_feasible, decide_feasible_over,
    decide_min_from,
};
use dimacs_instance::MinInstance;
use dimacs_judging::Flow;
use dimacs_lines::Memory;
use dimacs_network::Network;
use std::alloc::Global;

/// The reply about a flow within its bounds.
#[derive(Drop)]
pub(crate) enum Reply {
    /// It costs least; the potentials show it.
    Optimal(Potentials),
    /// No flow is feasible; the set shows it.
    Infeasible(Cut),
    /// It isn't least; this flow is better.
    Better(Flow),
}

/// `potentials` are a hint, used if the flow is feasible: good ones make the test fast.
pub(crate) fn ask<N: Network>(
    alloc: Global,
    instance: &MinInstance<N>,
    flow: &Flow,
    potentials: Potentials,
) -> Result<Reply, Memory>
    requires { KeepsBounds instance.now.arcs flow.now }
    ensures { IfOk result (IsReply instance.now flow.now) }
{
    let decision = decide_feasible(alloc, instance, flow)?;
    reply_to(alloc, instance, flow, decision, potentials)
}

/// `incidence` has the arcs of the network by their ends; several questions can share it.
pub(crate) fn ask_over<N: Network>(
    alloc: Global,
    instance: &MinInstance<N>,
    incidence: &Incidence,
    flow: &Flow,
) -> Result<Reply, Memory>
    requires within { KeepsBounds instance.now.arcs flow.now }
    requires incidence { IsIncidenceOf instance.now.arcs incidence.now }
    ensures { IfOk result (IsReply instance.now flow.now) }
{
    let decision = decide_feasible_over(alloc, instance, incidence, flow)?;
    let nothing_known = Potentials::new(alloc, instance.network().nodes());
    reply_to(alloc, instance, flow, decision, nothing_known)
}

/// The reply, once it is known whether the flow is feasible.
fn reply_to<N: Network>(
    alloc: Global,
    instance: &MinInstance<N>,
    flow: &Flow,
    decision: FeasibilityDecision,
    potentials: Potentials,
) -> Result<Reply, Memory>
    requires { DecidesFeasible instance.now flow.now decision }
    ensures { IfOk result (IsReply instance.now flow.now) }
{
    match decision {
        FeasibilityDecision::Balanced => ask_cost(alloc, instance, flow, potentials),
        FeasibilityDecision::Infeasible(set) => Ok(Reply::Infeasible(set)),
        FeasibilityDecision::LessExcess(nearer) => Ok(Reply::Better(nearer)),
    }
}

fn ask_cost<N: Network>(
    alloc: Global,
    instance: &MinInstance<N>,
    flow: &Flow,
    potentials: Potentials,
) -> Result<Reply, Memory>
    requires { FeasibleMin instance.now flow.now }
    ensures { IfOk result (IsReply instance.now flow.now) }
{
    match decide_min_from(alloc, instance, flow, potentials)? {
        MinDecision::Optimal(slack) => Ok(Reply::Optimal(slack)),
        MinDecision::Better(cheaper) => Ok(Reply::Better(cheaper)),
    }
}

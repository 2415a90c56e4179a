//! Decides whether an instance has a feasible flow, by flows of less and less excess.

ghost use Rattle.std.specs.Prelude.{◌≡◌, ◌≤ℤ◌, map, IfOk, IsTrue};
ghost use Rattle.dimacs_network.specs.declared.network.ArcView.{ArcView};
ghost use Rattle.dimacs_decide.specs.{Bounds.{KeepsBounds}, Feasibility.{DecidesInfeasible}};
ghost use Rattle.dimacs_decide.specs.FeasibilityDecision as theory;

use crate::bounds::keeps_bounds;
use crate::excess::total_excess;
use crate::feasible::{FeasibilityDecision, decide_feasible};
use dimacs_claims::Cut;
use dimacs_instance::MinInstance;
use dimacs_judging::Flow;
use dimacs_lines::Memory;
use dimacs_methods::send_excess;
use dimacs_network::Network;
use std::alloc::Global;

/// Whether an instance has a feasible flow.
#[derive(Drop)]
pub enum Feasibility {
    /// No flow is feasible; this violated set shows it.
    Infeasible(Cut),
    /// This flow is feasible.
    Feasible(Flow),
}

/// Decides whether no flow is feasible, and never gives up: it calls `decide_feasible` for flows of less and less
/// excess, until one call decides. Usually the first does.
pub fn decide_infeasible<N: Network>(
    alloc: Global,
    instance: &MinInstance<N>,
) -> Result<Feasibility, Memory>
    ensures { IfOk result (DecidesInfeasible instance.now) }
{
    let mut flow = start_flow(alloc, instance)?;
    loop {
        match decide_feasible(alloc, instance, &flow)? {
            FeasibilityDecision::Balanced => return Ok(Feasibility::Feasible(flow)),
            FeasibilityDecision::Infeasible(set) => return Ok(Feasibility::Infeasible(set)),
            FeasibilityDecision::LessExcess(nearer) => flow = sent_on(alloc, instance, nearer)?,
        }
    }
}

/// What the preflow method makes of the lower bounds, if that keeps the bounds; otherwise the lower bounds.
fn start_flow<N: Network>(alloc: Global, instance: &MinInstance<N>) -> Result<Flow, Memory>
    ensures { IfOk result (KeepsBounds instance.now.arcs) }
{
    let lowest = lower_bounds(alloc, instance.network())?;
    let other = Flow::from_vec(send_excess(alloc, instance, lowest.amounts())?);
    if keeps_bounds(instance.network(), &other) {
        return Ok(other);
    }
    Ok(lowest)
}

fn lower_bounds<N: Network>(alloc: Global, network: &N) -> Result<Flow, Memory>
    ensures { IfOk result (λ flow. flow ≡ map (λ (a : ArcView). a.low) (N.list network.now)) }
{
    let mut amounts = Vec::with_capacity(alloc, network.arcs() as usize)?;
    for i in 0..network.arcs() {
        amounts.push(network.arc(i).low)?;
    }
    Ok(Flow::from_vec(amounts))
}

/// What the preflow method makes of a flow, if that keeps the bounds and leaves no more excess; otherwise the flow
/// itself.
fn sent_on<N: Network>(alloc: Global, instance: &MinInstance<N>, flow: Flow) -> Result<Flow, Memory>
    requires { KeepsBounds instance.now.arcs flow }
    ensures bounds { IfOk result (KeepsBounds instance.now.arcs) }
    ensures excess { IfOk result (λ other. theory.total_excess instance.now other ≤ℤ theory.total_excess instance.now flow) }
{
    let other = Flow::from_vec(send_excess(alloc, instance, flow.amounts())?);
    if keeps_bounds(instance.network(), &other) && leaves_no_more(alloc, instance, &flow, &other)? {
        return Ok(other);
    }
    Ok(flow)
}

fn leaves_no_more<N: Network>(
    alloc: Global,
    instance: &MinInstance<N>,
    flow: &Flow,
    other: &Flow,
) -> Result<bool, Memory>
    requires flow { KeepsBounds instance.now.arcs flow.now }
    requires other { KeepsBounds instance.now.arcs other.now }
    ensures { IfOk result (λ less. IsTrue less → theory.total_excess instance.now other.now ≤ℤ theory.total_excess instance.now flow.now) }
{
    let before = total_excess(alloc, instance, flow)?;
    let after = total_excess(alloc, instance, other)?;
    Ok(after <= before)
}

//! Minimum cost flow by successive improvements.

ghost use Rattle.std.specs.Prelude.{◌≡◌, IfOk};
ghost use Rattle.dimacs_solve.specs.Descending.{start_amount, start_flow, Descends};

use crate::answer::MinFlowAnswer;
use crate::jump::jump;
use crate::question::{Reply, ask_over};
use dimacs_decide::Incidence;
use dimacs_instance::MinInstance;
use dimacs_judging::Flow;
use dimacs_lines::Memory;
use dimacs_network::{ArcView, Network};
use std::alloc::Global;

/// Goes from the start flow to a flow of least cost. If `limit` allows a step, a heuristic comes first, which may get
/// there in one.
pub fn solve_min_flow<N: Network>(
    alloc: Global,
    instance: &MinInstance<N>,
    limit: u64,
) -> Result<MinFlowAnswer, Memory>
    ensures { IfOk result (Descends instance.now limit) }
{
    if limit > 0 {
        if let Some(end) = jump(alloc, instance)? {
            return Ok(end);
        }
    }
    descend_by_steps(alloc, instance, limit)
}

/// Goes from the start flow to better flows until one is least, in at most `limit` steps.
fn descend_by_steps<N: Network>(
    alloc: Global,
    instance: &MinInstance<N>,
    limit: u64,
) -> Result<MinFlowAnswer, Memory>
    ensures { IfOk result (Descends instance.now limit) }
{
    let network = instance.network();
    let incidence = Incidence::new(alloc, network)?;
    let mut flow = make_start_flow(alloc, network)?;
    for _step in 0..limit {
        match ask_over(alloc, instance, &incidence, &flow)? {
            Reply::Optimal(slack) => return Ok(MinFlowAnswer::Optimal(flow, slack)),
            Reply::Infeasible(set) => return Ok(MinFlowAnswer::Infeasible(set)),
            Reply::Better(better) => flow = better,
        }
    }
    match ask_over(alloc, instance, &incidence, &flow)? {
        Reply::Optimal(slack) => Ok(MinFlowAnswer::Optimal(flow, slack)),
        Reply::Infeasible(set) => Ok(MinFlowAnswer::Infeasible(set)),
        Reply::Better(_better) => Ok(MinFlowAnswer::GaveUp),
    }
}

fn make_start_flow<N: Network>(alloc: Global, network: &N) -> Result<Flow, Memory>
    ensures { IfOk result (λ flow. flow ≡ start_flow (N.list network.now)) }
{
    let mut flow = Flow::zero(alloc, network.arcs())?;
    for i in 0..network.arcs() {
        flow.set(i as usize, start_amount_on(network.arc(i)));
    }
    Ok(flow)
}

fn start_amount_on(arc: ArcView) -> i64
    ensures { result ≡ start_amount arc }
{
    if arc.cost < 0 { arc.cap } else { arc.low }
}

//! Maximum flow by successive improvements.

ghost use Rattle.std.specs.Prelude.{IfOk};
ghost use Rattle.dimacs_solve.specs.Climbing.{Climbs};

use crate::answer::MaxFlowAnswer;
use crate::improve::raise;
use dimacs_claims::Cut;
use dimacs_decide::{MaxDecision, decide_max, shows_maximum};
use dimacs_instance::MaxInstance;
use dimacs_judging::Flow;
use dimacs_lines::Memory;
use dimacs_network::Network;
use std::alloc::Global;

/// Starts at the zero flow, and goes to flows of greater value until one is maximum. At most `limit` flows are tested:
/// first by the last cut that a heuristic made. If that isn't tight, the heuristic looks for a greater value. If it finds
/// none, `decide_max` decides.
pub fn solve_max_flow<N: Network>(
    alloc: Global,
    instance: &MaxInstance<N>,
    limit: u64,
) -> Result<MaxFlowAnswer, Memory>
    ensures { IfOk result (Climbs instance.now limit) }
{
    let network = instance.network();
    let mut flow = Flow::zero(alloc, network.arcs())?;
    let mut cut = Cut::new(alloc, network.nodes());
    for _turn in 0..limit {
        if shows_maximum(instance, &flow, &cut) {
            return Ok(MaxFlowAnswer::Optimal(flow, cut));
        }
        if let Some(raised) = raise(alloc, instance, &flow) {
            flow = raised.flow;
            cut = raised.cut;
        } else {
            match decide_max(alloc, instance, &flow)? {
                MaxDecision::Optimal(cut) => return Ok(MaxFlowAnswer::Optimal(flow, cut)),
                MaxDecision::Better(better) => flow = better,
            }
        }
    }
    Ok(MaxFlowAnswer::GaveUp)
}

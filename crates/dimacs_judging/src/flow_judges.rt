//! Judging a flow itself, without a solution and its claimed value.

ghost use Rattle.std.specs.Prelude.{◌≡◌, length};
ghost use Rattle.dimacs_claims.specs.Potentials.{potential_of};
ghost use Rattle.dimacs_judging.specs.{declared.verdict.Verdict.TheVariants.{Max, Min}, Cuts.{members}, Flows.{cost}};
ghost use Rattle.dimacs_judging.specs.{Feasible.{value}, Tests.{Judges}};
ghost use Rattle.dimacs_judging.specs.FlowJudges.{ShowsMaxFlow, ShowsMinFlow, max_flow_rows, min_flow_rows};

use crate::cuts::cut_tests;
use crate::flow::Flow;
use crate::potentials::slack_tests;
use crate::totals::{cost_if_feasible, cost_if_shown, value_if_feasible, value_if_shown};
use crate::verdict::{JudgeError, Verdict};
use dimacs_claims::{Cut, Potentials};
use dimacs_instance::{MaxInstance, MinInstance};
use dimacs_network::Network;
use std::alloc::Global;

/// Judges by a cut whether a flow is maximum. `Max`, with its value, means that it is feasible, and that no feasible
/// flow of whole numbers has a greater value. `Memory` if there is none for a table of the nodes that have arcs.
///
/// The tests in order: those of `feasible_max`; those of `cut_tests`.
pub fn judge_max_flow<N: Network>(
    alloc: Global,
    instance: &MaxInstance<N>,
    flow: &Flow,
    cut: &Cut,
) -> Result<Verdict, JudgeError>
    requires { length flow.now ≡ length instance.now.arcs }
    ensures { Judges (max_flow_rows instance.now flow.now (members cut.now))
        (ShowsMaxFlow instance.now flow.now (members cut.now)) (λ verdict. verdict ≡ Max (value instance.now flow.now))
        result }
{
    let network = instance.network();
    if let Some(value) = value_if_shown(alloc, instance, flow, cut) {
        return Ok(Verdict::Max(value));
    }
    let value = value_if_feasible(alloc, network, flow, instance, instance.source())?;
    cut_tests(instance, flow, cut)?;
    Ok(Verdict::Max(value))
}

/// Judges by potentials whether a flow costs least. `Min`, with its cost, means that it is feasible, and that no
/// feasible flow of whole numbers costs less. `Memory` if there is none for a table of the nodes that have arcs.
///
/// The tests in order: those of `feasible_min`; `CostRange` at each arc if the sum of the costs up to it is outside
/// -10^30 to 10^30; those of `slack_tests`.
pub fn judge_min_flow<N: Network>(
    alloc: Global,
    instance: &MinInstance<N>,
    flow: &Flow,
    potentials: &Potentials,
) -> Result<Verdict, JudgeError>
    requires { length flow.now ≡ length instance.now.arcs }
    ensures { Judges (min_flow_rows instance.now flow.now (potential_of potentials.now))
        (ShowsMinFlow instance.now flow.now (potential_of potentials.now))
        (λ verdict. verdict ≡ Min (cost instance.now.arcs flow.now)) result }
{
    let network = instance.network();
    if let Some(cost) = cost_if_shown(alloc, instance, flow, potentials) {
        return Ok(Verdict::Min(cost));
    }
    let cost = cost_if_feasible(alloc, network, flow, instance)?;
    slack_tests(instance, flow, potentials)?;
    Ok(Verdict::Min(cost))
}

//! The tests of a claimed flow of least cost, before the potentials or with them in one pass.

ghost use Rattle.std.specs.Prelude.{◌≡◌, IfErr, IfOk, IfSome, Ok};
ghost use Rattle.dimacs_claims.specs.SolutionTexts.{SolutionValue};
ghost use Rattle.dimacs_judging.specs.{declared.verdict.Verdict.TheVariants.{Min}, Feasible.{FeasibleMin}};
ghost use Rattle.dimacs_judging.specs.{MinJudge.{IsMinClaim, ShowsLeast, min_claim_rows, min_rows}, Places.{StandsFor}};
ghost use Rattle.dimacs_judging.specs.Tests.{Judges, Refutes};

use crate::agreement::{nodes_agree, value_agrees};
use crate::flow::Flow;
use crate::places::FlowPlaces;
use crate::totals::{cost_if_feasible, cost_if_shown};
use crate::verdict::{JudgeError, Verdict};
use dimacs_claims::{Placed, Potentials};
use dimacs_instance::MinInstance;
use dimacs_network::Network;
use std::alloc::Global;

/// Makes the tests of `judge_min` before those of the potentials: entries, bounds, balances, range of the costs, cost.
/// Returns the claimed flow.
pub fn min_claim_tests<'a, N: Network>(
    alloc: Global,
    instance: &MinInstance<N>,
    placed: &'a Placed<FlowPlaces<'_, N>>,
) -> Result<&'a Flow, JudgeError>
    requires network { placed.now.place.arcs ≡ instance.now.arcs }
    ensures feasible { IfOk result (λ flow. FeasibleMin instance.now flow.now) }
    ensures claim { IfOk result (λ flow. (s : SolutionValue) → StandsFor placed.now s
        → IsMinClaim instance.now s flow.now) }
    ensures refuted { IfErr result (λ error. (s : SolutionValue) → StandsFor placed.now s
        → Refutes (IsMinClaim instance.now s) (min_claim_rows instance.now s) error) }
{
    let network = instance.network();
    let flow = placed.place.flow()?;
    let cost = cost_if_feasible(alloc, network, flow, instance)?;
    value_agrees(cost, placed)?;
    Ok(flow)
}

/// Makes all tests of `judge_min` in one pass over the arcs. None if one fails, a number is too large or there is no
/// memory.
pub(crate) fn min_in_one_pass<N: Network>(
    alloc: Global,
    instance: &MinInstance<N>,
    placed: &Placed<FlowPlaces<'_, N>>,
    potentials: &Potentials,
) -> Option<Verdict>
    requires network { placed.now.place.arcs ≡ instance.now.arcs }
    ensures { IfSome result (λ verdict. (s : SolutionValue) → StandsFor placed.now s
        → Judges (min_rows instance.now s potentials.now) (ShowsLeast instance.now s potentials.now) (λ verdict. verdict ≡ Min s.value) (Ok verdict)) }
{
    let network = instance.network();
    let Ok(flow) = placed.place.flow() else {
        return None;
    };
    let Ok(()) = nodes_agree(network.nodes(), potentials.nodes()) else {
        return None;
    };
    let cost = cost_if_shown(alloc, instance, flow, potentials)?;
    match value_agrees(cost, placed) {
        Ok(()) => Some(Verdict::Min(placed.value)),
        Err(_) => None,
    }
}

//! The tests of a claimed maximum flow, before the cut or with it in one pass.

ghost use Rattle.std.specs.Prelude.{◌≡◌, IfErr, IfOk, IfSome, Ok};
ghost use Rattle.dimacs_claims.specs.SolutionTexts.{SolutionValue};
ghost use Rattle.dimacs_judging.specs.{declared.verdict.Verdict.TheVariants.{Max}, Feasible.{FeasibleMax}};
ghost use Rattle.dimacs_judging.specs.MaxJudge.{IsMaxClaim, ShowsMaximum, max_claim_rows, max_rows};
ghost use Rattle.dimacs_judging.specs.{Places.{StandsFor}, Tests.{Judges, Refutes}};

use crate::agreement::{nodes_agree, value_agrees};
use crate::flow::Flow;
use crate::places::FlowPlaces;
use crate::totals::{value_if_feasible, value_if_shown};
use crate::verdict::{JudgeError, Verdict};
use dimacs_claims::{Cut, Placed};
use dimacs_instance::MaxInstance;
use dimacs_network::Network;
use std::alloc::Global;

/// Makes the tests of `judge_max` before those of the cut: entries, bounds, balances, value. Returns the claimed flow.
pub fn max_claim_tests<'a, N: Network>(
    alloc: Global,
    instance: &MaxInstance<N>,
    placed: &'a Placed<FlowPlaces<'_, N>>,
) -> Result<&'a Flow, JudgeError>
    requires network { placed.now.place.arcs ≡ instance.now.arcs }
    ensures feasible { IfOk result (λ flow. FeasibleMax instance.now flow.now) }
    ensures claim { IfOk result (λ flow. (s : SolutionValue) → StandsFor placed.now s
        → IsMaxClaim instance.now s flow.now) }
    ensures refuted { IfErr result (λ error. (s : SolutionValue) → StandsFor placed.now s
        → Refutes (IsMaxClaim instance.now s) (max_claim_rows instance.now s) error) }
{
    let network = instance.network();
    let flow = placed.place.flow()?;
    let value = value_if_feasible(alloc, network, flow, instance, instance.source())?;
    value_agrees(value, placed)?;
    Ok(flow)
}

/// Makes all tests of `judge_max` in one pass over the arcs. None if one fails, a number is too large or there is no
/// memory.
pub fn max_in_one_pass<N: Network>(
    alloc: Global,
    instance: &MaxInstance<N>,
    placed: &Placed<FlowPlaces<'_, N>>,
    cut: &Cut,
) -> Option<Verdict>
    requires network { placed.now.place.arcs ≡ instance.now.arcs }
    ensures { IfSome result (λ verdict. (s : SolutionValue) → StandsFor placed.now s
        → Judges (max_rows instance.now s cut.now) (ShowsMaximum instance.now s cut.now) (λ verdict. verdict ≡ Max s.value) (Ok verdict)) }
{
    let network = instance.network();
    let Ok(flow) = placed.place.flow() else {
        return None;
    };
    let Ok(()) = nodes_agree(network.nodes(), cut.nodes()) else {
        return None;
    };
    let value = value_if_shown(alloc, instance, flow, cut)?;
    match value_agrees(value, placed) {
        Ok(()) => Some(Verdict::Max(placed.value)),
        Err(_) => None,
    }
}

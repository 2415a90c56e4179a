//! Certifies that a claimed flow costs least.

ghost use Rattle.std.specs.Prelude.{◌≡◌};
ghost use Rattle.dimacs_claims.specs.SolutionTexts.{SolutionValue, claimed};
ghost use Rattle.dimacs_judging.specs.{MinJudge.{min_claim_rows}, Places.{StandsFor}, Tests.{Settles}};
ghost use Rattle.dimacs_decide.specs.CertifiedMin.{CertifiesMin};

use crate::least::{MinDecision, decide_min};
use dimacs_claims::{Placed, Solution};
use dimacs_instance::MinInstance;
use dimacs_judging::{FlowPlaces, JudgeError, min_claim_tests, placed};
use dimacs_network::Network;
use std::alloc::Global;

/// Decides whether the solution's flow costs least. `Optimal` has potentials with which `judge_min` accepts the
/// solution, `Better` a feasible flow that costs less; its cost may be out of the range of solutions. `Refused` names
/// the first test that fails: the tests are those of `judge_min` before the potentials'.
pub fn certify_min<N: Network>(
    alloc: Global,
    instance: &MinInstance<N>,
    solution: &Solution,
) -> Result<MinDecision, JudgeError>
    ensures { Settles (CertifiesMin instance.now (claimed solution.now)) (min_claim_rows instance.now (claimed solution.now)) result }
{
    let placed = placed(alloc, instance.network(), solution)?;
    certify_min_placed(alloc, instance, &placed)
}

/// The same for entries that were placed on the arcs as they were read. The result is right for each solution that they
/// stand for.
pub fn certify_min_placed<N: Network>(
    alloc: Global,
    instance: &MinInstance<N>,
    placed: &Placed<FlowPlaces<'_, N>>,
) -> Result<MinDecision, JudgeError>
    requires network { placed.now.place.arcs ≡ instance.now.arcs }
    ensures { (s : SolutionValue) → StandsFor placed.now s
        → Settles (CertifiesMin instance.now s) (min_claim_rows instance.now s) result }
{
    let flow = min_claim_tests(alloc, instance, placed)?;
    let decision = decide_min(alloc, instance, flow)?;
    Ok(decision)
}

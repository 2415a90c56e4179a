//! Certifies that a claimed flow is maximum.

ghost use Rattle.std.specs.Prelude.{◌≡◌};
ghost use Rattle.dimacs_claims.specs.SolutionTexts.{SolutionValue, claimed};
ghost use Rattle.dimacs_judging.specs.{MaxJudge.{max_claim_rows}, Places.{StandsFor}, Tests.{Settles}};
ghost use Rattle.dimacs_decide.specs.CertifiedMax.{CertifiesMax};

use crate::maximum::{MaxDecision, decide_from};
use dimacs_claims::{Cut, Placed, Solution};
use dimacs_instance::MaxInstance;
use dimacs_judging::{FlowPlaces, JudgeError, max_claim_tests, max_in_one_pass, placed};
use dimacs_lines::Memory;
use dimacs_methods::guess_claimed_cut;
use dimacs_network::Network;
use std::alloc::Global;

/// Decides whether the solution's flow is maximum. `Optimal` has a cut with which `judge_max` accepts the solution,
/// `Better` a feasible flow of greater value. `Refused` names the first test that fails: the tests are those of
/// `judge_max` before the cut's.
pub fn certify_max<N: Network>(
    alloc: Global,
    instance: &MaxInstance<N>,
    solution: &Solution,
) -> Result<MaxDecision, JudgeError>
    ensures { Settles (CertifiesMax instance.now (claimed solution.now)) (max_claim_rows instance.now (claimed solution.now)) result }
{
    let placed = placed(alloc, instance.network(), solution)?;
    certify_max_placed(alloc, instance, &placed)
}

/// The same for entries that were placed on the arcs as they were read. The result is right for each solution that they
/// stand for.
pub fn certify_max_placed<N: Network>(
    alloc: Global,
    instance: &MaxInstance<N>,
    placed: &Placed<FlowPlaces<'_, N>>,
) -> Result<MaxDecision, JudgeError>
    requires network { placed.now.place.arcs ≡ instance.now.arcs }
    ensures { (s : SolutionValue) → StandsFor placed.now s
        → Settles (CertifiesMax instance.now s) (max_claim_rows instance.now s) result }
{
    match claimed_guess(alloc, instance, placed)? {
        Some(cut) => certify_from(alloc, instance, placed, cut),
        None => decide_claim(alloc, instance, placed, None),
    }
}

fn claimed_guess<N: Network>(
    alloc: Global,
    instance: &MaxInstance<N>,
    placed: &Placed<FlowPlaces<'_, N>>,
) -> Result<Option<Cut>, Memory> {
    match placed.place.flow() {
        Ok(flow) => guess_claimed_cut(alloc, instance, flow.amounts(), placed.value),
        Err(_) => Ok(None),
    }
}

/// The same from a guess of a tight cut. If it is right, one pass makes all tests.
fn certify_from<N: Network>(
    alloc: Global,
    instance: &MaxInstance<N>,
    placed: &Placed<FlowPlaces<'_, N>>,
    guess: Cut,
) -> Result<MaxDecision, JudgeError>
    requires network { placed.now.place.arcs ≡ instance.now.arcs }
    ensures { (s : SolutionValue) → StandsFor placed.now s
        → Settles (CertifiesMax instance.now s) (max_claim_rows instance.now s) result }
{
    if let Some(_verdict) = max_in_one_pass(alloc, instance, placed, &guess) {
        return Ok(MaxDecision::Optimal(guess));
    }
    decide_claim(alloc, instance, placed, Some(guess))
}

fn decide_claim<N: Network>(
    alloc: Global,
    instance: &MaxInstance<N>,
    placed: &Placed<FlowPlaces<'_, N>>,
    guess: Option<Cut>,
) -> Result<MaxDecision, JudgeError>
    requires network { placed.now.place.arcs ≡ instance.now.arcs }
    ensures { (s : SolutionValue) → StandsFor placed.now s
        → Settles (CertifiesMax instance.now s) (max_claim_rows instance.now s) result }
{
    let flow = max_claim_tests(alloc, instance, placed)?;
    let decision = decide_from(alloc, instance, flow, guess)?;
    Ok(decision)
}

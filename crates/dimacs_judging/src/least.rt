//! Judging that a flow costs least.

ghost use Rattle.std.specs.Prelude.{◌≡◌, Ok};
ghost use Rattle.dimacs_claims.specs.SolutionTexts.{SolutionValue, claimed};
ghost use Rattle.dimacs_judging.specs.{declared.verdict.Verdict.TheVariants.{Min}, MinJudge.{ShowsLeast, min_rows}};
ghost use Rattle.dimacs_judging.specs.{Places.{StandsFor}, Tests.{Judges}};

use crate::agreement::nodes_agree;
use crate::entries::placed;
use crate::min_claim::{min_claim_tests, min_in_one_pass};
use crate::places::FlowPlaces;
use crate::potentials::slack_tests;
use crate::verdict::{JudgeError, Verdict};
use dimacs_claims::{Placed, Potentials, Solution};
use dimacs_instance::MinInstance;
use dimacs_network::Network;
use std::alloc::Global;

/// Judges by potentials whether a solution's flow costs least. `Min`, with the claimed cost, means that the flow is
/// feasible and costs this, and that no feasible flow of whole numbers costs less. `Memory` if there is none for a flow
/// and a table of the nodes.
///
/// The tests in order: `UnknownArc` or `ArcTwice` for each entry, at its line; `BelowLow` or `AboveCap` for each arc;
/// `Balance` for each node; `CostRange` for each arc if the sum of the costs up to it is outside -10^30 to 10^30;
/// `ValueDiffers`, at the value's line; `NodesDiffer` if potentials and instance differ in the number of nodes; those
/// of `slack_tests`.
pub fn judge_min<N: Network>(
    alloc: Global,
    instance: &MinInstance<N>,
    solution: &Solution,
    potentials: &Potentials,
) -> Result<Verdict, JudgeError>
    ensures { Judges (min_rows instance.now (claimed solution.now) potentials.now)
        (ShowsLeast instance.now (claimed solution.now) potentials.now) (λ verdict. verdict ≡ Min solution.now.value)
        result }
{
    let placed = placed(alloc, instance.network(), solution)?;
    judge_min_placed(alloc, instance, &placed, potentials)
}

/// The same for a solution whose entries were put on the instance's arcs already.
pub fn judge_min_placed<N: Network>(
    alloc: Global,
    instance: &MinInstance<N>,
    placed: &Placed<FlowPlaces<'_, N>>,
    potentials: &Potentials,
) -> Result<Verdict, JudgeError>
    requires network { placed.now.place.arcs ≡ instance.now.arcs }
    ensures { (s : SolutionValue) → StandsFor placed.now s
        → Judges (min_rows instance.now s potentials.now) (ShowsLeast instance.now s potentials.now) (λ verdict. verdict ≡ Min s.value) result }
{
    if let Some(verdict) = min_in_one_pass(alloc, instance, placed, potentials) {
        return Ok(verdict);
    }
    let network = instance.network();
    let flow = min_claim_tests(alloc, instance, placed)?;
    nodes_agree(network.nodes(), potentials.nodes())?;
    slack_tests(instance, flow, potentials)?;
    Ok(Verdict::Min(placed.value))
}

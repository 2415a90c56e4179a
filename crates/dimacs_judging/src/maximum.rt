//! Judging that a flow is maximum.

ghost use Rattle.std.specs.Prelude.{◌≡◌, Ok};
ghost use Rattle.dimacs_claims.specs.SolutionTexts.{SolutionValue, claimed};
ghost use Rattle.dimacs_judging.specs.{declared.verdict.Verdict.TheVariants.{Max}, Feasible.{value}, Tests.{Judges}};
ghost use Rattle.dimacs_judging.specs.{MaxJudge.{ShowsMaximum, max_rows}, Places.{StandsFor}};

use crate::agreement::nodes_agree;
use crate::cuts::cut_tests;
use crate::entries::placed;
use crate::max_claim::{max_claim_tests, max_in_one_pass};
use crate::places::FlowPlaces;
use crate::verdict::{JudgeError, Verdict};
use dimacs_claims::{Cut, Placed, Solution};
use dimacs_instance::MaxInstance;
use dimacs_network::Network;
use std::alloc::Global;

/// Judges by a cut whether a solution's flow is maximum. `Max`, with the claimed value, means that the flow is feasible
/// and has this value, and that no feasible flow of whole numbers has a greater one. `Memory` if there is none for a
/// flow and a table of the nodes that have arcs.
///
/// The tests in order: `UnknownArc` or `ArcTwice` for each entry, at its line; `BelowLow` or `AboveCap` for each arc;
/// `Balance` for each node but source and sink; `ValueDiffers`, at the value's line; `NodesDiffer` if cut and instance
/// differ in the number of nodes; those of `cut_tests`.
pub fn judge_max<N: Network>(
    alloc: Global,
    instance: &MaxInstance<N>,
    solution: &Solution,
    cut: &Cut,
) -> Result<Verdict, JudgeError>
    ensures { Judges (max_rows instance.now (claimed solution.now) cut.now)
        (ShowsMaximum instance.now (claimed solution.now) cut.now) (λ verdict. verdict ≡ Max solution.now.value) result }
{
    let placed = placed(alloc, instance.network(), solution)?;
    judge_max_placed(alloc, instance, &placed, cut)
}

/// The same for a solution whose entries were put on the instance's arcs already.
pub fn judge_max_placed<N: Network>(
    alloc: Global,
    instance: &MaxInstance<N>,
    placed: &Placed<FlowPlaces<'_, N>>,
    cut: &Cut,
) -> Result<Verdict, JudgeError>
    requires network { placed.now.place.arcs ≡ instance.now.arcs }
    ensures { (s : SolutionValue) → StandsFor placed.now s
        → Judges (max_rows instance.now s cut.now) (ShowsMaximum instance.now s cut.now) (λ verdict. verdict ≡ Max s.value) result }
{
    if let Some(verdict) = max_in_one_pass(alloc, instance, placed, cut) {
        return Ok(verdict);
    }
    let network = instance.network();
    let flow = max_claim_tests(alloc, instance, placed)?;
    nodes_agree(network.nodes(), cut.nodes())?;
    cut_tests(instance, flow, cut)?;
    Ok(Verdict::Max(placed.value))
}

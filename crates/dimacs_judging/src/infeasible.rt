//! Judging that an instance has no feasible flow.

ghost use Rattle.std.specs.Prelude.{◌≡◌, ◌≢◌, Err};
ghost use Rattle.dimacs_judging.specs.{declared.verdict.JudgeError.TheVariants.{Memory}, Tests.{Judges}};
ghost use Rattle.dimacs_judging.specs.declared.verdict.Verdict.TheVariants.{Infeasible};
ghost use Rattle.dimacs_judging.specs.InfeasibleJudge.{ShowsNoFlow, infeasible_rows};

use crate::agreement::nodes_agree;
use crate::crossing::set_is_violated;
use crate::verdict::{JudgeError, Verdict};
use dimacs_claims::Cut;
use dimacs_instance::MinInstance;
use dimacs_network::Network;

/// Judges by a set of nodes whether no flow is feasible. `Infeasible` means that there is none, of whole numbers of any
/// size and sign. Allocates nothing, so it never returns `Memory`.
///
/// The tests in order: `NodesDiffer` if set and instance differ in the number of nodes; `NotViolated` if the bounds
/// allow the set's supply to flow out of it.
pub fn judge_infeasible<N: Network>(
    instance: &MinInstance<N>,
    set: &Cut,
) -> Result<Verdict, JudgeError>
    ensures judges { Judges (infeasible_rows instance.now set.now) (ShowsNoFlow instance.now set.now) (λ verdict. verdict ≡ Infeasible) result }
    ensures memoryless { result ≢ Err Memory }
{
    nodes_agree(instance.network().nodes(), set.nodes())?;
    set_is_violated(instance, set)?;
    Ok(Verdict::Infeasible)
}

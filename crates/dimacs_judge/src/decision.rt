//! Deciding without a certificate whether a flow is maximum.

ghost use Rattle.std.specs.Prelude.{◌≡◌, IfErr, IfOk};
ghost use Rattle.dimacs_decide.specs.MaxDecision.{DecidesMax};
ghost use Rattle.dimacs_judging.specs.Feasible.{FeasibleMax};
ghost use Rattle.dimacs_judging.specs.declared.verdict.JudgeError.TheVariants as errors;

use dimacs_decide::MaxDecision;
use dimacs_instance::MaxInstance;
use dimacs_judging::{Flow, JudgeError};
use dimacs_network::Network;
use std::alloc::Global;

/// Decides whether a feasible flow is maximum. Returns a tight cut if it is, otherwise a feasible flow of greater
/// value. The only error is `Memory`.
pub fn decide_max<N: Network>(
    alloc: Global,
    instance: &MaxInstance<N>,
    flow: &Flow,
) -> Result<MaxDecision, JudgeError>
    requires { FeasibleMax instance.now flow.now }
    ensures decided { IfOk result (DecidesMax instance.now flow.now) }
    ensures memory { IfErr result (λ error. error ≡ errors.Memory) }
{
    let decision = dimacs_decide::decide_max(alloc, instance, flow)?;
    Ok(decision)
}

//! Certifies a claimed flow.

ghost use Rattle.std.specs.Prelude.{◌≡◌, ℤ, List, Ok, true};
ghost use Rattle.dimacs_claims.specs.SolutionTexts.{claimed};
ghost use Rattle.dimacs_judging.specs.{MaxJudge.{IsMaxClaim}, Optimum.{Maximum}};

use crate::failure::Failure;
use dimacs_claims::{Solution, write_cut, write_solution};
use dimacs_decide::{MaxDecision, certify_max, max_solution};
use dimacs_instance::MaxInstance;
use dimacs_lines::Sink;
use dimacs_network::Network;
use std::alloc::Global;

/// Whether the solution's flow is maximum. Writes a minimum cut, or a solution with a better flow. The answer is yes
/// only if the flow has the claimed value, and no feasible flow has a greater one.
pub fn certify<N: Network, K: Sink>(
    alloc: Global,
    instance: &MaxInstance<N>,
    solution: &Solution,
    out: &mut K,
) -> Result<bool, Failure>
    ensures maximum { result ≡ Ok true
        → (x : List ℤ) × IsMaxClaim instance.now (claimed solution.now) x × Maximum instance.now x }
{
    match certify_max(alloc, instance, solution)? {
        MaxDecision::Optimal(cut) => {
            write_cut(&cut, out)?;
            Ok(true)
        }
        MaxDecision::Better(flow) => {
            let better = max_solution(alloc, instance, &flow)?;
            write_solution(&better, out)?;
            Ok(false)
        }
    }
}

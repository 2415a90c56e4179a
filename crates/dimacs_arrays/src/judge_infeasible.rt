//! Judges over arrays that no flow is feasible.

ghost use Rattle.std.specs.Prelude.{◌≡◌, length};
ghost use Rattle.dimacs_arrays.specs.{ByNode.{marked}, MinArrays.{JudgesInfeasible, JudgesInfeasibleArrays}};

use crate::by_node::cut_of;
use crate::error::{Array, ArrayError};
use crate::lengths::{ArrayLength, lengths_hold};
use crate::min::MinArrays;
use dimacs_instance::MinInstance;
use dimacs_judging::{JudgeError, Verdict, judge_infeasible};
use dimacs_network::Network;
use std::alloc::Global;

/// Judges that no flow is feasible, by the nodes whose byte isn't 0. The answer `Infeasible` means that no flow of
/// whole numbers, of any size and sign, is feasible.
///
/// The tests, in order: the lengths of `heads`, `lows`, `caps`, `costs`, `supplies` and `inside`; the limits, as in
/// `judge_min_arrays`; then `NotViolated`, at the certificate, if the supply of the set could flow out of it.
pub fn judge_infeasible_arrays(
    alloc: Global,
    arrays: &MinArrays<'_>,
    inside: &[u8],
) -> Result<Verdict, ArrayError>
    ensures { JudgesInfeasibleArrays arrays.now inside.now result }
{
    arrays.lengths_hold()?;
    lengths_hold(&[ArrayLength::of(Array::Inside, inside.len(), arrays.nodes as usize)])?;
    let instance = arrays.instance(alloc)?;
    Ok(judge_over(alloc, &instance, inside)?)
}

fn judge_over<N: Network>(
    alloc: Global,
    instance: &MinInstance<N>,
    inside: &[u8],
) -> Result<Verdict, JudgeError>
    requires { length inside.now ≡ instance.now.nodes }
    ensures { JudgesInfeasible instance.now (marked inside.now) result }
{
    let set = cut_of(alloc, instance.network().nodes(), inside)?;
    judge_infeasible(instance, &set)
}

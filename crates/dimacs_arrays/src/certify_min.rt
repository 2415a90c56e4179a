//! Certifies over arrays that a flow costs least.

ghost use Rattle.std.specs.Prelude.{◌≡◌, length, IfOk};
ghost use Rattle.dimacs_judging.specs.Tests.{Settles};
ghost use Rattle.dimacs_arrays.specs.MinArrays.{CertifiesMinArrays, CertifiesMinFlow, min_claimed_rows};
ghost use Rattle.dimacs_arrays.specs.inside.MinCertified.{IsLeastBy};

use crate::by_node::fit_array;
use crate::error::{Array, ArrayError};
use crate::lengths::{ArrayLength, lengths_hold};
use crate::min::MinArrays;
use dimacs_claims::Potentials;
use dimacs_decide::{MinDecision, decide_min};
use dimacs_instance::MinInstance;
use dimacs_judging::{Flow, JudgeError, cost_within, feasible_min};
use dimacs_lines::Memory;
use dimacs_network::Network;
use std::alloc::Global;

/// Whether a feasible flow costs least.
#[derive(Drop)]
pub enum MinCertified {
    /// It costs least. `judge_min_arrays` accepts these potentials.
    Optimal { cost: i128, potentials: Vec<i64> },
    /// It costs least, but these potentials don't fit into an array: two of them are 2^64 or more apart. Others might
    /// fit.
    Wide { cost: i128, potentials: Potentials },
    /// It doesn't. This flow is feasible and costs less.
    Better(Flow),
}

/// Decides without a certificate whether the flow costs least, and never gives up. The errors are those of
/// `judge_min_arrays` that don't concern `potentials`, in the same order.
pub fn certify_min_arrays(
    alloc: Global,
    arrays: &MinArrays<'_>,
    flows: &[i64],
) -> Result<MinCertified, ArrayError>
    ensures { CertifiesMinArrays arrays.now flows.now result }
{
    arrays.lengths_hold()?;
    lengths_hold(&[ArrayLength::of(Array::Flows, flows.len(), arrays.tails.len())])?;
    let instance = arrays.instance(alloc)?;
    Ok(certify_over(alloc, &instance, flows)?)
}

fn certify_over<N: Network>(
    alloc: Global,
    instance: &MinInstance<N>,
    flows: &[i64],
) -> Result<MinCertified, JudgeError>
    requires { length flows.now ≡ length instance.now.arcs }
    ensures { Settles (CertifiesMinFlow instance.now flows.now) (min_claimed_rows instance.now flows.now) result }
{
    let flow = Flow::of(alloc, flows)?;
    feasible_min(alloc, instance, &flow)?;
    let cost = cost_within(instance.network(), &flow)?;
    match decide_min(alloc, instance, &flow)? {
        MinDecision::Better(better) => Ok(MinCertified::Better(better)),
        MinDecision::Optimal(potentials) => Ok(least_by(alloc, cost, potentials)?),
    }
}

/// The answer for a flow with this cost and slack potentials.
fn least_by(alloc: Global, cost: i128, potentials: Potentials) -> Result<MinCertified, Memory>
    ensures { IfOk result (IsLeastBy cost potentials) }
{
    match fit_array(alloc, &potentials)? {
        Some(numbers) => Ok(MinCertified::Optimal {
            cost,
            potentials: numbers,
        }),
        None => Ok(MinCertified::Wide { cost, potentials }),
    }
}

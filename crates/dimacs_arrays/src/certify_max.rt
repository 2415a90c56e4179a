//! Certifies over arrays that a flow is maximum.

ghost use Rattle.std.specs.Prelude.{◌≡◌, length};
ghost use Rattle.dimacs_judging.specs.{FlowTests.{feasible_max_rows}, Tests.{Settles}};
ghost use Rattle.dimacs_arrays.specs.MaxArrays.{CertifiesMaxArrays, CertifiesMaxFlow};

use crate::by_node::bytes_of;
use crate::error::{Array, ArrayError};
use crate::lengths::{ArrayLength, lengths_hold};
use crate::max::MaxArrays;
use dimacs_decide::{MaxDecision, decide_max};
use dimacs_instance::MaxInstance;
use dimacs_judging::{Flow, JudgeError, feasible_max, value_of};
use dimacs_network::Network;
use std::alloc::Global;

/// Whether a feasible flow is maximum.
#[derive(Drop)]
pub enum MaxCertified {
    /// It is maximum, with this value. The bytes show it: 1 for the nodes of a cut that `judge_max_arrays` accepts,
    /// otherwise 0.
    Optimal { value: i128, inside: Vec<u8> },
    /// It isn't. This flow is feasible and has a greater value.
    Better(Flow),
}

/// Decides without a certificate whether the flow is maximum, and never gives up. The errors are those of
/// `judge_max_arrays` that don't concern `inside`, in the same order.
pub fn certify_max_arrays(
    alloc: Global,
    arrays: &MaxArrays<'_>,
    flows: &[i64],
) -> Result<MaxCertified, ArrayError>
    ensures { CertifiesMaxArrays arrays.now flows.now result }
{
    arrays.lengths_hold()?;
    lengths_hold(&[ArrayLength::of(Array::Flows, flows.len(), arrays.tails.len())])?;
    let instance = arrays.instance()?;
    Ok(certify_over(alloc, &instance, flows)?)
}

fn certify_over<N: Network>(
    alloc: Global,
    instance: &MaxInstance<N>,
    flows: &[i64],
) -> Result<MaxCertified, JudgeError>
    requires { length flows.now ≡ length instance.now.arcs }
    ensures { Settles (CertifiesMaxFlow instance.now flows.now) (feasible_max_rows instance.now flows.now) result }
{
    let flow = Flow::of(alloc, flows)?;
    feasible_max(alloc, instance, &flow)?;
    match decide_max(alloc, instance, &flow)? {
        MaxDecision::Better(better) => Ok(MaxCertified::Better(better)),
        MaxDecision::Optimal(cut) => Ok(MaxCertified::Optimal {
            value: value_of(instance, &flow),
            inside: bytes_of(alloc, &cut)?,
        }),
    }
}

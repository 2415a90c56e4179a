//! Certifies over arrays that no flow is feasible.

ghost use Rattle.std.specs.Prelude.{IfOk};
ghost use Rattle.dimacs_arrays.specs.MinArrays.{CertifiesInfeasible, CertifiesInfeasibleArrays};

use crate::by_node::bytes_of;
use crate::error::ArrayError;
use crate::min::MinArrays;
use dimacs_decide::{Feasibility, decide_infeasible};
use dimacs_instance::MinInstance;
use dimacs_judging::Flow;
use dimacs_lines::Memory;
use dimacs_network::Network;
use std::alloc::Global;

/// Whether no flow is feasible.
#[derive(Drop)]
pub enum InfeasibleCertified {
    /// No flow is feasible. The bytes show it: 1 for the nodes of a set that `judge_infeasible_arrays` accepts,
    /// otherwise 0.
    Infeasible(Vec<u8>),
    /// This flow is feasible.
    Feasible(Flow),
}

/// Decides without a certificate whether no flow is feasible, and never gives up. First it tests the lengths and
/// limits, in the order of `judge_infeasible_arrays`.
pub fn certify_infeasible_arrays(
    alloc: Global,
    arrays: &MinArrays<'_>,
) -> Result<InfeasibleCertified, ArrayError>
    ensures { CertifiesInfeasibleArrays arrays.now result }
{
    arrays.lengths_hold()?;
    let instance = arrays.instance(alloc)?;
    Ok(certify_over(alloc, &instance)?)
}

fn certify_over<N: Network>(
    alloc: Global,
    instance: &MinInstance<N>,
) -> Result<InfeasibleCertified, Memory>
    ensures { IfOk result (CertifiesInfeasible instance.now) }
{
    match decide_infeasible(alloc, instance)? {
        Feasibility::Feasible(flow) => Ok(InfeasibleCertified::Feasible(flow)),
        Feasibility::Infeasible(set) => {
            Ok(InfeasibleCertified::Infeasible(bytes_of(alloc, &set)?))
        }
    }
}

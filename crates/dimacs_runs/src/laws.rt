//! Theorems: what runs write is judged yes, a claim is certified exactly if it is true, a canonical text is converted to
//! itself, and with a great enough limit a solver of maximum flow doesn't give up.
//!
//! The contract of a function here states the theorem. The body is empty on purpose: there is nothing to compute.
//! `Judged` is what the contract of `run_judge` cites: if it allows the answer yes, it allows no other.

ghost use Rattle.dimacs_runs.specs.Laws.{CertifiedLaw, FixedPointLaw, RunLimitLaw, SolvedLaw, TrueClaimLaw};

/// If `run_certify` ends with `Done`, the judge's run over the instance, the claim and what was written answers yes.
///
/// Of distances, it answers yes to any queries about their sources and nodes of the graph, with the claimed distances.
pub fn certified_is_judged_yes()
    ensures { CertifiedLaw }
{}

/// If `run_certify` ends without an error, it ends with `Done` exactly if the claim is true.
///
/// A solution claims its flow, with its value or cost, to be optimal; no claim, that no flow is feasible; distances, all
/// of their blocks. The sums of the costs have to stay in range.
pub fn true_claims_are_certified()
    ensures { TrueClaimLaw }
{}

/// If `run_solve` ends with `Done`, the judge's run over the instance, the queries and what was written answers yes, if
/// the labels have at most 10^12 lines.
pub fn solved_is_judged_yes()
    ensures { SolvedLaw }
{}

/// If `run_convert` ends with `Done`, it prints of what it printed the same bytes again.
pub fn canonical_is_a_fixed_point()
    ensures { FixedPointLaw }
{}

/// `run_solve` doesn't give up with a limit above 0 and above the greatest value of a flow.
pub fn enough_limit_never_gives_up()
    ensures { RunLimitLaw }
{}

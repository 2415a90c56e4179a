//! Theorems: what a limit is enough for.
//!
//! The contract of a function here states the theorem. The body is empty on purpose: there is nothing to compute.

ghost use Rattle.dimacs_solve.specs.Climbing.{EnoughLimitLaw};

/// `solve_max` never gives up with a limit above 0 and above the greatest value of a flow.
pub fn enough_limit_suffices()
    ensures { EnoughLimitLaw }
{}

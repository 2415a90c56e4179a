//! A theorem on arguments.
//!
//! Its contract states it. The body is empty on purpose: there is nothing to compute.

ghost use Rattle.dimacs_jobs.specs.OneRequest.{OneRequestLaw};

/// Words that ask for help or the version ask for no run, those that ask for a run for none that is explained, and two runs
/// that they ask for have the same files, and differ at most in their limits.
pub fn words_ask_for_one_thing()
    ensures { OneRequestLaw }
{}

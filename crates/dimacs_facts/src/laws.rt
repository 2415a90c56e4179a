//! What follows from facts. The body of a function here is empty on purpose: its contract states the theorem.

ghost use Rattle.dimacs_claims.specs.SolutionTexts.{claimed};
ghost use Rattle.dimacs_facts.specs.{Cycles.{NegativeCycleLaw}, Facts.{OnlyFlowLaw, SameButTight}};
ghost use Rattle.dimacs_judging.specs.MinJudge.{ShowsLeast};

use dimacs_claims::{Potentials, Solution};
use dimacs_instance::MinInstance;
use dimacs_judging::same_cost_is_same_flow;
use dimacs_network::Network;

/// A node to which a negative cycle leads that the source reaches has no distance.
pub fn negative_cycle_has_no_distance()
    ensures { NegativeCycleLaw }
{}

/// If no arc has the reduced cost 0 by potentials that are slack for a flow, no other flow costs as little.
pub fn no_other_flow()
    ensures { OnlyFlowLaw }
{
    same_cost_is_same_flow();
}

/// If potentials show that a flow costs least, another one of this cost differs only on arcs of reduced cost 0.
pub fn same_but_tight<N: Network>(
    min: &MinInstance<N>,
    _solution: &Solution,
    _potentials: &Potentials,
)
    requires { ShowsLeast min.now (claimed _solution.now) _potentials.now }
    ensures { SameButTight min.now (claimed _solution.now) _potentials.now }
{
    min.network();
    same_cost_is_same_flow();
}

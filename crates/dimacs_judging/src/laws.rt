//! Theorems: what certificates show of all flows and of all walks.
//!
//! The contract of a function here states the theorem. The body is empty on purpose: there is nothing to compute.

ghost use Rattle.dimacs_judging.specs.Laws.{ExchangeLaw, TightCutLaw, SlacknessLaw, SameCostLaw, ViolatedSetLaw, LabelsLaw, PassingShowsLaw};

/// The sum exchange behind weak duality: balances times weights of nodes, summed over the nodes, are amounts times
/// differences of these weights, summed over the arcs.
pub fn exchange()
    ensures { ExchangeLaw }
{}

/// A feasible flow with a tight cut is maximum.
pub fn tight_cut_is_maximum()
    ensures { TightCutLaw }
{}

/// A feasible flow with slack potentials costs least.
pub fn slack_is_least()
    ensures { SlacknessLaw }
{}

/// A flow that costs as little as one with slack potentials carries the same on each arc whose reduced cost isn't 0.
pub fn same_cost_is_same_flow()
    ensures { SameCostLaw }
{}

/// If a set of nodes is violated, no flow is feasible.
pub fn violated_has_no_flow()
    ensures { ViolatedSetLaw }
{}

/// Labels that pass the tests are distances. Nodes without a label are unreachable, or beyond the radius if there is
/// one.
pub fn labels_give_distances()
    ensures { LabelsLaw }
{}

/// If labels and queries pass the tests, the answers are distances.
pub fn passing_shows()
    ensures { PassingShowsLaw }
{}

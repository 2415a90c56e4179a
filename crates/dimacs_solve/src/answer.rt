//! The answers of the solvers of flows.

use dimacs_claims::{Cut, Potentials};
use dimacs_judging::Flow;

/// The answer of `solve_max_flow`.
#[derive(Drop)]
pub enum MaxFlowAnswer {
    /// A maximum flow, with a tight cut.
    Optimal(Flow, Cut),
    /// As many better and better flows as the limit aren't maximum.
    GaveUp,
}

/// The answer of `solve_min_flow`.
#[derive(Drop)]
pub enum MinFlowAnswer {
    /// A flow of least cost, with slack potentials.
    Optimal(Flow, Potentials),
    /// No flow is feasible; the set shows it.
    Infeasible(Cut),
    /// After as many steps as the limit, each to a better flow, the flow still isn't least.
    GaveUp,
}

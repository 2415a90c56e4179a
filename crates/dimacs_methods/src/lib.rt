//! Heuristics that find flows, cuts and potentials. Nothing about their results is proved: callers test them.
//!
//! Only this is proved: a call is safe and returns. Accesses beyond the end of a table do nothing, sums may wrap, and
//! the bound of a loop doesn't depend on what the method computes.
#![tactic(auto)]

mod augment;
mod cut;
mod least_flow;
mod levels;
mod node_numbers;
mod number;
mod potentials;
mod preflow;
mod problem;
mod residual;
mod scaling;
mod simplex;
mod starts;
mod tables;

pub use cut::{guess_claimed_cut, guess_cut};
pub use least_flow::{LeastFlow, make_least_flow};
pub use potentials::{Guess, ResidualArc, guess_potentials};
pub use preflow::{MaximumFlow, raise_value, send_excess};

//! Solvers of flow and shortest path instances, whose answers pass the judge's tests, and dealing out a claimed flow to
//! parallel arcs.
//!
//! A solution may give one sum for all arcs from one node to another, or their entries in any order. `spread_max` and
//! `spread_min` add up these entries, and deal out each sum to the arcs: within their bounds if possible, and at the
//! least cost.
#![tactic(auto)]

mod adjacency;
mod answer;
mod arcs_by_cost;
mod arcs_by_ends;
mod climb;
mod descend;
mod distance;
mod error;
mod frontier;
mod improve;
mod jump;
mod laws;
mod least;
mod maximum;
mod node_states;
mod packed_arc;
mod paths;
mod piles;
mod question;
mod raise;
mod rests;
mod search;
mod spread;

pub use answer::{MaxFlowAnswer, MinFlowAnswer};
pub use climb::solve_max_flow;
pub use descend::solve_min_flow;
pub use error::SolveError;
pub use improve::improve_max;
pub use laws::enough_limit_suffices;
pub use least::{MinAnswer, solve_min};
pub use maximum::{MaxAnswer, solve_max};
pub use paths::solve_paths;
pub use spread::{spread_max, spread_min};

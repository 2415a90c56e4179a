//! Judges, certifies and solves instances in arrays, for programs that hold them in memory and don't write texts.
//!
//! An instance is a struct of slices: the k-th arc goes from the k-th tail to the k-th head. Nodes count from 1; an
//! array by node begins with node 1. Each call first tests the lengths of the arrays, then the limits of the numbers.
//! Then it answers as the judge, certifier or solver of the instance that the arrays spell. The error `Memory` is no
//! answer. Arcs are read in place; claims, and arrays by node, are copied.
#![tactic(auto)]

mod by_node;
mod certify_infeasible;
mod certify_max;
mod certify_min;
mod certify_paths;
mod distances;
mod error;
mod graph;
mod judge_infeasible;
mod judge_max;
mod judge_min;
mod judge_paths;
mod label_distances;
mod labels;
mod lengths;
mod lent_arcs;
mod limits;
mod max;
mod min;
mod over;
mod paths_over;
mod predecessors;
mod solution;
mod solve_max;
mod solve_min;
mod solve_paths;
mod tight_predecessors;

pub use certify_infeasible::{InfeasibleCertified, certify_infeasible_arrays};
pub use certify_max::{MaxCertified, certify_max_arrays};
pub use certify_min::{MinCertified, certify_min_arrays};
pub use certify_paths::certify_paths_arrays;
pub use distances::{certify_paths_by_node, judge_paths_by_node};
pub use error::{Array, ArrayError};
pub use graph::GraphArrays;
pub use judge_infeasible::judge_infeasible_arrays;
pub use judge_max::judge_max_arrays;
pub use judge_min::judge_min_arrays;
pub use judge_paths::judge_paths_arrays;
pub use lent_arcs::{ArcArrays, LentArcs};
pub use max::MaxArrays;
pub use min::MinArrays;
pub use over::{cut_over, graph_over, max_over, min_over, potentials_over};
pub use paths_over::{distances_over, labels_over, queries_over};
pub use solution::{ClaimedFlow, EndArrays, read_solution_arrays, solution_of_arrays};
pub use solve_max::{MaxSolved, solve_max_arrays};
pub use solve_min::{MinSolved, solve_min_arrays};
pub use solve_paths::{PathsSolved, solve_paths_arrays};

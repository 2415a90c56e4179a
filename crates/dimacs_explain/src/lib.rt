//! Explains answers: prints the numbers that a failed test compares, or those that show a yes. Functions of `facts` write
//! sentences that assert more, and require their facts. What is tested: the numbers and arcs beside them, what is lightest,
//! that no arc, order or block fits, and what a limit's flows are.
//!
//! For `dimacs_explained`, which runs `dimacs explain COMMAND FILE...`.
#![tactic(auto)]

mod better;
mod blocks;
mod claims;
mod crossing;
mod explanation;
mod facts;
mod flows;
mod least_cost;
mod paths;
mod preds;
mod readings;
mod refusals;
mod routes;
mod sums;
mod yes;

pub use explanation::Explanation;

//! What an explanation asserts, beside the answer that it explains: facts about instances, flows and labels. A function
//! here shows one, and its contract states it; a sentence of `dimacs_explain` that asserts it requires it.
#![tactic(auto)]

mod blocks;
mod cycle;
mod feasible;
mod laws;
mod least;
mod no_flow;
mod only;
mod opposite;
mod search;
mod steps;
mod sums;
mod too_near;
mod unreached;
mod walks;

pub use blocks::{block_from, is_alone, others_unreached};
pub use cycle::is_negative_cycle;
pub use feasible::{excess, feasible_cost, feasible_value};
pub use laws::{negative_cycle_has_no_distance, no_other_flow, same_but_tight};
pub use no_flow::{all_nodes, one_node, shows_no_flow};
pub use only::count_tight;
pub use opposite::opposite_shows;
pub use search::walks_from;
pub use steps::Steps;
pub use sums::{cost_of, flow_value};
pub use too_near::{TooNear, first_too_near};
pub use unreached::{Unreached, unreached_from};
pub use walks::{Walk, Walks};

//! What judging is: flows, the tests of claims and certificates, the judges that make them, and theorems on what
//! passing them shows, over any `Network`.
//!
//! `judge_max`, `judge_min`, `judge_infeasible` and `judge_paths` make all tests of a claim, the other functions some
//! of them. A contract lists the tests in order, as rows of a place, a condition and a reason: the judge says yes
//! exactly if all pass, else it names the first that fails. The theorems are in `laws`: a tight cut shows that a flow
//! is maximum, slack potentials that it costs least, a violated set that no flow is feasible; labels that pass are
//! distances.
#![tactic(auto)]

mod agreement;
mod arc_chains;
mod arc_test;
mod balances;
mod costs;
mod crossing;
mod cuts;
mod distance;
mod entries;
mod feasible;
mod flow;
mod flow_judges;
mod infeasible;
mod labels;
mod labels_at_once;
mod laws;
mod least;
mod leaving;
mod lightest;
mod max_claim;
mod maximum;
mod min_claim;
mod node_label;
mod node_labels;
mod one_pass;
mod paths;
mod places;
mod potentials;
mod queries;
mod relaxing;
mod totals;
mod value;
mod verdict;

pub use balances::Balances;
pub use costs::cost_within;
pub use crossing::{Crossing, bounds_across, supply_in};
pub use cuts::cut_tests;
pub use distance::{Distance, distance_in};
pub use entries::{flow_of, placed};
pub use feasible::{bounds_hold, feasible_max, feasible_min};
pub use flow::Flow;
pub use flow_judges::{judge_max_flow, judge_min_flow};
pub use infeasible::judge_infeasible;
pub use labels::label_tests;
pub use laws::{
    exchange, labels_give_distances, passing_shows, same_cost_is_same_flow, slack_is_least,
    tight_cut_is_maximum, violated_has_no_flow,
};
pub use least::{judge_min, judge_min_placed};
pub use lightest::{LightestArcs, lightest_arcs};
pub use max_claim::{max_claim_tests, max_in_one_pass};
pub use maximum::{judge_max, judge_max_placed};
pub use min_claim::min_claim_tests;
pub use node_labels::fit_64_bits;
pub use paths::judge_paths;
pub use places::FlowPlaces;
pub use potentials::slack_tests;
pub use queries::{answer_queries, index_for, query_nodes_hold, source_asked};
pub use totals::{cost_if_shown, value_if_shown};
pub use value::value_of;
pub use verdict::{Answer, JudgeError, Verdict, Where};

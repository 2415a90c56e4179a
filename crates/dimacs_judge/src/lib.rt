//! The judges, the tests that they make and `decide_max`, which needs no certificate, under one name.
//!
//! All but `decide_max` is in `dimacs_judging`. This crate is for programs that judge and decide with one import: it
//! stands above the deciders, and no crate of the product uses it.
#![tactic(auto)]

mod decision;

pub use decision::decide_max;
pub use dimacs_decide::MaxDecision as Decision;
pub use dimacs_judging::{
    Answer, Flow, FlowPlaces, JudgeError, Verdict, Where, cut_tests, feasible_max, feasible_min,
    flow_of, judge_infeasible, judge_max, judge_max_placed, judge_min, judge_min_placed,
    judge_paths, label_tests, slack_tests,
};

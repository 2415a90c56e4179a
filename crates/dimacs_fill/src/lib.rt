//! Reads texts into the arrays of a caller, as much as fits.
//!
//! Each call reads a whole text, and copies its value item by item: an array by arc begins with the first arc, one by
//! node with node 1. An array that is too short gets the first items, a longer one keeps its others. After an error the
//! arrays are as they were, but those of an instance, whose arcs are copied as they are read, may hold anything. No call
//! takes memory for arcs that a text declares and doesn't have.
#![tactic(auto)]

mod arc_reading;
mod block;
mod cut;
mod distances;
mod error;
mod filling;
mod graph;
mod labels;
mod max;
mod min;
mod potentials;
mod queries;

pub use cut::read_cut_into;
pub use distances::read_distances_into;
pub use error::FillError;
pub use graph::{GraphSizes, read_graph_into};
pub use labels::{LabelSizes, read_labels_into};
pub use max::{MaxSizes, read_max_into};
pub use min::{MinSizes, read_min_into};
pub use potentials::read_potentials_into;
pub use queries::{QuerySizes, read_queries_into};

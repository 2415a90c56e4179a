//! Instances and queries: reading, writing, showing and building them.
//!
//! For whoever has a text, or a network to make one of. Reading answers with the value that the text spells, or its
//! first fault; writing gives the one canonical text of a value. A contract has an instance as a record of its nodes,
//! its arcs in the order of the text and its numbers by node, without a word on how it is stored.
#![tactic(auto)]

mod graph;
mod max;
mod min;
mod queries;
mod summaries;

pub use dimacs_network::{ArcView, CapacityArc, ForwardStar, Network, PlainArcs, WeightArc};
pub use graph::{Graph, GraphReading, read_graph, write_graph};
pub use max::{MaxInstance, MaxReading, read_max, write_max};
pub use min::{MinInstance, MinReading, SupplySums, read_min, write_min};
pub use queries::{LawfulQueries, Queries, QueriesReading, read_queries, write_queries};
pub use summaries::{
    GraphNodesReading, GraphSummary, MaxNodesReading, MaxSummary, MinNodes, MinNodesReading,
    MinSummary, Summary,
};

//! Nodes and networks: values by node, sets of nodes, and how arcs are stored and found by their ends.
//!
//! Values are kept in pages of 64 IDs, sets, with a bit for each node, in pages of 512. Memory is allocated only for
//! pages in use, and for a directory up to the greatest of them: never for a count that a text merely declares. Where
//! IDs are dense, values may stand in one piece (`DenseTable`). A network is a list of arcs in the order of the text.
//! Judges use only the trait `Network`, whose implementations may store arcs as they like. A contract has a table as a
//! function of the ID, and a network as its list.
#![tactic(auto)]

mod adjacency_lists;
mod arc_index;
mod arc_order;
mod arcs;
mod bucket_sort;
mod dense_table;
mod forward_star;
mod list_iter;
mod network;
mod node_map;
mod node_set;
mod node_table;
mod of_arcs;
mod out_arc;
mod plain_arcs;
mod tail_starts;
mod wide_map;
mod widening_list;

pub use adjacency_lists::{AdjacencyLists, Side};
pub use arc_index::ArcIndex;
pub use arcs::{ArcEnds, BoundsAndCost, CapacityArc, StoredArc, WeightArc};
pub use dense_table::{DenseTable, has_dense_ids};
pub use forward_star::ForwardStar;
pub use list_iter::ListIter;
pub use network::{ArcView, Network};
pub use node_map::NodeMap;
pub use node_set::NodeSet;
pub use node_table::{NodeTable, Slot};
pub use of_arcs::{OfCapacityArcs, OfCostArcs, OfWeightArcs};
pub use plain_arcs::{MAX_ARCS, PlainArcs};
pub use wide_map::WideMap;
pub use widening_list::{Items, ShortForm, WideningList};

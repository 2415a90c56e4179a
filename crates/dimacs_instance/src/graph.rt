//! Graphs for shortest paths.

ghost use Rattle.std.specs.Prelude.{◌≡◌, ◌≤◌, ◌<◌, ◌++◌, ◌∷◌, [], IfOk, OnOk, OnErr, length};
ghost use Rattle.dimacs_lines.specs.Limits.{most_count, most_nodes, IsNode};
ghost use Rattle.dimacs_instance.specs.Graph.{IsGraph};
ghost use Rattle.dimacs_network.specs.{Arcs.{NetworkValue}, KeptArcs.{weight_arc}};

mod reading;
mod writing;

use dimacs_lines::Memory;
use dimacs_network::{ForwardStar, Network, PlainArcs, StoredArc, WeightArc};
pub use reading::{GraphBuilder, GraphReading, read_graph};
use std::alloc::Global;
use std::marker::Model;
pub use writing::write_graph;

/// A graph for shortest paths: each arc's `cost` is its weight.
#[derive(Drop)]
pub struct Graph<N: Network> {
    network: N,
}

impl<N: Network> Model for Graph<N> {
    ghost use Rattle.dimacs_instance.specs.Graph.{IsGraph};
    ghost use Rattle.dimacs_network.specs.Arcs.{NetworkValue};

    ghost Value = { NetworkValue };

    ghost view = { λ g. record { nodes = N.node_count g.network; arcs = N.list g.network } };

    ghost invariant = { λ g. IsGraph (record { nodes = N.node_count g.network; arcs = N.list g.network }) };
}

impl Graph<PlainArcs<WeightArc>> {
    /// A graph with this many nodes, without arcs. Allocates nothing.
    pub fn new(alloc: Global, nodes: u32) -> Graph<PlainArcs<WeightArc>>
        requires nodes { nodes ≤ most_nodes }
        ensures { result ≡ record { nodes = nodes; arcs = [] } }
    {
        Graph {
            network: PlainArcs::new(alloc, nodes),
        }
    }

    /// Adds an arc.
    #[inline(always)]
    pub fn push(&mut self, arc: WeightArc) -> Result<(), Memory>
        requires tail { IsNode self.old.nodes arc.tail }
        requires head { IsNode self.old.nodes arc.head }
        requires room { length self.old.arcs < most_count }
        ensures pushed { OnOk result (self.new ≡ record self.old { arcs = self.old.arcs ++ weight_arc arc.tail arc.head arc.weight ∷ [] }) }
        ensures unchanged { OnErr result (self.new ≡ self.old) }
    {
        self.network.push(arc)
    }
}

impl<N: Network> Graph<N> {
    /// The graph over a network with its arcs. Allocates nothing.
    pub fn over(network: N) -> Graph<N>
        requires { IsGraph (record { nodes = N.node_count network; arcs = N.list network }) }
        ensures { result ≡ record { nodes = N.node_count network; arcs = N.list network } }
    {
        Graph { network }
    }

    /// The nodes and arcs.
    pub fn network(&self) -> &N
        ensures nodes { N.node_count result.now ≡ self.now.nodes }
        ensures arcs { N.list result.now ≡ self.now.arcs }
        ensures lawful { IsGraph self.now }
    {
        &self.network
    }
}

impl<A: StoredArc> Graph<PlainArcs<A>> {
    /// The same graph with an index of its arcs by their ends. An error drops it.
    pub fn indexed(self, alloc: Global) -> Result<Graph<ForwardStar<A>>, Memory>
        ensures { IfOk result (λ indexed. indexed ≡ self) }
    {
        Ok(Graph {
            network: ForwardStar::of(alloc, self.network)?,
        })
    }
}

impl<A: StoredArc> Graph<ForwardStar<A>> {
    /// The same graph without the index. Allocates nothing.
    pub fn into_plain(self) -> Graph<PlainArcs<A>>
        ensures { result ≡ self }
    {
        Graph {
            network: self.network.into_plain(),
        }
    }
}

//! Maximum flow instances.

ghost use Rattle.std.specs.Prelude.{◌≡◌, ◌<◌, ◌++◌, ◌∷◌, [], IfOk, length, ◌≢◌, ◌≤◌, ◌≤ℤ◌, OnOk, OnErr, pos};
ghost use Rattle.dimacs_lines.specs.Limits.{most_count, most_nodes, IsNode};
ghost use Rattle.dimacs_network.specs.KeptArcs.{capacity_arc};
ghost use Rattle.dimacs_instance.specs.MaxFlows.{MaxValue, IsMax};

mod ends;
mod reading;
mod writing;

use dimacs_lines::Memory;
use dimacs_network::{CapacityArc, ForwardStar, Network, PlainArcs, StoredArc};
pub(crate) use ends::{EndLine, EndLines};
pub use reading::{MaxBuilder, MaxReading, read_max};
use std::alloc::Global;
use std::marker::Model;
pub use writing::write_max;

/// A maximum flow instance. Each arc's `cap` is its capacity.
#[derive(Drop)]
pub struct MaxInstance<N: Network> {
    source: u32,
    sink: u32,
    network: N,
}

impl<N: Network> Model for MaxInstance<N> {
    ghost use Rattle.dimacs_instance.specs.MaxFlows.{MaxValue, IsMax};

    ghost Value = { MaxValue };

    ghost view = { λ m. record { nodes = N.node_count m.network; source = m.source; sink = m.sink; arcs = N.list m.network } };

    ghost invariant = { λ m. IsMax (record { nodes = N.node_count m.network; source = m.source; sink = m.sink; arcs = N.list m.network }) };
}

impl MaxInstance<PlainArcs<CapacityArc>> {
    /// An instance with this many nodes, without arcs. Allocates nothing.
    pub fn new(
        alloc: Global,
        nodes: u32,
        source: u32,
        sink: u32,
    ) -> MaxInstance<PlainArcs<CapacityArc>>
        requires nodes { nodes ≤ most_nodes }
        requires source { IsNode nodes source }
        requires sink { IsNode nodes sink }
        requires apart { source ≢ sink }
        ensures { result ≡ record { nodes = nodes; source = source; sink = sink; arcs = [] } }
    {
        MaxInstance {
            source,
            sink,
            network: PlainArcs::new(alloc, nodes),
        }
    }

    /// Adds an arc.
    #[inline(always)]
    pub fn push(&mut self, arc: CapacityArc) -> Result<(), Memory>
        requires tail { IsNode self.old.nodes arc.tail }
        requires head { IsNode self.old.nodes arc.head }
        requires capacity { pos 0 ≤ℤ arc.cap }
        requires room { length self.old.arcs < most_count }
        ensures pushed { OnOk result (self.new ≡ record self.old { arcs = self.old.arcs ++ capacity_arc arc.tail arc.head arc.cap ∷ [] }) }
        ensures unchanged { OnErr result (self.new ≡ self.old) }
    {
        self.network.push(arc)
    }
}

impl<N: Network> MaxInstance<N> {
    /// The instance over a network with its arcs. Allocates nothing.
    pub fn over(network: N, source: u32, sink: u32) -> MaxInstance<N>
        requires { IsMax (record { nodes = N.node_count network; source = source; sink = sink; arcs = N.list network }) }
        ensures { result ≡ record { nodes = N.node_count network; source = source; sink = sink; arcs = N.list network } }
    {
        MaxInstance {
            source,
            sink,
            network,
        }
    }

    /// The nodes and arcs.
    pub fn network(&self) -> &N
        ensures nodes { N.node_count result.now ≡ self.now.nodes }
        ensures arcs { N.list result.now ≡ self.now.arcs }
        ensures lawful { IsMax self.now }
    {
        &self.network
    }

    /// The ID of the source.
    pub fn source(&self) -> u32
        ensures { result ≡ self.now.source }
    {
        self.source
    }

    /// The ID of the sink.
    pub fn sink(&self) -> u32
        ensures { result ≡ self.now.sink }
    {
        self.sink
    }
}

impl<A: StoredArc> MaxInstance<PlainArcs<A>> {
    /// The same instance with an index of its arcs by their ends. An error drops it.
    pub fn indexed(self, alloc: Global) -> Result<MaxInstance<ForwardStar<A>>, Memory>
        ensures { IfOk result (λ indexed. indexed ≡ self) }
    {
        Ok(MaxInstance {
            source: self.source,
            sink: self.sink,
            network: ForwardStar::of(alloc, self.network)?,
        })
    }
}

impl<A: StoredArc> MaxInstance<ForwardStar<A>> {
    /// The same instance without the index. Allocates nothing.
    pub fn into_plain(self) -> MaxInstance<PlainArcs<A>>
        ensures { result ≡ self }
    {
        MaxInstance {
            source: self.source,
            sink: self.sink,
            network: self.network.into_plain(),
        }
    }
}

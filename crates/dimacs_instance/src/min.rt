//! Minimum cost flow instances.

ghost use Rattle.std.specs.Prelude.{◌≡◌, ◌<◌, ◌+◌, ◌≤ℤ◌, ◌<ℤ◌, ◌+ℤ◌, ◌^◌, ◌∷◌, [], pos, IfOk, length, ◌≤◌, ◌++◌, OnOk, OnErr};
ghost use Rattle.std.specs.{List.{All}, FinMap.{empty}};
ghost use Rattle.dimacs_lines.specs.Limits.{most_nodes, most_count, IsNode};
ghost use Rattle.dimacs_network.specs.{Arcs.{JoinsNodes}, Skips.{Skips}};
ghost use Rattle.dimacs_instance.specs.MinFlows.{MinValue, IsMin, supply_of, positive_part, negative_part, supply_sum, demand_sum, HasBounds, with_supply};

mod reading;
mod writing;

use dimacs_lines::Memory;
use dimacs_network::{ArcView, ForwardStar, Network, NodeMap, PlainArcs, StoredArc};
pub use reading::{MinBuilder, MinReading, read_min};
use std::alloc::Global;
use std::marker::Model;
pub use writing::write_min;

/// A minimum cost flow instance. A node with a positive supply feeds flow into the network, one with a negative supply
/// takes flow out.
#[derive(Drop)]
pub struct MinInstance<N: Network> {
    /// The supplies of the named nodes, some perhaps 0.
    pub(crate) supplies: NodeMap<i64>,
    pub(crate) network: N,
}

impl<N: Network> Model for MinInstance<N> {
    ghost use Rattle.dimacs_instance.specs.MinFlows.{MinValue, IsMin};
    ghost use Rattle.dimacs_instance.specs.MinCodes.{min_code};
    ghost use Rattle.dimacs_records.specs.NodeValues.{without_zeros};

    ghost Value = { MinValue };

    ghost coded = { min_code };

    ghost view = { λ m. record { nodes = N.node_count m.network; supplies = without_zeros m.supplies; arcs = N.list m.network } };

    ghost invariant = { λ m. IsMin (record { nodes = N.node_count m.network; supplies = without_zeros m.supplies; arcs = N.list m.network }) };
}

/// The sums of the positive supplies and of the negative ones, both without a sign.
#[derive(Clone, Copy, Debug, PartialEq, Eq)]
pub struct SupplySums {
    pub supplied: i128,
    pub demanded: i128,
}

impl SupplySums {
    #[inline]
    fn with(self, supply: i64) -> SupplySums
        requires supplied { (pos 0 ≤ℤ self.supplied) × (self.supplied <ℤ pos (2 ^ 100)) }
        requires demanded { (pos 0 ≤ℤ self.demanded) × (self.demanded <ℤ pos (2 ^ 100)) }
        ensures supplied { result.supplied ≡ self.supplied +ℤ pos (positive_part supply) }
        ensures demanded { result.demanded ≡ self.demanded +ℤ pos (negative_part supply) }
    {
        let supply = i128::from(supply);
        if supply > 0 {
            SupplySums {
                supplied: self.supplied + supply,
                ..self
            }
        } else {
            SupplySums {
                demanded: self.demanded - supply,
                ..self
            }
        }
    }
}

impl MinInstance<PlainArcs<ArcView>> {
    /// An instance with this many nodes of supply 0, without arcs. Allocates nothing.
    pub fn new(alloc: Global, nodes: u32) -> MinInstance<PlainArcs<ArcView>>
        requires nodes { nodes ≤ most_nodes }
        ensures { result ≡ record { nodes = nodes; supplies = empty; arcs = [] } }
    {
        MinInstance {
            supplies: NodeMap::new(alloc),
            network: PlainArcs::new(alloc, nodes),
        }
    }

    /// Sets the supply of a node.
    #[inline]
    pub fn set_supply(&mut self, id: u32, supply: i64) -> Result<(), Memory>
        requires node { IsNode self.old.nodes id }
        ensures set { OnOk result (self.new ≡ with_supply self.old id supply) }
        ensures unchanged { OnErr result (self.new ≡ self.old) }
    {
        self.supplies.set(id, supply)
    }

    /// Adds an arc.
    #[inline(always)]
    pub fn push(&mut self, arc: ArcView) -> Result<(), Memory>
        requires joined { JoinsNodes self.old.nodes arc }
        requires bounds { HasBounds arc }
        requires room { length self.old.arcs < most_count }
        ensures pushed { OnOk result (self.new ≡ record self.old { arcs = self.old.arcs ++ arc ∷ [] }) }
        ensures unchanged { OnErr result (self.new ≡ self.old) }
    {
        self.network.push(arc)
    }

    /// The same supplies over a network with its arcs. Drops arcs added before. Allocates nothing.
    pub fn over<N: Network>(self, network: N) -> MinInstance<N>
        requires nodes { N.node_count network ≡ self.nodes }
        requires few { length (N.list network) ≤ most_count }
        requires joined { All (JoinsNodes self.nodes) (N.list network) }
        requires bounds { All HasBounds (N.list network) }
        ensures { result ≡ record self { arcs = N.list network } }
    {
        MinInstance {
            supplies: self.supplies,
            network,
        }
    }
}

impl<N: Network> MinInstance<N> {
    /// The nodes and arcs.
    pub fn network(&self) -> &N
        ensures nodes { N.node_count result.now ≡ self.now.nodes }
        ensures arcs { N.list result.now ≡ self.now.arcs }
        ensures lawful { IsMin self.now }
    {
        &self.network
    }

    /// The supply of a node; 0 for an ID that is no node.
    #[inline]
    pub fn supply(&self, id: u32) -> i64
        ensures { result ≡ supply_of self.now id }
    {
        self.supplies.get(id).unwrap_or(0)
    }

    /// Goes from `from` over nodes without a supply, at most to `end`.
    #[inline]
    pub fn next_supply(&self, from: u32, end: u32) -> u32
        requires { from ≤ end }
        ensures { Skips (λ id. supply_of self.now id ≡ pos 0) from end result }
    {
        self.supplies.next(from, end)
    }

    /// The sums of the supplies.
    pub fn supply_sums(&self) -> SupplySums
        ensures supplied { result.supplied ≡ pos (supply_sum self.now) }
        ensures demanded { result.demanded ≡ pos (demand_sum self.now) }
    {
        let mut sums = SupplySums {
            supplied: 0,
            demanded: 0,
        };
        let end = self.network().nodes() + 1;
        let mut id = 1;
        while id < end {
            sums = sums.with(self.supply(id));
            id = self.next_supply(id + 1, end);
        }
        sums
    }
}

impl<A: StoredArc> MinInstance<PlainArcs<A>> {
    /// The same instance with an index of its arcs by their ends. An error drops it.
    pub fn indexed(self, alloc: Global) -> Result<MinInstance<ForwardStar<A>>, Memory>
        ensures { IfOk result (λ indexed. indexed ≡ self) }
    {
        Ok(MinInstance {
            supplies: self.supplies,
            network: ForwardStar::of(alloc, self.network)?,
        })
    }
}

impl<A: StoredArc> MinInstance<ForwardStar<A>> {
    /// The same instance without the index. Allocates nothing.
    pub fn into_plain(self) -> MinInstance<PlainArcs<A>>
        ensures { result ≡ self }
    {
        MinInstance {
            supplies: self.supplies,
            network: self.network.into_plain(),
        }
    }
}

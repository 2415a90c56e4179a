//! The arcs of each tail or head, linked.

ghost use Rattle.std.specs.Prelude.{◌≡◌, ◌<◌, length, slice_index, IfOk};
ghost use Rattle.dimacs_network.specs.{Tables.{value_of}, AdjacencyLists.{AreAdjacencyLists, end_of, other_end}};

use crate::network::{ArcView, Network};
use crate::node_table::NodeTable;
use dimacs_lines::Memory;
use std::alloc::Global;

/// One end of an arc.
#[derive(Clone, Copy)]
pub enum Side {
    Tail,
    Head,
}

impl Side {
    /// The end on this side.
    #[inline(always)]
    pub fn end_of(self, arc: ArcView) -> u32
        ensures { result ≡ end_of self arc }
    {
        match self {
            Side::Tail => arc.tail,
            Side::Head => arc.head,
        }
    }

    /// The end on the other side.
    #[inline(always)]
    pub fn other_end(self, arc: ArcView) -> u32
        ensures { result ≡ other_end self arc }
    {
        match self {
            Side::Tail => arc.head,
            Side::Head => arc.tail,
        }
    }
}

/// Linked lists of arcs by one end. Each node leads to its last arc, each arc to the one before it at its node, by 1 +
/// the index of the arc; 0 ends the list.
#[derive(Drop)]
pub struct AdjacencyLists {
    last: NodeTable<u32>,
    before: Vec<u32>,
}

impl AdjacencyLists {
    /// Makes the lists in one pass. They take 4 bytes an arc, and 256 for each page of 64 nodes with arcs.
    pub fn new<N: Network>(alloc: Global, network: &N, side: Side) -> Result<AdjacencyLists, Memory>
        ensures { IfOk result (AreAdjacencyLists side (N.list network.now)) }
    {
        let mut last = NodeTable::new(alloc, 0);
        let mut before = Vec::with_capacity(alloc, network.arcs() as usize)?;
        for i in 0..network.arcs() {
            let node = side.end_of(network.arc(i));
            before.push(last.get(node))?;
            last.set(node, i + 1)?;
        }
        Ok(AdjacencyLists { last, before })
    }

    /// The table of the nodes' last arcs: 1 + the index of each; 0 if a node has none.
    #[inline(always)]
    pub fn last_arcs(&self) -> &NodeTable<u32>
        ensures { result.now ≡ self.now.last }
    {
        &self.last
    }

    /// 1 + the index of the node's last arc; 0 if it has none.
    #[inline(always)]
    pub fn last(&self, node: u32) -> u32
        ensures { result ≡ value_of self.now.last node }
    {
        self.last.get(node)
    }

    /// 1 + the index of the arc before this one at its node; 0 if there is none.
    #[inline(always)]
    pub fn before(&self, arc: u32) -> u32
        requires { arc < length self.now.before.items }
        ensures { result ≡ slice_index self.now.before.items arc }
    {
        self.before[arc as usize]
    }
}

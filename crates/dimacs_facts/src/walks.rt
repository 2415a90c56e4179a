//! Walks from a source to nodes.

ghost use Rattle.std.specs.Prelude.{ℕ, ℤ, List, IsTrue};
ghost use Rattle.dimacs_facts.specs.Walks.{AreWalksFrom, HasWalk, IsNear};
ghost use Rattle.dimacs_judging.specs.Walks.{Beyond};
ghost use Rattle.dimacs_network.specs.declared.network.ArcView.{ArcView};

use dimacs_network::NodeMap;

/// A walk from a source to a node.
#[derive(Clone, Copy)]
pub struct Walk {
    pub weight: i128,
    /// The index of its last arc, if it has one.
    pub last: Option<u32>,
    /// The round of the search in which it was found.
    pub round: u32,
}

/// Walks from a source to nodes.
#[derive(Drop)]
pub struct Walks {
    pub(crate) by_node: NodeMap<Walk>,
    /// Whether none weighs less: not if that wasn't found in the steps that were left.
    pub(crate) are_least: bool,
    /// A node on a cycle of last arcs, if one was found.
    pub(crate) on_cycle: Option<u32>,
}

impl Walks {
    /// Whether every walk to the node weighs more than this. False if that isn't known.
    pub fn lead_beyond(&self, node: u32, dist: i128) -> bool
        ensures { (g : List ArcView) (s : ℕ) → AreWalksFrom g s self.now → IsTrue result → Beyond g s node dist }
    {
        self.are_least
            && match self.by_node.get(node) {
                Some(walk) => walk.weight > dist,
                None => true,
            }
    }

    /// Whether a walk to the node was found that weighs this or less.
    pub fn lead_within(&self, node: u32, dist: i128) -> bool
        ensures { (g : List ArcView) (s : ℕ) → AreWalksFrom g s self.now → IsTrue result → IsNear g s node dist }
    {
        match self.by_node.get(node) {
            Some(walk) => walk.weight <= dist,
            None => false,
        }
    }

    /// Whether a walk to the node was found.
    pub(crate) fn lead_to(&self, node: u32) -> bool
        ensures { (g : List ArcView) (s : ℕ) → AreWalksFrom g s self.now → IsTrue result → (d : ℤ) × HasWalk g s node d }
    {
        match self.by_node.get(node) {
            Some(_walk) => true,
            None => false,
        }
    }
}

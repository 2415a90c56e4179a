//! What a search knows about the nodes.

ghost use Rattle.std.specs.Prelude.{◌≡◌, ◌≤◌, ◌<◌, ◌+◌, ◌^◌, ℕ, IsTrue, OnOk, ◌↔◌};
ghost use Rattle.dimacs_network.specs.Tables.{value_of};

use crate::distance::SearchDistance;
use dimacs_lines::Memory;
use dimacs_network::NodeTable;
use std::alloc::Global;

/// A state from an earlier round counts as none.
#[derive(Clone, Copy)]
struct NodeState<D> {
    dist: D,
    round: u32,
    settled: bool,
}

/// A new round takes no time and keeps the memory.
#[derive(Drop)]
pub(crate) struct NodeStates<D> {
    round: u32,
    node_states: NodeTable<NodeState<D>>,
    ghost no_later: { (v : ℕ) → (value_of node_states v).round ≤ round },
}

impl<D: SearchDistance> NodeStates<D> {
    ghost use Rattle.dimacs_solve.specs.inside.NodeStates.{AreUnknown, IsReachedWithin, Reached, Sets, Settled, is_settled, known};

    /// Allocates nothing.
    pub(crate) fn new(alloc: Global) -> NodeStates<D>
        ensures { result.round ≡ 0 }
    {
        let unknown = NodeState {
            dist: D::zero(),
            round: 0,
            settled: false,
        };
        NodeStates {
            round: 0,
            node_states: NodeTable::new(alloc, unknown),
        }
    }

    pub(crate) fn next_round(&mut self)
        requires { self.old.round + 1 < 2 ^ 32 }
        ensures round { self.new.round ≡ self.old.round + 1 }
        ensures unknown { AreUnknown (known D.value self.new) }
    {
        self.round += 1;
    }

    #[inline]
    pub(crate) fn is_within(&self, node: u32, dist: D) -> bool
        ensures { IsTrue result ↔ IsReachedWithin (known D.value self.now node) (D.value dist) }
    {
        let node_state = self.node_states.get(node);
        node_state.round == self.round && node_state.dist <= dist
    }

    #[inline]
    pub(crate) fn is_settled(&self, node: u32) -> bool
        ensures { result ≡ is_settled (known D.value self.now node) }
    {
        let node_state = self.node_states.get(node);
        node_state.round == self.round && node_state.settled
    }

    #[inline]
    pub(crate) fn reach(&mut self, node: u32, dist: D) -> Result<(), Memory>
        ensures round { OnOk result (self.new.round ≡ self.old.round) }
        ensures reached { OnOk result (Sets (known D.value self.old) node (Reached (D.value dist)) (known D.value self.new)) }
    {
        let round = self.round;
        let node_state = NodeState {
            dist,
            round,
            settled: false,
        };
        self.node_states.set(node, node_state)?;
        Ok(())
    }

    #[inline]
    pub(crate) fn settle(&mut self, node: u32, dist: D) -> Result<(), Memory>
        ensures round { OnOk result (self.new.round ≡ self.old.round) }
        ensures settled { OnOk result (Sets (known D.value self.old) node (Settled (D.value dist)) (known D.value self.new)) }
    {
        let round = self.round;
        let node_state = NodeState {
            dist,
            round,
            settled: true,
        };
        self.node_states.set(node, node_state)?;
        Ok(())
    }
}

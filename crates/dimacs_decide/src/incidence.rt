//! Adjacency lists in both directions.

ghost use Rattle.std.specs.Prelude.{◌≡◌, IfOk};
ghost use Rattle.dimacs_decide.specs.Incidence.{IsIncidenceOf, lists_at};

use dimacs_lines::Memory;
use dimacs_network::{AdjacencyLists, Network, Side};
use std::alloc::Global;

/// For each node the arcs that leave it and those that enter it.
#[derive(Drop)]
pub struct Incidence {
    leaving: AdjacencyLists,
    entering: AdjacencyLists,
}

impl Incidence {
    /// Takes 8 bytes for each arc, and 8 for each node that has one.
    pub fn new<N: Network>(alloc: Global, network: &N) -> Result<Incidence, Memory>
        ensures { IfOk result (IsIncidenceOf (N.list network.now)) }
    {
        Ok(Incidence {
            leaving: AdjacencyLists::new(alloc, network, Side::Tail)?,
            entering: AdjacencyLists::new(alloc, network, Side::Head)?,
        })
    }

    #[inline(always)]
    pub(crate) fn lists(&self, side: Side) -> &AdjacencyLists
        ensures { result.now ≡ lists_at side self.now }
    {
        match side {
            Side::Tail => &self.leaving,
            Side::Head => &self.entering,
        }
    }
}

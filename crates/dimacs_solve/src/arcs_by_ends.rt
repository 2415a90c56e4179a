//! Finding the arcs of a network by their ends.

ghost use Rattle.std.specs.Prelude.{◌≡◌, ◌<◌, Some, length, slice_get, IfOk};
ghost use Rattle.dimacs_network.specs.Arcs.{IsKthBetween};
ghost use Rattle.dimacs_solve.specs.inside.Rests.{IsFirstParallel};

use dimacs_lines::Memory;
use dimacs_network::{ArcIndex, ArcView, Network};
use std::alloc::Global;
use std::marker::Model;

/// The arcs of a network, with an index that finds the first arc between two nodes.
#[derive(Drop)]
pub(crate) struct ArcsByEnds<'a, N: Network> {
    network: &'a N,
    index: ArcIndex,
}

impl<'a, N: Network> Model for ArcsByEnds<'a, N> {
    ghost use Rattle.std.specs.Prelude.{List};
    ghost use Rattle.dimacs_network.specs.declared.network.ArcView.{ArcView};
    ghost use Rattle.dimacs_network.specs.ArcOrder.{Indexes};

    ghost Value = { List ArcView };

    ghost view = { λ p. N.list p.network.now };

    ghost invariant = { λ p. Indexes (N.list p.network.now) p.index };
}

impl<'a, N: Network> ArcsByEnds<'a, N> {
    pub(crate) fn of(alloc: Global, network: &'a N) -> Result<ArcsByEnds<'a, N>, Memory>
        ensures { IfOk result (λ arcs. arcs ≡ N.list network.now) }
    {
        let mut index = ArcIndex::with_room_for(alloc, network)?;
        index.fill(network);
        Ok(ArcsByEnds { network, index })
    }

    pub(crate) fn len(&self) -> u32
        ensures { result ≡ length self.now }
    {
        self.network.arcs()
    }

    pub(crate) fn arc(&self, arc: u32) -> ArcView
        requires { arc < length self.now }
        ensures { slice_get self.now arc ≡ Some result }
    {
        self.network.arc(arc)
    }

    pub(crate) fn first(&self, tail: u32, head: u32) -> Option<u32>
        ensures { IsKthBetween self.now tail head 0 result }
    {
        self.index.find(tail, head, 0)
    }

    /// The first of the arcs parallel to this one, or itself.
    pub(crate) fn first_parallel(&self, arc: u32) -> u32
        requires { arc < length self.now }
        ensures { IsFirstParallel self.now arc result }
    {
        let view = self.arc(arc);
        let Some(first) = self.first(view.tail, view.head) else {
            unreachable!()
        };
        first
    }
}

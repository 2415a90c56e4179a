//! A network that finds its arcs by their ends.

ghost use Rattle.std.specs.Prelude.{◌≡◌, IfOk, IfErr};
ghost use Rattle.dimacs_network.specs.declared.network.ArcView.{ArcView};

use crate::arc_index::ArcIndex;
use crate::arcs::StoredArc;
use crate::network::{ArcView, Network};
use crate::plain_arcs::PlainArcs;
use dimacs_lines::Memory;
use std::alloc::Global;
use std::marker::Model;

/// Arcs in the order of the text with an index by their ends, which takes at most 16 bytes an arc.
#[derive(Drop)]
pub struct ForwardStar<A: StoredArc> {
    arcs: PlainArcs<A>,
    index: ArcIndex,
}

impl<A: StoredArc> Model for ForwardStar<A> {
    ghost use Rattle.dimacs_network.specs.Arcs.{NetworkValue};
    ghost use Rattle.dimacs_network.specs.ArcOrder.{Indexes};

    ghost Value = { NetworkValue };

    ghost view = { λ s. s.arcs };

    ghost invariant = { λ s. Indexes s.arcs.arcs s.index };
}

impl<A: StoredArc> ForwardStar<A> {
    /// Builds the index. If there is no memory for it, returns the arcs unchanged.
    pub fn build(
        alloc: Global,
        arcs: PlainArcs<A>,
    ) -> Result<ForwardStar<A>, (PlainArcs<A>, Memory)>
        ensures same { IfOk result (λ star. star ≡ arcs) }
        ensures unchanged { IfErr result (λ refused. refused.0 ≡ arcs) }
    {
        let Ok(mut index) = ArcIndex::with_room_for(alloc, &arcs) else {
            return Err((arcs, Memory));
        };
        index.fill(&arcs);
        Ok(ForwardStar { arcs, index })
    }

    /// As `build`, but drops the arcs if memory runs out.
    pub fn of(alloc: Global, arcs: PlainArcs<A>) -> Result<ForwardStar<A>, Memory>
        ensures { IfOk result (λ star. star ≡ arcs) }
    {
        match ForwardStar::build(alloc, arcs) {
            Ok(star) => Ok(star),
            Err((_, memory)) => Err(memory),
        }
    }

    /// The arcs without the index. Allocates nothing.
    pub fn into_plain(self) -> PlainArcs<A>
        ensures { result ≡ self }
    {
        self.arcs
    }
}

impl<A: StoredArc> Network for ForwardStar<A> {
    ghost node_count = { λ n. n.nodes };

    ghost list = { λ n. n.arcs };

    fn nodes(&self) -> u32 {
        self.arcs.nodes()
    }

    fn arcs(&self) -> u32 {
        self.arcs.arcs()
    }

    #[inline(always)]
    fn arc(&self, i: u32) -> ArcView {
        self.arcs.arc(i)
    }

    #[inline(always)]
    fn is_indexed(&self) -> bool {
        true
    }

    fn find(&self, tail: u32, head: u32, k: u32) -> Option<u32> {
        self.index.find(tail, head, k)
    }
}

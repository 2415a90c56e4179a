//! Networks without an index.

ghost use Rattle.std.specs.Prelude.{◌≡◌, ◌<◌, ◌≤◌, ◌++◌, ◌∷◌, [], length, OnOk, OnErr};
ghost use Rattle.dimacs_lines.specs.Limits.{most_count};
ghost use Rattle.dimacs_network.specs.declared.network.ArcView.{ArcView};

use crate::arcs::{ArcEnds, StoredArc};
use crate::network::{ArcView, Network};
use crate::widening_list::{ShortForm, WideningList};
use dimacs_lines::Memory;
use std::alloc::Global;
use std::marker::Model;

/// The most arcs of a network, as many as a text may declare.
pub const MAX_ARCS: u32 = 268_435_456;

/// Arcs in the order of the text, without an index: `find` goes over all of them.
#[derive(Drop)]
pub struct PlainArcs<A: StoredArc> {
    nodes: u32,
    ends: Vec<ArcEnds>,
    numbers: WideningList<A::Short, Vec<<A::Short as ShortForm>::Long>>,
}

impl<A: StoredArc> Model for PlainArcs<A> {
    ghost use Rattle.std.specs.Prelude.{◌≤◌, ◌≡◌, length};
    ghost use Rattle.dimacs_lines.specs.Limits.{most_count};
    ghost use Rattle.dimacs_network.specs.Arcs.{NetworkValue};
    ghost use Rattle.dimacs_network.specs.KeptArcs.{arcs_of};

    ghost Value = { NetworkValue };

    ghost view = { λ n. record { nodes = n.nodes; arcs = arcs_of A.arc_of n.ends.items n.numbers } };

    ghost invariant = { λ n. (length n.ends.items ≤ most_count) × (length n.numbers ≡ length n.ends.items) };
}

impl<A: StoredArc> PlainArcs<A> {
    /// A network without arcs.
    pub fn new(alloc: Global, nodes: u32) -> PlainArcs<A>
        ensures { result ≡ record { nodes = nodes; arcs = [] } }
    {
        PlainArcs {
            nodes,
            ends: Vec::new(alloc),
            numbers: WideningList::new(alloc),
        }
    }

    /// Adds an arc at the end.
    #[inline(always)]
    pub fn push(&mut self, arc: A) -> Result<(), Memory>
        requires { length self.old.arcs < most_count }
        ensures pushed { OnOk result (self.new ≡ record self.old { arcs = self.old.arcs ++ A.shows arc ∷ [] }) }
        ensures unchanged { OnErr result (self.new ≡ self.old) }
    {
        let (ends, numbers) = arc.into_parts();
        self.ends.reserve(1)?;
        self.numbers.push(numbers)?;
        self.ends.push_reserved(ends);
        Ok(())
    }
}

impl<A: StoredArc> Network for PlainArcs<A> {
    ghost node_count = { λ n. n.nodes };

    ghost list = { λ n. n.arcs };

    fn nodes(&self) -> u32 {
        self.nodes
    }

    fn arcs(&self) -> u32 {
        self.ends.len() as u32
    }

    #[inline(always)]
    fn arc(&self, i: u32) -> ArcView {
        A::from_parts(self.ends[i as usize], self.numbers.at(i as usize))
    }
}

//! A network of the arcs in a caller's arrays, without a copy.

ghost use Rattle.std.specs.Prelude.{◌≡◌, ◌<◌, ◌≤◌, ℕ, IfOk};
ghost use Rattle.dimacs_lines.specs.Limits.{most_count};
ghost use Rattle.dimacs_network.specs.declared.network.ArcView.{ArcView};
ghost use Rattle.dimacs_arrays.specs.{Lent.{lent_arcs}, inside.Lent.{TestsArcs}};

use crate::limits::{PastLimit, arcs_hold};
use dimacs_network::{ArcView, Network};
use std::marker::Model;

/// Arrays with an item for each arc.
pub trait ArcArrays: Copy {
    ghost arc_of: { Self → ℕ → ArcView };

    ghost HasArc: { Self → ℕ → Type 0 };

    /// The arc with this index, from 0.
    fn arc(&self, k: usize) -> ArcView
        requires { HasArc self.now k }
        ensures { result ≡ arc_of self.now k };
}

/// The arcs of arrays. There is no index: `find` goes over all of them.
#[derive(Drop)]
pub struct LentArcs<A: ArcArrays> {
    nodes: u32,
    count: u32,
    arrays: A,
}

impl<A: ArcArrays> Model for LentArcs<A> {
    ghost use Rattle.std.specs.Prelude.{◌<◌, ◌≤◌, ℕ};
    ghost use Rattle.dimacs_lines.specs.Limits.{most_count};
    ghost use Rattle.dimacs_network.specs.Arcs.{NetworkValue};
    ghost use Rattle.dimacs_arrays.specs.Lent.{lent_arcs};

    ghost Value = { NetworkValue };

    ghost view = { λ l. record { nodes = l.nodes; arcs = lent_arcs (A.arc_of l.arrays) l.count } };

    ghost invariant = { λ l. ((k : ℕ) → k < l.count → A.HasArc l.arrays k) × (l.count ≤ most_count) };
}

impl<A: ArcArrays> LentArcs<A> {
    /// The network, or the first arc out of the ranges of instances.
    pub(crate) fn of(arrays: A, nodes: u32, count: usize) -> Result<LentArcs<A>, PastLimit>
        requires each { (k : ℕ) → k < count → A.HasArc arrays k }
        requires arc_limit { count ≤ most_count }
        ensures network { IfOk result (λ network. network ≡ record { nodes = nodes; arcs = lent_arcs (A.arc_of arrays) count }) }
        ensures arcs { TestsArcs nodes (lent_arcs (A.arc_of arrays) count) result }
    {
        let network = LentArcs {
            nodes,
            count: count as u32,
            arrays,
        };
        arcs_hold(&network)?;
        Ok(network)
    }
}

// The contracts are those of `Network`, in dimacs_network/src/network.rt.
impl<A: ArcArrays> Network for LentArcs<A> {
    ghost node_count = { λ n. n.nodes };

    ghost list = { λ n. n.arcs };

    #[inline(always)]
    fn nodes(&self) -> u32 {
        self.nodes
    }

    #[inline(always)]
    fn arcs(&self) -> u32 {
        self.count
    }

    #[inline(always)]
    fn arc(&self, i: u32) -> ArcView {
        self.arrays.arc(i as usize)
    }
}

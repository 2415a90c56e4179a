//! Minimum cost flow instances as arrays.

ghost use Rattle.std.specs.Prelude.{◌≡◌, ◌<◌, ◌≤◌, [], length, IfOk};
ghost use Rattle.dimacs_lines.specs.Limits.{most_nodes};
ghost use Rattle.dimacs_arrays.specs.MinArrays.{min_arc, min_lengths, min_limits, min_spelled, supplies_by_node};
ghost use Rattle.dimacs_arrays.specs.inside.Answers.{Spells, TestsLengths};

use crate::error::{Array, ArrayError};
use crate::lengths::{ArrayLength, lengths_hold};
use crate::lent_arcs::{ArcArrays, LentArcs};
use crate::limits::counts_hold;
use dimacs_instance::MinInstance;
use dimacs_lines::Memory;
use dimacs_network::{ArcView, PlainArcs};
use std::alloc::Global;

/// A minimum cost flow instance as arrays: the k-th arc goes from the k-th tail to the k-th head and has the k-th lower
/// bound, capacity and cost. The supply of node 1 comes first.
#[repr(C)]
#[derive(Clone, Copy)]
pub struct MinArrays<'a> {
    pub nodes: u32,
    pub tails: &'a [u32],
    pub heads: &'a [u32],
    pub lows: &'a [i64],
    pub caps: &'a [i64],
    pub costs: &'a [i64],
    pub supplies: &'a [i64],
}

// The contracts are those of `ArcArrays`, in lent_arcs.rt.
impl<'a> ArcArrays for MinArrays<'a> {
    ghost arc_of = { min_arc };

    ghost HasArc = { λ a k. (k < length a.tails.now) × (k < length a.heads.now) × (k < length a.lows.now)
        × (k < length a.caps.now) × (k < length a.costs.now) };

    #[inline(always)]
    fn arc(&self, k: usize) -> ArcView {
        ArcView {
            tail: self.tails[k],
            head: self.heads[k],
            low: self.lows[k],
            cap: self.caps[k],
            cost: self.costs[k],
        }
    }
}

impl<'a> MinArrays<'a> {
    pub(crate) fn lengths_hold(&self) -> Result<(), ArrayError>
        ensures { TestsLengths (min_lengths self.now) result }
    {
        let arcs = self.tails.len();
        lengths_hold(&[
            ArrayLength::of(Array::Heads, self.heads.len(), arcs),
            ArrayLength::of(Array::Lows, self.lows.len(), arcs),
            ArrayLength::of(Array::Caps, self.caps.len(), arcs),
            ArrayLength::of(Array::Costs, self.costs.len(), arcs),
            ArrayLength::of(Array::Supplies, self.supplies.len(), self.nodes as usize),
        ])
    }

    /// The instance without its arcs.
    fn without_arcs(&self, alloc: Global) -> Result<MinInstance<PlainArcs<ArcView>>, Memory>
        requires node_limit { self.now.nodes ≤ most_nodes }
        requires supplies { length self.now.supplies.now ≡ self.now.nodes }
        ensures { IfOk result (λ instance. instance ≡ record { nodes = self.now.nodes; supplies = supplies_by_node self.now.supplies.now; arcs = [] }) }
    {
        let mut instance = MinInstance::new(alloc, self.nodes);
        for i in 0..self.nodes {
            instance.set_supply(i + 1, self.supplies[i as usize])?;
        }
        Ok(instance)
    }

    /// The instance that the arrays spell, or the first number past its limit.
    pub(crate) fn instance(
        &self,
        alloc: Global,
    ) -> Result<MinInstance<LentArcs<MinArrays<'a>>>, ArrayError>
        requires heads { length self.now.heads.now ≡ length self.now.tails.now }
        requires lows { length self.now.lows.now ≡ length self.now.tails.now }
        requires caps { length self.now.caps.now ≡ length self.now.tails.now }
        requires costs { length self.now.costs.now ≡ length self.now.tails.now }
        requires supplies { length self.now.supplies.now ≡ self.now.nodes }
        ensures { Spells (min_limits self.now) (min_spelled self.now) result }
    {
        counts_hold(self.nodes, self.tails.len())?;
        let network = LentArcs::of(*self, self.nodes, self.tails.len())?;
        Ok(self.without_arcs(alloc)?.over(network))
    }
}

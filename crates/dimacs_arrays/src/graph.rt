//! Graphs as arrays.

ghost use Rattle.std.specs.Prelude.{◌≡◌, ◌<◌, length, IfOk, OnOk};
ghost use Rattle.dimacs_lines.specs.Limits.{IsNode};
ghost use Rattle.dimacs_instance.specs.Graph.{IsGraph};
ghost use Rattle.dimacs_arrays.specs.GraphArrays.{graph_lengths, graph_limits, graph_spelled, weighted_arc};
ghost use Rattle.dimacs_arrays.specs.{Spelled.{arc_limits}, inside.Answers.{Spells, TestsLengths}};

use crate::error::{Array, ArrayError};
use crate::lengths::{ArrayLength, lengths_hold};
use crate::lent_arcs::{ArcArrays, LentArcs};
use crate::limits::{counts_hold, node_holds};
use dimacs_instance::Graph;
use dimacs_network::ArcView;

/// A graph as arrays: the k-th arc goes from the k-th tail to the k-th head and has the k-th weight.
#[repr(C)]
#[derive(Clone, Copy)]
pub struct GraphArrays<'a> {
    pub nodes: u32,
    pub tails: &'a [u32],
    pub heads: &'a [u32],
    pub weights: &'a [i64],
}

// The contracts are those of `ArcArrays`, in lent_arcs.rt.
impl<'a> ArcArrays for GraphArrays<'a> {
    ghost arc_of = { weighted_arc };

    ghost HasArc = { λ a k. (k < length a.tails.now) × (k < length a.heads.now) × (k < length a.weights.now) };

    #[inline(always)]
    fn arc(&self, k: usize) -> ArcView {
        ArcView {
            tail: self.tails[k],
            head: self.heads[k],
            low: 0,
            cap: 0,
            cost: self.weights[k],
        }
    }
}

impl<'a> GraphArrays<'a> {
    pub(crate) fn lengths_hold(&self) -> Result<(), ArrayError>
        ensures { TestsLengths (graph_lengths self.now) result }
    {
        let arcs = self.tails.len();
        lengths_hold(&[
            ArrayLength::of(Array::Heads, self.heads.len(), arcs),
            ArrayLength::of(Array::Weights, self.weights.len(), arcs),
        ])
    }

    /// The graph that the arrays spell, or the first number past its limit.
    pub(crate) fn without_source(&self) -> Result<Graph<LentArcs<GraphArrays<'a>>>, ArrayError>
        requires heads { length self.now.heads.now ≡ length self.now.tails.now }
        requires weights { length self.now.weights.now ≡ length self.now.tails.now }
        ensures spells { Spells (arc_limits self.now) (graph_spelled self.now) result }
        ensures lawful { IfOk result IsGraph }
    {
        counts_hold(self.nodes, self.tails.len())?;
        Ok(Graph::over(LentArcs::of(*self, self.nodes, self.tails.len())?))
    }

    /// The same; the source is tested, too.
    pub(crate) fn graph(&self, source: u32) -> Result<Graph<LentArcs<GraphArrays<'a>>>, ArrayError>
        requires heads { length self.now.heads.now ≡ length self.now.tails.now }
        requires weights { length self.now.weights.now ≡ length self.now.tails.now }
        ensures spells { Spells (graph_limits self.now source) (graph_spelled self.now) result }
        ensures lawful { IfOk result IsGraph }
        ensures source { OnOk result (IsNode self.now.nodes source) }
    {
        counts_hold(self.nodes, self.tails.len())?;
        node_holds(self.nodes, source)?;
        Ok(Graph::over(LentArcs::of(*self, self.nodes, self.tails.len())?))
    }
}

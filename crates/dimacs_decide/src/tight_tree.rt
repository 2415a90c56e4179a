//! A search in breadth over tight arcs: their weight is the difference of the claims of their ends.

ghost use Rattle.std.specs.Prelude.{◌≡◌, ◌<◌, ◌≤◌, ◌+ℤ◌, ◌↔◌, ℕ, ℤ, List, Option, is_some, IsTrue, All, length, false, true, Some, IfOk, IfSome, OnOk, MatchOption, pos};
ghost use Rattle.dimacs_lines.specs.Limits.{most_nodes, IsNode};
ghost use Rattle.dimacs_records.specs.Ranges.{IsWide};
ghost use Rattle.dimacs_network.specs.{Arcs.{JoinsNodes, arc_at}, AdjacencyLists.{AreAdjacencyLists}};
ghost use Rattle.dimacs_network.specs.{declared.adjacency_lists.Side.TheVariants.{Tail}, Tables.{value_of}};
ghost use Rattle.dimacs_network.specs.declared.network.ArcView.{ArcView};
ghost use Rattle.dimacs_claims.specs.Labels.{label};
ghost use Rattle.dimacs_decide.specs.{Distances.{IsTight}, inside.FewLabels.{IsUnreached}};
ghost use Rattle.dimacs_decide.specs.inside.TightTrees.{IsFollowed, IsTightTree, IsWholeTightTree, TreeGrows, node_at};

use crate::claim::DistanceClaim;
use dimacs_claims::{Block, Label};
use dimacs_lines::Memory;
use dimacs_network::{AdjacencyLists, ArcView, Network, NodeTable};
use std::alloc::Global;

/// The labels of the nodes that a search over tight arcs has reached, in order, with predecessors in the search.
#[derive(Drop)]
pub(crate) struct TightTree {
    block: Block,
    reached: NodeTable<bool>,
}

impl TightTree {
    /// The search that has reached only its source. No node of the table is reached yet.
    pub fn new(alloc: Global, source: u32, reached: NodeTable<bool>) -> Result<TightTree, Memory>
        requires { IsUnreached (value_of reached) }
        ensures source { IfOk result (λ tree. tree.block.source ≡ source) }
        ensures tree { IfOk result (λ tree. (nodes : ℕ) (arcs : List ArcView) (claimed : ℕ → Option ℤ)
            → IsNode nodes source → claimed source ≡ Some (pos 0) → IsTightTree nodes arcs claimed tree.block (value_of tree.reached)) }
    {
        let mut reached = reached;
        reached.set(source, true)?;
        let block = Block::new(alloc, source);
        Ok(TightTree { block, reached })
    }

    #[inline(always)]
    pub fn reaches(&self, node: u32) -> bool
        ensures { result ≡ value_of self.now.reached node }
    {
        self.reached.get(node)
    }

    pub fn into_block(self) -> Block
        ensures { result ≡ self.block }
    {
        self.block
    }

    /// The labels, and the table, with no node reached. Takes time in proportion to the labels.
    pub fn into_parts(self) -> Result<(Block, NodeTable<bool>), Memory>
        requires { (v : ℕ) → value_of self.reached v ≡ is_some (label self.block v) }
        ensures block { IfOk result (λ parts. parts.0 ≡ self.block) }
        ensures unreached { IfOk result (λ parts. IsUnreached (value_of parts.1)) }
    {
        let block = self.block;
        let mut reached = self.reached;
        reached.set(block.source(), false)?;
        let labels = block.labels();
        for i in 0..labels.len() {
            reached.set(labels.at(i).id, false)?;
        }
        Ok((block, reached))
    }

    /// The number of nodes reached, without the source.
    #[inline(always)]
    fn len(&self) -> usize
        ensures { result ≡ length self.now.block.labels }
    {
        self.block.labels().len()
    }

    /// The node at a place in the order of the search; the source is at 0.
    #[inline(always)]
    fn node(&self, at: usize) -> u32
        requires { at ≤ length self.now.block.labels }
        ensures { result ≡ node_at self.now.block at }
    {
        if at == 0 {
            self.block.source()
        } else {
            self.block.labels().at(at - 1).id
        }
    }

    /// Follows the arcs that leave a reached node.
    fn follow_arcs<N: Network, C: DistanceClaim>(
        &mut self,
        network: &N,
        claim: &C,
        lists: &AdjacencyLists,
        from: u32,
    ) -> Result<(), Memory>
        requires node_limit { N.node_count network.now ≤ most_nodes }
        requires joined { All (JoinsNodes (N.node_count network.now)) (N.list network.now) }
        requires lists { AreAdjacencyLists Tail (N.list network.now) lists.now }
        requires tree { IsTightTree (N.node_count network.now) (N.list network.now) (C.claimed claim.now) self.old.block (value_of self.old.reached) }
        requires reached { value_of self.old.reached from ≡ true }
        ensures tree { OnOk result (IsTightTree (N.node_count network.now) (N.list network.now) (C.claimed claim.now)
            self.new.block (value_of self.new.reached)) }
        ensures grows { OnOk result (TreeGrows self.old.block (value_of self.old.reached) self.new.block (value_of self.new.reached)) }
        ensures followed { OnOk result (IsFollowed (N.list network.now) (C.claimed claim.now) (value_of self.new.reached) from) }
    {
        let mut next = lists.last(from);
        while next > 0 {
            let arc_index = next - 1;
            self.follow(network, claim, arc_index)?;
            next = lists.before(arc_index);
        }
        Ok(())
    }

    /// Reaches the head of an arc whose tail was reached, if the arc is tight and the head wasn't reached.
    #[inline(always)]
    fn follow<N: Network, C: DistanceClaim>(
        &mut self,
        network: &N,
        claim: &C,
        arc_index: u32,
    ) -> Result<(), Memory>
        requires node_limit { N.node_count network.now ≤ most_nodes }
        requires joined { All (JoinsNodes (N.node_count network.now)) (N.list network.now) }
        requires arc_index { arc_index < length (N.list network.now) }
        requires tree { IsTightTree (N.node_count network.now) (N.list network.now) (C.claimed claim.now) self.old.block (value_of self.old.reached) }
        requires reached { value_of self.old.reached (arc_at (N.list network.now) arc_index).tail ≡ true }
        ensures tree { OnOk result (IsTightTree (N.node_count network.now) (N.list network.now) (C.claimed claim.now)
            self.new.block (value_of self.new.reached)) }
        ensures grows { OnOk result (TreeGrows self.old.block (value_of self.old.reached) self.new.block (value_of self.new.reached)) }
        ensures followed { OnOk result (IsTight (C.claimed claim.now) (arc_at (N.list network.now) arc_index)
            → value_of self.new.reached (arc_at (N.list network.now) arc_index).head ≡ true) }
    {
        let arc = network.arc(arc_index);
        if self.reached.get(arc.head) {
            return Ok(());
        }
        let Some(dist) = tight_dist(claim, arc) else {
            return Ok(());
        };
        self.reached.set(arc.head, true)?;
        self.block.add(Label {
            dist,
            id: arc.head,
            pred: arc.tail,
        })?;
        Ok(())
    }
}

/// The claim of the head of an arc, if the arc is tight.
#[inline(always)]
fn tight_dist<C: DistanceClaim>(claim: &C, arc: ArcView) -> Option<i128>
    ensures tight { MatchOption result (¬ IsTight (C.claimed claim.now) arc)
        (λ dist. IsTight (C.claimed claim.now) arc × (C.claimed claim.now arc.head ≡ Some dist)) }
    ensures wide { IfSome result IsWide }
{
    let from = claim.of(arc.tail)?;
    let to = claim.of(arc.head)?;
    if leads_to(from, arc.cost, to) {
        Some(to)
    } else {
        None
    }
}

#[inline(always)]
fn leads_to(from: i128, weight: i64, to: i128) -> bool
    requires { IsWide from }
    ensures { IsTrue result ↔ (to ≡ from +ℤ weight) }
{
    to == from + i128::from(weight)
}

/// The nodes to which tight arcs lead from the source, in the order of the search. No node of the table is reached yet.
pub(crate) fn tight_tree<N: Network, C: DistanceClaim>(
    alloc: Global,
    network: &N,
    lists: &AdjacencyLists,
    source: u32,
    claim: &C,
    reached: NodeTable<bool>,
) -> Result<TightTree, Memory>
    requires node_limit { N.node_count network.now ≤ most_nodes }
    requires joined { All (JoinsNodes (N.node_count network.now)) (N.list network.now) }
    requires lists { AreAdjacencyLists Tail (N.list network.now) lists.now }
    requires source { IsNode (N.node_count network.now) source }
    requires claimed { C.claimed claim.now source ≡ Some (pos 0) }
    requires unreached { IsUnreached (value_of reached) }
    ensures source { IfOk result (λ tree. tree.block.source ≡ source) }
    ensures tree { IfOk result (λ tree. IsWholeTightTree (N.node_count network.now) (N.list network.now)
        (C.claimed claim.now) tree.block (value_of tree.reached)) }
{
    let mut tree = TightTree::new(alloc, source, reached)?;
    let mut at = 0;
    while at <= tree.len() {
        let from = tree.node(at);
        tree.follow_arcs(network, claim, lists, from)?;
        at += 1;
    }
    Ok(tree)
}

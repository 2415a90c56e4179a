//! Labels from claimed distances and predecessors by node, each after the label of its predecessor.

ghost use Rattle.std.specs.Prelude.{◌≡◌, ◌≤◌, ◌↔◌, ℕ, All, None, Some, false, true, length, pos, IfErr, IfOk, IsSome, IsTrue, OnOk};
ghost use Rattle.dimacs_lines.specs.Limits.{most_nodes, IsNode};
ghost use Rattle.dimacs_claims.specs.{declared.label_list.Label.{Label}, Labels.{EachAfter, IsBlock, label}};
ghost use Rattle.dimacs_judging.specs.Tests.{FirstOfRow, Refuses};
ghost use Rattle.dimacs_network.specs.Tables.{value_of};
ghost use Rattle.dimacs_decide.specs.Predecessors.{IsNext, back_row, pred_by_node};
ghost use Rattle.dimacs_decide.specs.inside.LabelTrees.{AreLabelledBelow, AreOff, EndsPath, IsLabelTree, IsPathBack, IsProposed, Keeps, Leads, Places};

use crate::claim::DistanceClaim;
use crate::predecessors::predecessor_of;
use dimacs_claims::{Block, Label};
use dimacs_judging::{JudgeError, Where};
use dimacs_lines::Memory;
use dimacs_network::NodeTable;
use dimacs_records::Reason;
use std::alloc::Global;

/// The labels of all nodes with a distance, ordered by ID, but each after that of its predecessor. Refuses the first
/// node that doesn't lead back to the source. Takes time in proportion to the nodes.
pub fn labelled_block<C: DistanceClaim>(
    alloc: Global,
    nodes: u32,
    source: u32,
    claim: &C,
    predecessors: &[u32],
) -> Result<Block, JudgeError>
    requires node_limit { nodes ≤ most_nodes }
    requires source { IsNode nodes source }
    requires distance { C.claimed claim.now source ≡ Some (pos 0) }
    requires within { (v : ℕ) → IsSome (C.claimed claim.now v) → IsNode nodes v }
    requires preds { (v : ℕ) → C.claimed claim.now v ≡ None → pred_by_node predecessors.now v ≡ 0 }
    ensures lawful { IfOk result (IsBlock nodes) }
    ensures source { IfOk result (λ block. block.source ≡ source) }
    ensures whole { IfOk result (λ block. block.radius ≡ None) }
    ensures agrees { IfOk result (λ block. (v : ℕ) → label block v ≡ C.claimed claim.now v) }
    ensures preds { IfOk result (λ block. All (λ (l : Label). l.pred ≡ pred_by_node predecessors.now l.id) block.labels) }
    ensures order { IfOk result (λ block. EachAfter (IsNext source (C.claimed claim.now) (pred_by_node predecessors.now)) block.labels) }
    ensures first { IfErr result (Refuses (FirstOfRow (back_row nodes source (C.claimed claim.now) (pred_by_node predecessors.now)))) }
{
    let mut tree = LabelTree::new(alloc, source, claim, predecessors)?;
    for v in 1..nodes + 1 {
        if !tree.label_from(nodes, v)? {
            return Err(JudgeError::Refused(Where::Node(v), Reason::PredUnknown));
        }
    }
    Ok(tree.block)
}

/// A block in which each label comes after that of its predecessor. Its source counts as labelled.
#[derive(Drop)]
struct LabelTree<'a, C: DistanceClaim> {
    claim: &'a C,
    predecessors: &'a [u32],
    block: Block,
    labelled: NodeTable<bool>,
    /// The path back from a node, as far as it has no labels.
    path: Vec<u32>,
}

impl<'a, C: DistanceClaim> LabelTree<'a, C> {
    /// The block without labels.
    fn new(
        alloc: Global,
        source: u32,
        claim: &'a C,
        predecessors: &'a [u32],
    ) -> Result<LabelTree<'a, C>, Memory>
        requires { C.claimed claim.now source ≡ Some (pos 0) }
        ensures claim { IfOk result (λ tree. tree.claim.now ≡ claim.now) }
        ensures predecessors { IfOk result (λ tree. tree.predecessors.now ≡ predecessors.now) }
        ensures tree { IfOk result (λ tree. (nodes : ℕ) → IsNode nodes source
            → IsLabelTree nodes source (C.claimed claim.now) (pred_by_node predecessors.now) tree.block (value_of tree.labelled)) }
    {
        let mut labelled = NodeTable::new(alloc, false);
        labelled.set(source, true)?;
        let block = Block::new(alloc, source);
        let path = Vec::new(alloc);
        Ok(LabelTree {
            claim,
            predecessors,
            block,
            labelled,
            path,
        })
    }

    /// Labels a node and those on the path back from it, if it leads back to the source. Returns whether it does; true
    /// if the node has no distance.
    #[inline(always)]
    fn label_from(&mut self, nodes: u32, from: u32) -> Result<bool, Memory>
        requires proposed { IsProposed nodes (C.claimed self.old.claim.now) (pred_by_node self.old.predecessors.now) }
        requires tree { IsLabelTree nodes self.old.block.source (C.claimed self.old.claim.now) (pred_by_node self.old.predecessors.now)
            self.old.block (value_of self.old.labelled) }
        requires earlier { AreLabelledBelow (C.claimed self.old.claim.now) (value_of self.old.labelled) from }
        ensures claim { self.new.claim.now ≡ self.old.claim.now }
        ensures predecessors { self.new.predecessors.now ≡ self.old.predecessors.now }
        ensures tree { OnOk result (IsLabelTree nodes self.old.block.source (C.claimed self.old.claim.now) (pred_by_node self.old.predecessors.now)
            self.new.block (value_of self.new.labelled)) }
        ensures keeps { OnOk result (Keeps (value_of self.old.labelled) (value_of self.new.labelled)) }
        ensures labelled { IfOk result (Leads (pred_by_node self.old.predecessors.now) self.old.block.source (C.claimed self.old.claim.now)
            (value_of self.new.labelled) from) }
    {
        let end = self.climb(nodes, from)?;
        if !self.labelled.get(end) {
            return Ok(self.claim.of(from).is_none());
        }
        while let Some(node) = self.path.pop() {
            self.add_label(nodes, node)?;
        }
        Ok(true)
    }

    /// Goes back from a node to the first that has a label or no distance; if the path gets longer than a path can be,
    /// it is a cycle. Returns the node at its end.
    #[inline(always)]
    fn climb(&mut self, nodes: u32, from: u32) -> Result<u32, Memory>
        ensures block { self.new.block ≡ self.old.block }
        ensures claim { self.new.claim.now ≡ self.old.claim.now }
        ensures predecessors { self.new.predecessors.now ≡ self.old.predecessors.now }
        ensures labelled { self.new.labelled ≡ self.old.labelled }
        ensures path { IfOk result (IsPathBack (C.claimed self.old.claim.now) (pred_by_node self.old.predecessors.now) from self.new.path.items) }
        ensures off { OnOk result (AreOff (value_of self.old.labelled) self.new.path.items) }
        ensures ends { IfOk result (EndsPath nodes (C.claimed self.old.claim.now) (value_of self.old.labelled) (length self.new.path.items)) }
    {
        self.path.clear();
        let mut at = from;
        while self.goes_on(nodes, at) {
            self.path.push(at)?;
            at = predecessor_of(self.predecessors, at);
        }
        Ok(at)
    }

    #[inline(always)]
    fn goes_on(&self, nodes: u32, at: u32) -> bool
        ensures { IsTrue result ↔ (IsSome (C.claimed self.now.claim.now at) × (value_of self.now.labelled at ≡ false)
            × (length self.now.path.items ≤ nodes)) }
    {
        self.claim.of(at).is_some() && !self.labelled.get(at) && self.path.len() <= nodes as usize
    }

    /// Adds the label of a node with a distance, if it has none yet. Its predecessor has to be labelled.
    #[inline(always)]
    fn add_label(&mut self, _nodes: u32, node: u32) -> Result<(), Memory>
        requires proposed { IsProposed _nodes (C.claimed self.old.claim.now) (pred_by_node self.old.predecessors.now) }
        requires tree { IsLabelTree _nodes self.old.block.source (C.claimed self.old.claim.now) (pred_by_node self.old.predecessors.now)
            self.old.block (value_of self.old.labelled) }
        requires distance { IsSome (C.claimed self.old.claim.now node) }
        requires next { (l : Label) → l.id ≡ node
            → IsNext self.old.block.source (C.claimed self.old.claim.now) (pred_by_node self.old.predecessors.now) self.old.block.labels l }
        requires labelled { value_of self.old.labelled (pred_by_node self.old.predecessors.now node) ≡ true }
        ensures claim { self.new.claim.now ≡ self.old.claim.now }
        ensures predecessors { self.new.predecessors.now ≡ self.old.predecessors.now }
        ensures tree { OnOk result (IsLabelTree _nodes self.old.block.source (C.claimed self.old.claim.now) (pred_by_node self.old.predecessors.now)
            self.new.block (value_of self.new.labelled)) }
        ensures placed { OnOk result (Places (value_of self.old.labelled) (value_of self.new.labelled) node) }
        ensures path { self.new.path ≡ self.old.path }
    {
        if self.labelled.get(node) {
            return Ok(());
        }
        let Some(dist) = self.claim.of(node) else {
            return Ok(());
        };
        let pred = predecessor_of(self.predecessors, node);
        self.labelled.set(node, true)?;
        self.block.add(Label {
            dist,
            id: node,
            pred,
        })?;
        Ok(())
    }
}

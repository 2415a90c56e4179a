//! The tests of a block's labels in one pass over the arcs, which can only answer yes.

ghost use Rattle.std.specs.Prelude.{◌≡◌, ◌≤◌, ◌<◌, ◌^◌, ◌-◌, ◌↔◌, ℕ, pos, neg_ℤ, All, List, IfSome, OnSome, IsTrue};
ghost use Rattle.dimacs_lines.specs.Limits.{most_nodes};
ghost use Rattle.dimacs_network.specs.{Arcs.{JoinsNodes}, DenseTables.{HasNode, HasNodes, SameNodes}};
ghost use Rattle.dimacs_network.specs.declared.network.ArcView.{ArcView};
ghost use Rattle.dimacs_claims.specs.{declared.label_list.Label.{Label}, Labels.{IsBlock}};
ghost use Rattle.dimacs_judging.specs.{Distances.{Fits}, inside.CertificateTests.{distance_rows}, Tests.{AllClear}};
ghost use Rattle.dimacs_judging.specs.{inside.Distances.{Improves}, inside.LabelsAtOnce.{AreSmall, entries_at}};
ghost use Rattle.dimacs_judging.specs.inside.NodeLabels.{HasLabels, IsFirstTight, RelaxesArc};

use crate::distance::{Distance, is_tight};
use crate::leaving::has_few_labels;
use crate::node_label::NodeLabel;
use dimacs_claims::{Block, Labels};
use dimacs_network::{ArcView, DenseTable, Network, has_dense_ids};
use std::alloc::Global;

/// Labels and weights below this are small: the sum of two is less than what stands for no distance.
const SMALL: i64 = 1 << 30;

/// The label of each node in the block that is tested.
pub(crate) type LabelTable = DenseTable<NodeLabel<i32>>;

/// A table for `block_holds_at_once`. None if no block can pass there, or there is no memory.
pub(crate) fn table_for<N: Network>(
    alloc: Global,
    network: &N,
    labels: &Labels,
) -> Option<LabelTable> {
    if !has_dense_ids(network) {
        return None;
    }
    for block in labels.blocks() {
        if can_pass(block, network) {
            return DenseTable::new(alloc, NodeLabel::none(), network.nodes()).ok();
        }
    }
    None
}

/// Arcs from labelled nodes to others pass only beyond a radius. If few nodes have labels, it is faster to relax only
/// the arcs that leave them.
fn can_pass<N: Network>(block: &Block, network: &N) -> bool
    ensures { IsTrue result → All (λ (l : Label). Fits (neg_ℤ (pos (2 ^ 31))) (pos (2 ^ 31 - 1)) l.dist) block.now.labels }
{
    block.labels().is_short() && block.radius().is_none() && !has_few_labels(block, network)
}

/// Whether all tests of a block pass, except those of the weights. False also if a label or a weight isn't small.
pub(crate) fn block_holds_at_once<N: Network>(
    network: &N,
    block: &Block,
    table: &mut LabelTable,
) -> bool
    requires lawful { (nodes : ℕ) × (nodes ≤ most_nodes) × IsBlock nodes block.now }
    requires joined { All (JoinsNodes (N.node_count network.now)) (N.list network.now) }
    ensures { IsTrue result → AllClear (distance_rows (N.list network.now) block.now) }
{
    if !can_pass(block, network) || !table.has(network.nodes()) {
        return false;
    }
    if !set_labels(block, table) {
        return false;
    }
    relax_all(network, block, table)
}

/// Fills the table. Whether it has all nodes, and all labels are small.
#[inline(never)]
fn set_labels(block: &Block, table: &mut LabelTable) -> bool
    requires lawful { (nodes : ℕ) × (nodes ≤ most_nodes) × IsBlock nodes block.now }
    requires fits { All (λ (l : Label). Fits (neg_ℤ (pos (2 ^ 31))) (pos (2 ^ 31 - 1)) l.dist) block.now.labels }
    ensures labelled { IsTrue result → (arcs : List ArcView) → HasLabels arcs block.now (entries_at table.new) }
    ensures small { IsTrue result → AreSmall table.new }
    ensures nodes { SameNodes table.old table.new }
{
    table.fill(NodeLabel::none());
    if !table.has(block.source()) {
        return false;
    }
    table.set(block.source(), NodeLabel::of_source());
    let labels = block.labels();
    for i in 0..labels.len() {
        let label = labels.at(i);
        if !table.has(label.id) || i128::from(SMALL) <= label.dist {
            return false;
        }
        table.set(label.id, NodeLabel::of(label));
    }
    true
}

/// Whether no arc fails, and each label has a tight arc.
#[inline(never)]
fn relax_all<N: Network>(network: &N, block: &Block, table: &mut LabelTable) -> bool
    requires joined { All (JoinsNodes (N.node_count network.now)) (N.list network.now) }
    requires nodes { HasNodes table.old (N.node_count network.now) }
    requires labelled { HasLabels (N.list network.now) block.now (entries_at table.old) }
    requires small { AreSmall table.old }
    ensures { IsTrue result → AllClear (distance_rows (N.list network.now) block.now) }
{
    let labels = block.labels();
    let mut count = 0usize;
    for i in 0..network.arcs() {
        match relax(network.arc(i), table) {
            Some(tight) => count += usize::from(tight),
            None => return false,
        }
    }
    if count < labels.len() {
        return false;
    }
    true
}

/// Relaxes one arc, as `relaxing::relax` does. None if it fails, or its weight isn't small.
#[inline(always)]
fn relax(arc: ArcView, table: &mut LabelTable) -> Option<bool>
    requires ends { HasNode table.old arc.tail × HasNode table.old arc.head }
    requires small { AreSmall table.old }
    ensures passes { IfSome result (λ tight. ¬ Improves (entries_at table.old arc.tail).dist (entries_at table.old arc.head).dist arc.cost) }
    ensures tight { IfSome result (λ tight. IsTrue tight ↔ IsFirstTight arc (entries_at table.old)) }
    ensures relaxes { OnSome result (RelaxesArc arc (entries_at table.old) (entries_at table.new)) }
    ensures small { AreSmall table.new }
    ensures nodes { SameNodes table.old table.new }
{
    if arc.cost < 0 || SMALL <= arc.cost {
        return None;
    }
    let from = table.at(arc.tail).dist;
    let head = table.at(arc.head);
    if from.sum_is_less(head.dist, arc.cost) {
        return None;
    }
    let tight = is_tight(from, head.dist, arc.cost) & head.lacks_arc_from(arc.tail);
    table.set(arc.head, head.supported_if(tight));
    Some(tight)
}

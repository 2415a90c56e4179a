//! Judging labels with tables: all arcs are relaxed for each block, or those that leave its nodes.

ghost use Rattle.std.specs.Prelude.{◌≡◌, ◌≤◌, ◌^◌, ◌-◌, ℕ, pos, neg_ℤ, List, All, IfSome, OnOk, IsTrue};
ghost use Rattle.dimacs_lines.specs.Limits.{most_nodes};
ghost use Rattle.dimacs_network.specs.{Arcs.{JoinsNodes}, declared.network.ArcView.{ArcView}};
ghost use Rattle.dimacs_claims.specs.{declared.label_list.Label.{Label}, Labels.{AreLabels, BlockValue, IsBlock}};
ghost use Rattle.dimacs_judging.specs.CertificateTests.{label_rows, relax_row, support_row, weight_row};
ghost use Rattle.dimacs_judging.specs.{inside.CertificateTests.{distance_rows}, Distances.{Fits}};
ghost use Rattle.dimacs_judging.specs.{LightestArcs.{AreLightest}, Tests.{AllClear, Clear, TestsRow}};
ghost use Rattle.dimacs_judging.specs.inside.NodeLabels.{AllUnlabelled, AreAsTested, AreUnlabelled, AreSupported, AreSupportedBelow, IsLabelled, entries};
ghost use Rattle.dimacs_judging.specs.inside.Tests.{TestsRows, TestsAll};

use crate::distance::Distance;
use crate::labels::weights_hold;
use crate::labels_at_once::{LabelTable, block_holds_at_once, table_for};
use crate::leaving::{has_few_labels, relax_leaving};
use crate::lightest::LightestArcs;
use crate::node_label::NodeLabel;
use crate::relaxing::relax;
use crate::verdict::{JudgeError, Where};
use dimacs_claims::{Block, LabelList, Labels};
use dimacs_lines::Memory;
use dimacs_network::{Network, NodeTable};
use dimacs_records::Reason;
use std::alloc::Global;

/// A table is cleared whole if a block labels at least one node of so many that have a slot.
const MANY: usize = 8;

/// Tables of labels for 32-bit, 64-bit and 128-bit distances. The narrowest that holds all distances of a block is
/// used, if the block doesn't pass at once. Between blocks no node has a label there.
#[derive(Drop)]
pub(crate) struct Tables {
    at_once: Option<LabelTable>,
    bits32: NodeTable<NodeLabel<i32>>,
    bits64: NodeTable<NodeLabel<i64>>,
    bits128: NodeTable<NodeLabel<i128>>,
}

impl Tables {
    fn new<N: Network>(alloc: Global, network: &N, labels: &Labels) -> Tables
        ensures { AllUnlabelled result }
    {
        Tables {
            at_once: table_for(alloc, network, labels),
            bits32: NodeTable::new(alloc, NodeLabel::none()),
            bits64: NodeTable::new(alloc, NodeLabel::none()),
            bits128: NodeTable::new(alloc, NodeLabel::none()),
        }
    }
}

/// Whether it is known that no weight is negative.
#[derive(Clone, Copy)]
pub(crate) enum Weights {
    Untested,
    NotNegative,
}

/// Returns the first test that fails. All blocks use the same tables.
pub(crate) fn labelled_blocks_hold<N: Network>(
    alloc: Global,
    network: &N,
    labels: &Labels,
) -> Result<(), JudgeError>
    requires { All (JoinsNodes (N.node_count network.now)) (N.list network.now) }
    ensures tests { TestsAll (label_rows (N.list network.now) labels.now.blocks) result }
    ensures lawful { AreLabels labels.now }
{
    let mut tables = Tables::new(alloc, network, labels);
    let mut weights = Weights::Untested;
    let mut lightest = None;
    let blocks = labels.blocks();
    for i in 0..blocks.len() {
        let block = &blocks[i];
        test_weights_for(network, block, &mut weights)?;
        lightest_for(alloc, network, labels, block, &mut lightest)?;
        labelled_block_holds(network, block, &lightest, &mut tables)?;
    }
    Ok(())
}

/// Tests the weights when the first block with a radius comes, and only then.
fn test_weights_for<N: Network>(
    network: &N,
    block: &Block,
    weights: &mut Weights,
) -> Result<(), (Where, Reason)>
    requires { AreAsTested (N.list network.now) weights.old }
    ensures tests { TestsRow (weight_row (N.list network.now) block.now) result }
    ensures tested { OnOk result (AreAsTested (N.list network.now) weights.new) }
{
    if block.radius().is_none() {
        return Ok(());
    }
    match *weights {
        Weights::NotNegative => Ok(()),
        Weights::Untested => {
            weights_hold(network)?;
            *weights = Weights::NotNegative;
            Ok(())
        }
    }
}

/// Lists the lightest arcs when the first block with few labels comes.
fn lightest_for<N: Network>(
    alloc: Global,
    network: &N,
    labels: &Labels,
    block: &Block,
    lightest: &mut Option<LightestArcs>,
) -> Result<(), Memory>
    requires { IfSome lightest.old (AreLightest (N.list network.now)) }
    ensures { IfSome lightest.new (AreLightest (N.list network.now)) }
{
    if lightest.is_none() && has_few_labels(block, network) {
        *lightest = Some(LightestArcs::new(alloc, network, labels.blocks())?);
    }
    Ok(())
}

/// Makes the tests of one block, except those of the weights.
fn labelled_block_holds<N: Network>(
    network: &N,
    block: &Block,
    lightest: &Option<LightestArcs>,
    tables: &mut Tables,
) -> Result<(), JudgeError>
    requires lawful { (nodes : ℕ) × (nodes ≤ most_nodes) × IsBlock nodes block.now }
    requires joined { All (JoinsNodes (N.node_count network.now)) (N.list network.now) }
    requires lightest { IfSome lightest.now (AreLightest (N.list network.now)) }
    requires unlabelled { AllUnlabelled tables.old }
    ensures tests { TestsAll (distance_rows (N.list network.now) block.now) result }
    ensures unlabelled { OnOk result (AllUnlabelled tables.new) }
{
    if holds_at_once(network, block, &mut tables.at_once) {
        return Ok(());
    }
    let labels = block.labels();
    if labels.is_short() {
        return block_holds_by(network, block, lightest, &mut tables.bits32);
    }
    if fit_64_bits(labels) {
        return block_holds_by(network, block, lightest, &mut tables.bits64);
    }
    block_holds_by(network, block, lightest, &mut tables.bits128)
}

fn holds_at_once<N: Network>(network: &N, block: &Block, table: &mut Option<LabelTable>) -> bool
    requires lawful { (nodes : ℕ) × (nodes ≤ most_nodes) × IsBlock nodes block.now }
    requires joined { All (JoinsNodes (N.node_count network.now)) (N.list network.now) }
    ensures { IsTrue result → AllClear (distance_rows (N.list network.now) block.now) }
{
    match table {
        Some(table) => block_holds_at_once(network, block, table),
        None => false,
    }
}

/// Whether a table of 64-bit distances holds these.
pub fn fit_64_bits(labels: &LabelList) -> bool
    ensures { IsTrue result → All (λ (l : Label). Fits (neg_ℤ (pos (2 ^ 63))) (pos (2 ^ 63 - 1)) l.dist) labels.now }
{
    for i in 0..labels.len() {
        let dist = labels.at(i).dist;
        if dist < i128::from(i64::MIN) || i128::from(i64::MAX) <= dist {
            return false;
        }
    }
    true
}

/// The same with a table whose entries hold the block's distances.
fn block_holds_by<N: Network, D: Distance>(
    network: &N,
    block: &Block,
    lightest: &Option<LightestArcs>,
    node_labels: &mut NodeTable<NodeLabel<D>>,
) -> Result<(), JudgeError>
    requires lawful { (nodes : ℕ) × (nodes ≤ most_nodes) × IsBlock nodes block.now }
    requires fits { All (λ (l : Label). Fits D.low D.end l.dist) block.now.labels }
    requires lightest { IfSome lightest.now (AreLightest (N.list network.now)) }
    requires unlabelled { AreUnlabelled D.value node_labels.old }
    ensures tests { TestsAll (distance_rows (N.list network.now) block.now) result }
    ensures unlabelled { OnOk result (AreUnlabelled D.value node_labels.new) }
{
    set_labels(block, node_labels)?;
    relax_block(network, block, lightest, node_labels)?;
    clear_labels(block, node_labels)?;
    Ok(())
}

#[inline(never)]
fn set_labels<D: Distance>(
    block: &Block,
    node_labels: &mut NodeTable<NodeLabel<D>>,
) -> Result<(), Memory>
    requires lawful { (nodes : ℕ) × (nodes ≤ most_nodes) × IsBlock nodes block.now }
    requires fits { All (λ (l : Label). Fits D.low D.end l.dist) block.now.labels }
    requires unlabelled { AreUnlabelled D.value node_labels.old }
    ensures { OnOk result ((arcs : List ArcView) → IsLabelled D.value arcs block.now node_labels.new) }
{
    node_labels.set(block.source(), NodeLabel::of_source())?;
    let labels = block.labels();
    for i in 0..labels.len() {
        let label = labels.at(i);
        node_labels.set(label.id, NodeLabel::of(label))?;
    }
    Ok(())
}

/// Clears the block's entries: one by one, or the whole table if they are many. Their memory stays for the next block.
fn clear_labels<D: Distance>(
    block: &Block,
    node_labels: &mut NodeTable<NodeLabel<D>>,
) -> Result<(), Memory>
    requires { (arcs : List ArcView) × IsLabelled D.value arcs block.now node_labels.old }
    ensures { OnOk result (AreUnlabelled D.value node_labels.new) }
{
    if node_labels.slots() / MANY <= block.labels().len() {
        node_labels.clear();
        return Ok(());
    }
    clear_each(block, node_labels)
}

fn clear_each<D: Distance>(
    block: &Block,
    node_labels: &mut NodeTable<NodeLabel<D>>,
) -> Result<(), Memory>
    requires { (arcs : List ArcView) × IsLabelled D.value arcs block.now node_labels.old }
    ensures { OnOk result (AreUnlabelled D.value node_labels.new) }
{
    node_labels.set(block.source(), NodeLabel::none())?;
    let labels = block.labels();
    for i in 0..labels.len() {
        node_labels.set(labels.at(i).id, NodeLabel::none())?;
    }
    Ok(())
}

/// Returns the first test that fails. Relaxes all arcs, unless the block has few labels and none of the lightest arcs
/// that leave labelled nodes fails.
fn relax_block<N: Network, D: Distance>(
    network: &N,
    block: &Block,
    lightest: &Option<LightestArcs>,
    node_labels: &mut NodeTable<NodeLabel<D>>,
) -> Result<(), (Where, Reason)>
    requires lawful { (nodes : ℕ) × IsBlock nodes block.now }
    requires lightest { IfSome lightest.now (AreLightest (N.list network.now)) }
    requires labelled { IsLabelled D.value (N.list network.now) block.now node_labels.old }
    ensures labelled { IsLabelled D.value (N.list network.now) block.now node_labels.new }
    ensures tests { TestsRows (distance_rows (N.list network.now) block.now) result }
{
    if relax_if_few(network, block, lightest, node_labels) {
        return labels_supported(block.labels(), node_labels);
    }
    relax_all(network, block, node_labels)
}

/// If the block has few labels, relaxes the lightest arcs that leave labelled nodes. Returns whether it did, and none
/// failed.
fn relax_if_few<N: Network, D: Distance>(
    network: &N,
    block: &Block,
    lightest: &Option<LightestArcs>,
    node_labels: &mut NodeTable<NodeLabel<D>>,
) -> bool
    requires lawful { (nodes : ℕ) × IsBlock nodes block.now }
    requires lightest { IfSome lightest.now (AreLightest (N.list network.now)) }
    requires labelled { IsLabelled D.value (N.list network.now) block.now node_labels.old }
    ensures labelled { IsLabelled D.value (N.list network.now) block.now node_labels.new }
    ensures supported { IsTrue result → AreSupported (N.list network.now) block.now (entries D.value node_labels.new) }
    ensures clear { IsTrue result → Clear (relax_row (N.list network.now) block.now) }
{
    match lightest {
        Some(lightest) if has_few_labels(block, network) => relax_leaving(
            network,
            block,
            lightest,
            node_labels,
        ),
        _ => false,
    }
}

/// Relaxes all arcs. The error names the first label without a tight arc; otherwise the first arc that fails. It goes
/// over the labels again only if the count of tight arcs is too low, or an arc fails.
#[inline(never)]
fn relax_all<N: Network, D: Distance>(
    network: &N,
    block: &Block,
    node_labels: &mut NodeTable<NodeLabel<D>>,
) -> Result<(), (Where, Reason)>
    requires lawful { (nodes : ℕ) × IsBlock nodes block.now }
    requires labelled { IsLabelled D.value (N.list network.now) block.now node_labels.old }
    ensures labelled { IsLabelled D.value (N.list network.now) block.now node_labels.new }
    ensures tests { TestsRows (distance_rows (N.list network.now) block.now) result }
{
    let labels = block.labels();
    let mut count = 0usize;
    for i in 0..network.arcs() {
        match relax(network.arc(i), block, node_labels) {
            Ok(tight) => count += usize::from(tight),
            Err(reason) => {
                relax_rest(network, block, i + 1, node_labels);
                return labels_supported(labels, node_labels).and(Err((Where::Arc(i + 1), reason)));
            }
        }
    }
    if count < labels.len() {
        return labels_supported(labels, node_labels);
    }
    Ok(())
}

/// Relaxes the arcs after one that fails, to find the labels without a tight arc.
#[cold]
#[inline(never)]
fn relax_rest<N: Network, D: Distance>(
    network: &N,
    block: &Block,
    from: u32,
    node_labels: &mut NodeTable<NodeLabel<D>>,
)
    requires lawful { (nodes : ℕ) × IsBlock nodes block.now }
    requires labelled { IsLabelled D.value (N.list network.now) block.now node_labels.old }
    requires supported { AreSupportedBelow (N.list network.now) block.now from (entries D.value node_labels.old) }
    ensures labelled { IsLabelled D.value (N.list network.now) block.now node_labels.new }
    ensures supported { AreSupported (N.list network.now) block.now (entries D.value node_labels.new) }
{
    for i in from..network.arcs() {
        let _outcome = relax(network.arc(i), block, node_labels);
    }
}

/// Tests by the table that each label has a tight arc.
fn labels_supported<D: Distance>(
    labels: &LabelList,
    node_labels: &NodeTable<NodeLabel<D>>,
) -> Result<(), (Where, Reason)>
    ensures { (arcs : List ArcView) (b : BlockValue) → b.labels ≡ labels.now → AreSupported arcs b (entries D.value node_labels.now)
        → TestsRow (support_row arcs b) result }
{
    for i in 0..labels.len() {
        let id = labels.at(i).id;
        if !node_labels.get(id).is_supported() {
            return Err((Where::Node(id), Reason::NoTightArc));
        }
    }
    Ok(())
}

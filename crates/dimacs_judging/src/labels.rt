//! Tests whether labels are distances, without allocating.

ghost use Rattle.std.specs.Prelude.{◌≡◌, ◌<◌, ◌+ℤ◌, ◌<ℤ◌, ℤ, Some, All, length, IsTrue, ◌↔◌, IfSome, OnOk};
ghost use Rattle.dimacs_claims.specs.Labels.{AreLabels, IsWithinRadius, label_at};
ghost use Rattle.dimacs_judging.specs.CertificateTests.{RelaxFails, label_rows, negative_row, relax_row, support_row, weight_row};
ghost use Rattle.dimacs_judging.specs.{inside.CertificateTests.{block_rows}, inside.Labels.{block_at}};
ghost use Rattle.dimacs_judging.specs.Labels.{AreDistances, HasArcOfWeight, LabelsOk};
ghost use Rattle.dimacs_records.specs.Ranges.{IsWide};
ghost use Rattle.dimacs_records.specs.declared.reasons.Reason.TheVariants as reasons;
ghost use Rattle.dimacs_judging.specs.{Tests.{Decides, TestsRow}, inside.Tests.{NamesReason, TestsRows}};

use crate::verdict::Where;
use dimacs_claims::{Label, LabelList, Labels};
use dimacs_instance::Graph;
use dimacs_network::{ArcView, Network};
use dimacs_records::Reason;

/// Tests the labels of all blocks. If they pass, each label is the least weight of all walks to its node from the
/// block's source. No walk leads to a node without a label; if the block has a radius, all such walks weigh more than
/// it. Allocates nothing.
///
/// The tests of each block in order: if it has a radius, `NegativeWeight` for each arc; `NoTightArc`, at its node, for
/// each label without a tight arc from its predecessor; then, for each arc whose tail has a label, `Escapes` if the
/// head has none, unless the arc leads beyond the radius, or `NotShortest` if the head's label is greater than the
/// tail's plus the weight.
pub fn label_tests<N: Network>(graph: &Graph<N>, labels: &Labels) -> Result<(), (Where, Reason)>
    ensures decides { Decides (All (LabelsOk graph.now.arcs) labels.now.blocks) (label_rows graph.now.arcs labels.now.blocks) result }
    ensures distances { OnOk result (AreDistances graph.now.arcs labels.now.blocks) }
{
    blocks_hold(graph.network(), labels)
}

fn blocks_hold<N: Network>(network: &N, labels: &Labels) -> Result<(), (Where, Reason)>
    ensures tests { TestsRows (label_rows (N.list network.now) labels.now.blocks) result }
    ensures lawful { AreLabels labels.now }
{
    for block in 0..labels.blocks().len() {
        block_holds(network, labels, block)?;
    }
    Ok(())
}

fn block_holds<N: Network>(
    network: &N,
    labels: &Labels,
    block: usize,
) -> Result<(), (Where, Reason)>
    requires { block < length labels.now.blocks }
    ensures { TestsRows (block_rows (N.list network.now) (block_at labels.now.blocks block)) result }
{
    block_weights_hold(network, labels, block)?;
    labels_supported(network, labels, block)?;
    arcs_relaxed(network, labels, block)
}

/// Only a block with a radius forbids negative weights.
fn block_weights_hold<N: Network>(
    network: &N,
    labels: &Labels,
    block: usize,
) -> Result<(), (Where, Reason)>
    requires { block < length labels.now.blocks }
    ensures { TestsRow (weight_row (N.list network.now) (block_at labels.now.blocks block)) result }
{
    match radius_in(labels, block) {
        Some(_) => weights_hold(network),
        None => Ok(()),
    }
}

fn radius_in(labels: &Labels, block: usize) -> Option<i128>
    requires { block < length labels.now.blocks }
    ensures { result ≡ (block_at labels.now.blocks block).radius }
{
    labels.blocks()[block].radius()
}

/// Tests that no weight is negative.
pub(crate) fn weights_hold<N: Network>(network: &N) -> Result<(), (Where, Reason)>
    ensures { TestsRow (negative_row (N.list network.now)) result }
{
    for i in 0..network.arcs() {
        if network.arc(i).cost < 0 {
            return Err((Where::Arc(i + 1), Reason::NegativeWeight));
        }
    }
    Ok(())
}

/// Tests that each label has a tight arc.
fn labels_supported<N: Network>(
    network: &N,
    labels: &Labels,
    block: usize,
) -> Result<(), (Where, Reason)>
    requires { block < length labels.now.blocks }
    ensures { TestsRow (support_row (N.list network.now) (block_at labels.now.blocks block)) result }
{
    let list = labels_in(labels, block);
    for i in 0..list.len() {
        let label = list.at(i);
        if !is_supported(network, label, labels.label(block, label.pred)) {
            return Err((Where::Node(label.id), Reason::NoTightArc));
        }
    }
    Ok(())
}

fn labels_in(labels: &Labels, block: usize) -> &LabelList
    requires { block < length labels.now.blocks }
    ensures { result.now ≡ (block_at labels.now.blocks block).labels }
{
    labels.blocks()[block].labels()
}

/// Whether the label has a tight arc from its predecessor, whose label is `pred`.
fn is_supported<N: Network>(network: &N, label: Label, pred: Option<i128>) -> bool
    requires { IfSome pred IsWide }
    ensures { IsTrue result ↔ ((base : ℤ) × (pred ≡ Some base) × HasArcOfWeight (N.list network.now) label base) }
{
    match pred {
        Some(base) => has_arc_of_weight(network, label, base),
        None => false,
    }
}

/// Whether some arc from the predecessor to the node has the weight `label.dist - base`.
fn has_arc_of_weight<N: Network>(network: &N, label: Label, base: i128) -> bool
    requires { IsWide base }
    ensures { IsTrue result ↔ HasArcOfWeight (N.list network.now) label base }
{
    for k in 0..network.arcs() {
        let Some(i) = network.find(label.pred, label.id, k) else {
            return false;
        };
        if is_tight(label, base, network.arc(i)) {
            return true;
        }
    }
    false
}

/// Whether the arc has the weight `label.dist - base`.
fn is_tight(label: Label, base: i128, arc: ArcView) -> bool
    requires { IsWide base }
    ensures { IsTrue result ↔ ((base +ℤ arc.cost) ≡ label.dist) }
{
    base + i128::from(arc.cost) == label.dist
}

/// Tests that no arc escapes, or has a head with too great a label.
fn arcs_relaxed<N: Network>(
    network: &N,
    labels: &Labels,
    block: usize,
) -> Result<(), (Where, Reason)>
    requires { block < length labels.now.blocks }
    ensures { TestsRow (relax_row (N.list network.now) (block_at labels.now.blocks block)) result }
{
    let radius = radius_in(labels, block);
    for i in 0..network.arcs() {
        if let Some(reason) = relax_fault(labels, block, radius, network.arc(i)) {
            return Err((Where::Arc(i + 1), reason));
        }
    }
    Ok(())
}

/// It looks the head up only if the tail has a label.
#[inline(always)]
fn relax_fault(labels: &Labels, block: usize, radius: Option<i128>, arc: ArcView) -> Option<Reason>
    ensures { NamesReason (RelaxFails radius (label_at labels.now.blocks block arc.tail) (label_at labels.now.blocks block arc.head) arc.cost) result }
{
    let from = labels.label(block, arc.tail)?;
    relax_fault_from(from, labels.label(block, arc.head), radius, arc.cost)
}

/// The reason why an arc fails whose ends have these labels.
#[inline(always)]
pub(crate) fn relax_fault_from(
    from: i128,
    to: Option<i128>,
    radius: Option<i128>,
    weight: i64,
) -> Option<Reason>
    requires { IsWide from }
    ensures { NamesReason (RelaxFails radius (Some from) to weight) result }
{
    match to {
        None => escape_fault(radius, from, weight),
        Some(to) if is_beyond(to, from, weight) => Some(Reason::NotShortest),
        Some(_) => None,
    }
}

/// `Escapes`, for an arc to a node without a label, unless the arc leads beyond the radius.
#[inline(always)]
pub(crate) fn escape_fault(radius: Option<i128>, from: i128, weight: i64) -> Option<Reason>
    requires { IsWide from }
    ensures { NamesReason (λ reason. (reason ≡ reasons.Escapes) × IsWithinRadius radius (from +ℤ weight)) result }
{
    match radius {
        Some(radius) if from + i128::from(weight) > radius => None,
        _ => Some(Reason::Escapes),
    }
}

#[inline(always)]
fn is_beyond(to: i128, from: i128, weight: i64) -> bool
    requires { IsWide from }
    ensures { IsTrue result ↔ ((from +ℤ weight) <ℤ to) }
{
    to > from + i128::from(weight)
}

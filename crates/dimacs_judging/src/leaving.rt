//! Judging a block with few labels by the arcs that leave its nodes.

ghost use Rattle.std.specs.Prelude.{◌≡◌, ◌+ℤ◌, ℕ, Some, IsTrue};
ghost use Rattle.dimacs_network.specs.declared.network.ArcView.{ArcView};
ghost use Rattle.dimacs_claims.specs.Labels.{IsBlock, IsWithinRadius, label};
ghost use Rattle.dimacs_records.specs.Ranges.{IsWide};
ghost use Rattle.dimacs_judging.specs.{CertificateTests.{relax_row}, inside.Leaving.{AreRelaxedFrom, IsRelaxedBy}};
ghost use Rattle.dimacs_judging.specs.{LightestArcs.{AreLightest}, Tests.{Clear}};
ghost use Rattle.dimacs_judging.specs.inside.NodeLabels.{AreSupported, IsLabelled, entries};

use crate::distance::Distance;
use crate::labels::escape_fault;
use crate::lightest::LightestArcs;
use crate::node_label::NodeLabel;
use crate::relaxing::relax;
use dimacs_claims::Block;
use dimacs_network::{Network, NodeTable};

/// A block has few labels if there are more than this many arcs for each.
const ARCS_A_LABEL: usize = 8;

/// Whether it is faster to relax only the arcs that leave the block's labelled nodes.
pub(crate) fn has_few_labels<N: Network>(block: &Block, network: &N) -> bool {
    block.labels().len() < network.arcs() as usize / ARCS_A_LABEL
}

/// Relaxes the lightest arcs that leave labelled nodes, up to the first that fails. Returns whether none fails: then no
/// other arc fails, and each label with a tight arc is supported.
pub(crate) fn relax_leaving<N: Network, D: Distance>(
    network: &N,
    block: &Block,
    lightest: &LightestArcs,
    node_labels: &mut NodeTable<NodeLabel<D>>,
) -> bool
    requires lawful { (nodes : ℕ) × IsBlock nodes block.now }
    requires lightest { AreLightest (N.list network.now) lightest.now }
    requires labelled { IsLabelled D.value (N.list network.now) block.now node_labels.old }
    ensures labelled { IsLabelled D.value (N.list network.now) block.now node_labels.new }
    ensures supported { IsTrue result → AreSupported (N.list network.now) block.now (entries D.value node_labels.new) }
    ensures clear { IsTrue result → Clear (relax_row (N.list network.now) block.now) }
{
    if !relax_node(network, block, block.source(), 0, lightest, node_labels) {
        return false;
    }
    let labels = block.labels();
    for i in 0..labels.len() {
        let label = labels.at(i);
        if !relax_node(network, block, label.id, label.dist, lightest, node_labels) {
            return false;
        }
    }
    true
}

/// Relaxes the lightest arcs that leave a node, up to the first that fails. `from` is its label. If the arcs come by
/// increasing weight, it stops at the radius: no arc beyond it fails or is tight.
fn relax_node<N: Network, D: Distance>(
    network: &N,
    block: &Block,
    node: u32,
    from: i128,
    lightest: &LightestArcs,
    node_labels: &mut NodeTable<NodeLabel<D>>,
) -> bool
    requires lawful { (nodes : ℕ) × IsBlock nodes block.now }
    requires lightest { AreLightest (N.list network.now) lightest.now }
    requires label { label block.now node ≡ Some from }
    requires labelled { IsLabelled D.value (N.list network.now) block.now node_labels.old }
    ensures labelled { IsLabelled D.value (N.list network.now) block.now node_labels.new }
    ensures keeps_relaxed { (a : ArcView) → IsRelaxedBy block.now (entries D.value node_labels.old) a
        → IsRelaxedBy block.now (entries D.value node_labels.new) a }
    ensures relaxed { IsTrue result → AreRelaxedFrom (N.list network.now) block.now (entries D.value node_labels.new) node }
{
    let radius = block.radius();
    let mut next = lightest.last(node);
    while next > 0 {
        let place = next - 1;
        let arc = network.arc(lightest.arc_at(place));
        if lightest.weights_fall() && leads_past(radius, from, arc.cost) {
            return true;
        }
        if relax(arc, block, node_labels).is_err() {
            return false;
        }
        next = lightest.before(place);
    }
    true
}

/// Whether an arc of this weight leads beyond the radius.
#[inline(always)]
fn leads_past(radius: Option<i128>, from: i128, weight: i64) -> bool
    requires { IsWide from }
    ensures { IsTrue result → ¬ IsWithinRadius radius (from +ℤ weight) }
{
    escape_fault(radius, from, weight).is_none()
}

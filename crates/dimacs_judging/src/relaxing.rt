//! Relaxing an arc between labels in a table.

ghost use Rattle.std.specs.{Prelude.{◌↔◌, IfOk, IsTrue}, Result.{result_err}};
ghost use Rattle.dimacs_judging.specs.{CertificateTests.{RelaxFails}, inside.Tests.{NamesReason}};
ghost use Rattle.dimacs_judging.specs.inside.NodeLabels.{AreWide, DefaultsToNone, IsFirstTight, RelaxesArc, entries};

use crate::distance::{Distance, distance_in, improves, is_tight};
use crate::labels::relax_fault_from;
use crate::node_label::NodeLabel;
use dimacs_claims::Block;
use dimacs_network::{ArcView, NodeTable, Slot};
use dimacs_records::Reason;

/// Relaxes one arc. If it is tight, the head's label becomes supported. Returns whether it is the first such arc, or
/// why it fails. No branch depends on whether an arc is tight, so none is mispredicted if the labels are right.
#[inline(always)]
pub(crate) fn relax<D: Distance>(
    arc: ArcView,
    block: &Block,
    node_labels: &mut NodeTable<NodeLabel<D>>,
) -> Result<bool, Reason>
    requires defaults { DefaultsToNone D.value node_labels.old }
    requires in_range { AreWide (entries D.value node_labels.old) }
    ensures outcome { NamesReason (RelaxFails block.now.radius (entries D.value node_labels.old arc.tail).dist
        (entries D.value node_labels.old arc.head).dist arc.cost) (result_err result) }
    ensures relaxes { RelaxesArc arc (entries D.value node_labels.old) (entries D.value node_labels.new) }
    ensures tight { IfOk result (λ tight. IsTrue tight ↔ IsFirstTight arc (entries D.value node_labels.old)) }
    ensures defaults { DefaultsToNone D.value node_labels.new }
{
    let from = match node_labels.get_slot(arc.tail) {
        Some(Slot { value, .. }) if value.dist.is_some() => value.dist,
        _ => return Ok(false),
    };
    let (head, place) = match node_labels.get_slot(arc.head) {
        Some(Slot { value, place }) if !improves(from, value.dist, arc.cost) => (value, place),
        _ => {
            return match arc_fault(arc.tail, arc.head, arc.cost, block, node_labels) {
                Some(reason) => Err(reason),
                None => Ok(false),
            };
        }
    };
    let tight = is_tight(from, head.dist, arc.cost) & head.lacks_arc_from(arc.tail);
    node_labels.put(place, head.supported_if(tight));
    Ok(tight)
}

#[cold]
#[inline(never)]
fn arc_fault<D: Distance>(
    tail: u32,
    head: u32,
    weight: i64,
    block: &Block,
    node_labels: &NodeTable<NodeLabel<D>>,
) -> Option<Reason>
    requires { AreWide (entries D.value node_labels.now) }
    ensures { NamesReason (RelaxFails block.now.radius (entries D.value node_labels.now tail).dist
        (entries D.value node_labels.now head).dist weight) result }
{
    let from = distance_in(node_labels.get(tail).dist)?;
    let to = distance_in(node_labels.get(head).dist);
    relax_fault_from(from, to, block.radius(), weight)
}

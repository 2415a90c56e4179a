//! What fails in a block of labels or distances.

use dimacs_claims::{Block, Label, Labels};
use dimacs_network::ArcView;
use dimacs_records::TextKind;

/// The tail and the weight of an arc into a node. Lists of them are in order.
pub(crate) type ArcInto = (u32, i64);

/// The labels of an arc's ends in a block in which it fails its test.
#[derive(Clone, Copy)]
pub(crate) struct EndLabels {
    pub(crate) source: u32,
    pub(crate) tail: i128,
    pub(crate) head: Option<i128>,
    pub(crate) radius: Option<i128>,
    /// The distance of the head by the arc.
    pub(crate) sum: i128,
}

pub(crate) fn failing_ends(labels: &Labels, arc: ArcView) -> Option<EndLabels> {
    for (k, block) in labels.blocks().iter().enumerate() {
        let Some(tail) = labels.label(k, arc.tail) else {
            continue;
        };
        let sum = tail.saturating_add(i128::from(arc.cost));
        let head = labels.label(k, arc.head);
        let fails = match (head, block.radius()) {
            (Some(head), _) => head > sum,
            (None, Some(radius)) => sum <= radius,
            (None, None) => true,
        };
        if fails {
            return Some(EndLabels {
                source: block.source(),
                tail,
                head,
                radius: block.radius(),
                sum,
            });
        }
    }
    None
}

/// A node's label in a block in which no arc gives it.
#[derive(Clone, Copy)]
pub(crate) struct Unreached {
    pub(crate) source: u32,
    pub(crate) label: Label,
    pub(crate) pred_dist: i128,
    /// The least distance by an arc.
    pub(crate) least: Option<i128>,
}

pub(crate) fn first_unreached(
    labels: &Labels,
    kind: TextKind,
    node: u32,
    arcs: &[ArcInto],
) -> Option<Unreached> {
    for (k, block) in labels.blocks().iter().enumerate() {
        let Some(label) = label_in(block, node) else {
            continue;
        };
        let pred_dist = labels.label(k, label.pred).unwrap_or(0);
        let least = nearest(block, arcs);
        let weight = i64::try_from(label.dist.saturating_sub(pred_dist));
        let is_given = match kind {
            TextKind::Distances => least == Some(label.dist),
            _ => weight.is_ok_and(|weight| arcs.binary_search(&(label.pred, weight)).is_ok()),
        };
        if !is_given {
            return Some(Unreached {
                source: block.source(),
                label,
                pred_dist,
                least,
            });
        }
    }
    None
}

pub(crate) fn label_in(block: &Block, node: u32) -> Option<Label> {
    block.labels().into_iter().find(|label| label.id == node)
}

/// The least distance by one of these arcs from a node that has a label in a block.
fn nearest(block: &Block, arcs: &[ArcInto]) -> Option<i128> {
    let mut least = lightest(arcs, block.source()).map(i128::from);
    for label in block.labels() {
        if let Some(weight) = lightest(arcs, label.id) {
            let sum = label.dist.saturating_add(i128::from(weight));
            least = Some(least.unwrap_or(sum).min(sum));
        }
    }
    least
}

pub(crate) fn lightest(arcs: &[ArcInto], from: u32) -> Option<i64> {
    let place = arcs.partition_point(|arc| arc.0 < from);
    arcs.get(place).filter(|arc| arc.0 == from).map(|arc| arc.1)
}

//! Tests the numbers of an instance against the limits of texts.

ghost use Rattle.std.specs.Prelude.{◌≤◌, IfNone, OnOk};
ghost use Rattle.dimacs_lines.specs.Limits.{IsNode, most_count, most_nodes};
ghost use Rattle.dimacs_arrays.specs.{GraphArrays.{source_rows}, Limits.{ArcFails, count_rows}};
ghost use Rattle.dimacs_arrays.specs.{inside.Answers.{TestsLimits}, inside.Lent.{IsInRange, TestsArcs}};
ghost use Rattle.dimacs_judging.specs.inside.Tests.{NamesReason};

use dimacs_judging::Where;
use dimacs_network::{ArcView, MAX_ARCS, Network};
use dimacs_records::{MAX_NODES, Reason};

/// The first number past its limit, by its place and the reason.
#[derive(Clone, Copy, Debug, PartialEq, Eq)]
pub(crate) struct PastLimit {
    pub(crate) place: Where,
    pub(crate) reason: Reason,
}

/// Tests the number of nodes, then that of arcs. If one is too great, the place is the first node or arc past the
/// limit.
pub(crate) fn counts_hold(nodes: u32, arcs: usize) -> Result<(), PastLimit>
    ensures first_fault { TestsLimits (count_rows nodes arcs) result }
    ensures limits { OnOk result ((nodes ≤ most_nodes) × (arcs ≤ most_count)) }
{
    if nodes > MAX_NODES {
        return Err(PastLimit {
            place: Where::Node(MAX_NODES + 1),
            reason: Reason::NumberRange,
        });
    }
    if arcs > MAX_ARCS as usize {
        return Err(PastLimit {
            place: Where::Arc(MAX_ARCS + 1),
            reason: Reason::NumberRange,
        });
    }
    Ok(())
}

/// Tests that this ID is a node.
pub(crate) fn node_holds(nodes: u32, id: u32) -> Result<(), PastLimit>
    ensures first_fault { TestsLimits (source_rows nodes id) result }
    ensures node { OnOk result (IsNode nodes id) }
{
    if id == 0 || id > nodes {
        return Err(PastLimit {
            place: Where::Node(id),
            reason: Reason::NodeRange,
        });
    }
    Ok(())
}

/// Tests the ends and bounds of all arcs.
pub(crate) fn arcs_hold<N: Network>(network: &N) -> Result<(), PastLimit>
    ensures { TestsArcs (N.node_count network.now) (N.list network.now) result }
{
    let nodes = network.nodes();
    for i in 0..network.arcs() {
        if let Some(reason) = arc_fault(nodes, network.arc(i)) {
            return Err(PastLimit {
                place: Where::Arc(i + 1),
                reason,
            });
        }
    }
    Ok(())
}

/// The reason to refuse an arc of a network with `nodes` nodes, if there is one.
#[inline(always)]
fn arc_fault(nodes: u32, arc: ArcView) -> Option<Reason>
    ensures reason { NamesReason (ArcFails nodes arc) result }
    ensures in_range { IfNone result (IsInRange nodes arc) }
{
    if arc.tail == 0 || arc.tail > nodes || arc.head == 0 || arc.head > nodes {
        return Some(Reason::NodeRange);
    }
    if arc.low < 0 || arc.cap < arc.low {
        return Some(Reason::BoundOrder);
    }
    None
}

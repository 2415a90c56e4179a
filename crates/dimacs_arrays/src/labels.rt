//! Labels from distances and predecessors by node.

ghost use Rattle.std.specs.Prelude.{◌≡◌, ◌≤◌, ◌↔◌, length, IfOk, IsTrue};
ghost use Rattle.dimacs_lines.specs.Limits.{most_nodes, IsNode};
ghost use Rattle.dimacs_judging.specs.Tests.{Settles, TestsRow};
ghost use Rattle.dimacs_decide.specs.{Claims.{claimed_by_node}, Predecessors.{pred_by_node}};
ghost use Rattle.dimacs_arrays.specs.Paths.{AreInOrder, AreLabelsBy, IsPred, label_rows, pred_row};

use dimacs_claims::Labels;
use dimacs_decide::{DistanceClaim, DistancesByNode, labelled_block, predecessor_of, source_holds};
use dimacs_judging::{JudgeError, Where};
use dimacs_records::Reason;
use std::alloc::Global;

/// The labels with these distances and predecessors; `i64::MAX` stands for no distance. A label comes after that of its
/// predecessor, and otherwise by ID.
///
/// It makes the tests of `judge_paths_by_node` before those of `label_tests`.
pub(crate) fn labels_by_node(
    alloc: Global,
    nodes: u32,
    source: u32,
    distances: &[i64],
    predecessors: &[u32],
) -> Result<Labels, JudgeError>
    requires node_limit { length distances.now ≤ most_nodes }
    requires source { IsNode (length distances.now) source }
    requires distances { length distances.now ≡ nodes }
    requires predecessors { length predecessors.now ≡ length distances.now }
    ensures order { IfOk result (AreInOrder source (claimed_by_node distances.now) (pred_by_node predecessors.now)) }
    ensures labels { Settles (AreLabelsBy (length distances.now) source (claimed_by_node distances.now) (pred_by_node predecessors.now))
        (label_rows (length distances.now) source (claimed_by_node distances.now) (pred_by_node predecessors.now)) result }
{
    let claim = DistancesByNode { distances };
    source_holds(source, &claim)?;
    predecessors_hold(source, distances, predecessors)?;
    let block = labelled_block(alloc, nodes, source, &claim, predecessors)?;
    let mut labels = Labels::new(alloc, nodes);
    labels.push(block)?;
    Ok(labels)
}

fn predecessors_hold(
    source: u32,
    distances: &[i64],
    predecessors: &[u32],
) -> Result<(), (Where, Reason)>
    requires node_limit { length distances.now ≤ most_nodes }
    ensures { TestsRow (pred_row (length distances.now) source (claimed_by_node distances.now) (pred_by_node predecessors.now)) result }
{
    for v in 1..distances.len() as u32 + 1 {
        if !is_predecessor(source, distances, v, predecessor_of(predecessors, v)) {
            return Err((Where::Node(v), Reason::NodeRange));
        }
    }
    Ok(())
}

#[inline(always)]
fn is_predecessor(source: u32, distances: &[i64], node: u32, predecessor: u32) -> bool
    ensures { IsTrue result ↔ IsPred (length distances.now) source (claimed_by_node distances.now) node predecessor }
{
    if node != source && (DistancesByNode { distances }).of(node).is_some() {
        predecessor >= 1 && predecessor as usize <= distances.len()
    } else {
        predecessor == 0
    }
}

//! Decides by a search over tight arcs whether claimed distances are right.

ghost use Rattle.std.specs.Prelude.{◌≤◌, ◌+ℤ◌, ◌<ℤ◌, ◌↔◌, IsTrue, None};
ghost use Rattle.dimacs_lines.specs.Limits.{most_nodes, IsNode};
ghost use Rattle.dimacs_records.specs.Ranges.{IsWide};
ghost use Rattle.dimacs_network.specs.{AdjacencyLists.{AreAdjacencyLists}, Tables.{value_of}};
ghost use Rattle.dimacs_network.specs.declared.adjacency_lists.Side.TheVariants.{Tail};
ghost use Rattle.dimacs_judging.specs.{Tests.{TestsRow}, inside.Tests.{NamesReason}, CertificateTests.{RelaxFails}};
ghost use Rattle.dimacs_decide.specs.Distances.{DecidesDistances, claim_row, reach_row, source_row};
ghost use Rattle.dimacs_decide.specs.{inside.DistanceBlocks.{DecidesBlock}, inside.TightTrees.{IsWholeTightTree}};

use crate::claim::DistanceClaim;
use crate::tight_tree::{TightTree, tight_tree};
use dimacs_claims::{Block, Labels};
use dimacs_instance::Graph;
use dimacs_judging::{JudgeError, Where};
use dimacs_network::{AdjacencyLists, ArcView, Network, NodeTable, Side};
use dimacs_records::Reason;
use std::alloc::Global;

/// Decides whether the claimed distances from a source are right. Weights may be negative. If they are right, it
/// returns labels with these distances that pass the judge's tests, otherwise the first test that fails. Takes time in
/// proportion to the nodes and arcs, and memory for the arcs and the nodes that are reached.
///
/// The tests, in order: `NotShortest` at the source if its claim isn't 0; for each arc with a claim at its tail, from
/// 1, `Escapes` if its head has no claim, and `NotShortest` if its head's claim is too great; for each node with a
/// claim, by ID, `NoTightArc` if no path of tight arcs leads to it from the source.
pub fn decide_distances<N: Network, C: DistanceClaim>(
    alloc: Global,
    graph: &Graph<N>,
    source: u32,
    claim: &C,
) -> Result<Labels, JudgeError>
    requires { IsNode graph.now.nodes source }
    ensures { DecidesDistances graph.now source (C.claimed claim.now) result }
{
    let lists = AdjacencyLists::new(alloc, graph.network(), Side::Tail)?;
    decide_distances_over(alloc, graph, &lists, source, claim)
}

/// The same over adjacency lists.
fn decide_distances_over<N: Network, C: DistanceClaim>(
    alloc: Global,
    graph: &Graph<N>,
    lists: &AdjacencyLists,
    source: u32,
    claim: &C,
) -> Result<Labels, JudgeError>
    requires source { IsNode graph.now.nodes source }
    requires lists { AreAdjacencyLists Tail graph.now.arcs lists.now }
    ensures { DecidesDistances graph.now source (C.claimed claim.now) result }
{
    let block = decide_block(alloc, graph, lists, source, claim)?;
    let mut labels = Labels::new(alloc, graph.network().nodes());
    labels.push(block)?;
    Ok(labels)
}

/// The same, with the labels as one block.
pub(crate) fn decide_block<N: Network, C: DistanceClaim>(
    alloc: Global,
    graph: &Graph<N>,
    lists: &AdjacencyLists,
    source: u32,
    claim: &C,
) -> Result<Block, JudgeError>
    requires source { IsNode graph.now.nodes source }
    requires lists { AreAdjacencyLists Tail graph.now.arcs lists.now }
    ensures { DecidesBlock graph.now source (C.claimed claim.now) result }
{
    let network = graph.network();
    source_holds(source, claim)?;
    arcs_hold(network, claim)?;
    let reached = NodeTable::new(alloc, false);
    let tree = tight_tree(alloc, network, lists, source, claim, reached)?;
    nodes_hold(network, claim, &tree)?;
    Ok(tree.into_block())
}

/// Refuses the source if its claim isn't 0.
pub fn source_holds<C: DistanceClaim>(source: u32, claim: &C) -> Result<(), (Where, Reason)>
    ensures { TestsRow (source_row source (C.claimed claim.now)) result }
{
    match claim.of(source) {
        Some(dist) if dist == 0 => Ok(()),
        _ => Err((Where::Node(source), Reason::NotShortest)),
    }
}

/// Refuses the first arc that fails.
fn arcs_hold<N: Network, C: DistanceClaim>(network: &N, claim: &C) -> Result<(), (Where, Reason)>
    ensures { TestsRow (claim_row (N.list network.now) (C.claimed claim.now)) result }
{
    for i in 0..network.arcs() {
        if let Some(reason) = arc_fault(claim, network.arc(i)) {
            return Err((Where::Arc(i + 1), reason));
        }
    }
    Ok(())
}

/// The reason to refuse an arc, if there is one. Looks at the head only if the tail has a claim.
#[inline(always)]
pub(crate) fn arc_fault<C: DistanceClaim>(claim: &C, arc: ArcView) -> Option<Reason>
    ensures { NamesReason (RelaxFails None (C.claimed claim.now arc.tail) (C.claimed claim.now arc.head) arc.cost) result }
{
    let from = claim.of(arc.tail)?;
    match claim.of(arc.head) {
        None => Some(Reason::Escapes),
        Some(to) if is_beyond(to, from, arc.cost) => Some(Reason::NotShortest),
        Some(_) => None,
    }
}

#[inline(always)]
fn is_beyond(to: i128, from: i128, weight: i64) -> bool
    requires { IsWide from }
    ensures { IsTrue result ↔ ((from +ℤ weight) <ℤ to) }
{
    to > from + i128::from(weight)
}

/// Refuses the first node with a claim that the search didn't reach.
fn nodes_hold<N: Network, C: DistanceClaim>(
    network: &N,
    claim: &C,
    tree: &TightTree,
) -> Result<(), (Where, Reason)>
    requires node_limit { N.node_count network.now ≤ most_nodes }
    requires tree { IsWholeTightTree (N.node_count network.now) (N.list network.now) (C.claimed claim.now) tree.now.block (value_of tree.now.reached) }
    ensures { TestsRow (reach_row (record { nodes = N.node_count network.now; arcs = N.list network.now }) tree.now.block.source (C.claimed claim.now)) result }
{
    let end = network.nodes() + 1;
    let mut v = 1;
    while v < end {
        if claim.of(v).is_some() && !tree.reaches(v) {
            return Err((Where::Node(v), Reason::NoTightArc));
        }
        v = claim.next(v + 1, end);
    }
    Ok(())
}

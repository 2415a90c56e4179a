//! Shows claimed distances by predecessors that one pass over the arcs finds.

ghost use Rattle.std.specs.Prelude.{◌≡◌, ℕ, All, IfOk, IfSome, IsSome, length};
ghost use Rattle.dimacs_lines.specs.Limits.{IsNode};
ghost use Rattle.dimacs_records.specs.Ranges.{IsWide};
ghost use Rattle.dimacs_network.specs.Arcs.{JoinsNodes};
ghost use Rattle.dimacs_decide.specs.{Distances.{AreDistancesFrom}, inside.DistanceBlocks.{IsBlockOf}};
ghost use Rattle.dimacs_decide.specs.{Predecessors.{pred_by_node}, TightTails.{AreTightTails, IsRelaxedBy}};
ghost use Rattle.dimacs_decide.specs.inside.TightTails.{IsArcTest, IsWeightTest};

use crate::claim::DistanceClaim;
use crate::distances::source_holds;
use crate::label_tree::labelled_block;
use crate::predecessors::predecessor_of;
use dimacs_claims::Block;
use dimacs_instance::Graph;
use dimacs_judging::JudgeError;
use dimacs_lines::Memory;
use dimacs_network::{ArcView, Network};
use std::alloc::Global;

/// What the claims of an arc's ends show.
#[derive(Clone, Copy)]
pub(crate) enum ArcTest {
    /// Nothing: for example, the tail has no claim, or the arc isn't tight.
    Passes,
    /// The arc is tight, and its weight is positive.
    Tight,
    /// The claims are wrong: the head has none, or too great a one.
    Fails,
}

/// A block that shows the claimed distances, if each but the source's has a tight arc of positive weight. Takes one
/// pass over the arcs. None doesn't mean that the claim is wrong.
pub(crate) fn block_by_predecessors<N: Network, C: DistanceClaim>(
    alloc: Global,
    graph: &Graph<N>,
    source: u32,
    claim: &C,
) -> Result<Option<Block>, Memory>
    requires source { IsNode graph.now.nodes source }
    requires within { (v : ℕ) → IsSome (C.claimed claim.now v) → IsNode graph.now.nodes v }
    ensures { IfOk result (λ found. IfSome found (λ block. AreDistancesFrom graph.now source (C.claimed claim.now)
        × IsBlockOf graph.now source (C.claimed claim.now) block)) }
{
    let network = graph.network();
    if source_holds(source, claim).is_err() {
        return Ok(None);
    }
    let Some(tails) = tails_of_tight_arcs(alloc, network, claim, None)? else {
        return Ok(None);
    };
    match labelled_block(alloc, network.nodes(), source, claim, &tails) {
        Ok(block) => Ok(Some(block)),
        Err(JudgeError::Memory) => Err(Memory),
        Err(JudgeError::Refused(_, _)) => Ok(None),
    }
}

/// For each node the tail of a tight arc of positive weight to it, or 0. Which of several tails, what becomes 0, and when
/// the answer is none, isn't specified: `wanted` has the tails that the caller hopes for, and it tests what it needs.
#[inline(never)]
pub fn tails_of_tight_arcs<N: Network, C: DistanceClaim>(
    alloc: Global,
    network: &N,
    claim: &C,
    wanted: Option<&[u32]>,
) -> Result<Option<Vec<u32>>, Memory>
    requires { All (JoinsNodes (N.node_count network.now)) (N.list network.now) }
    ensures each { IfOk result (λ found. IfSome found (λ tails. length tails.items ≡ N.node_count network.now)) }
    ensures relaxed { IfOk result (λ found. IfSome found (λ tails. All (IsRelaxedBy (C.claimed claim.now)) (N.list network.now))) }
    ensures tails { IfOk result (λ found. IfSome found (λ tails. AreTightTails (N.list network.now) (C.claimed claim.now) (pred_by_node tails.items))) }
{
    let mut tails = vec![in alloc; 0u32; network.nodes() as usize]?;
    for i in 0..network.arcs() {
        let arc = network.arc(i);
        match test_wanted(claim, wanted, arc) {
            ArcTest::Passes => {}
            ArcTest::Tight => tails[arc.head as usize - 1] = arc.tail,
            ArcTest::Fails => return Ok(None),
        }
    }
    Ok(Some(tails))
}

/// As `test_arc`, but `Passes` instead of `Tight` if `wanted` names another predecessor.
#[inline(always)]
fn test_wanted<C: DistanceClaim>(claim: &C, wanted: Option<&[u32]>, arc: ArcView) -> ArcTest
    ensures { IsArcTest (C.claimed claim.now) arc result }
{
    match test_arc(claim, arc) {
        ArcTest::Tight if !is_wanted(wanted, arc) => ArcTest::Passes,
        other => other,
    }
}

#[inline(always)]
fn is_wanted(wanted: Option<&[u32]>, arc: ArcView) -> bool {
    match wanted {
        Some(predecessors) => predecessor_of(predecessors, arc.head) == arc.tail,
        None => true,
    }
}

/// Looks at the head only if the tail has a claim.
#[inline(always)]
fn test_arc<C: DistanceClaim>(claim: &C, arc: ArcView) -> ArcTest
    ensures { IsArcTest (C.claimed claim.now) arc result }
{
    let Some(from) = claim.of(arc.tail) else {
        return ArcTest::Passes;
    };
    let Some(to) = claim.of(arc.head) else {
        return ArcTest::Fails;
    };
    test_weight(from, to, arc.cost)
}

#[inline(always)]
fn test_weight(from: i128, to: i128, weight: i64) -> ArcTest
    requires { IsWide from }
    ensures { IsWeightTest from to weight result }
{
    let end = from + i128::from(weight);
    if to > end {
        return ArcTest::Fails;
    }
    if to == end && weight > 0 {
        ArcTest::Tight
    } else {
        ArcTest::Passes
    }
}

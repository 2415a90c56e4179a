//! Certifies claimed distances from several sources.

ghost use Rattle.std.specs.Prelude.{◌≡◌, ℕ, All, IfOk, IfSome, IsSome, OnOk};
ghost use Rattle.dimacs_lines.specs.Limits.{IsNode};
ghost use Rattle.dimacs_network.specs.AdjacencyLists.{AreAdjacencyLists};
ghost use Rattle.dimacs_network.specs.declared.adjacency_lists.Side.TheVariants.{Tail};
ghost use Rattle.dimacs_claims.specs.{Labels.{IsBlock, label}, declared.label_list.Label.{Label}};
ghost use Rattle.dimacs_judging.specs.Distances.{Fits};
ghost use Rattle.dimacs_decide.specs.{CertifiedPaths.{CertifiesPaths}, Distances.{AreDistancesFrom}};
ghost use Rattle.dimacs_decide.specs.{inside.DistanceBlocks.{DecidesBlock, IsBlockFor}, inside.FewLabels.{AreFree}};

use crate::block_claim::BlockClaim;
use crate::claim::DistanceClaim;
use crate::distances::decide_block;
use crate::few_labels::{Tables, few_block, has_few_labels};
use crate::placed_claim::PlacedClaim;
use crate::tight_tails::block_by_predecessors;
use dimacs_claims::{Block, Distances, Labels};
use dimacs_instance::Graph;
use dimacs_judging::{Distance, JudgeError, fit_64_bits};
use dimacs_lines::Memory;
use dimacs_network::{AdjacencyLists, Network, NodeTable, Side};
use std::alloc::Global;

/// Decides whether the distances in every block are right. Weights may be negative. If all are right, it returns labels
/// with which `judge_paths` answers yes for each source, in the order of the blocks. Otherwise `Refused` has the first
/// test of `decide_distances` that fails, block by block.
///
/// A right block with few labels takes time in proportion to them and the arcs that leave their nodes, any other block
/// to all nodes and arcs. Takes memory for the arcs and the nodes reached from each source.
pub fn certify_paths<N: Network>(
    alloc: Global,
    graph: &Graph<N>,
    distances: &Distances,
) -> Result<Labels, JudgeError>
    requires { distances.now.nodes ≡ graph.now.nodes }
    ensures { CertifiesPaths graph.now distances.now.blocks result }
{
    let network = graph.network();
    let blocks = distances.blocks();
    let mut lists = None;
    let mut tables = Tables::new(alloc, graph, blocks)?;
    let mut labels = Labels::new(alloc, network.nodes());
    for i in 0..blocks.len() {
        let block = certify_one(alloc, graph, &mut lists, &mut tables, &blocks[i])?;
        labels.push(block)?;
    }
    Ok(labels)
}

/// Decides one block: by the arcs that leave its nodes, if it has few labels and is right, otherwise over all arcs.
fn certify_one<N: Network>(
    alloc: Global,
    graph: &Graph<N>,
    lists: &mut Option<AdjacencyLists>,
    tables: &mut Option<Tables>,
    claimed: &Block,
) -> Result<Block, JudgeError>
    requires lawful { IsBlock graph.now.nodes claimed.now }
    requires lists { IfSome lists.old (AreAdjacencyLists Tail graph.now.arcs) }
    requires free { IfSome tables.old (AreFree graph.now) }
    ensures decides { DecidesBlock graph.now claimed.now.source (label claimed.now) result }
    ensures lists { OnOk result (IfSome lists.new (AreAdjacencyLists Tail graph.now.arcs)) }
    ensures free { OnOk result (IfSome tables.new (AreFree graph.now)) }
{
    if has_few_labels(claimed, graph.network()) {
        if let Some(block) = certify_few(alloc, graph, tables, claimed)? {
            return Ok(block);
        }
        return search_one(alloc, graph, lists, claimed);
    }
    certify_many(alloc, graph, lists, claimed)
}

fn search_one<N: Network>(
    alloc: Global,
    graph: &Graph<N>,
    lists: &mut Option<AdjacencyLists>,
    claimed: &Block,
) -> Result<Block, JudgeError>
    requires lawful { IsBlock graph.now.nodes claimed.now }
    requires lists { IfSome lists.old (AreAdjacencyLists Tail graph.now.arcs) }
    ensures decides { DecidesBlock graph.now claimed.now.source (label claimed.now) result }
    ensures lists { OnOk result (IfSome lists.new (AreAdjacencyLists Tail graph.now.arcs)) }
{
    let claim = PlacedClaim::new(claimed, NodeTable::new(alloc, u32::MAX))?;
    search_block(alloc, graph, lists, claimed.source(), &claim)
}

/// Decides one block over all arcs, by tables with an item for each node.
fn certify_many<N: Network>(
    alloc: Global,
    graph: &Graph<N>,
    lists: &mut Option<AdjacencyLists>,
    claimed: &Block,
) -> Result<Block, JudgeError>
    requires lawful { IsBlock graph.now.nodes claimed.now }
    requires lists { IfSome lists.old (AreAdjacencyLists Tail graph.now.arcs) }
    ensures decides { DecidesBlock graph.now claimed.now.source (label claimed.now) result }
    ensures lists { OnOk result (IfSome lists.new (AreAdjacencyLists Tail graph.now.arcs)) }
{
    let labels = claimed.labels();
    if labels.is_short() {
        return certify_by::<N, i32>(alloc, graph, lists, claimed);
    }
    if fit_64_bits(labels) {
        return certify_by::<N, i64>(alloc, graph, lists, claimed);
    }
    certify_by::<N, i128>(alloc, graph, lists, claimed)
}

/// The same with a table whose numbers hold the block's distances.
fn certify_by<N: Network, D: Distance>(
    alloc: Global,
    graph: &Graph<N>,
    lists: &mut Option<AdjacencyLists>,
    claimed: &Block,
) -> Result<Block, JudgeError>
    requires lawful { IsBlock graph.now.nodes claimed.now }
    requires fits { All (λ (l : Label). Fits D.low D.end l.dist) claimed.now.labels }
    requires lists { IfSome lists.old (AreAdjacencyLists Tail graph.now.arcs) }
    ensures decides { DecidesBlock graph.now claimed.now.source (label claimed.now) result }
    ensures lists { OnOk result (IfSome lists.new (AreAdjacencyLists Tail graph.now.arcs)) }
{
    let claim: BlockClaim<D> = BlockClaim::new(alloc, graph.network().nodes(), claimed)?;
    certify_block(alloc, graph, lists, claimed.source(), &claim)
}

/// Labels for the claimed distances, if these are right, by the arcs that leave the block's nodes.
fn certify_few<N: Network>(
    alloc: Global,
    graph: &Graph<N>,
    tables: &mut Option<Tables>,
    claimed: &Block,
) -> Result<Option<Block>, Memory>
    requires lawful { IsBlock graph.now.nodes claimed.now }
    requires free { IfSome tables.old (AreFree graph.now) }
    ensures distances { IfOk result (λ found. IfSome found (λ block. AreDistancesFrom graph.now claimed.now.source (label claimed.now))) }
    ensures block { IfOk result (λ found. IfSome found (IsBlockFor graph.now claimed.now)) }
    ensures free { OnOk result (IfSome tables.new (AreFree graph.now)) }
{
    let Some(own) = tables.take() else {
        return Ok(None);
    };
    let Some((block, own)) = few_block(alloc, graph, claimed, own)? else {
        return Ok(None);
    };
    *tables = Some(own);
    Ok(Some(block))
}

/// Decides one block: by one pass over all arcs, if each distance has a tight arc of positive weight, or by a search.
fn certify_block<N: Network, C: DistanceClaim>(
    alloc: Global,
    graph: &Graph<N>,
    lists: &mut Option<AdjacencyLists>,
    source: u32,
    claim: &C,
) -> Result<Block, JudgeError>
    requires source { IsNode graph.now.nodes source }
    requires within { (v : ℕ) → IsSome (C.claimed claim.now v) → IsNode graph.now.nodes v }
    requires lists { IfSome lists.old (AreAdjacencyLists Tail graph.now.arcs) }
    ensures decides { DecidesBlock graph.now source (C.claimed claim.now) result }
    ensures lists { OnOk result (IfSome lists.new (AreAdjacencyLists Tail graph.now.arcs)) }
{
    match block_by_predecessors(alloc, graph, source, claim)? {
        Some(block) => Ok(block),
        None => search_block(alloc, graph, lists, source, claim),
    }
}

/// Decides one block by a search. The first block that needs adjacency lists builds them.
fn search_block<N: Network, C: DistanceClaim>(
    alloc: Global,
    graph: &Graph<N>,
    lists: &mut Option<AdjacencyLists>,
    source: u32,
    claim: &C,
) -> Result<Block, JudgeError>
    requires source { IsNode graph.now.nodes source }
    requires lists { IfSome lists.old (AreAdjacencyLists Tail graph.now.arcs) }
    ensures decides { DecidesBlock graph.now source (C.claimed claim.now) result }
    ensures lists { OnOk result (IfSome lists.new (AreAdjacencyLists Tail graph.now.arcs)) }
{
    let built = lists_or_new(alloc, graph.network(), lists.take())?;
    let block = decide_block(alloc, graph, &built, source, claim)?;
    *lists = Some(built);
    Ok(block)
}

fn lists_or_new<N: Network>(
    alloc: Global,
    network: &N,
    lists: Option<AdjacencyLists>,
) -> Result<AdjacencyLists, Memory>
    requires { IfSome lists (AreAdjacencyLists Tail (N.list network.now)) }
    ensures { IfOk result (AreAdjacencyLists Tail (N.list network.now)) }
{
    match lists {
        Some(lists) => Ok(lists),
        None => AdjacencyLists::new(alloc, network, Side::Tail),
    }
}

//! Certifies a block with few labels by the arcs that leave its nodes.

ghost use Rattle.std.specs.Prelude.{◌≡◌, ◌≤◌, ℕ, IfOk, IfSome, IsTrue, is_some, length, true};
ghost use Rattle.dimacs_lines.specs.Limits.{most_count};
ghost use Rattle.dimacs_network.specs.{AdjacencyLists.{AreAdjacencyLists}, Tables.{value_of}};
ghost use Rattle.dimacs_network.specs.declared.adjacency_lists.Side.TheVariants.{Tail};
ghost use Rattle.dimacs_instance.specs.Graph.{IsGraph};
ghost use Rattle.dimacs_claims.specs.Labels.{IsBlock, label};
ghost use Rattle.dimacs_judging.specs.Tests.{Clear};
ghost use Rattle.dimacs_decide.specs.{Distances.{AreDistancesFrom, claim_row}, inside.DistanceBlocks.{IsBlockFor}};
ghost use Rattle.dimacs_decide.specs.inside.FewLabels.{AreFree, AreLightest, ArcsHoldFrom, IsUnreached, arcs_followed};
ghost use Rattle.dimacs_decide.specs.inside.TightTrees.{ReachesAll};

use crate::claim::DistanceClaim;
use crate::distances::arc_fault;
use crate::placed_claim::PlacedClaim;
use crate::tight_tree::{TightTree, tight_tree};
use dimacs_claims::Block;
use dimacs_instance::Graph;
use dimacs_judging::lightest_arcs;
use dimacs_lines::Memory;
use dimacs_network::{AdjacencyLists, ArcView, Network, NodeTable, PlainArcs, Side};
use std::alloc::Global;

/// A block has few labels if there are more nodes than this for each of them.
const NODES_A_LABEL: usize = 32;

/// What blocks with few labels share. A block sets only the items of the nodes that it labels.
#[derive(Drop)]
pub(crate) struct Tables {
    /// What `lightest_arcs` leaves of the arcs, if there is a hub, a node that very many arcs leave: each block may label
    /// both ends of many parallel arcs.
    lightest: Option<PlainArcs<ArcView>>,
    /// The lists of these arcs; without a hub, of all.
    lists: AdjacencyLists,
    places: NodeTable<u32>,
    reached: NodeTable<bool>,
}

impl Tables {
    /// None if no block has few labels. Takes 4 bytes for each arc and each node that has one; with a hub, 36 for each
    /// pair of nodes that an arc joins.
    pub(crate) fn new<N: Network>(
        alloc: Global,
        graph: &Graph<N>,
        blocks: &[Block],
    ) -> Result<Option<Tables>, Memory>
        ensures { IfOk result (λ found. IfSome found (AreFree graph.now)) }
    {
        let network = graph.network();
        if !any_has_few_labels(blocks, network) {
            return Ok(None);
        }
        let lightest = lightest_network(alloc, network, blocks)?;
        let lists = lists_of(alloc, network, &lightest)?;
        Ok(Some(Tables {
            lightest,
            lists,
            places: NodeTable::new(alloc, u32::MAX),
            reached: NodeTable::new(alloc, false),
        }))
    }
}

/// Whether a block labels less than one of `NODES_A_LABEL` nodes, or has fewer pairs of labelled nodes than there are
/// arcs. The arcs that leave its nodes then take less time than all arcs.
pub(crate) fn has_few_labels<N: Network>(block: &Block, network: &N) -> bool {
    let labels = block.labels().len();
    labels < network.nodes() as usize / NODES_A_LABEL
        || labels.saturating_mul(labels) < network.arcs() as usize
}

fn any_has_few_labels<N: Network>(blocks: &[Block], network: &N) -> bool {
    for block in blocks {
        if has_few_labels(block, network) {
            return true;
        }
    }
    false
}

fn lightest_network<N: Network>(
    alloc: Global,
    network: &N,
    blocks: &[Block],
) -> Result<Option<PlainArcs<ArcView>>, Memory>
    requires { length (N.list network.now) ≤ most_count }
    ensures nodes { IfOk result (λ found. IfSome found (λ lightest. lightest.nodes ≡ N.node_count network.now)) }
    ensures arcs { IfOk result (λ found. IfSome found (λ lightest. AreLightest (N.list network.now) lightest.arcs)) }
{
    let Some(order) = lightest_arcs(alloc, network, blocks)? else {
        return Ok(None);
    };
    let mut lightest = PlainArcs::new(alloc, network.nodes());
    for k in 0..order.len() {
        lightest.push(network.arc(order[k]))?;
    }
    Ok(Some(lightest))
}

/// The lists of the lightest arcs; without a hub, of all arcs.
fn lists_of<N: Network>(
    alloc: Global,
    network: &N,
    lightest: &Option<PlainArcs<ArcView>>,
) -> Result<AdjacencyLists, Memory>
    ensures { IfOk result (AreAdjacencyLists Tail (arcs_followed (N.list network.now) lightest.now)) }
{
    match lightest {
        Some(arcs) => AdjacencyLists::new(alloc, arcs, Side::Tail),
        None => AdjacencyLists::new(alloc, network, Side::Tail),
    }
}

/// Labels for the claimed distances, if these are right, and the tables for the next block. Takes time in proportion to
/// the labels and the arcs, or lightest arcs, that leave their nodes.
pub(crate) fn few_block<N: Network>(
    alloc: Global,
    graph: &Graph<N>,
    claimed: &Block,
    tables: Tables,
) -> Result<Option<(Block, Tables)>, Memory>
    requires lawful { IsBlock graph.now.nodes claimed.now }
    requires free { AreFree graph.now tables }
    ensures distances { IfOk result (λ found. IfSome found (λ both. AreDistancesFrom graph.now claimed.now.source (label claimed.now))) }
    ensures block { IfOk result (λ found. IfSome found (λ both. IsBlockFor graph.now claimed.now both.0)) }
    ensures free { IfOk result (λ found. IfSome found (λ both. AreFree graph.now both.1)) }
{
    let Tables {
        lightest,
        lists,
        places,
        reached,
    } = tables;
    let all = graph.network();
    let claim = PlacedClaim::new(claimed, places)?;
    let found = match &lightest {
        Some(arcs) => few_tree(alloc, graph, arcs, &lists, claimed, &claim, reached)?,
        None => few_tree(alloc, graph, all, &lists, claimed, &claim, reached)?,
    };
    let Some(tree) = found else {
        return Ok(None);
    };
    let (block, reached) = tree.into_parts()?;
    let places = claim.into_places();
    Ok(Some((
        block,
        Tables {
            lightest,
            lists,
            places,
            reached,
        },
    )))
}

/// The tree of tight arcs to all labelled nodes, if no arc fails. `network` has the lightest arcs of the graph.
fn few_tree<N: Network, M: Network>(
    alloc: Global,
    _graph: &Graph<N>,
    network: &M,
    lists: &AdjacencyLists,
    claimed: &Block,
    claim: &PlacedClaim<'_>,
    reached: NodeTable<bool>,
) -> Result<Option<TightTree>, Memory>
    requires graph { IsGraph _graph.now }
    requires nodes { M.node_count network.now ≡ _graph.now.nodes }
    requires lightest { AreLightest _graph.now.arcs (M.list network.now) }
    requires lists { AreAdjacencyLists Tail (M.list network.now) lists.now }
    requires lawful { IsBlock _graph.now.nodes claimed.now }
    requires claimed { claim.now.block.now ≡ claimed.now }
    requires unreached { IsUnreached (value_of reached) }
    ensures distances { IfOk result (λ found. IfSome found (λ tree. AreDistancesFrom _graph.now claimed.now.source (label claimed.now))) }
    ensures block { IfOk result (λ found. IfSome found (λ tree. IsBlockFor _graph.now claimed.now tree.block)) }
    ensures marked { IfOk result (λ found. IfSome found (λ tree. (v : ℕ) → value_of tree.reached v ≡ is_some (label tree.block v))) }
{
    if !leaving_arcs_hold(network, lists, claimed, claim) {
        return Ok(None);
    }
    let source = claimed.source();
    let tree = tight_tree(alloc, network, lists, source, claim, reached)?;
    if !reaches_all(claimed, &tree) {
        return Ok(None);
    }
    Ok(Some(tree))
}

fn leaving_arcs_hold<N: Network, C: DistanceClaim>(
    network: &N,
    lists: &AdjacencyLists,
    claimed: &Block,
    claim: &C,
) -> bool
    requires lists { AreAdjacencyLists Tail (N.list network.now) lists.now }
    requires claimed { (v : ℕ) → C.claimed claim.now v ≡ label claimed.now v }
    ensures { IsTrue result → Clear (claim_row (N.list network.now) (C.claimed claim.now)) }
{
    if !arcs_hold_from(network, lists, claim, claimed.source()) {
        return false;
    }
    let labels = claimed.labels();
    for i in 0..labels.len() {
        if !arcs_hold_from(network, lists, claim, labels.at(i).id) {
            return false;
        }
    }
    true
}

/// Whether no arc that leaves this node fails.
fn arcs_hold_from<N: Network, C: DistanceClaim>(
    network: &N,
    lists: &AdjacencyLists,
    claim: &C,
    node: u32,
) -> bool
    requires { AreAdjacencyLists Tail (N.list network.now) lists.now }
    ensures { IsTrue result → ArcsHoldFrom (N.list network.now) (C.claimed claim.now) node }
{
    let mut next = lists.last(node);
    while next > 0 {
        let arc_index = next - 1;
        if arc_fault(claim, network.arc(arc_index)).is_some() {
            return false;
        }
        next = lists.before(arc_index);
    }
    true
}

fn reaches_all(claimed: &Block, tree: &TightTree) -> bool
    requires { value_of tree.now.reached claimed.now.source ≡ true }
    ensures { IsTrue result → (nodes : ℕ) → ReachesAll nodes (label claimed.now) (value_of tree.now.reached) }
{
    let labels = claimed.labels();
    for i in 0..labels.len() {
        if !tree.reaches(labels.at(i).id) {
            return false;
        }
    }
    true
}

//! Labels for queries.

ghost use Rattle.std.specs.Prelude.{◌≡◌, ◌<◌, ◌≤◌, ◌*◌, [], All, length, IfOk, OnOk, MatchOption};
ghost use Rattle.dimacs_lines.specs.Limits.{most_count, IsNode};
ghost use Rattle.dimacs_instance.specs.QueryTexts.{AreLawful, asked, query_lines};
ghost use Rattle.dimacs_claims.specs.Labels.{BlockValue, IsNewSource};
ghost use Rattle.dimacs_judging.specs.QueryTests.{sources_asked};
ghost use Rattle.dimacs_solve.specs.{inside.Adjacency.{AreByNode}, inside.Blocks.{AddsBlock, AreSolved}};
ghost use Rattle.dimacs_solve.specs.Paths.{HasNoNegativeWeight, IsFirstNegative, SolvesPaths};

use crate::adjacency::{Adjacency, by_tail};
use crate::distance::SearchDistance;
use crate::error::SolveError;
use crate::frontier::Frontier;
use crate::node_states::NodeStates;
use crate::search::search;
use dimacs_claims::Labels;
use dimacs_instance::{Graph, Queries};
use dimacs_judging::{passing_shows, query_nodes_hold, source_asked};
use dimacs_lines::Memory;
use dimacs_network::{Network, NodeSet};
use std::alloc::Global;

/// Makes labels that pass the judge's tests, by Dijkstra's algorithm: a block for each source that is asked for, in the
/// order of first use, its nearest labels first. It never gives up, and no sum overflows.
///
/// `Refused` comes if a query names a node above the number of nodes, and names the first one, FROM before TO.
/// Otherwise `NegativeWeight` comes if a weight is negative.
///
/// A block takes time and memory for what it reaches, however many nodes there are. Distances have 64 bits if the
/// greatest weight times the number of nodes fits, otherwise 128.
pub fn solve_paths<N: Network>(
    alloc: Global,
    graph: &Graph<N>,
    queries: &Queries,
) -> Result<Labels, SolveError>
    requires lawful { AreLawful (asked queries.now) }
    ensures { SolvesPaths graph.now (asked queries.now) result }
{
    let network = graph.network();
    query_nodes_hold(network.nodes(), queries)?;
    if let Some(arc) = first_negative(network) {
        return Err(SolveError::NegativeWeight(arc));
    }
    let adjacency = by_tail(alloc, network)?;
    let labels = if adjacency.farthest() <= u128::from(u64::MAX) {
        solve_all::<u64>(alloc, &adjacency, queries)?
    } else {
        solve_all::<u128>(alloc, &adjacency, queries)?
    };
    passing_shows();
    Ok(labels)
}

fn first_negative<N: Network>(network: &N) -> Option<u32>
    ensures { MatchOption result (All HasNoNegativeWeight (N.list network.now)) (IsFirstNegative (N.list network.now)) }
{
    for i in 0..network.arcs() {
        if network.arc(i).cost < 0 {
            return Some(i + 1);
        }
    }
    None
}

fn solve_all<D: SearchDistance>(
    alloc: Global,
    adjacency: &Adjacency,
    queries: &Queries,
) -> Result<Labels, Memory>
    requires adjacent { AreByNode adjacency.now }
    requires bounded { adjacency.now.nodes * adjacency.now.greatest < D.limit }
    requires sources_few { length (sources_asked (asked queries.now)) ≤ most_count }
    requires sources { All (IsNode adjacency.now.nodes) (sources_asked (asked queries.now)) }
    requires one_source_each { length (query_lines (asked queries.now)) ≡ length (sources_asked (asked queries.now)) }
    ensures { IfOk result (AreSolved adjacency.now (sources_asked (asked queries.now))) }
{
    let mut node_states: NodeStates<D> = NodeStates::new(alloc);
    let mut frontier = Frontier::new(alloc);
    let mut done = NodeSet::new(alloc);
    let mut labels = Labels::new(alloc, adjacency.nodes());
    for i in 0..queries.len() {
        let source = source_asked(queries, i);
        if !done.contains(source) {
            solve_one(
                alloc,
                adjacency,
                source,
                &mut node_states,
                &mut frontier,
                &mut labels,
            )?;
            done.insert(source)?;
        }
    }
    Ok(labels)
}

fn solve_one<D: SearchDistance>(
    alloc: Global,
    adjacency: &Adjacency,
    source: u32,
    node_states: &mut NodeStates<D>,
    frontier: &mut Frontier<D>,
    labels: &mut Labels,
) -> Result<(), Memory>
    requires adjacent { AreByNode adjacency.now }
    requires bounded { adjacency.now.nodes * adjacency.now.greatest < D.limit }
    requires nodes { labels.old.nodes ≡ adjacency.now.nodes }
    requires source { IsNode adjacency.now.nodes source }
    requires new { (b : BlockValue) → b.source ≡ source → IsNewSource labels.old.blocks b }
    requires blocks_few { length labels.old.blocks < most_count }
    requires rounds { node_states.old.round ≡ length labels.old.blocks }
    requires empty { frontier.old ≡ [] }
    ensures block { OnOk result (AddsBlock adjacency.now source labels.old labels.new) }
    ensures rounds { OnOk result (node_states.new.round ≡ length labels.new.blocks) }
    ensures empty { OnOk result (frontier.new ≡ []) }
{
    let block = search(alloc, adjacency, source, node_states, frontier)?;
    labels.push(block)?;
    Ok(())
}

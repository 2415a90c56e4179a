//! Judging that labels are distances.

ghost use Rattle.dimacs_instance.specs.QueryTexts.{AreLawful, asked};
ghost use Rattle.dimacs_judging.specs.{Answers.{AnswersQueries}, PathsJudge.{ShowsDistances, paths_rows}};
ghost use Rattle.dimacs_judging.specs.Tests.{Judges};

use crate::agreement::nodes_agree;
use crate::node_labels::labelled_blocks_hold;
use crate::queries::{answers, blocks_exist, query_nodes_hold};
use crate::verdict::{JudgeError, Verdict};
use dimacs_claims::Labels;
use dimacs_instance::{Graph, Queries};
use dimacs_network::Network;
use std::alloc::Global;

/// Judges whether labels are distances, and answers the queries by them. A yes is about all blocks, even those for
/// which no query asks: it means what `label_tests` does.
///
/// `Sources` has the number of sources asked for. `Pairs` has for each pair, in order, the distance, or the radius of
/// its block if that has one. Each pair is looked up in the labels, so call `index_for` first. `Memory` if there is
/// none for a table of the nodes that have labels, lists of arcs, the numbers of the blocks or the answers.
///
/// The tests in order: `NodesDiffer` if labels and graph differ in the number of nodes; `QueryNode` for each query if
/// FROM, or else TO, is above this number; `BlockMissing` for each query whose source has no block, or has one with a
/// radius while all distances are asked for; those of `label_tests`.
pub fn judge_paths<N: Network>(
    alloc: Global,
    graph: &Graph<N>,
    queries: &Queries,
    labels: &Labels,
) -> Result<Verdict, JudgeError>
    requires lawful { AreLawful (asked queries.now) }
    ensures { Judges (paths_rows graph.now (asked queries.now) labels.now)
        (ShowsDistances graph.now (asked queries.now) labels.now) (AnswersQueries labels.now.blocks (asked queries.now))
        result }
{
    let network = graph.network();
    let nodes = network.nodes();
    nodes_agree(nodes, labels.nodes())?;
    query_nodes_hold(nodes, queries)?;
    let numbers = blocks_exist(alloc, labels, queries)?;
    labelled_blocks_hold(alloc, network, labels)?;
    Ok(answers(alloc, queries, labels, &numbers)?)
}

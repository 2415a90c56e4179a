//! Tests of queries, and the answers that labels give.

ghost use Rattle.std.specs.Prelude.{◌≡◌, ◌<◌, ◌≤◌, ◌↔◌, IsTrue, All, Some, IfOk, OnOk, map, length, slice_get};
ghost use Rattle.dimacs_records.specs.declared.reasons.Reason.TheVariants as reasons;
ghost use Rattle.dimacs_instance.specs.QueryTexts.{AreLawful, Pairs, asked};
ghost use Rattle.dimacs_judging.specs.{Answers.{AnswersQueries, answer_to, distance_from}, Tests.{TestsRow}};
ghost use Rattle.dimacs_judging.specs.QueryTests.{HasFullBlock, IsServed, block_row, listed_row, nodes_asked, query_node_row, sources_asked};
ghost use Rattle.dimacs_judging.specs.inside.QueryTests.{AreNumbers, TestsBlocks, radius_from};

use crate::verdict::{Answer, JudgeError, Verdict, Where};
use dimacs_claims::Labels;
use dimacs_instance::Queries;
use dimacs_lines::Memory;
use dimacs_network::NodeMap;
use dimacs_records::Reason;
use std::alloc::Global;

/// Tests that queries name nodes of the graph. The error names the first ID that is too great, FROM before TO.
pub fn query_nodes_hold(nodes: u32, queries: &Queries) -> Result<(), (Where, Reason)>
    ensures tests { TestsRow (query_node_row nodes (asked queries.now)) result }
    ensures within { OnOk result (All (λ id. id ≤ nodes) (nodes_asked (asked queries.now))) }
{
    match queries {
        Queries::Sources(ids) => sources_are_nodes(nodes, ids),
        Queries::Pairs(pairs) => pairs_are_nodes(nodes, pairs),
    }
}

fn sources_are_nodes(nodes: u32, ids: &[u32]) -> Result<(), (Where, Reason)>
    ensures { TestsRow (listed_row ids.now reasons.QueryNode (λ id. nodes < id)) result }
{
    for id in ids {
        if *id > nodes {
            return Err((Where::Node(*id), Reason::QueryNode));
        }
    }
    Ok(())
}

fn pairs_are_nodes(nodes: u32, pairs: &[(u32, u32)]) -> Result<(), (Where, Reason)>
    ensures { TestsRow (query_node_row nodes (Pairs pairs.now)) result }
{
    for (from, to) in pairs {
        if *from > nodes {
            return Err((Where::Node(*from), Reason::QueryNode));
        }
        if *to > nodes {
            return Err((Where::Node(*to), Reason::QueryNode));
        }
    }
    Ok(())
}

/// Tests that a block answers each query. Returns the number of each source's block.
pub(crate) fn blocks_exist(
    alloc: Global,
    labels: &Labels,
    queries: &Queries,
) -> Result<NodeMap<u32>, JudgeError>
    ensures { TestsBlocks labels.now.blocks (asked queries.now) result }
{
    let numbers = block_numbers(alloc, labels)?;
    sources_are_served(labels, &numbers, queries)?;
    Ok(numbers)
}

/// The number of each source's block, from 0.
fn block_numbers(alloc: Global, labels: &Labels) -> Result<NodeMap<u32>, Memory>
    ensures { IfOk result (AreNumbers labels.now.blocks) }
{
    let mut numbers = NodeMap::new(alloc);
    for (i, block) in labels.blocks().iter().enumerate() {
        numbers.set(block.source(), i as u32)?;
    }
    Ok(numbers)
}

fn sources_are_served(
    labels: &Labels,
    numbers: &NodeMap<u32>,
    queries: &Queries,
) -> Result<(), (Where, Reason)>
    requires { AreNumbers labels.now.blocks numbers.now }
    ensures { TestsRow (block_row labels.now.blocks (asked queries.now)) result }
{
    for i in 0..queries.len() {
        let source = source_asked(queries, i);
        if !is_served(labels, numbers, queries, source) {
            return Err((Where::Node(source), Reason::BlockMissing));
        }
    }
    Ok(())
}

/// If all distances are asked for, a block with a radius doesn't answer.
fn is_served(labels: &Labels, numbers: &NodeMap<u32>, queries: &Queries, source: u32) -> bool
    requires { AreNumbers labels.now.blocks numbers.now }
    ensures { IsTrue result ↔ IsServed labels.now.blocks (asked queries.now) source }
{
    match queries {
        Queries::Sources(_) => has_full_block(labels, numbers, source),
        Queries::Pairs(_) => numbers.get(source).is_some(),
    }
}

fn has_full_block(labels: &Labels, numbers: &NodeMap<u32>, source: u32) -> bool
    requires { AreNumbers labels.now.blocks numbers.now }
    ensures { IsTrue result ↔ HasFullBlock labels.now.blocks source }
{
    match numbers.get(source) {
        Some(number) => labels.blocks()[number as usize].radius().is_none(),
        None => false,
    }
}

/// The source of the query with this index: its node, or FROM.
pub fn source_asked(queries: &Queries, i: usize) -> u32
    requires { i < length (sources_asked (asked queries.now)) }
    ensures { slice_get (sources_asked (asked queries.now)) i ≡ Some result }
{
    match queries {
        Queries::Sources(ids) => ids[i],
        Queries::Pairs(pairs) => pairs[i].0,
    }
}

/// Indexes the labels if queries of pairs will look them up.
pub fn index_for(queries: &Queries, labels: &mut Labels) -> Result<(), Memory>
    ensures { labels.new ≡ labels.old }
{
    match queries {
        Queries::Sources(_) => Ok(()),
        Queries::Pairs(_) => labels.index(),
    }
}

/// Answers queries by labels, without testing these. A pair whose source has no block gets no distance. After
/// `index_for` each pair takes logarithmic time, otherwise time in proportion to its block's labels.
pub fn answer_queries(alloc: Global, queries: &Queries, labels: &Labels) -> Result<Verdict, Memory>
    requires { AreLawful (asked queries.now) }
    ensures { IfOk result (AnswersQueries labels.now.blocks (asked queries.now)) }
{
    let numbers = block_numbers(alloc, labels)?;
    answers(alloc, queries, labels, &numbers)
}

/// The same by block numbers.
pub(crate) fn answers(
    alloc: Global,
    queries: &Queries,
    labels: &Labels,
    numbers: &NodeMap<u32>,
) -> Result<Verdict, Memory>
    requires lawful { AreLawful (asked queries.now) }
    requires numbers { AreNumbers labels.now.blocks numbers.now }
    ensures { IfOk result (AnswersQueries labels.now.blocks (asked queries.now)) }
{
    match queries {
        Queries::Sources(ids) => Ok(Verdict::Sources(ids.len() as u32)),
        Queries::Pairs(pairs) => {
            let answers = pair_answers(alloc, pairs, labels, numbers)?;
            Ok(Verdict::Pairs(answers))
        }
    }
}

fn pair_answers(
    alloc: Global,
    pairs: &[(u32, u32)],
    labels: &Labels,
    numbers: &NodeMap<u32>,
) -> Result<Vec<Answer>, Memory>
    requires { AreNumbers labels.now.blocks numbers.now }
    ensures { IfOk result (λ answers. answers.items ≡ map (answer_to labels.now.blocks) pairs.now) }
{
    let mut answers = Vec::new(alloc);
    for pair in pairs {
        let (from, to) = *pair;
        answers.push(answer(labels, numbers, from, to))?;
    }
    Ok(answers)
}

fn answer(labels: &Labels, numbers: &NodeMap<u32>, from: u32, to: u32) -> Answer
    requires { AreNumbers labels.now.blocks numbers.now }
    ensures { result ≡ answer_to labels.now.blocks (from, to) }
{
    match distance(labels, numbers, from, to) {
        Some(label) => Answer {
            from,
            to,
            distance: Some(label),
            beyond: None,
        },
        None => Answer {
            from,
            to,
            distance: None,
            beyond: radius(labels, numbers, from),
        },
    }
}

fn distance(labels: &Labels, numbers: &NodeMap<u32>, from: u32, to: u32) -> Option<i128>
    requires { AreNumbers labels.now.blocks numbers.now }
    ensures { result ≡ distance_from labels.now.blocks from to }
{
    let number = numbers.get(from)?;
    labels.label(number as usize, to)
}

fn radius(labels: &Labels, numbers: &NodeMap<u32>, from: u32) -> Option<i128>
    requires { AreNumbers labels.now.blocks numbers.now }
    ensures { result ≡ radius_from labels.now.blocks from }
{
    let number = numbers.get(from)?;
    labels.blocks()[number as usize].radius()
}

//! Queries, distances and labels from arrays: for functions over values, as `write_labels`.

ghost use Rattle.std.specs.{Prelude.{◌≡◌, ◌≤◌, ◌↔◌, ◌∷◌, [], length, IfNone, IfOk, IfSome, IsTrue, OnOk}, List.{zip}};
ghost use Rattle.dimacs_lines.specs.Limits.{IsNode, most_nodes};
ghost use Rattle.dimacs_records.specs.Ranges.{IsId};
ghost use Rattle.dimacs_records.specs.declared.records.QueryKind.TheVariants as asks;
ghost use Rattle.dimacs_instance.specs.QueryTexts.{asked};
ghost use Rattle.dimacs_claims.specs.Labels.{IsBlock};
ghost use Rattle.dimacs_judging.specs.Tests.{Settles};
ghost use Rattle.dimacs_decide.specs.{Claims.{claimed_by_node}, Distances.{source_row}};
ghost use Rattle.dimacs_arrays.specs.PathsSpelled.{AreDistancesBy, IsPastId, SpellsDistancesArray, SpellsLabelArrays, SpellsQueryArrays, block_spelled, label_with, queries_spelled, query_row, tos_wanted};
ghost use Rattle.dimacs_arrays.specs.{inside.Answers.{TestsLimits}, inside.PathsSpelled.{AreInRangeBelow}};

use crate::error::{Array, ArrayError};
use crate::labels::labels_by_node;
use crate::lengths::{ArrayLength, lengths_hold};
use crate::limits::{PastLimit, node_holds};
use crate::over::nodes_hold;
use dimacs_claims::{Block, Distances, Label, Labels};
use dimacs_decide::{DistanceClaim, DistancesByNode, source_holds};
use dimacs_instance::Queries;
use dimacs_judging::{JudgeError, Where};
use dimacs_lines::Memory;
use dimacs_records::{MAX_COUNT, MAX_NODES, QueryKind, Reason};
use std::alloc::Global;

/// The queries for the distances from `froms` to all nodes or, for pairs, from each of `froms` to that of `tos`. It tests
/// that there are at most 2^28, and for pairs as many `tos`, otherwise none; then the IDs.
pub fn queries_over(
    alloc: Global,
    kind: QueryKind,
    froms: &[u32],
    tos: &[u32],
) -> Result<Queries, ArrayError>
    ensures { SpellsQueryArrays kind froms.now tos.now result }
{
    let count = froms.len();
    lengths_hold(&[
        ArrayLength::of(Array::Froms, count, count.min(MAX_COUNT as usize)),
        ArrayLength::of(Array::Tos, tos.len(), tos_wanted(kind, count)),
    ])?;
    ids_hold(froms, tos)?;
    Ok(queries_of(alloc, kind, froms, tos)?)
}

fn tos_wanted(kind: QueryKind, froms: usize) -> usize
    ensures { result ≡ tos_wanted kind froms }
{
    match kind {
        QueryKind::Sources => 0,
        QueryKind::Pairs => froms,
    }
}

fn ids_hold(froms: &[u32], tos: &[u32]) -> Result<(), PastLimit>
    ensures first_fault { TestsLimits (query_row froms.now tos.now ∷ []) result }
    ensures in_range { OnOk result (AreInRangeBelow froms.now tos.now (length froms.now)) }
{
    for i in 0..froms.len() {
        if let Some(id) = past_id(froms[i], tos.get(i).copied()) {
            return Err(PastLimit {
                place: Where::Node(id),
                reason: Reason::NumberRange,
            });
        }
    }
    Ok(())
}

/// The first ID of a query that is out of range: FROM, otherwise TO.
fn past_id(from: u32, to: Option<u32>) -> Option<u32>
    ensures some { IfSome result (IsPastId from to) }
    ensures none { IfNone result (IsId from × IfSome to IsId) }
{
    if !is_id(from) {
        return Some(from);
    }
    match to {
        Some(to) if !is_id(to) => Some(to),
        _ => None,
    }
}

fn is_id(id: u32) -> bool
    ensures { IsTrue result ↔ IsId id }
{
    id >= 1 && id <= MAX_NODES
}

fn queries_of(alloc: Global, kind: QueryKind, froms: &[u32], tos: &[u32]) -> Result<Queries, Memory>
    requires { kind ≡ asks.Pairs → length tos.now ≡ length froms.now }
    ensures { IfOk result (λ queries. asked queries ≡ queries_spelled kind froms.now tos.now) }
{
    match kind {
        QueryKind::Sources => Ok(Queries::Sources(froms.to_vec(alloc)?)),
        QueryKind::Pairs => Ok(Queries::Pairs(pairs_of(alloc, froms, tos)?)),
    }
}

fn pairs_of(alloc: Global, froms: &[u32], tos: &[u32]) -> Result<Vec<(u32, u32)>, Memory>
    requires { length tos.now ≡ length froms.now }
    ensures { IfOk result (λ pairs. pairs.items ≡ zip froms.now tos.now) }
{
    let mut pairs = Vec::new(alloc);
    for i in 0..froms.len() {
        pairs.push((froms[i], tos[i]))?;
    }
    Ok(pairs)
}

/// These distances, in one block with labels by ID; `i64::MAX` stands for none. It tests the number of nodes, then the
/// source, then that its distance is 0.
pub fn distances_over(
    alloc: Global,
    source: u32,
    distances: &[i64],
) -> Result<Distances, ArrayError>
    ensures { SpellsDistancesArray source distances.now result }
{
    nodes_hold(distances.len())?;
    node_holds(distances.len() as u32, source)?;
    Ok(distances_by_node(alloc, source, distances)?)
}

fn distances_by_node(alloc: Global, source: u32, distances: &[i64]) -> Result<Distances, JudgeError>
    requires node_limit { length distances.now ≤ most_nodes }
    requires source { IsNode (length distances.now) source }
    ensures { Settles (AreDistancesBy source distances.now) (source_row source (claimed_by_node distances.now) ∷ []) result }
{
    source_holds(source, &DistancesByNode { distances })?;
    let block = block_by_id(alloc, source, distances)?;
    let mut claimed = Distances::new(alloc, distances.len() as u32);
    claimed.push(block)?;
    Ok(claimed)
}

/// The block of these distances, without predecessors.
fn block_by_id(alloc: Global, source: u32, distances: &[i64]) -> Result<Block, Memory>
    requires node_limit { length distances.now ≤ most_nodes }
    requires source { IsNode (length distances.now) source }
    ensures block { IfOk result (λ block. block ≡ block_spelled source distances.now) }
    ensures lawful { IfOk result (IsBlock (length distances.now)) }
{
    let claim = DistancesByNode { distances };
    let mut block = Block::new(alloc, source);
    for id in 1..distances.len() as u32 + 1 {
        if let Some(label) = label_to(source, id, claim.of(id)) {
            block.add(label)?;
        }
    }
    Ok(block)
}

/// The label of a node with this distance, unless it is the source.
#[inline(always)]
fn label_to(source: u32, id: u32, distance: Option<i128>) -> Option<Label>
    ensures { result ≡ label_with source id distance }
{
    match distance {
        Some(dist) if id != source => Some(Label {
            dist,
            id,
            pred: source,
        }),
        _ => None,
    }
}

/// The labels with these distances and predecessors, as `judge_paths_arrays` takes them. It tests the number of
/// predecessors, that of nodes and the source, then as that judge, up to `PredUnknown`.
pub fn labels_over(
    alloc: Global,
    source: u32,
    distances: &[i64],
    predecessors: &[u32],
) -> Result<Labels, ArrayError>
    ensures { SpellsLabelArrays source distances.now predecessors.now result }
{
    let count = distances.len();
    lengths_hold(&[ArrayLength::of(Array::Predecessors, predecessors.len(), count)])?;
    nodes_hold(count)?;
    let nodes = count as u32;
    node_holds(nodes, source)?;
    Ok(labels_by_node(alloc, nodes, source, distances, predecessors)?)
}

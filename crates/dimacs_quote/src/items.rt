//! What the lines of texts that stand for arrays say of the items.

use crate::prose::Prose;
use crate::say;
use crate::sentence::Value::{Arc, Cap, Node};
use dimacs_records::{End, Record};
use std::alloc::Global;

/// The arc of an entry on a line: the first line is that of the value.
pub fn entry_arc(line: u64) -> u32 {
    u32::try_from(line.saturating_sub(1)).unwrap_or(0)
}

/// What a record says of an item, or of the arc with this number; nothing if it stands for no item.
pub(crate) fn item(alloc: Global, number: u32, record: Record) -> Prose {
    let mut out = Prose::new(alloc);
    match record {
        Record::MaxArc { tail, head, cap } =>
            say!(out; "arc {}: {} -> {}, CAP {}\n", Arc(number), Node(tail), Node(head), Cap(cap)),
        Record::MinArc {
            tail,
            head,
            low,
            cap,
            cost,
        } =>
            say!(out; "arc {}: {} -> {}, LOW {}, CAP {}, COST {}\n", Arc(number), Node(tail), Node(head), low, Cap(cap), cost),
        Record::GraphArc { tail, head, weight } =>
            say!(out; "arc {}: {} -> {}, WEIGHT {}\n", Arc(number), Node(tail), Node(head), weight),
        Record::SolutionEntry { tail, head, flow } =>
            say!(out; "arc {}: {} -> {}, FLOW {}\n", Arc(number), Node(tail), Node(head), flow),
        Record::MaxNode { id, end } => {
            let name = if end == End::Source { "source" } else { "sink" };
            say!(out; "node {}: the {}\n", Node(id), name);
        }
        Record::MinNode { id, supply } => say!(out; "node {}: SUPPLY {}\n", Node(id), supply),
        Record::CutNode { id } => say!(out; "node {}: inside\n", Node(id)),
        Record::PotentialsNode { id, value } =>
            say!(out; "node {}: potential {}\n", Node(id), value),
        Record::LabelsNode { id, dist, pred } =>
            say!(out; "node {}: distance {}, predecessor {}\n", Node(id), dist, Node(pred)),
        Record::DistancesNode { id, dist } => say!(out; "node {}: distance {}\n", Node(id), dist),
        _ => (),
    }
    out
}

//! What is looked for in texts, and what records name and declare.

use dimacs_records::{At, Declared, End, Record};

/// The line to look for.
#[derive(Clone, Copy)]
pub enum Wanted {
    /// The problem line.
    Problem,
    /// The line of a solution's value.
    Value,
    /// The line here; its field is marked.
    Line(At),
    /// The line of a node of an instance, a set or potentials, or of the block from it.
    Node(u32),
    /// The line of a label or distance of a node, from the line of its block on.
    Label { id: u32, from: u64 },
    /// The line of the source, or of the sink.
    End(End),
    /// The arc with this number, from 1.
    Arc(u32),
    /// The first arc with a negative WEIGHT.
    NegativeWeight,
    /// A supply or a LOW that the flow 0 doesn't meet.
    NotMetBy0,
    /// The entry with this tail and head, after as many earlier ones.
    Entry(u32, u32, u64),
    /// A query from this node.
    Query(u32),
    /// A query that names this node.
    QueryNaming(u32),
}

impl Wanted {
    pub(crate) fn is(self, line: u64, record: Record) -> bool {
        match self {
            Wanted::Problem => declared(record).is_some(),
            Wanted::Value => matches!(record, Record::SolutionValue { .. }),
            Wanted::Line(at) => line == at.line,
            Wanted::Node(id) => node_of(record) == Some(id),
            // The line of a block gives its source a label.
            Wanted::Label { id, from } => line >= from
                && labelled_node(record).or(node_of(record)) == Some(id),
            Wanted::End(wanted) => matches!(record, Record::MaxNode { end, .. } if end == wanted),
            Wanted::Arc(_) => matches!(
                record,
                Record::MaxArc { .. } | Record::MinArc { .. } | Record::GraphArc { .. }
            ),
            Wanted::NegativeWeight =>
                matches!(record, Record::GraphArc { weight, .. } if weight < 0),
            Wanted::NotMetBy0 => {
                matches!(record, Record::MinNode { supply, .. } if supply != 0)
                    || matches!(record, Record::MinArc { low, .. } if low > 0)
            }
            Wanted::Entry(tail, head, _) => entry_between(record, tail, head).is_some(),
            Wanted::Query(node) => query_from(record) == Some(node),
            Wanted::QueryNaming(node) => {
                query_from(record) == Some(node)
                    || matches!(record, Record::PairQuery { to, .. } if to == node)
            }
        }
    }

    /// How many such lines come before it.
    pub(crate) fn earlier(self) -> u64 {
        match self {
            Wanted::Arc(number) => u64::from(number).saturating_sub(1),
            Wanted::Entry(_, _, earlier) => earlier,
            _ => 0,
        }
    }

    /// Its line, with the field that is marked.
    pub(crate) fn at(self, line: u64) -> At {
        match self {
            Wanted::Line(at) => at,
            _ => At { line, field: 0 },
        }
    }
}

/// The node that a line names as its own, or the source of the block that it begins.
pub(crate) fn node_of(record: Record) -> Option<u32> {
    match record {
        Record::MaxNode { id, .. }
        | Record::MinNode { id, .. }
        | Record::CutNode { id }
        | Record::PotentialsNode { id, .. }
        | Record::LabelsBlock { source: id, .. }
        | Record::DistancesBlock { source: id, .. } => Some(id),
        _ => None,
    }
}

/// The node whose label or distance a line has.
pub(crate) fn labelled_node(record: Record) -> Option<u32> {
    match record {
        Record::LabelsNode { id, .. } | Record::DistancesNode { id, .. } => Some(id),
        _ => None,
    }
}

pub(crate) fn declared(record: Record) -> Option<Declared> {
    let (nodes, count) = match record {
        Record::MaxProblem { nodes, arcs }
        | Record::MinProblem { nodes, arcs }
        | Record::GraphProblem { nodes, arcs } => (Some(nodes), arcs),
        Record::CutProblem { nodes, count } | Record::PotentialsProblem { nodes, count } => {
            (Some(nodes), count)
        }
        Record::LabelsProblem { nodes, blocks } | Record::DistancesProblem { nodes, blocks } => {
            (Some(nodes), blocks)
        }
        Record::QueriesProblem { count, .. } => (None, count),
        _ => return None,
    };
    Some(Declared { nodes, count })
}

/// The flow of an entry with these ends.
pub fn entry_between(record: Record, from: u32, to: u32) -> Option<i64> {
    match record {
        Record::SolutionEntry { tail, head, flow } if tail == from && head == to => Some(flow),
        _ => None,
    }
}

fn query_from(record: Record) -> Option<u32> {
    match record {
        Record::SourceQuery { id } | Record::PairQuery { from: id, .. } => Some(id),
        _ => None,
    }
}

//! Reading graphs into arrays.

ghost use Rattle.std.specs.Prelude.{◌≡◌, ℕ, List, Some};
ghost use Rattle.dimacs_records.specs.Readings.{CountsRead};
ghost use Rattle.dimacs_fill.specs.GraphFilled.{ReadsGraphInto};

use crate::arc_reading::ArcReading;
use dimacs_instance::GraphNodesReading;
use dimacs_lines::Source;
use dimacs_records::{ReadError, TextKind, end_text, read_records};
use std::alloc::Global;

/// The numbers of nodes and arcs.
#[derive(Clone, Copy, Debug, Default, PartialEq, Eq)]
pub struct GraphSizes {
    pub nodes: u32,
    pub arcs: u32,
}

/// Reads the text of a graph. The arrays get the tail, head and weight of each arc; after an error they may hold
/// anything.
pub fn read_graph_into<S: Source>(
    alloc: Global,
    text: &mut S,
    tails: &mut [u32],
    heads: &mut [u32],
    weights: &mut [i64],
) -> Result<GraphSizes, ReadError>
    ensures reads { (bytes : List ℕ) → S.coming text.old ≡ Some bytes
        → ReadsGraphInto bytes (tails.old, tails.new) (heads.old, heads.new) (weights.old, weights.new) result }
    ensures faults { CountsRead result (S.faults text.old) (S.faults text.new) }
{
    let mut counted = GraphNodesReading::new(alloc);
    let mut reading = ArcReading {
        counted: &mut counted,
        at: 0,
        tails,
        heads,
        lows: &mut [],
        caps: &mut [],
        costs: weights,
    };
    let count = read_records(alloc, TextKind::Graph, &mut reading, text)?;
    let graph = end_text(counted, count)?;
    Ok(GraphSizes {
        nodes: graph.nodes,
        arcs: graph.arcs,
    })
}

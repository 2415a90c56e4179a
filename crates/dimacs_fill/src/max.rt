//! Reading maximum flow instances into arrays.

ghost use Rattle.std.specs.Prelude.{◌≡◌, ℕ, List, Some};
ghost use Rattle.dimacs_records.specs.Readings.{CountsRead};
ghost use Rattle.dimacs_fill.specs.MaxFilled.{ReadsMaxInto};

use crate::arc_reading::ArcReading;
use dimacs_instance::MaxNodesReading;
use dimacs_lines::Source;
use dimacs_records::{ReadError, TextKind, end_text, read_records};
use std::alloc::Global;

/// The numbers of a maximum flow instance, without its arcs.
#[derive(Clone, Copy, Debug, Default, PartialEq, Eq)]
pub struct MaxSizes {
    pub nodes: u32,
    pub source: u32,
    pub sink: u32,
    pub arcs: u32,
}

/// Reads the text of a maximum flow instance. The arrays get the tail, head and capacity of each arc; after an error they
/// may hold anything.
pub fn read_max_into<S: Source>(
    alloc: Global,
    text: &mut S,
    tails: &mut [u32],
    heads: &mut [u32],
    caps: &mut [i64],
) -> Result<MaxSizes, ReadError>
    ensures reads { (bytes : List ℕ) → S.coming text.old ≡ Some bytes
        → ReadsMaxInto bytes (tails.old, tails.new) (heads.old, heads.new) (caps.old, caps.new) result }
    ensures faults { CountsRead result (S.faults text.old) (S.faults text.new) }
{
    let mut counted = MaxNodesReading::new(alloc);
    let mut reading = ArcReading {
        counted: &mut counted,
        at: 0,
        tails,
        heads,
        lows: &mut [],
        caps,
        costs: &mut [],
    };
    let count = read_records(alloc, TextKind::Max, &mut reading, text)?;
    let max = end_text(counted, count)?;
    Ok(MaxSizes {
        nodes: max.nodes,
        source: max.source,
        sink: max.sink,
        arcs: max.arcs,
    })
}

//! Reading minimum cost flow instances into arrays.

ghost use Rattle.std.specs.{Prelude.{ℕ, ◌≡◌, ◌+◌, ◌<◌, List, Some, map}, List.{range_with_len}};
ghost use Rattle.dimacs_lines.specs.Limits.{most_nodes};
ghost use Rattle.dimacs_instance.specs.MinFlows.{supply_of};
ghost use Rattle.dimacs_records.specs.Readings.{CountsRead};
ghost use Rattle.dimacs_fill.specs.{Filling.{filled}, MinFilled.{ReadsMinInto}};

use crate::arc_reading::ArcReading;
use crate::filling::fill;
use dimacs_instance::{MinInstance, MinNodesReading};
use dimacs_lines::Source;
use dimacs_network::Network;
use dimacs_records::{ReadError, TextKind, end_text, read_records};
use std::alloc::Global;

/// The numbers of nodes and arcs.
#[derive(Clone, Copy, Debug, Default, PartialEq, Eq)]
pub struct MinSizes {
    pub nodes: u32,
    pub arcs: u32,
}

/// Reads the text of a minimum cost flow instance. The arrays get the tail, head, lower bound, capacity and cost of each
/// arc, and the supply of each node; after an error they may hold anything.
pub fn read_min_into<S: Source>(
    alloc: Global,
    text: &mut S,
    tails: &mut [u32],
    heads: &mut [u32],
    lows: &mut [i64],
    caps: &mut [i64],
    costs: &mut [i64],
    supplies: &mut [i64],
) -> Result<MinSizes, ReadError>
    ensures reads { (bytes : List ℕ) → S.coming text.old ≡ Some bytes
        → ReadsMinInto bytes (tails.old, tails.new) (heads.old, heads.new) (lows.old, lows.new) (caps.old, caps.new) (costs.old, costs.new)
        (supplies.old, supplies.new) result }
    ensures faults { CountsRead result (S.faults text.old) (S.faults text.new) }
{
    let mut counted = MinNodesReading::new(alloc);
    let mut reading = ArcReading {
        counted: &mut counted,
        at: 0,
        tails,
        heads,
        lows,
        caps,
        costs,
    };
    let count = read_records(alloc, TextKind::Min, &mut reading, text)?;
    let min = end_text(counted, count)?;
    fill_supplies(&min.without_arcs, supplies);
    Ok(MinSizes {
        nodes: min.without_arcs.network().nodes(),
        arcs: min.arcs,
    })
}

/// Copies the supply of each node, as many as fit.
fn fill_supplies<N: Network>(instance: &MinInstance<N>, supplies: &mut [i64])
    ensures { supplies.new ≡ filled (map (supply_of instance.now) (range_with_len 1 instance.now.nodes)) supplies.old }
{
    fill(
        supplies,
        instance.network().nodes() as usize,
        |i|
            requires { i < most_nodes }
            ensures { result ≡ supply_of instance.entry.now (i + 1) }
        { instance.supply(i as u32 + 1) },
    );
}

//! Writing minimum cost flow instances.

ghost use Rattle.std.specs.Prelude.{◌≡◌, ◌<◌, ◌+◌, ◌^◌, None, Some, pos, if◌then◌else◌, length, option_map, slice_get, ◌≤◌};
ghost use Rattle.dimacs_lines.specs.{Limits.{most_nodes}, Puts.{Puts}};
ghost use Rattle.dimacs_records.specs.declared.kinds.TextKind.TheVariants as kinds;
ghost use Rattle.dimacs_records.specs.{declared.records.Record.TheVariants.{MinNode}, NodeValues.{is_nonzero}};
ghost use Rattle.dimacs_network.specs.Skips.{Skips};
ghost use Rattle.dimacs_instance.specs.MinFlows.{MinValue, supply_of};
ghost use Rattle.dimacs_instance.specs.MinTexts.{SpellsMin, canonical_min, min_arc, shown_min};

use crate::min::MinInstance;
use crate::summaries::{MinSummary, Summary};
use dimacs_lines::{DeviceFault, OutputBuffer, Sink};
use dimacs_network::{ArcView, Network};
use dimacs_records::{Record, TextKind, Writable, write_lines, write_record, write_sparse_lines};

/// Writes the canonical text of a minimum cost flow instance.
pub fn write_min<N: Network, S: Sink>(
    instance: &MinInstance<N>,
    sink: &mut S,
) -> Result<(), DeviceFault>
    ensures puts { Puts result (S.seen sink.old) (canonical_min instance.now) (S.seen sink.new) }
    ensures round_trip { SpellsMin (canonical_min instance.now) instance.now }
    ensures same_text { (read : MinValue) → SpellsMin (canonical_min instance.now) read → canonical_min read ≡ canonical_min instance.now }
{
    let network = instance.network();
    let nodes = network.nodes();
    let arcs = network.arcs();
    let mut output = OutputBuffer::new();
    write_record(&mut output, sink, &Record::MinProblem { nodes, arcs });
    write_sparse_lines(
        &mut output,
        sink,
        nodes as usize,
        |i|
            requires { i ≤ nodes × nodes ≤ most_nodes }
            ensures { Skips (λ id. supply_of instance.entry.now id ≡ pos 0) (i + 1) (nodes + 1) (result + 1) }
        { instance.next_supply(i as u32 + 1, nodes + 1) as usize - 1 },
        |i|
            requires { i < most_nodes }
            ensures { let supply = supply_of instance.entry.now (i + 1) in
                result ≡ (if is_nonzero supply then Some (MinNode (i + 1) supply) else None) }
        {
            let id = i as u32 + 1;
            let supply = instance.supply(id);
            (supply != 0).then_some(Record::MinNode { id, supply })
        },
    );
    write_lines(
        &mut output,
        sink,
        arcs as usize,
        |i|
            requires { i < length (N.list network.now) × i < 2 ^ 32 }
            ensures { result ≡ option_map min_arc (slice_get (N.list network.entry.now) i) }
        { Some(arc_record(network.arc(i as u32))) },
    );
    output.finish(sink)
}

#[inline(always)]
fn arc_record(arc: ArcView) -> Record
    ensures { result ≡ min_arc arc }
{
    Record::MinArc {
        tail: arc.tail,
        head: arc.head,
        low: arc.low,
        cap: arc.cap,
        cost: arc.cost,
    }
}

impl<N: Network> Writable for MinInstance<N> {
    ghost kind = { kinds.Min };

    ghost Content = { MinValue };

    ghost content = { λ m. m };

    ghost spells = { λ text m. SpellsMin text m };

    ghost canonical = { λ m. canonical_min m };

    ghost shown = { λ m. shown_min m };

    fn kind() -> TextKind {
        TextKind::Min
    }

    fn write<K: Sink>(&self, sink: &mut K) -> Result<(), DeviceFault> {
        write_min(self, sink)
    }

    fn show<K: Sink>(&self, sink: &mut K) -> Result<(), DeviceFault> {
        let network = self.network();
        let sums = self.supply_sums();
        let summary = MinSummary {
            nodes: network.nodes(),
            arcs: network.arcs(),
            supplied: sums.supplied,
            demanded: sums.demanded,
        };
        summary.show(sink)
    }
}

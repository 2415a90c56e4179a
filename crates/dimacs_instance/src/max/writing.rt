//! Writing maximum flow instances.

ghost use Rattle.std.specs.Prelude.{◌≡◌, ◌<◌, ◌^◌, length, option_map, slice_get};
ghost use Rattle.dimacs_lines.specs.Puts.{Puts};
ghost use Rattle.dimacs_records.specs.declared.kinds.TextKind.TheVariants as kinds;
ghost use Rattle.dimacs_instance.specs.MaxFlows.{MaxValue};
ghost use Rattle.dimacs_instance.specs.MaxTexts.{SpellsMax, canonical_max, max_arc, nodes_by_id, shown_max};

use crate::max::MaxInstance;
use crate::summaries::{MaxSummary, Summary};
use dimacs_lines::{DeviceFault, Sink};
use dimacs_network::{ArcView, Network};
use dimacs_records::{End, Record, TextKind, Writable, put_text};

/// Writes the canonical text of a maximum flow instance.
pub fn write_max<N: Network, S: Sink>(max: &MaxInstance<N>, sink: &mut S) -> Result<(), DeviceFault>
    ensures puts { Puts result (S.seen sink.old) (canonical_max max.now) (S.seen sink.new) }
    ensures round_trip { SpellsMax (canonical_max max.now) max.now }
    ensures same_text { (read : MaxValue) → SpellsMax (canonical_max max.now) read → canonical_max read ≡ canonical_max max.now }
{
    let network = max.network();
    let nodes = network.nodes();
    let arcs = network.arcs();
    let (first, second) = node_lines(max);
    put_text(
        sink,
        &[Record::MaxProblem { nodes, arcs }, first, second],
        arcs as usize,
        |i|
            requires { i < length (N.list network.now) × i < 2 ^ 32 }
            ensures { result ≡ option_map max_arc (slice_get (N.list network.entry.now) i) }
        { Some(arc_record(network.arc(i as u32))) },
    )
}

/// The node lines, ordered by ID as the canonical form demands.
fn node_lines<N: Network>(max: &MaxInstance<N>) -> (Record, Record)
    ensures { result ≡ nodes_by_id max.now.source max.now.sink }
{
    let from = Record::MaxNode {
        id: max.source(),
        end: End::Source,
    };
    let to = Record::MaxNode {
        id: max.sink(),
        end: End::Sink,
    };
    if max.source() < max.sink() {
        (from, to)
    } else {
        (to, from)
    }
}

#[inline(always)]
fn arc_record(arc: ArcView) -> Record
    ensures { result ≡ max_arc arc }
{
    Record::MaxArc {
        tail: arc.tail,
        head: arc.head,
        cap: arc.cap,
    }
}

impl<N: Network> Writable for MaxInstance<N> {
    ghost kind = { kinds.Max };

    ghost Content = { MaxValue };

    ghost content = { λ m. m };

    ghost spells = { λ text m. SpellsMax text m };

    ghost canonical = { λ m. canonical_max m };

    ghost shown = { λ m. shown_max m };

    fn kind() -> TextKind {
        TextKind::Max
    }

    fn write<K: Sink>(&self, sink: &mut K) -> Result<(), DeviceFault> {
        write_max(self, sink)
    }

    fn show<K: Sink>(&self, sink: &mut K) -> Result<(), DeviceFault> {
        let network = self.network();
        let summary = MaxSummary {
            nodes: network.nodes(),
            arcs: network.arcs(),
            source: self.source(),
            sink: self.sink(),
        };
        summary.show(sink)
    }
}

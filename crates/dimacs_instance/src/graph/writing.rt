//! Writing graphs.

ghost use Rattle.std.specs.Prelude.{◌≡◌, ◌<◌, ◌^◌, length, option_map, slice_get};
ghost use Rattle.dimacs_lines.specs.Puts.{Puts};
ghost use Rattle.dimacs_records.specs.declared.kinds.TextKind.TheVariants as kinds;
ghost use Rattle.dimacs_instance.specs.Graph.{SpellsGraph, canonical_graph, graph_arc, shown_graph};
ghost use Rattle.dimacs_network.specs.Arcs.{NetworkValue};

use crate::graph::Graph;
use crate::summaries::{GraphSummary, Summary};
use dimacs_lines::{DeviceFault, Sink};
use dimacs_network::{ArcView, Network};
use dimacs_records::{Record, TextKind, Writable, put_text};

/// Writes the canonical text of a graph.
pub fn write_graph<N: Network, S: Sink>(graph: &Graph<N>, sink: &mut S) -> Result<(), DeviceFault>
    ensures puts { Puts result (S.seen sink.old) (canonical_graph graph.now) (S.seen sink.new) }
    ensures round_trip { SpellsGraph (canonical_graph graph.now) graph.now }
    ensures same_text { (read : NetworkValue) → SpellsGraph (canonical_graph graph.now) read → canonical_graph read ≡ canonical_graph graph.now }
{
    let network = graph.network();
    let nodes = network.nodes();
    let arcs = network.arcs();
    put_text(
        sink,
        &[Record::GraphProblem { nodes, arcs }],
        arcs as usize,
        |i|
            requires { i < length (N.list network.now) × i < 2 ^ 32 }
            ensures { result ≡ option_map graph_arc (slice_get (N.list network.entry.now) i) }
        { Some(arc_record(network.arc(i as u32))) },
    )
}

#[inline(always)]
fn arc_record(arc: ArcView) -> Record
    ensures { result ≡ graph_arc arc }
{
    Record::GraphArc {
        tail: arc.tail,
        head: arc.head,
        weight: arc.cost,
    }
}

impl<N: Network> Writable for Graph<N> {
    ghost kind = { kinds.Graph };

    ghost Content = { NetworkValue };

    ghost content = { λ g. g };

    ghost spells = { λ text g. SpellsGraph text g };

    ghost canonical = { λ g. canonical_graph g };

    ghost shown = { λ g. shown_graph g };

    fn kind() -> TextKind {
        TextKind::Graph
    }

    fn write<K: Sink>(&self, sink: &mut K) -> Result<(), DeviceFault> {
        write_graph(self, sink)
    }

    fn show<K: Sink>(&self, sink: &mut K) -> Result<(), DeviceFault> {
        let network = self.network();
        let summary = GraphSummary {
            nodes: network.nodes(),
            arcs: network.arcs(),
        };
        summary.show(sink)
    }
}

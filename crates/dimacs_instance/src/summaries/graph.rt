//! The summary of a graph.

ghost use Rattle.std.specs.Prelude.{refl};
ghost use Rattle.dimacs_records.specs.declared.kinds.TextKind.TheVariants as kinds;
ghost use Rattle.dimacs_network.specs.Arcs.{NetworkValue};
ghost use Rattle.dimacs_instance.specs.Graph.{GivesGraph, SpellsGraph, shown_graph};
ghost use Rattle.dimacs_instance.specs.Summaries.{SumsUpGraph, graph_summary_line, GivesSummary, IsGraphCountedBy, counted_lines};

use crate::summaries::Summary;
use dimacs_lines::{DeviceFault, Memory, Sink, Source};
use dimacs_records::{
    Builder, Context, CountedReading, Declared, Part, ReadError, Record, TextKind, put_line,
    read_counted,
};
use std::alloc::Global;

/// The size of a graph.
#[derive(Clone, Copy, Debug, PartialEq, Eq)]
pub struct GraphSummary {
    pub nodes: u32,
    pub arcs: u32,
}

impl Summary for GraphSummary {
    ghost kind = { kinds.Graph };

    ghost Content = { NetworkValue };

    ghost sums_up = { λ s g. SumsUpGraph s g };

    ghost spells = { λ text g. SpellsGraph text g };

    ghost shown = { λ g. shown_graph g };

    ghost line = { λ s. graph_summary_line s };

    fn kind() -> TextKind {
        TextKind::Graph
    }

    fn read<S: Source>(alloc: Global, source: &mut S) -> Result<GraphSummary, ReadError> {
        read_counted::<GraphCount, S>(alloc, source)
    }

    fn show<K: Sink>(&self, sink: &mut K) -> Result<(), DeviceFault> {
        put_line(
            sink,
            b"i",
            &[
                Part::Word(b"sp"),
                Part::Number(i64::from(self.nodes)),
                Part::Number(i64::from(self.arcs)),
            ],
        )
    }
}

/// Reads the records of a graph, and keeps its nodes, of the arcs only how many they are.
pub type GraphNodesReading = CountedReading<GraphCount>;

/// A graph while its text is read, with the arcs only counted.
#[derive(Clone, Copy)]
pub struct GraphCount {
    nodes: u32,
    declared: u32,
    arcs: u32,
}

impl Builder for GraphCount {
    type Value = GraphSummary;

    ghost kind = { kinds.Graph };

    ghost built_from = { λ counted rs. IsGraphCountedBy counted rs };

    ghost context = { λ counted r. counted_lines counted };

    ghost end_context = { λ counted. counted_lines counted };

    ghost gives = { λ rs summary. GivesSummary GivesGraph SumsUpGraph rs summary };

    #[tactic(auto, using(crate::proofs::GraphLemmas::graph_faultless, crate::proofs::GraphLemmas::one_graph))]
    fn kind() -> TextKind {
        TextKind::Graph
    }

    #[tactic(auto, using(crate::proofs::SummaryLemmas::counted_none))]
    fn begin(_alloc: Global, problem: Record) -> GraphCount {
        let Record::GraphProblem { nodes, arcs } = problem else {
            unreachable!()
        };
        GraphCount {
            nodes,
            declared: arcs,
            arcs: 0,
        }
    }

    #[inline(always)]
    fn context(&self, _rec: Record) -> Context {
        self.end_context()
    }

    #[inline(always)]
    fn keep(&mut self, rec: Record) -> Result<(), Memory> {
        let Record::GraphArc {
            tail: _tail,
            head: _head,
            weight: _weight,
        } = rec
        else {
            unreachable!()
        };
        self.arcs += 1;
        Ok(())
    }

    #[inline(always)]
    fn end_context(&self) -> Context {
        let nodes = Some(self.nodes);
        let count = self.declared;
        Context::of(Some(Declared { nodes, count }), self.arcs)
    }

    #[tactic(auto, using(crate::proofs::SummaryLemmas::gives_graph_summary))]
    fn value(self, _alloc: Global) -> Result<GraphSummary, Memory> {
        Ok(GraphSummary {
            nodes: self.nodes,
            arcs: self.arcs,
        })
    }

    ghost has_problem = { refl };
}

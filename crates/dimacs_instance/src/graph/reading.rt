//! Reading graphs.

ghost use Rattle.std.specs.Prelude.{◌≡◌, ℕ, List, Some, refl};
ghost use Rattle.dimacs_records.specs.declared.kinds.TextKind.TheVariants as kinds;
ghost use Rattle.dimacs_records.specs.{Readings.{CountsRead}, Faults.{Fault}, Texts.{Reads}};
ghost use Rattle.dimacs_lines.specs.Lines.{lines};
ghost use Rattle.dimacs_instance.specs.Graph.{GivesGraph, SpellsGraph};
ghost use Rattle.dimacs_instance.specs.GraphReading.{graph_begun_records, plain_context};

use crate::graph::Graph;
use dimacs_lines::{Memory, Source};
use dimacs_network::{ForwardStar, Network, OfWeightArcs, PlainArcs, WeightArc};
use dimacs_records::{
    Builder, Context, CountedReading, Declared, ReadError, Record, Text, TextKind, read_counted,
};
use std::alloc::Global;
use std::marker::{Model, PhantomData};

/// Reads the records of a graph.
pub type GraphReading = CountedReading<GraphBuilder<ForwardStar<WeightArc>>>;

/// A graph while its text is read: the arcs after the problem line.
#[derive(Drop)]
pub struct GraphBuilder<N: OfWeightArcs> {
    declared: u32,
    arcs: PlainArcs<WeightArc>,
    of: PhantomData<N>,
}

impl<N: OfWeightArcs> Model for GraphBuilder<N> {
    ghost use Rattle.dimacs_instance.specs.GraphReading.{GraphBegun};
    ghost use Rattle.dimacs_instance.specs.GraphReading.{IsGraphBegun};

    ghost Value = { GraphBegun };

    ghost view = { λ b. record { nodes = b.arcs.nodes; declared = b.declared; arcs = b.arcs.arcs } };

    ghost invariant = { λ b. IsGraphBegun (record { nodes = b.arcs.nodes; declared = b.declared; arcs = b.arcs.arcs }) };
}

impl<N: OfWeightArcs> Builder for GraphBuilder<N> {
    type Value = Graph<N>;

    ghost kind = { kinds.Graph };

    ghost built_from = { λ begun rs. rs ≡ graph_begun_records begun };

    ghost context = { λ begun r. plain_context begun };

    ghost end_context = { λ begun. plain_context begun };

    ghost gives = { λ rs g. GivesGraph rs g };

    #[tactic(auto, using(crate::proofs::GraphLemmas::graph_faultless, crate::proofs::GraphLemmas::one_graph))]
    fn kind() -> TextKind {
        TextKind::Graph
    }

    fn begin(alloc: Global, problem: Record) -> GraphBuilder<N> {
        let Record::GraphProblem { nodes, arcs } = problem else {
            unreachable!()
        };
        GraphBuilder {
            declared: arcs,
            arcs: PlainArcs::new(alloc, nodes),
            of: PhantomData,
        }
    }

    #[tactic(auto, using(crate::proofs::GraphLemmas::context_by_records))]
    #[inline(always)]
    fn context(&self, _rec: Record) -> Context {
        self.end_context()
    }

    #[inline(always)]
    fn keep(&mut self, rec: Record) -> Result<(), Memory> {
        let Record::GraphArc { tail, head, weight } = rec else {
            unreachable!()
        };
        self.arcs.push(WeightArc { tail, head, weight })
    }

    #[tactic(auto, using(crate::proofs::GraphLemmas::plain_context_by_records))]
    #[inline(always)]
    fn end_context(&self) -> Context {
        let nodes = Some(self.arcs.nodes());
        let count = self.declared;
        Context::of(Some(Declared { nodes, count }), self.arcs.arcs())
    }

    fn value(self, alloc: Global) -> Result<Graph<N>, Memory> {
        Ok(Graph {
            network: N::of_arcs(alloc, self.arcs)?,
        })
    }

    ghost has_problem = { refl };
}

/// Reads the text of a graph. `docs/TEXTS.md` has the rules and the order of faults.
pub fn read_graph<S: Source>(
    alloc: Global,
    source: &mut S,
) -> Result<Graph<ForwardStar<WeightArc>>, ReadError>
    ensures reads { (text : List ℕ) → S.coming source.old ≡ Some text → Reads (SpellsGraph text) (Fault kinds.Graph (lines text)) result }
    ensures faults { CountsRead result (S.faults source.old) (S.faults source.new) }
{
    read_counted::<GraphBuilder<ForwardStar<WeightArc>>, S>(alloc, source)
}

impl<N: OfWeightArcs + Drop> Text for Graph<N> {
    fn read<S: Source>(alloc: Global, source: &mut S) -> Result<Self, ReadError> {
        read_counted::<GraphBuilder<N>, S>(alloc, source)
    }
}

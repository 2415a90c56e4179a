//! The summary of a minimum cost flow instance.

ghost use Rattle.std.specs.Prelude.{◌≡◌, refl};
ghost use Rattle.dimacs_records.specs.declared.kinds.TextKind.TheVariants as kinds;
ghost use Rattle.dimacs_instance.specs.{MinFlows.{MinValue}, MinReading.{plain_context, context, IsMinCountedBy}};
ghost use Rattle.dimacs_instance.specs.MinTexts.{GivesMin, SpellsMin, shown_min};
ghost use Rattle.dimacs_instance.specs.Summaries.{HasNodes, SumsUpMin, min_summary, min_summary_line, GivesSummary};

use crate::min::MinInstance;
use crate::summaries::Summary;
use dimacs_lines::{DeviceFault, Memory, Sink, Source};
use dimacs_network::{ArcView, Network, NodeMap, PlainArcs};
use dimacs_records::{
    Builder, Context, CountedReading, Declared, Part, ReadError, Record, TextKind, put_line,
    read_counted,
};
use std::alloc::Global;
use std::marker::Model;

/// The size of a minimum cost flow instance, and the sums of its supplies, as in `SupplySums`.
#[derive(Clone, Copy, Debug, PartialEq, Eq)]
pub struct MinSummary {
    pub nodes: u32,
    pub arcs: u32,
    pub supplied: i128,
    pub demanded: i128,
}

impl Summary for MinSummary {
    ghost kind = { kinds.Min };

    ghost Content = { MinValue };

    ghost sums_up = { λ s m. SumsUpMin s m };

    ghost spells = { λ text m. SpellsMin text m };

    ghost shown = { λ m. shown_min m };

    ghost line = { λ s. min_summary_line s };

    fn kind() -> TextKind {
        TextKind::Min
    }

    fn read<S: Source>(alloc: Global, source: &mut S) -> Result<MinSummary, ReadError> {
        Ok(read_counted::<MinCount, S>(alloc, source)?.summary())
    }

    fn show<K: Sink>(&self, sink: &mut K) -> Result<(), DeviceFault> {
        put_line(
            sink,
            b"i",
            &[
                Part::Word(b"min"),
                Part::Number(i64::from(self.nodes)),
                Part::Number(i64::from(self.arcs)),
                Part::Wide(self.supplied),
                Part::Wide(self.demanded),
            ],
        )
    }
}

/// The nodes of a minimum cost flow instance, and how many arcs it has.
#[derive(Drop)]
pub struct MinNodes {
    pub arcs: u32,
    /// The instance without its arcs.
    pub without_arcs: MinInstance<PlainArcs<ArcView>>,
}

impl MinNodes {
    fn summary(&self) -> MinSummary
        ensures { (m : MinValue) → HasNodes self.now m → result ≡ min_summary m }
    {
        let sums = self.without_arcs.supply_sums();
        MinSummary {
            nodes: self.without_arcs.network().nodes(),
            arcs: self.arcs,
            supplied: sums.supplied,
            demanded: sums.demanded,
        }
    }
}

/// Reads the records of a minimum cost flow instance, and keeps its nodes, of the arcs only how many they are.
pub type MinNodesReading = CountedReading<MinCount>;

/// A minimum cost flow instance while its text is read, with the arcs only counted.
#[derive(Drop)]
pub struct MinCount {
    nodes: u32,
    declared: u32,
    /// The supplies of the named nodes, some perhaps 0.
    supplies: NodeMap<i64>,
    arcs: u32,
}

impl Model for MinCount {
    ghost use Rattle.dimacs_instance.specs.MinReading.{MinCount};
    ghost use Rattle.dimacs_instance.specs.MinReading.{IsMinBegun};
    ghost use Rattle.dimacs_instance.specs.inside.MinReading.{without_arcs};
    ghost use Rattle.dimacs_instance.specs.MinCodes.{count_code};

    ghost Value = { MinCount };

    ghost coded = { count_code };

    ghost view = { λ c. record { nodes = c.nodes; declared = c.declared; supplies = c.supplies; arcs = c.arcs } };

    ghost invariant = { λ c. IsMinBegun (without_arcs (record { nodes = c.nodes; declared = c.declared; supplies = c.supplies; arcs = c.arcs })) };
}

impl Builder for MinCount {
    type Value = MinNodes;

    ghost kind = { kinds.Min };

    ghost built_from = { λ counted rs. IsMinCountedBy counted rs };

    ghost context = { λ counted r. context counted r };

    ghost end_context = { λ counted. plain_context counted };

    ghost gives = { λ rs nodes. GivesSummary GivesMin HasNodes rs nodes };

    fn kind() -> TextKind {
        TextKind::Min
    }

    fn begin(alloc: Global, problem: Record) -> MinCount {
        let Record::MinProblem { nodes, arcs } = problem else {
            unreachable!()
        };
        MinCount {
            nodes,
            declared: arcs,
            supplies: NodeMap::new(alloc),
            arcs: 0,
        }
    }

    #[inline(always)]
    fn context(&self, rec: Record) -> Context {
        match rec {
            Record::MinArc { .. } | Record::MinProblem { .. } => self.end_context(),
            Record::MinNode { id, .. } => Context {
                misplaced: self.arcs > 0,
                named: self.supplies.get(id).is_some(),
                ..self.end_context()
            },
            _ => unreachable!(),
        }
    }

    #[inline(always)]
    fn keep(&mut self, rec: Record) -> Result<(), Memory> {
        match rec {
            Record::MinArc {
                tail: _tail,
                head: _head,
                low: _low,
                cap: _cap,
                cost: _cost,
            } => self.arcs += 1,
            Record::MinNode { id, supply } => self.supplies.set(id, supply)?,
            _ => unreachable!(),
        }
        Ok(())
    }

    #[inline(always)]
    fn end_context(&self) -> Context {
        let nodes = Some(self.nodes);
        let count = self.declared;
        Context::of(Some(Declared { nodes, count }), self.arcs)
    }

    fn value(self, alloc: Global) -> Result<MinNodes, Memory> {
        let without_arcs = MinInstance {
            supplies: self.supplies,
            network: PlainArcs::<ArcView>::new(alloc, self.nodes),
        };
        Ok(MinNodes {
            arcs: self.arcs,
            without_arcs,
        })
    }

    ghost has_problem = { refl };
}

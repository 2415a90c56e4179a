//! The summary of a maximum flow instance.

ghost use Rattle.std.specs.Prelude.{◌≡◌, refl};
ghost use Rattle.dimacs_records.specs.declared.kinds.TextKind.TheVariants as kinds;
ghost use Rattle.dimacs_instance.specs.{MaxFlows.{MaxValue}, MaxTexts.{GivesMax, SpellsMax, shown_max}};
ghost use Rattle.dimacs_instance.specs.MaxReading.{plain_context, context, end_context, IsMaxCountedBy};
ghost use Rattle.dimacs_instance.specs.Summaries.{SumsUpMax, max_summary_line, GivesSummary};

use crate::max::{EndLine, EndLines};
use crate::summaries::Summary;
use dimacs_lines::{DeviceFault, Memory, Sink, Source};
use dimacs_records::{
    Builder, Context, CountedReading, Declared, Part, ReadError, Record, TextKind, put_line,
    read_counted,
};
use std::alloc::Global;
use std::marker::Model;

/// The size of a maximum flow instance, and its ends.
#[derive(Clone, Copy, Debug, PartialEq, Eq)]
pub struct MaxSummary {
    pub nodes: u32,
    pub arcs: u32,
    pub source: u32,
    pub sink: u32,
}

impl Summary for MaxSummary {
    ghost kind = { kinds.Max };

    ghost Content = { MaxValue };

    ghost sums_up = { λ s m. SumsUpMax s m };

    ghost spells = { λ text m. SpellsMax text m };

    ghost shown = { λ m. shown_max m };

    ghost line = { λ s. max_summary_line s };

    fn kind() -> TextKind {
        TextKind::Max
    }

    fn read<S: Source>(alloc: Global, source: &mut S) -> Result<MaxSummary, ReadError> {
        read_counted::<MaxCount, S>(alloc, source)
    }

    fn show<K: Sink>(&self, sink: &mut K) -> Result<(), DeviceFault> {
        put_line(
            sink,
            b"i",
            &[
                Part::Word(b"max"),
                Part::Number(i64::from(self.nodes)),
                Part::Number(i64::from(self.arcs)),
                Part::Number(i64::from(self.source)),
                Part::Number(i64::from(self.sink)),
            ],
        )
    }
}

/// Reads the records of a maximum flow instance, and keeps its nodes, of the arcs only how many they are.
pub type MaxNodesReading = CountedReading<MaxCount>;

/// A maximum flow instance while its text is read, with the arcs only counted.
#[derive(Drop)]
pub struct MaxCount {
    pub(crate) nodes: u32,
    pub(crate) declared: u32,
    pub(crate) ends: EndLines,
    pub(crate) arcs: u32,
}

impl Model for MaxCount {
    ghost use Rattle.dimacs_instance.specs.MaxReading.{MaxCount};
    ghost use Rattle.dimacs_instance.specs.MaxReading.{EndsAreDistinct};

    ghost Value = { MaxCount };

    ghost view = { λ c. record { nodes = c.nodes; declared = c.declared; ends = c.ends; arcs = c.arcs } };

    ghost invariant = { λ c. EndsAreDistinct c.ends };
}

impl MaxCount {
    /// The context if source and sink don't matter.
    #[inline(always)]
    fn plain_context(&self) -> Context
        ensures { result ≡ plain_context self.now }
    {
        let nodes = Some(self.nodes);
        let count = self.declared;
        Context::of(Some(Declared { nodes, count }), self.arcs)
    }
}

impl Builder for MaxCount {
    type Value = MaxSummary;

    ghost kind = { kinds.Max };

    ghost built_from = { λ counted rs. IsMaxCountedBy counted rs };

    ghost context = { λ counted r. context counted r };

    ghost end_context = { λ counted. end_context counted };

    ghost gives = { λ rs summary. GivesSummary GivesMax SumsUpMax rs summary };

    #[tactic(auto, using(crate::proofs::MaxTextLemmas::max_faultless, crate::proofs::MaxTextLemmas::one_max))]
    fn kind() -> TextKind {
        TextKind::Max
    }

    #[tactic(auto, using(crate::proofs::MaxCountLemmas::counted_none))]
    fn begin(_alloc: Global, problem: Record) -> MaxCount {
        let Record::MaxProblem { nodes, arcs } = problem else {
            unreachable!()
        };
        MaxCount {
            nodes,
            declared: arcs,
            ends: EndLines::Neither,
            arcs: 0,
        }
    }

    #[inline(always)]
    fn context(&self, rec: Record) -> Context {
        match rec {
            Record::MaxArc { .. } => self.end_context(),
            Record::MaxNode { id, end } => Context {
                misplaced: self.arcs > 0,
                named: self.ends.names(id),
                end_named: self.ends.has(end),
                ..self.plain_context()
            },
            Record::MaxProblem { .. } => self.plain_context(),
            _ => unreachable!(),
        }
    }

    #[inline(always)]
    fn keep(&mut self, rec: Record) -> Result<(), Memory> {
        match rec {
            Record::MaxArc {
                tail: _tail,
                head: _head,
                cap: _cap,
            } => self.arcs += 1,
            Record::MaxNode { id, end } => self.ends = self.ends.and(EndLine { node: id, end }),
            _ => unreachable!(),
        }
        Ok(())
    }

    #[inline(always)]
    fn end_context(&self) -> Context {
        Context {
            lacks_end: self.ends.lacks_end(),
            ..self.plain_context()
        }
    }

    fn value(self, _alloc: Global) -> Result<MaxSummary, Memory> {
        let (source, sink) = self.ends.in_order();
        Ok(MaxSummary {
            nodes: self.nodes,
            arcs: self.arcs,
            source,
            sink,
        })
    }

    ghost has_problem = { refl };
}

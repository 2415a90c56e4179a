//! Reading maximum flow instances.

ghost use Rattle.std.specs.Prelude.{◌≡◌, ℕ, List, Some, refl};
ghost use Rattle.dimacs_lines.specs.Lines.{lines};
ghost use Rattle.dimacs_records.specs.declared.kinds.TextKind.TheVariants as kinds;
ghost use Rattle.dimacs_records.specs.{Readings.{CountsRead}, Faults.{Fault}, Texts.{Reads}};
ghost use Rattle.dimacs_instance.specs.MaxTexts.{GivesMax, SpellsMax};
ghost use Rattle.dimacs_instance.specs.MaxReading.{context, end_context, count_of, max_begun_records};

use crate::max::{EndLine, EndLines, MaxInstance};
use crate::summaries::MaxCount;
use dimacs_lines::{Memory, Source};
use dimacs_network::{CapacityArc, ForwardStar, Network, OfCapacityArcs, PlainArcs};
use dimacs_records::{
    Builder, Context, CountedReading, ReadError, Record, Text, TextKind, read_counted,
};
use std::alloc::Global;
use std::marker::{Model, PhantomData};

/// Reads the records of a maximum flow instance.
pub type MaxReading = CountedReading<MaxBuilder<ForwardStar<CapacityArc>>>;

/// A maximum flow instance while its text is read: at most two node lines after the problem line, then arcs.
#[derive(Drop)]
pub struct MaxBuilder<N: OfCapacityArcs> {
    declared: u32,
    ends: EndLines,
    arcs: PlainArcs<CapacityArc>,
    of: PhantomData<N>,
}

impl<N: OfCapacityArcs> Model for MaxBuilder<N> {
    ghost use Rattle.dimacs_instance.specs.MaxReading.{MaxBegun};
    ghost use Rattle.dimacs_instance.specs.MaxReading.{IsMaxBegun};

    ghost Value = { MaxBegun };

    ghost view = { λ b. record { nodes = b.arcs.nodes; declared = b.declared; ends = b.ends; arcs = b.arcs.arcs } };

    ghost invariant = { λ b. IsMaxBegun (record { nodes = b.arcs.nodes; declared = b.declared; ends = b.ends; arcs = b.arcs.arcs }) };
}

impl<N: OfCapacityArcs> MaxBuilder<N> {
    #[inline(always)]
    fn count(&self) -> MaxCount
        ensures { result ≡ count_of self.now }
    {
        MaxCount {
            nodes: self.arcs.nodes(),
            declared: self.declared,
            ends: self.ends,
            arcs: self.arcs.arcs(),
        }
    }
}

impl<N: OfCapacityArcs> Builder for MaxBuilder<N> {
    type Value = MaxInstance<N>;

    ghost kind = { kinds.Max };

    ghost built_from = { λ begun rs. rs ≡ max_begun_records begun };

    ghost context = { λ begun r. context (count_of begun) r };

    ghost end_context = { λ begun. end_context (count_of begun) };

    ghost gives = { λ rs m. GivesMax rs m };

    #[tactic(auto, using(crate::proofs::MaxTextLemmas::max_faultless, crate::proofs::MaxTextLemmas::one_max))]
    fn kind() -> TextKind {
        TextKind::Max
    }

    fn begin(alloc: Global, problem: Record) -> MaxBuilder<N> {
        let Record::MaxProblem { nodes, arcs } = problem else {
            unreachable!()
        };
        MaxBuilder {
            declared: arcs,
            ends: EndLines::Neither,
            arcs: PlainArcs::new(alloc, nodes),
            of: PhantomData,
        }
    }

    #[tactic(auto, using(crate::proofs::MaxLemmas::context_by_records))]
    #[inline(always)]
    fn context(&self, rec: Record) -> Context {
        self.count().context(rec)
    }

    #[inline(always)]
    fn keep(&mut self, rec: Record) -> Result<(), Memory> {
        match rec {
            Record::MaxArc { tail, head, cap } => {
                self.arcs.push(CapacityArc { tail, head, cap })?;
                Ok(())
            }
            Record::MaxNode { id, end } => {
                self.ends = self.ends.and(EndLine { node: id, end });
                Ok(())
            }
            _ => unreachable!(),
        }
    }

    #[tactic(auto, using(crate::proofs::MaxLemmas::end_context_by_records))]
    #[inline(always)]
    fn end_context(&self) -> Context {
        self.count().end_context()
    }

    fn value(self, alloc: Global) -> Result<MaxInstance<N>, Memory> {
        let (source, sink) = self.ends.in_order();
        Ok(MaxInstance {
            source,
            sink,
            network: N::of_arcs(alloc, self.arcs)?,
        })
    }

    ghost has_problem = { refl };
}

/// Reads the text of a maximum flow instance. `docs/TEXTS.md` has the rules and the order of faults.
pub fn read_max<S: Source>(
    alloc: Global,
    source: &mut S,
) -> Result<MaxInstance<ForwardStar<CapacityArc>>, ReadError>
    ensures reads { (text : List ℕ) → S.coming source.old ≡ Some text → Reads (SpellsMax text) (Fault kinds.Max (lines text)) result }
    ensures faults { CountsRead result (S.faults source.old) (S.faults source.new) }
{
    read_counted::<MaxBuilder<ForwardStar<CapacityArc>>, S>(alloc, source)
}

impl<N: OfCapacityArcs + Drop> Text for MaxInstance<N> {
    fn read<S: Source>(alloc: Global, source: &mut S) -> Result<Self, ReadError> {
        read_counted::<MaxBuilder<N>, S>(alloc, source)
    }
}

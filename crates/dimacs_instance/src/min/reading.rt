//! Reading minimum cost flow instances.

ghost use Rattle.std.specs.Prelude.{◌≡◌, ℕ, List, Some, refl};
ghost use Rattle.dimacs_lines.specs.Lines.{lines};
ghost use Rattle.dimacs_records.specs.declared.kinds.TextKind.TheVariants as kinds;
ghost use Rattle.dimacs_records.specs.{Readings.{CountsRead}, Faults.{Fault}, Texts.{Reads}};
ghost use Rattle.dimacs_instance.specs.MinTexts.{GivesMin, SpellsMin};
ghost use Rattle.dimacs_instance.specs.MinReading.{IsMinBegunBy, plain_context, context, count_of};

use crate::min::MinInstance;
use dimacs_lines::{Memory, Source};
use dimacs_network::{ArcView, ForwardStar, Network, NodeMap, OfCostArcs, PlainArcs};
use dimacs_records::{
    Builder, Context, CountedReading, Declared, ReadError, Record, Text, TextKind, read_counted,
};
use std::alloc::Global;
use std::marker::{Model, PhantomData};

/// Reads the records of a minimum cost flow instance.
pub type MinReading = CountedReading<MinBuilder<ForwardStar<ArcView>>>;

/// A minimum cost flow instance while its text is read: node lines after the problem line, then arcs.
#[derive(Drop)]
pub struct MinBuilder<N: OfCostArcs> {
    declared: u32,
    /// The supplies of the named nodes, some perhaps 0.
    supplies: NodeMap<i64>,
    arcs: PlainArcs<ArcView>,
    of: PhantomData<N>,
}

impl<N: OfCostArcs> Model for MinBuilder<N> {
    ghost use Rattle.dimacs_instance.specs.MinReading.{MinBegun};
    ghost use Rattle.dimacs_instance.specs.MinReading.{IsMinBegun};
    ghost use Rattle.dimacs_instance.specs.MinCodes.{begun_code};

    ghost Value = { MinBegun };

    ghost coded = { begun_code };

    ghost view = { λ b. record { nodes = b.arcs.nodes; declared = b.declared; supplies = b.supplies; arcs = b.arcs.arcs } };

    ghost invariant = { λ b. IsMinBegun (record { nodes = b.arcs.nodes; declared = b.declared; supplies = b.supplies; arcs = b.arcs.arcs }) };
}

impl<N: OfCostArcs> Builder for MinBuilder<N> {
    type Value = MinInstance<N>;

    ghost kind = { kinds.Min };

    ghost built_from = { λ begun rs. IsMinBegunBy begun rs };

    ghost context = { λ begun r. context (count_of begun) r };

    ghost end_context = { λ begun. plain_context (count_of begun) };

    ghost gives = { λ rs m. GivesMin rs m };

    fn kind() -> TextKind {
        TextKind::Min
    }

    fn begin(alloc: Global, problem: Record) -> MinBuilder<N> {
        let Record::MinProblem { nodes, arcs } = problem else {
            unreachable!()
        };
        MinBuilder {
            declared: arcs,
            supplies: NodeMap::new(alloc),
            arcs: PlainArcs::new(alloc, nodes),
            of: PhantomData,
        }
    }

    #[inline(always)]
    fn context(&self, rec: Record) -> Context {
        match rec {
            Record::MinArc { .. } | Record::MinProblem { .. } => self.end_context(),
            Record::MinNode { id, .. } => Context {
                misplaced: self.arcs.arcs() > 0,
                named: self.supplies.get(id).is_some(),
                ..self.end_context()
            },
            _ => unreachable!(),
        }
    }

    #[inline(always)]
    fn keep(&mut self, rec: Record) -> Result<(), Memory> {
        match rec {
            Record::MinArc {
                tail,
                head,
                low,
                cap,
                cost,
            } => {
                self.arcs.push(ArcView {
                    tail,
                    head,
                    low,
                    cap,
                    cost,
                })?;
                Ok(())
            }
            Record::MinNode { id, supply } => {
                self.supplies.set(id, supply)?;
                Ok(())
            }
            _ => unreachable!(),
        }
    }

    #[inline(always)]
    fn end_context(&self) -> Context {
        let nodes = Some(self.arcs.nodes());
        let count = self.declared;
        Context::of(Some(Declared { nodes, count }), self.arcs.arcs())
    }

    #[tactic(auto, using(crate::proofs::MinLemmas::gives_min, crate::proofs::MinLemmas::min_law))]
    fn value(self, alloc: Global) -> Result<MinInstance<N>, Memory> {
        Ok(MinInstance {
            supplies: self.supplies,
            network: N::of_arcs(alloc, self.arcs)?,
        })
    }

    ghost has_problem = { refl };
}

/// Reads the text of a minimum cost flow instance. `docs/TEXTS.md` has the rules and the order of faults.
pub fn read_min<S: Source>(
    alloc: Global,
    source: &mut S,
) -> Result<MinInstance<ForwardStar<ArcView>>, ReadError>
    ensures reads { (text : List ℕ) → S.coming source.old ≡ Some text → Reads (SpellsMin text) (Fault kinds.Min (lines text)) result }
    ensures faults { CountsRead result (S.faults source.old) (S.faults source.new) }
{
    read_counted::<MinBuilder<ForwardStar<ArcView>>, S>(alloc, source)
}

impl<N: OfCostArcs + Drop> Text for MinInstance<N> {
    fn read<S: Source>(alloc: Global, source: &mut S) -> Result<Self, ReadError> {
        read_counted::<MinBuilder<N>, S>(alloc, source)
    }
}

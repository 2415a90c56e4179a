//! Distances: claims without predecessors.

ghost use Rattle.std.specs.Prelude.{◌≡◌, ◌<◌, ◌≤◌, [], ℕ, List, Some, OnOk, OnErr, IfOk, IfSome, length, map, refl};
ghost use Rattle.std.specs.List.{All};
ghost use Rattle.dimacs_lines.specs.{Limits.{most_count, most_nodes}, Lines.{lines}, Puts.{Puts}};
ghost use Rattle.dimacs_records.specs.declared.kinds.TextKind.TheVariants as kinds;
ghost use Rattle.dimacs_records.specs.{Faults.{Fault}, Ranges.{IsWide}, Readings.{CountsRead}, Texts.{Reads}};
ghost use Rattle.dimacs_claims.specs.DistanceTexts.{AreBare, GivesDistances, IsBare, SpellsDistances, bare, canonical_distances, shown_distances};
ghost use Rattle.dimacs_claims.specs.Labels.{AreLabels, IsBlock, IsNewSource, LabelsValue, label_at, with_block};
ghost use Rattle.dimacs_claims.specs.LabelTexts.{FitText};
ghost use Rattle.dimacs_claims.specs.LabelsReading.{bare_context, end_context, labels_begun_records};

use crate::block::Block;
use crate::label_list::Label;
use crate::labels::{Labels, LabelsBuilder, write_in_kind};
use crate::show::show_nodes;
use dimacs_lines::{DeviceFault, Memory, Sink, Source};
use dimacs_records::{
    Builder, Context, CountedReading, ReadError, Record, Text, TextKind, Writable, read_counted,
};
use std::alloc::Global;
use std::marker::Model;

/// Claimed distances in blocks, one for each source. They are kept as labels whose predecessor is the source.
#[derive(Drop)]
pub struct Distances {
    labels: Labels,
}

impl Model for Distances {
    ghost use Rattle.dimacs_claims.specs.DistanceTexts.{AreBare};
    ghost use Rattle.dimacs_claims.specs.Labels.{LabelsValue};

    ghost Value = { LabelsValue };

    ghost view = { λ d. d.labels };

    ghost invariant = { λ d. AreBare d.labels };
}

impl Distances {
    /// No distances yet, in a graph with `nodes` nodes. Allocates nothing.
    pub fn new(alloc: Global, nodes: u32) -> Distances
        requires { nodes ≤ most_nodes }
        ensures { result ≡ record { nodes = nodes; blocks = [] } }
    {
        Distances {
            labels: Labels::new(alloc, nodes),
        }
    }

    /// Adds a block of a source that has none yet. It has no radius, and its source is the predecessor of each label.
    pub fn push(&mut self, block: Block) -> Result<(), Memory>
        requires lawful { IsBlock self.old.nodes block }
        requires bare { IsBare block }
        requires source { IsNewSource self.old.blocks block }
        requires few { length self.old.blocks < most_count }
        ensures pushed { OnOk result (self.new ≡ with_block self.old block) }
        ensures unchanged { OnErr result (self.new ≡ self.old) }
    {
        self.labels.push(block)
    }

    /// As [`Labels::index`].
    pub fn index(&mut self) -> Result<(), Memory>
        ensures { self.new ≡ self.old }
    {
        self.labels.index()
    }

    /// The number of nodes of the graph, NODES of the text.
    pub fn nodes(&self) -> u32
        ensures { result ≡ self.now.nodes }
    {
        self.labels.nodes()
    }

    /// The blocks in the order of the text.
    pub fn blocks(&self) -> &[Block]
        ensures blocks { result.now ≡ self.now.blocks }
        ensures lawful { AreLabels self.now × AreBare self.now }
    {
        self.labels.blocks()
    }

    /// As [`Labels::label`]; none if the node is claimed to be unreachable.
    #[inline]
    pub fn distance(&self, block: usize, id: u32) -> Option<i128>
        ensures distance { result ≡ label_at self.now.blocks block id }
        ensures wide { IfSome result IsWide }
    {
        self.labels.label(block, id)
    }

    /// The same claims as labels.
    pub fn labels(&self) -> &Labels
        ensures labels { result.now ≡ self.now }
        ensures bare { AreBare self.now }
    {
        &self.labels
    }

    /// The same, in their place.
    pub fn into_labels(self) -> Labels
        ensures labels { result ≡ self }
        ensures bare { AreBare self }
    {
        self.labels
    }
}

/// Reads the records of distances.
pub type DistancesReading = CountedReading<DistancesBuilder>;

/// Distances while their text is read: the blocks after the problem line.
#[derive(Drop)]
pub struct DistancesBuilder {
    labels: LabelsBuilder,
}

impl Model for DistancesBuilder {
    ghost use Rattle.std.specs.List.{All};
    ghost use Rattle.dimacs_claims.specs.DistanceTexts.{IsBare};
    ghost use Rattle.dimacs_claims.specs.LabelsReading.{LabelsBegun};

    ghost Value = { LabelsBegun };

    ghost view = { λ b. b.labels };

    ghost invariant = { λ b. All IsBare b.labels.blocks };
}

impl Builder for DistancesBuilder {
    type Value = Distances;

    ghost kind = { kinds.Distances };

    ghost built_from = { λ begun rs. rs ≡ map bare (labels_begun_records begun) };

    ghost context = { λ begun r. bare_context begun r };

    ghost end_context = { λ begun. end_context begun };

    ghost gives = { λ rs distances. GivesDistances rs distances };

    #[tactic(auto, using(crate::proofs::DistanceLaws::distances_faultless, crate::proofs::DistanceLaws::one_distances))]
    fn kind() -> TextKind {
        TextKind::Distances
    }

    fn begin(alloc: Global, problem: Record) -> DistancesBuilder {
        let Record::DistancesProblem { nodes, blocks } = problem else {
            unreachable!()
        };
        DistancesBuilder {
            labels: LabelsBuilder::new(alloc, nodes, blocks),
        }
    }

    #[inline(always)]
    fn context(&self, rec: Record) -> Context {
        match rec {
            Record::DistancesNode { id, dist } => Context {
                pred_unknown: false,
                past_radius: false,
                ..self.labels.label_context(Label { dist, id, pred: id })
            },
            Record::DistancesBlock { source, .. } => self.labels.block_context(source),
            Record::DistancesProblem { .. } => self.labels.plain_context(),
            _ => unreachable!(),
        }
    }

    #[inline(always)]
    fn keep(&mut self, rec: Record) -> Result<(), Memory> {
        match rec {
            Record::DistancesNode { id, dist } => {
                let pred = self.labels.last_source();
                self.labels.keep_label(Label { dist, id, pred })
            }
            Record::DistancesBlock { source, count } => self.labels.open(source, count, None),
            _ => unreachable!(),
        }
    }

    #[tactic(auto, using(crate::proofs::DistanceStates::bare_end_context_by_records))]
    #[inline(always)]
    fn end_context(&self) -> Context {
        self.labels.end_context()
    }

    fn value(self, alloc: Global) -> Result<Distances, Memory> {
        let labels = self.labels.labels(alloc);
        Ok(Distances { labels })
    }

    ghost has_problem = { refl };
}

/// Reads a text of distances, without an index of them. `docs/TEXTS.md` has the rules and the order of faults.
pub fn read_distances<S: Source>(alloc: Global, source: &mut S) -> Result<Distances, ReadError>
    ensures reads { (text : List ℕ) → S.coming source.old ≡ Some text → Reads (SpellsDistances text) (Fault kinds.Distances (lines text)) result }
    ensures fits { (text : List ℕ) → S.coming source.old ≡ Some text → IfOk result (λ distances. FitText distances) }
    ensures faults { CountsRead result (S.faults source.old) (S.faults source.new) }
{
    read_counted::<DistancesBuilder, S>(alloc, source)
}

/// Writes the canonical text of distances.
pub fn write_distances<S: Sink>(distances: &Distances, sink: &mut S) -> Result<(), DeviceFault>
    ensures puts { Puts result (S.seen sink.old) (canonical_distances distances.now) (S.seen sink.new) }
    ensures round_trip { FitText distances.now → SpellsDistances (canonical_distances distances.now) distances.now }
    ensures same_text { FitText distances.now → (read : LabelsValue) → SpellsDistances (canonical_distances distances.now) read
        → canonical_distances read ≡ canonical_distances distances.now }
{
    write_in_kind(TextKind::Distances, distances.labels(), sink)
}

impl Writable for Distances {
    ghost kind = { kinds.Distances };

    ghost Content = { LabelsValue };

    ghost content = { λ d. d };

    ghost spells = { λ text d. SpellsDistances text d };

    ghost canonical = { λ d. canonical_distances d };

    ghost shown = { λ d. shown_distances d };

    fn kind() -> TextKind {
        TextKind::Distances
    }

    fn write<K: Sink>(&self, sink: &mut K) -> Result<(), DeviceFault> {
        write_distances(self, sink)
    }

    fn show<K: Sink>(&self, sink: &mut K) -> Result<(), DeviceFault> {
        show_nodes(sink, b"distances", self.nodes(), self.blocks().len())
    }
}

impl Text for Distances {
    fn read<S: Source>(alloc: Global, source: &mut S) -> Result<Self, ReadError> {
        read_distances(alloc, source)
    }
}

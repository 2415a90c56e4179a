//! Reading labels.

ghost use Rattle.std.specs.Prelude.{◌≡◌, ◌≤◌, ◌++◌, ◌∷◌, [], ℕ, ℤ, List, Option, Some, None, OnOk, OnErr, IfOk, IfSome, IsTrue, is_some, length, refl, take};
ghost use Rattle.dimacs_lines.specs.{Limits.{most_count, most_nodes}, Lines.{lines}};
ghost use Rattle.dimacs_records.specs.declared.kinds.TextKind.TheVariants as kinds;
ghost use Rattle.dimacs_records.specs.{declared.records.Record.TheVariants.{LabelsBlock}, Faults.{Fault}};
ghost use Rattle.dimacs_records.specs.{Readings.{CountsRead, LineRecord, records_of}, Texts.{Reads}};
ghost use Rattle.dimacs_records.specs.Tests.{Passes, PassesEnd};
ghost use Rattle.dimacs_claims.specs.Labels as claims;
ghost use Rattle.dimacs_claims.specs.Labels.{AreSources, BlockValue, distance_in, with_label};
ghost use Rattle.std.specs.FinSet as set;
ghost use Rattle.dimacs_records.specs.Ranges.{IsRadius, IsWide};
ghost use Rattle.dimacs_claims.specs.LabelTexts.{FitText, GivesLabels, SpellsLabels, label_line};
ghost use Rattle.dimacs_claims.specs.LabelsReading.{labels_begun_records, plain_context, context, end_context};
ghost use Rattle.dimacs_claims.specs.inside.LabelsReading.{AreLabelled, AreLabelsBegun};

use crate::block::Block;
use crate::label_list::{Label, LabelList};
use crate::labels::Labels;
use dimacs_lines::{Memory, Source};
use dimacs_network::NodeSet;
use dimacs_records::{
    Builder, Context, CountedReading, Declared, ReadError, Record, Text, TextKind, read_counted,
};
use std::alloc::Global;
use std::marker::Model;

/// Reads the records of labels, without an index of them.
pub type LabelsReading = CountedReading<LabelsBuilder>;

/// Labels while their text is read: the blocks after the problem line.
#[derive(Drop)]
pub struct LabelsBuilder {
    nodes: u32,
    declared: u32,
    /// How many labels the last block still lacks.
    missing: u32,
    sources: NodeSet,
    /// The nodes with a label in the last block.
    labelled: NodeSet,
    blocks: Vec<Block>,
}

impl Model for LabelsBuilder {
    ghost use Rattle.dimacs_claims.specs.Labels.{AreSources};
    ghost use Rattle.dimacs_claims.specs.LabelsReading.{LabelsBegun};
    ghost use Rattle.dimacs_claims.specs.inside.LabelsReading.{AreLabelsBegun, AreLabelled};

    ghost Value = { LabelsBegun };

    ghost view = { λ b. record { nodes = b.nodes; declared = b.declared; missing = b.missing; blocks = b.blocks.items } };

    ghost invariant = { λ b. AreLabelsBegun
        (record { nodes = b.nodes; declared = b.declared; missing = b.missing; blocks = b.blocks.items })
        × AreSources b.sources b.blocks.items × AreLabelled b.labelled b.blocks.items };
}

impl LabelsBuilder {
    /// The state after the problem line.
    pub(crate) fn new(alloc: Global, nodes: u32, declared: u32) -> LabelsBuilder
        requires nodes { nodes ≤ most_nodes }
        requires declared { declared ≤ most_count }
        ensures { result ≡ record { nodes = nodes; declared = declared; missing = 0; blocks = [] } }
    {
        LabelsBuilder {
            nodes,
            declared,
            missing: 0,
            sources: NodeSet::new(alloc),
            labelled: NodeSet::new(alloc),
            blocks: Vec::new(alloc),
        }
    }

    /// The labels, after the end of the text has passed its tests.
    #[tactic(auto, using(crate::proofs::BuilderLemmas::gives_labels))]
    pub(crate) fn labels(self, alloc: Global) -> Labels
        requires { PassesEnd kinds.Labels (end_context self) }
        ensures labels { result ≡ record { nodes = self.nodes; blocks = self.blocks } }
        ensures gives { (rs : List LineRecord) → records_of rs ≡ labels_begun_records self → GivesLabels rs result }
    {
        Labels {
            nodes: self.nodes,
            blocks: self.blocks,
            indices: Vec::new(alloc),
        }
    }

    #[inline(always)]
    fn len(&self) -> u32
        ensures { result ≡ length self.now.blocks }
    {
        self.blocks.len() as u32
    }

    /// Whether the last block, whose source is given, has a label of this node.
    #[inline(always)]
    fn has_label(&self, source: u32, id: u32) -> bool
        ensures { (front : List BlockValue) (b : BlockValue) → self.now.blocks ≡ front ++ b ∷ [] → b.source ≡ source
            → result ≡ is_some (claims.label b id) }
    {
        source == id || self.labelled.contains(id)
    }

    /// The source of the last block; 0 without blocks.
    #[inline(always)]
    pub(crate) fn last_source(&self) -> u32
        ensures last { (front : List BlockValue) (b : BlockValue) → self.now.blocks ≡ front ++ b ∷ [] → result ≡ b.source }
        ensures lawful { AreLabelsBegun self.now }
    {
        match self.blocks.last() {
            Some(block) => block.source(),
            None => 0,
        }
    }

    /// The context if blocks don't matter.
    #[inline(always)]
    pub(crate) fn plain_context(&self) -> Context
        ensures { result ≡ plain_context self.now }
    {
        let nodes = Some(self.nodes);
        let count = self.declared;
        Context::of(Some(Declared { nodes, count }), self.len())
    }

    /// The context of a new block of this source.
    #[inline(always)]
    pub(crate) fn block_context(&self, source: u32) -> Context
        ensures { (count : ℕ) (radius : Option ℤ) → result ≡ context self.now (LabelsBlock source count radius) }
    {
        Context {
            named: self.sources.contains(source),
            ..self.end_context()
        }
    }

    /// The context of one more label.
    #[inline(always)]
    pub(crate) fn label_context(&self, label: Label) -> Context
        ensures { result ≡ context self.now (label_line label) }
    {
        let Some(block) = self.blocks.last() else {
            return Context {
                misplaced: true,
                pred_unknown: true,
                ..self.plain_context()
            };
        };
        let source = block.source();
        Context {
            named: self.has_label(source, label.id),
            block_full: self.missing == 0,
            pred_unknown: !self.has_label(source, label.pred),
            past_radius: block.is_past(label.dist),
            ..self.plain_context()
        }
    }

    /// Adds a block, for the labels that follow.
    pub(crate) fn open(
        &mut self,
        source: u32,
        count: u32,
        radius: Option<i128>,
    ) -> Result<(), Memory>
        requires source { 1 ≤ source }
        requires count { count ≤ most_count }
        requires radius { IfSome radius IsRadius }
        requires passes { Passes (context self.old (LabelsBlock source count radius)) (LabelsBlock source count radius) }
        ensures opened { OnOk result (labels_begun_records self.new ≡ labels_begun_records self.old ++ LabelsBlock source count radius ∷ []) }
        ensures block { OnOk result (self.new.blocks ≡ self.old.blocks ++ record { source = source; radius = radius; labels = [] } ∷ []) }
        ensures unchanged { OnErr result (self.new ≡ self.old) }
    {
        let block = Block::within(*self.blocks.allocator(), source, radius);
        let count_before = self.blocks.len();
        self.blocks.push(block)?;
        let Ok(()) = self.sources.insert(source) else {
            self.blocks.pop();
            return Err(Memory);
        };
        forget_labels(&mut self.labelled, &self.blocks, count_before);
        self.missing = count;
        Ok(())
    }

    /// Adds a label to the last block.
    #[inline(always)]
    pub(crate) fn keep_label(&mut self, label: Label) -> Result<(), Memory>
        requires id { 1 ≤ label.id }
        requires pred { 1 ≤ label.pred }
        requires dist { IsWide label.dist }
        requires passes { Passes (context self.old (label_line label)) (label_line label) }
        ensures added { OnOk result (labels_begun_records self.new ≡ labels_begun_records self.old ++ label_line label ∷ []) }
        ensures last { OnOk result ((front : List BlockValue) (b : BlockValue) → self.old.blocks ≡ front ++ b ∷ []
            → self.new.blocks ≡ front ++ with_label b label ∷ []) }
        ensures unchanged { OnErr result (self.new ≡ self.old) }
    {
        self.labelled.insert(label.id)?;
        let Ok(()) = add_to_last(&mut self.blocks, label) else {
            self.labelled.remove(label.id);
            return Err(Memory);
        };
        self.missing -= 1;
        Ok(())
    }
}

/// Removes all nodes of a set: those with a label in the last of the first `count` blocks.
fn forget_labels(labelled: &mut NodeSet, blocks: &[Block], count: usize)
    requires within { count ≤ length blocks.now }
    requires labelled { AreLabelled labelled.old (take count blocks.now) }
    ensures { labelled.new ≡ set.empty }
{
    if count > 0 {
        remove_all(labelled, blocks[count - 1].labels());
    }
}

/// Removes all nodes of a set, each of which has one of these labels: one by one, if that is faster.
fn remove_all(nodes: &mut NodeSet, labels: &LabelList)
    requires { (id : ℕ) → IsTrue (set.contains nodes.old id) → IsTrue (is_some (distance_in labels.now id)) }
    ensures { nodes.new ≡ set.empty }
{
    if labels.len() >= nodes.bytes() / 64 {
        nodes.clear();
        return;
    }
    for place in 0..labels.len() {
        nodes.remove(labels.at(place).id);
    }
}

#[inline(always)]
fn add_to_last(blocks: &mut Vec<Block>, label: Label) -> Result<(), Memory>
    requires { (front : List BlockValue) × (b : BlockValue) × (blocks.old.items ≡ front ++ b ∷ []) × (claims.label b label.id ≡ None) }
    ensures added { OnOk result ((front : List BlockValue) (b : BlockValue) → blocks.old.items ≡ front ++ b ∷ []
        → blocks.new.items ≡ front ++ with_label b label ∷ []) }
    ensures unchanged { OnErr result (blocks.new.items ≡ blocks.old.items) }
{
    let last = blocks.len() - 1;
    blocks[last].add(label)
}

impl Builder for LabelsBuilder {
    type Value = Labels;

    ghost kind = { kinds.Labels };

    ghost built_from = { λ begun rs. rs ≡ labels_begun_records begun };

    ghost context = { λ begun r. context begun r };

    ghost end_context = { λ begun. end_context begun };

    ghost gives = { λ rs labels. GivesLabels rs labels };

    #[tactic(auto, using(crate::proofs::LabelLaws::labels_faultless, crate::proofs::LabelLaws::one_labels))]
    fn kind() -> TextKind {
        TextKind::Labels
    }

    fn begin(alloc: Global, problem: Record) -> LabelsBuilder {
        let Record::LabelsProblem { nodes, blocks } = problem else {
            unreachable!()
        };
        LabelsBuilder::new(alloc, nodes, blocks)
    }

    #[inline(always)]
    fn context(&self, rec: Record) -> Context {
        match rec {
            Record::LabelsNode { id, dist, pred } => self.label_context(Label { dist, id, pred }),
            Record::LabelsBlock { source, .. } => self.block_context(source),
            Record::LabelsProblem { .. } => self.plain_context(),
            _ => unreachable!(),
        }
    }

    #[inline(always)]
    fn keep(&mut self, rec: Record) -> Result<(), Memory> {
        match rec {
            Record::LabelsNode { id, dist, pred } => self.keep_label(Label { dist, id, pred }),
            Record::LabelsBlock {
                source,
                count,
                radius,
            } => self.open(source, count, radius),
            _ => unreachable!(),
        }
    }

    #[inline(always)]
    fn end_context(&self) -> Context {
        Context {
            block_short: self.missing > 0,
            ..self.plain_context()
        }
    }

    fn value(self, alloc: Global) -> Result<Labels, Memory> {
        Ok(self.labels(alloc))
    }

    ghost has_problem = { refl };
}

/// Reads a text of labels and indexes them. `docs/TEXTS.md` has the rules and the order of faults.
pub fn read_labels<S: Source>(alloc: Global, source: &mut S) -> Result<Labels, ReadError>
    ensures reads { (text : List ℕ) → S.coming source.old ≡ Some text → Reads (SpellsLabels text) (Fault kinds.Labels (lines text)) result }
    ensures fits { (text : List ℕ) → S.coming source.old ≡ Some text → IfOk result (λ labels. FitText labels) }
    ensures faults { CountsRead result (S.faults source.old) (S.faults source.new) }
{
    let mut labels = read_plain_labels(alloc, source)?;
    labels.index()?;
    Ok(labels)
}

/// Reads a text of labels, without an index of them.
pub fn read_plain_labels<S: Source>(alloc: Global, source: &mut S) -> Result<Labels, ReadError>
    ensures reads { (text : List ℕ) → S.coming source.old ≡ Some text → Reads (SpellsLabels text) (Fault kinds.Labels (lines text)) result }
    ensures fits { (text : List ℕ) → S.coming source.old ≡ Some text → IfOk result (λ labels. FitText labels) }
    ensures faults { CountsRead result (S.faults source.old) (S.faults source.new) }
{
    read_counted::<LabelsBuilder, S>(alloc, source)
}

impl Text for Labels {
    fn read<S: Source>(alloc: Global, source: &mut S) -> Result<Self, ReadError> {
        read_plain_labels(alloc, source)
    }
}

//! Writing labels.

ghost use Rattle.std.specs.Prelude.{◌≡◌, ◌<◌, ◌≤◌, Some, length, map, option_map, slice_get};
ghost use Rattle.dimacs_lines.specs.{Limits.{most_count}, OutputBuffers.{Appends}, Puts.{Puts}};
ghost use Rattle.dimacs_records.specs.declared.kinds.TextKind.TheVariants as kinds;
ghost use Rattle.dimacs_records.specs.{declared.records.Record.TheVariants.{LabelsBlock}, Canonical.{canonical_text}};
ghost use Rattle.dimacs_claims.specs.{Labels.{AreLabels, LabelsValue}, DistanceTexts.{bare}};
ghost use Rattle.dimacs_claims.specs.inside.Lines.{in_kind, line_in_kind};
ghost use Rattle.dimacs_claims.specs.LabelTexts.{FitText, SpellsLabels, block_lines, canonical_labels, label_line, label_records, shown_labels};

use crate::block::Block;
use crate::label_list::Label;
use crate::labels::Labels;
use crate::show::show_nodes;
use dimacs_lines::{DeviceFault, OutputBuffer, Sink};
use dimacs_records::{Record, TextKind, Writable, write_lines, write_record};

/// Writes the canonical text of labels.
pub fn write_labels<S: Sink>(labels: &Labels, sink: &mut S) -> Result<(), DeviceFault>
    ensures puts { Puts result (S.seen sink.old) (canonical_labels labels.now) (S.seen sink.new) }
    ensures round_trip { FitText labels.now → SpellsLabels (canonical_labels labels.now) labels.now }
    ensures same_text { FitText labels.now → (read : LabelsValue) → SpellsLabels (canonical_labels labels.now) read
        → canonical_labels read ≡ canonical_labels labels.now }
{
    write_in_kind(TextKind::Labels, labels, sink)
}

/// Writes labels as a text of this kind: labels or distances. Inlined: the kind is a constant in each copy.
#[inline(always)]
pub(crate) fn write_in_kind<S: Sink>(
    kind: TextKind,
    labels: &Labels,
    sink: &mut S,
) -> Result<(), DeviceFault>
    ensures puts { Puts result (S.seen sink.old) (canonical_text (map (in_kind kind) (label_records labels.now))) (S.seen sink.new) }
    ensures lawful { AreLabels labels.now }
{
    let nodes = labels.nodes();
    let blocks = labels.blocks();
    let count = blocks.len() as u32;
    let problem = Record::LabelsProblem {
        nodes,
        blocks: count,
    };
    let mut output = OutputBuffer::new();
    write_record(&mut output, sink, &in_kind(kind, problem));
    for block in blocks {
        write_block(&mut output, sink, kind, block);
    }
    output.finish(sink)
}

#[inline(always)]
fn write_block<S: Sink>(output: &mut OutputBuffer, sink: &mut S, kind: TextKind, block: &Block)
    requires { length block.now.labels ≤ most_count }
    ensures { Appends (canonical_text (map (in_kind kind) (block_lines block.now))) (S.seen sink.old) output.old (S.seen sink.new) output.new }
{
    let labels = block.labels();
    let source = block.source();
    let count = labels.len() as u32;
    let radius = block.radius();
    let opening = Record::LabelsBlock {
        source,
        count,
        radius,
    };
    write_record(output, sink, &in_kind(kind, opening));
    write_lines(
        output,
        sink,
        labels.len(),
        |i|
            requires { i < length labels.now }
            ensures { result ≡ option_map (line_in_kind kind) (slice_get labels.entry.now i) }
        { Some(in_kind(kind, label_record(labels.at(i)))) },
    );
}

/// A line of labels as a line of this kind.
#[inline(always)]
fn in_kind(kind: TextKind, rec: Record) -> Record
    ensures { result ≡ in_kind kind rec }
{
    match kind {
        TextKind::Distances => bare(rec),
        _ => rec,
    }
}

/// A line of labels as a line of distances: without PRED and RADIUS.
#[inline(always)]
fn bare(rec: Record) -> Record
    ensures { result ≡ bare rec }
{
    match rec {
        Record::LabelsProblem { nodes, blocks } => Record::DistancesProblem { nodes, blocks },
        Record::LabelsBlock { source, count, .. } => Record::DistancesBlock { source, count },
        Record::LabelsNode { id, dist, .. } => Record::DistancesNode { id, dist },
        _ => rec,
    }
}

#[inline(always)]
fn label_record(label: Label) -> Record
    ensures { result ≡ label_line label }
{
    Record::LabelsNode {
        id: label.id,
        dist: label.dist,
        pred: label.pred,
    }
}

impl Writable for Labels {
    ghost kind = { kinds.Labels };

    ghost Content = { LabelsValue };

    ghost content = { λ l. l };

    ghost spells = { λ text l. SpellsLabels text l };

    ghost canonical = { λ l. canonical_labels l };

    ghost shown = { λ l. shown_labels l };

    fn kind() -> TextKind {
        TextKind::Labels
    }

    fn write<K: Sink>(&self, sink: &mut K) -> Result<(), DeviceFault> {
        write_labels(self, sink)
    }

    fn show<K: Sink>(&self, sink: &mut K) -> Result<(), DeviceFault> {
        show_nodes(sink, b"dist", self.nodes(), self.blocks().len())
    }
}

//! Reading labels into arrays.

ghost use Rattle.std.specs.Prelude.{◌≡◌, ℕ, List, Some, IfErr};
ghost use Rattle.dimacs_fill.specs.{BlockFilled.{FillsLabels, ReadsLabelsInto}, Filling.{CountsFilled, IsKept}};

use crate::block::{fill_distances, fill_predecessors, fitting_block, radius_item};
use crate::error::FillError;
use dimacs_claims::{Labels, read_plain_labels};
use dimacs_lines::Source;
use std::alloc::Global;

/// The number of nodes, and the radius of a block.
#[derive(Clone, Copy, Debug, Default, PartialEq, Eq)]
pub struct LabelSizes {
    pub nodes: u32,
    /// `i64::MAX` if there is none.
    pub radius: i64,
}

/// Reads the text of labels. The arrays get those of the block of this source: distances as `read_distances_into` gives
/// them, and predecessors, 0 at the source and at a node without a label.
pub fn read_labels_into<S: Source>(
    alloc: Global,
    text: &mut S,
    source: u32,
    distances: &mut [i64],
    predecessors: &mut [u32],
) -> Result<LabelSizes, FillError>
    ensures reads { (bytes : List ℕ) → S.coming text.old ≡ Some bytes
        → ReadsLabelsInto bytes source (distances.old, distances.new) (predecessors.old, predecessors.new) result }
    ensures faults { CountsFilled result (S.faults text.old) (S.faults text.new) }
{
    let labels = read_plain_labels(alloc, text)?;
    fill_labels(&labels, source, distances, predecessors)
}

fn fill_labels(
    labels: &Labels,
    source: u32,
    distances: &mut [i64],
    predecessors: &mut [u32],
) -> Result<LabelSizes, FillError>
    ensures filled { FillsLabels (distances.old, distances.new) (predecessors.old, predecessors.new) source labels.now result }
    ensures kept { IfErr result (λ error. IsKept (distances.old, distances.new) × IsKept (predecessors.old, predecessors.new)) }
{
    let block = fitting_block(labels, source)?;
    fill_distances(labels.nodes(), block, distances);
    fill_predecessors(labels.nodes(), block, predecessors);
    Ok(LabelSizes {
        nodes: labels.nodes(),
        radius: radius_item(block.radius()),
    })
}

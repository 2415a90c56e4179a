//! Reading labels into arrays, and writing them.

ghost use Rattle.std.specs.Prelude.{◌≡◌, None, codes};
ghost use Rattle.dimacs_fill.specs.BlockFilled.{ReadsLabelsInto};
ghost use Rattle.dimacs_arrays.specs.PathsSpelled.{SpellsLabelArrays};
ghost use Rattle.dimacs_c.specs.{ArrayTexts.{labels_text}, Arrays.{AnswersItems, buffers}, Calls.{handed}};
ghost use Rattle.dimacs_c.specs.Reading.{AnswersFilled, SetsLabels};

use crate::reading::{end_read, end_unfilled};
use crate::written::hand_text;
use dimacs_arrays::labels_over;
use dimacs_fill::read_labels_into;
use dimacs_lines::MemorySource;
use std::alloc::Global;

/// Reads the block of this source, as `read_labels_into`. The arrays get a distance and a predecessor for each node.
#[unsafe(no_mangle)]
pub extern "C" fn dimacs_read_labels(
    alloc: Global,
    text: &[u8],
    source: u32,
    out: &mut [u8],
    needed: &mut usize,
    radius: &mut i64,
    distances: &mut [i64],
    distances_needed: &mut usize,
    predecessors: &mut [u32],
    predecessors_needed: &mut usize,
) -> u32
    ensures { AnswersFilled (ReadsLabelsInto text.now source (distances.old, distances.new) (predecessors.old, predecessors.new))
        (SetsLabels radius.new distances_needed.new predecessors_needed.new) (codes "certificate") result (handed out.old out.new needed.new) }
{
    let text = &mut MemorySource::new(text);
    match read_labels_into(alloc, text, source, distances, predecessors) {
        Ok(sizes) => {
            *radius = sizes.radius;
            *distances_needed = sizes.nodes as usize;
            *predecessors_needed = sizes.nodes as usize;
            end_read(needed)
        }
        Err(error) => {
            *radius = 0;
            *distances_needed = 0;
            *predecessors_needed = 0;
            end_unfilled(alloc, "certificate", error, out, needed)
        }
    }
}

/// Writes one block, as `labels_over`.
#[unsafe(no_mangle)]
pub extern "C" fn dimacs_write_labels(
    alloc: Global,
    source: u32,
    distances: &[i64],
    predecessors: &[u32],
    out: &mut [u8],
    needed: &mut usize,
) -> u32
    ensures { AnswersItems labels_text (SpellsLabelArrays source distances.now predecessors.now) result
        (buffers (handed out.old out.new needed.new) None None None) }
{
    let answer = labels_over(alloc, source, distances, predecessors);
    hand_text(alloc, &answer, out, needed)
}

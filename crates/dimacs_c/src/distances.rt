//! Reading distances into arrays, and writing them.

ghost use Rattle.std.specs.Prelude.{◌≡◌, None, codes};
ghost use Rattle.dimacs_fill.specs.BlockFilled.{ReadsDistancesInto};
ghost use Rattle.dimacs_arrays.specs.PathsSpelled.{SpellsDistancesArray};
ghost use Rattle.dimacs_c.specs.{ArrayTexts.{distances_text}, Arrays.{AnswersItems, buffers}, Calls.{handed}};
ghost use Rattle.dimacs_c.specs.Reading.{AnswersFilled, SetsLength};

use crate::reading::{end_read, end_unfilled};
use crate::written::hand_text;
use dimacs_arrays::distances_over;
use dimacs_fill::read_distances_into;
use dimacs_lines::MemorySource;
use std::alloc::Global;

/// Reads the block of this source, as `read_distances_into`. `distances` gets one for each node.
#[unsafe(no_mangle)]
pub extern "C" fn dimacs_read_distances(
    alloc: Global,
    text: &[u8],
    source: u32,
    out: &mut [u8],
    needed: &mut usize,
    distances: &mut [i64],
    distances_needed: &mut usize,
) -> u32
    ensures { AnswersFilled (ReadsDistancesInto text.now source (distances.old, distances.new)) (SetsLength distances_needed.new) (codes "distances") result
        (handed out.old out.new needed.new) }
{
    match read_distances_into(alloc, &mut MemorySource::new(text), source, distances) {
        Ok(nodes) => {
            *distances_needed = nodes as usize;
            end_read(needed)
        }
        Err(error) => {
            *distances_needed = 0;
            end_unfilled(alloc, "distances", error, out, needed)
        }
    }
}

/// Writes one block, as `distances_over`.
#[unsafe(no_mangle)]
pub extern "C" fn dimacs_write_distances(
    alloc: Global,
    source: u32,
    distances: &[i64],
    out: &mut [u8],
    needed: &mut usize,
) -> u32
    ensures { AnswersItems distances_text (SpellsDistancesArray source distances.now) result
        (buffers (handed out.old out.new needed.new) None None None) }
{
    let answer = distances_over(alloc, source, distances);
    hand_text(alloc, &answer, out, needed)
}

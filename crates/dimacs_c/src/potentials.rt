//! Reading potentials into arrays, and writing them.

ghost use Rattle.std.specs.Prelude.{◌≡◌, None, codes};
ghost use Rattle.dimacs_fill.specs.PotentialsFilled.{ReadsPotentialsInto};
ghost use Rattle.dimacs_arrays.specs.Spelled.{SpellsPotentialsArray};
ghost use Rattle.dimacs_c.specs.{ArrayTexts.{potentials_text}, Arrays.{AnswersItems, buffers}, Calls.{handed}};
ghost use Rattle.dimacs_c.specs.Reading.{AnswersFilled, SetsLength};

use crate::reading::{end_read, end_unfilled};
use crate::written::hand_text;
use dimacs_arrays::potentials_over;
use dimacs_fill::read_potentials_into;
use dimacs_lines::MemorySource;
use std::alloc::Global;

/// Reads potentials, as `read_potentials_into`. `potentials` gets one for each node.
#[unsafe(no_mangle)]
pub extern "C" fn dimacs_read_potentials(
    alloc: Global,
    text: &[u8],
    out: &mut [u8],
    needed: &mut usize,
    potentials: &mut [i64],
    potentials_needed: &mut usize,
) -> u32
    ensures { AnswersFilled (ReadsPotentialsInto text.now (potentials.old, potentials.new)) (SetsLength potentials_needed.new) (codes "certificate") result
        (handed out.old out.new needed.new) }
{
    match read_potentials_into(alloc, &mut MemorySource::new(text), potentials) {
        Ok(nodes) => {
            *potentials_needed = nodes as usize;
            end_read(needed)
        }
        Err(error) => {
            *potentials_needed = 0;
            end_unfilled(alloc, "certificate", error, out, needed)
        }
    }
}

/// Writes potentials, as `potentials_over`.
#[unsafe(no_mangle)]
pub extern "C" fn dimacs_write_potentials(
    alloc: Global,
    potentials: &[i64],
    out: &mut [u8],
    needed: &mut usize,
) -> u32
    ensures { AnswersItems potentials_text (SpellsPotentialsArray potentials.now) result
        (buffers (handed out.old out.new needed.new) None None None) }
{
    let answer = potentials_over(alloc, potentials);
    hand_text(alloc, &answer, out, needed)
}

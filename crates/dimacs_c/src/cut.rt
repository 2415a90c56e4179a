//! Reading sets of nodes into arrays, and writing them.

ghost use Rattle.std.specs.Prelude.{◌≡◌, None, codes};
ghost use Rattle.dimacs_fill.specs.CutFilled.{ReadsCutInto};
ghost use Rattle.dimacs_arrays.specs.Spelled.{SpellsCutArray};
ghost use Rattle.dimacs_c.specs.{ArrayTexts.{cut_text}, Arrays.{AnswersItems, buffers}, Calls.{handed}};
ghost use Rattle.dimacs_c.specs.Reading.{AnswersRead, SetsLength};

use crate::reading::{end_read, end_unread};
use crate::written::hand_text;
use dimacs_arrays::cut_over;
use dimacs_fill::read_cut_into;
use dimacs_lines::MemorySource;
use std::alloc::Global;

/// Reads a cut or a set. `inside` gets a byte for each node.
#[unsafe(no_mangle)]
pub extern "C" fn dimacs_read_cut(
    alloc: Global,
    text: &[u8],
    out: &mut [u8],
    needed: &mut usize,
    inside: &mut [u8],
    inside_needed: &mut usize,
) -> u32
    ensures { AnswersRead (ReadsCutInto text.now (inside.old, inside.new)) (SetsLength inside_needed.new) (codes "certificate") result
        (handed out.old out.new needed.new) }
{
    match read_cut_into(alloc, &mut MemorySource::new(text), inside) {
        Ok(nodes) => {
            *inside_needed = nodes as usize;
            end_read(needed)
        }
        Err(error) => {
            *inside_needed = 0;
            end_unread(alloc, "certificate", error, out, needed)
        }
    }
}

/// Writes the set of the nodes whose byte isn't 0, as `cut_over`.
#[unsafe(no_mangle)]
pub extern "C" fn dimacs_write_cut(
    alloc: Global,
    inside: &[u8],
    out: &mut [u8],
    needed: &mut usize,
) -> u32
    ensures { AnswersItems cut_text (SpellsCutArray inside.now) result (buffers (handed out.old out.new needed.new) None None None) }
{
    let answer = cut_over(alloc, inside);
    hand_text(alloc, &answer, out, needed)
}

//! The line that `show` prints about values by node.

ghost use Rattle.std.specs.{Prelude.{[], ◌∷◌}, Fmt.{decimal}};
ghost use Rattle.dimacs_lines.specs.Puts.{Puts};
ghost use Rattle.dimacs_records.specs.Printed.{shown};

use dimacs_lines::{DeviceFault, Sink};
use dimacs_records::{Part, put_line};

/// Writes a word, the number of nodes of the instance, and how many values there are.
pub(crate) fn show_nodes<K: Sink>(
    sink: &mut K,
    word: &[u8],
    nodes: u32,
    count: usize,
) -> Result<(), DeviceFault>
    ensures { Puts result (K.seen sink.old) (shown (word.now ∷ decimal nodes ∷ decimal count ∷ [])) (K.seen sink.new) }
{
    put_line(
        sink,
        b"i",
        &[
            Part::Word(word),
            Part::Number(i64::from(nodes)),
            Part::Wide(count as i128),
        ],
    )
}

//! Writing instances in arrays as texts.

ghost use Rattle.std.specs.Prelude.{◌≡◌, None};
ghost use Rattle.dimacs_arrays.specs.Spelled.{SpellsGraphArrays, SpellsMaxArrays, SpellsMinArrays};
ghost use Rattle.dimacs_c.specs.{Arrays.{AnswersItems, buffers}, Calls.{handed}};
ghost use Rattle.dimacs_c.specs.ArrayTexts.{graph_text, max_text, min_text};

use crate::written::hand_text;
use dimacs_arrays::{GraphArrays, MaxArrays, MinArrays, graph_over, max_over, min_over};
use std::alloc::Global;

/// Writes a maximum flow instance.
#[unsafe(no_mangle)]
pub extern "C" fn dimacs_write_max(
    alloc: Global,
    instance: &MaxArrays<'_>,
    out: &mut [u8],
    needed: &mut usize,
) -> u32
    ensures { AnswersItems max_text (SpellsMaxArrays instance.now) result (buffers (handed out.old out.new needed.new) None None None) }
{
    let answer = max_over(instance);
    hand_text(alloc, &answer, out, needed)
}

/// Writes a minimum cost flow instance.
#[unsafe(no_mangle)]
pub extern "C" fn dimacs_write_min(
    alloc: Global,
    instance: &MinArrays<'_>,
    out: &mut [u8],
    needed: &mut usize,
) -> u32
    ensures { AnswersItems min_text (SpellsMinArrays instance.now) result (buffers (handed out.old out.new needed.new) None None None) }
{
    let answer = min_over(alloc, instance);
    hand_text(alloc, &answer, out, needed)
}

/// Writes a graph.
#[unsafe(no_mangle)]
pub extern "C" fn dimacs_write_graph(
    alloc: Global,
    graph: &GraphArrays<'_>,
    out: &mut [u8],
    needed: &mut usize,
) -> u32
    ensures { AnswersItems graph_text (SpellsGraphArrays graph.now) result (buffers (handed out.old out.new needed.new) None None None) }
{
    let answer = graph_over(graph);
    hand_text(alloc, &answer, out, needed)
}

//! Reading queries into arrays, and writing them.

ghost use Rattle.std.specs.Prelude.{◌≡◌, None, codes};
ghost use Rattle.dimacs_fill.specs.QueriesFilled.{ReadsQueriesInto};
ghost use Rattle.dimacs_arrays.specs.PathsSpelled.{SpellsQueryArrays};
ghost use Rattle.dimacs_c.specs.{ArrayTexts.{queries_text}, Arrays.{AnswersItems, buffers}, Calls.{handed}};
ghost use Rattle.dimacs_c.specs.{Kinds.{query_kind}, Reading.{AnswersRead, SetsQueries}};

use crate::kinds::{number_of_queries, queries_of};
use crate::reading::{end_read, end_unread};
use crate::written::hand_text;
use dimacs_arrays::queries_over;
use dimacs_fill::read_queries_into;
use dimacs_lines::MemorySource;
use std::alloc::Global;

/// Reads queries. `pairs` gets 1 if they ask for pairs, otherwise 0.
#[unsafe(no_mangle)]
pub extern "C" fn dimacs_read_queries(
    alloc: Global,
    text: &[u8],
    out: &mut [u8],
    needed: &mut usize,
    pairs: &mut u32,
    froms: &mut [u32],
    tos: &mut [u32],
    count: &mut usize,
) -> u32
    ensures { AnswersRead (ReadsQueriesInto text.now (froms.old, froms.new) (tos.old, tos.new)) (SetsQueries pairs.new count.new) (codes "query") result
        (handed out.old out.new needed.new) }
{
    match read_queries_into(alloc, &mut MemorySource::new(text), froms, tos) {
        Ok(sizes) => {
            *pairs = number_of_queries(sizes.kind);
            *count = sizes.count;
            end_read(needed)
        }
        Err(error) => {
            *pairs = 0;
            *count = 0;
            end_unread(alloc, "query", error, out, needed)
        }
    }
}

/// Writes queries, as `queries_over`: for pairs if `pairs` isn't 0.
#[unsafe(no_mangle)]
pub extern "C" fn dimacs_write_queries(
    alloc: Global,
    pairs: u32,
    froms: &[u32],
    tos: &[u32],
    out: &mut [u8],
    needed: &mut usize,
) -> u32
    ensures { AnswersItems queries_text (SpellsQueryArrays (query_kind pairs) froms.now tos.now) result
        (buffers (handed out.old out.new needed.new) None None None) }
{
    let answer = queries_over(alloc, queries_of(pairs), froms, tos);
    hand_text(alloc, &answer, out, needed)
}

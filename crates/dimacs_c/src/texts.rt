//! Converting and describing texts in memory.

ghost use Rattle.dimacs_c.specs.{Calls.{AnswersKind, handed}, Kinds.{text_kind}};
ghost use Rattle.dimacs_runs.specs.{Runs.{Prints}, declared.text.TextForm.TheVariants.{Canonical, Summary}};

use crate::answer::{end, misuse};
use crate::kinds::text_of;
use dimacs_lines::{MemorySink, MemorySource};
use dimacs_runs::{run_convert, run_show};
use std::alloc::Global;

/// Converts a text to its canonical form, as `dimacs convert`.
#[unsafe(no_mangle)]
pub extern "C" fn dimacs_convert(
    alloc: Global,
    kind: u32,
    text: &[u8],
    out: &mut [u8],
    needed: &mut usize,
) -> u32
    ensures { AnswersKind (text_kind kind) (λ k. Prints Canonical k text.now) result (handed out.old out.new needed.new) }
{
    let Some(kind) = text_of(kind) else {
        return misuse(needed);
    };
    let mut sink = MemorySink::new(alloc);
    let mut source = MemorySource::new(text);
    let ended = run_convert(alloc, kind, &mut source, &mut sink);
    end(ended, sink.bytes(), out, needed)
}

/// Describes a text in one line, as `dimacs show`.
#[unsafe(no_mangle)]
pub extern "C" fn dimacs_show(
    alloc: Global,
    kind: u32,
    text: &[u8],
    out: &mut [u8],
    needed: &mut usize,
) -> u32
    ensures { AnswersKind (text_kind kind) (λ k. Prints Summary k text.now) result (handed out.old out.new needed.new) }
{
    let Some(kind) = text_of(kind) else {
        return misuse(needed);
    };
    let mut sink = MemorySink::new(alloc);
    let mut source = MemorySource::new(text);
    let ended = run_show(alloc, kind, &mut source, &mut sink);
    end(ended, sink.bytes(), out, needed)
}

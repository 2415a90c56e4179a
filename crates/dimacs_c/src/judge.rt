//! Judging texts in memory.

ghost use Rattle.dimacs_c.specs.{Calls.{AnswersKind, handed}, Kinds.{judge_kind}};
ghost use Rattle.dimacs_runs.specs.Judged.{Judged};

use crate::answer::{end, misuse};
use crate::kinds::judge_of;
use dimacs_lines::{MemorySink, MemorySource};
use dimacs_runs::run_judge;
use std::alloc::Global;

/// Judges a claim, as `dimacs judge-max` and so on. Kind 2 (no feasible flow) reads no claim.
#[unsafe(no_mangle)]
pub extern "C" fn dimacs_judge(
    alloc: Global,
    kind: u32,
    instance: &[u8],
    claim: &[u8],
    certificate: &[u8],
    out: &mut [u8],
    needed: &mut usize,
) -> u32
    ensures { AnswersKind (judge_kind kind) (λ k. Judged k instance.now claim.now certificate.now) result (handed out.old out.new needed.new) }
{
    let Some(kind) = judge_of(kind) else {
        return misuse(needed);
    };
    let mut sink = MemorySink::new(alloc);
    let mut first = MemorySource::new(instance);
    let mut second = MemorySource::new(claim);
    let mut third = MemorySource::new(certificate);
    let ended = run_judge(alloc, kind, &mut first, &mut second, &mut third, &mut sink);
    end(ended, sink.bytes(), out, needed)
}

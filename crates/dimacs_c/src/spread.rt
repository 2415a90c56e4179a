//! Dealing out claimed flows in memory.

ghost use Rattle.std.specs.Prelude.{◌∷◌, []};
ghost use Rattle.dimacs_c.specs.{Calls.{AnswersTextsKind, handed}, Kinds.{spread_kind}};
ghost use Rattle.dimacs_runs.specs.{Outputs.{WritesAlike}, Spread.{Spreads}};

use crate::answer::{end, misuse};
use crate::kinds::spread_of;
use dimacs_lines::{MemorySink, MemorySource};
use dimacs_runs::run_spread;
use std::alloc::Global;

/// Deals out a claimed flow to parallel arcs, as `dimacs spread-max` and so on. `solution` gets the flow.
#[unsafe(no_mangle)]
pub extern "C" fn dimacs_spread(
    alloc: Global,
    kind: u32,
    instance: &[u8],
    claim: &[u8],
    out: &mut [u8],
    needed: &mut usize,
    solution: &mut [u8],
    solution_needed: &mut usize,
) -> u32
    ensures { AnswersTextsKind (spread_kind kind) (λ k. WritesAlike (Spreads k instance.now claim.now)) result
        (handed solution.old solution.new solution_needed.new ∷ handed out.old out.new needed.new ∷ []) }
{
    let Some(kind) = spread_of(kind) else {
        misuse(solution_needed);
        return misuse(needed);
    };
    let mut text = MemorySink::new(alloc);
    let mut report = MemorySink::new(alloc);
    let mut first = MemorySource::new(instance);
    let mut second = MemorySource::new(claim);
    let ended = run_spread(alloc, kind, &mut first, &mut second, &mut text, &mut report);
    end(ended, text.bytes(), solution, solution_needed);
    end(ended, report.bytes(), out, needed)
}

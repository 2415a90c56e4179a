//! Solving texts in memory.

ghost use Rattle.std.specs.Prelude.{◌∷◌, []};
ghost use Rattle.dimacs_c.specs.{Calls.{AnswersTextsKind, handed}, Kinds.{solve_job}};
ghost use Rattle.dimacs_runs.specs.{Outputs.{MayWrite}, Solved.{Solved}};

use crate::answer::{end, misuse};
use crate::kinds::solve_of;
use dimacs_lines::{MemorySink, MemorySource};
use dimacs_runs::run_solve;
use std::alloc::Global;

/// Solves an instance, as `dimacs solve-max` and so on. `solution` gets the solution, and `certificate` its certificate.
/// Kind 3 (distances) reads `queries`, and has only labels, as the certificate.
#[unsafe(no_mangle)]
pub extern "C" fn dimacs_solve(
    alloc: Global,
    kind: u32,
    instance: &[u8],
    queries: &[u8],
    limit: u64,
    out: &mut [u8],
    needed: &mut usize,
    solution: &mut [u8],
    solution_needed: &mut usize,
    certificate: &mut [u8],
    certificate_needed: &mut usize,
) -> u32
    ensures { AnswersTextsKind (solve_job kind limit) (λ job. MayWrite (Solved job instance.now queries.now)) result
        (handed solution.old solution.new solution_needed.new ∷ handed certificate.old certificate.new certificate_needed.new
        ∷ handed out.old out.new needed.new ∷ []) }
{
    let Some(job) = solve_of(kind, limit) else {
        misuse(solution_needed);
        misuse(certificate_needed);
        return misuse(needed);
    };
    let mut claim = MemorySink::new(alloc);
    let mut text = MemorySink::new(alloc);
    let mut report = MemorySink::new(alloc);
    let mut first = MemorySource::new(instance);
    let mut second = MemorySource::new(queries);
    let ended = run_solve(
        alloc,
        job,
        &mut first,
        &mut second,
        &mut claim,
        &mut text,
        &mut report,
    );
    end(ended, claim.bytes(), solution, solution_needed);
    end(ended, text.bytes(), certificate, certificate_needed);
    end(ended, report.bytes(), out, needed)
}

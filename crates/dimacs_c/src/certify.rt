//! Certifying texts in memory.

ghost use Rattle.std.specs.Prelude.{◌∷◌, []};
ghost use Rattle.dimacs_c.specs.{Calls.{AnswersTextsKind, handed}, Kinds.{judge_kind}};
ghost use Rattle.dimacs_runs.specs.{Certified.{Certified}, Outputs.{WritesAlike}};

use crate::answer::{end, misuse};
use crate::kinds::judge_of;
use dimacs_lines::{MemorySink, MemorySource};
use dimacs_runs::run_certify;
use std::alloc::Global;

/// Certifies a claim, as `dimacs certify-max` and so on. `certificate` gets the certificate, or a better or a feasible
/// solution. Kind 2 (no feasible flow) reads no claim.
#[unsafe(no_mangle)]
pub extern "C" fn dimacs_certify(
    alloc: Global,
    kind: u32,
    instance: &[u8],
    claim: &[u8],
    out: &mut [u8],
    needed: &mut usize,
    certificate: &mut [u8],
    certificate_needed: &mut usize,
) -> u32
    ensures { AnswersTextsKind (judge_kind kind) (λ k. WritesAlike (Certified k instance.now claim.now)) result
        (handed certificate.old certificate.new certificate_needed.new ∷ handed out.old out.new needed.new ∷ []) }
{
    let Some(kind) = judge_of(kind) else {
        misuse(certificate_needed);
        return misuse(needed);
    };
    let mut text = MemorySink::new(alloc);
    let mut report = MemorySink::new(alloc);
    let mut first = MemorySource::new(instance);
    let mut second = MemorySource::new(claim);
    let ended = run_certify(alloc, kind, &mut first, &mut second, &mut text, &mut report);
    end(ended, text.bytes(), certificate, certificate_needed);
    end(ended, report.bytes(), out, needed)
}

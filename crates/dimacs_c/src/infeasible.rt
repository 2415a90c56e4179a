//! Showing over arrays that no flow is feasible.

ghost use Rattle.std.specs.Prelude.{◌≡◌, None, Some};
ghost use Rattle.dimacs_arrays.specs.MinArrays.{CertifiesInfeasibleArrays, JudgesInfeasibleArrays};
ghost use Rattle.dimacs_c.specs.Arrays.{AnswersItems, AnswersLine, infeasible_printed, buffers, printed};
ghost use Rattle.dimacs_c.specs.{Calls.{handed}, inside.Printed.{parts}};

use crate::answer::hand_printed;
use crate::lines::{Line, WHOLE_TEXT, hand_judged};
use crate::printed::Printed;
use dimacs_arrays::{
    ArrayError, InfeasibleCertified, MinArrays, certify_infeasible_arrays, judge_infeasible_arrays,
};
use dimacs_judging::Verdict;
use dimacs_lines::MemorySink;
use dimacs_records::Reason;
use std::alloc::Global;

/// Judges that no flow is feasible, as `judge_infeasible_arrays`.
#[unsafe(no_mangle)]
pub extern "C" fn dimacs_judge_infeasible_arrays(
    alloc: Global,
    instance: &MinArrays<'_>,
    inside: &[u8],
    out: &mut [u8],
    needed: &mut usize,
) -> u32
    ensures { AnswersLine (JudgesInfeasibleArrays instance.now inside.now) result (handed out.old out.new needed.new) }
{
    let answer = judge_infeasible_arrays(alloc, instance, inside);
    hand_judged(alloc, answer, out, needed)
}

/// Certifies that no flow is feasible, as `certify_infeasible_arrays`. `inside` gets the bytes of a violated set, or
/// `flows` a feasible flow.
#[unsafe(no_mangle)]
pub extern "C" fn dimacs_certify_infeasible_arrays(
    alloc: Global,
    instance: &MinArrays<'_>,
    out: &mut [u8],
    needed: &mut usize,
    inside: &mut [u8],
    inside_needed: &mut usize,
    flows: &mut [i64],
    flows_needed: &mut usize,
) -> u32
    ensures { AnswersItems infeasible_printed (CertifiesInfeasibleArrays instance.now) result
        (buffers (handed out.old out.new needed.new) (Some (handed inside.old inside.new inside_needed.new))
        None (Some (handed flows.old flows.new flows_needed.new))) }
{
    let answer = certify_infeasible_arrays(alloc, instance);
    let found = certified(&answer);
    let mut line = MemorySink::new(alloc);
    let status = found.line.put(&mut line);
    hand_printed(status, found.marks, inside, inside_needed);
    hand_printed(status, found.amounts, flows, flows_needed);
    hand_printed(status, line.bytes(), out, needed)
}

fn certified(answer: &Result<InfeasibleCertified, ArrayError>) -> Printed<'_, u8>
    ensures { parts result ≡ printed infeasible_printed answer.now }
{
    match answer {
        Ok(InfeasibleCertified::Infeasible(inside)) => Printed {
            marks: inside,
            ..Printed::only(Line::Yes(Verdict::Infeasible))
        },
        Ok(InfeasibleCertified::Feasible(flow)) => Printed {
            amounts: flow.amounts(),
            ..Printed::only(Line::Refused("instance", WHOLE_TEXT, Reason::Feasible))
        },
        Err(error) => Printed::only(Line::Error(*error)),
    }
}

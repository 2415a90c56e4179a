//! Maximum flows over arrays.

ghost use Rattle.std.specs.Prelude.{◌≡◌, None, Some};
ghost use Rattle.dimacs_arrays.specs.MaxArrays.{CertifiesMaxArrays, JudgesMaxArrays, SolvesMaxArrays};
ghost use Rattle.dimacs_c.specs.Arrays.{AnswersItems, AnswersLine, max_found, max_printed, buffers, printed};
ghost use Rattle.dimacs_c.specs.{Calls.{handed}, inside.Printed.{parts}};

use crate::answer::hand_printed;
use crate::lines::{Line, WHOLE_FLOW, hand_judged};
use crate::printed::Printed;
use dimacs_arrays::{
    ArrayError, MaxArrays, MaxCertified, MaxSolved, certify_max_arrays, judge_max_arrays,
    solve_max_arrays,
};
use dimacs_judging::Verdict;
use dimacs_lines::MemorySink;
use dimacs_records::Reason;
use std::alloc::Global;

/// Judges that a flow is maximum, as `judge_max_arrays`.
#[unsafe(no_mangle)]
pub extern "C" fn dimacs_judge_max_arrays(
    alloc: Global,
    instance: &MaxArrays<'_>,
    flows: &[i64],
    inside: &[u8],
    out: &mut [u8],
    needed: &mut usize,
) -> u32
    ensures { AnswersLine (JudgesMaxArrays instance.now flows.now inside.now) result (handed out.old out.new needed.new) }
{
    let answer = judge_max_arrays(alloc, instance, flows, inside);
    hand_judged(alloc, answer, out, needed)
}

/// Certifies that a flow is maximum, as `certify_max_arrays`. `inside` gets the bytes of a minimum cut, or `better` a
/// better flow.
#[unsafe(no_mangle)]
pub extern "C" fn dimacs_certify_max_arrays(
    alloc: Global,
    instance: &MaxArrays<'_>,
    flows: &[i64],
    out: &mut [u8],
    needed: &mut usize,
    inside: &mut [u8],
    inside_needed: &mut usize,
    better: &mut [i64],
    better_needed: &mut usize,
) -> u32
    ensures { AnswersItems max_printed (CertifiesMaxArrays instance.now flows.now) result
        (buffers (handed out.old out.new needed.new) (Some (handed inside.old inside.new inside_needed.new))
        None (Some (handed better.old better.new better_needed.new))) }
{
    let answer = certify_max_arrays(alloc, instance, flows);
    let found = certified(&answer);
    let mut line = MemorySink::new(alloc);
    let status = found.line.put(&mut line);
    hand_printed(status, found.marks, inside, inside_needed);
    hand_printed(status, found.amounts, better, better_needed);
    hand_printed(status, line.bytes(), out, needed)
}

fn certified(answer: &Result<MaxCertified, ArrayError>) -> Printed<'_, u8>
    ensures { parts result ≡ printed max_printed answer.now }
{
    match answer {
        Ok(MaxCertified::Optimal { value, inside }) => Printed {
            marks: inside,
            ..Printed::only(Line::Yes(Verdict::Max(*value)))
        },
        Ok(MaxCertified::Better(flow)) => Printed {
            amounts: flow.amounts(),
            ..Printed::only(Line::No(WHOLE_FLOW, Reason::NotMaximum))
        },
        Err(error) => Printed::only(Line::Error(*error)),
    }
}

/// Finds a maximum flow, as `solve_max_arrays`. `flows` gets it, and `inside` the bytes of a minimum cut.
#[unsafe(no_mangle)]
pub extern "C" fn dimacs_solve_max_arrays(
    alloc: Global,
    instance: &MaxArrays<'_>,
    limit: u64,
    out: &mut [u8],
    needed: &mut usize,
    flows: &mut [i64],
    flows_needed: &mut usize,
    inside: &mut [u8],
    inside_needed: &mut usize,
) -> u32
    ensures { AnswersItems max_found (SolvesMaxArrays instance.now limit) result
        (buffers (handed out.old out.new needed.new) (Some (handed inside.old inside.new inside_needed.new))
        None (Some (handed flows.old flows.new flows_needed.new))) }
{
    let answer = solve_max_arrays(alloc, instance, limit);
    let found = solved(&answer);
    let mut line = MemorySink::new(alloc);
    let status = found.line.put(&mut line);
    hand_printed(status, found.marks, inside, inside_needed);
    hand_printed(status, found.amounts, flows, flows_needed);
    hand_printed(status, line.bytes(), out, needed)
}

fn solved(answer: &Result<MaxSolved, ArrayError>) -> Printed<'_, u8>
    ensures { parts result ≡ printed max_found answer.now }
{
    match answer {
        Ok(
            MaxSolved::Optimal {
                value,
                flow,
                inside,
            },
        ) => Printed {
            marks: inside,
            amounts: flow.amounts(),
            ..Printed::only(Line::Yes(Verdict::Max(*value)))
        },
        Ok(MaxSolved::GaveUp) => Printed::only(Line::GaveUp),
        Err(error) => Printed::only(Line::Error(*error)),
    }
}

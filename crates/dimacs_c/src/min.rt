//! Flows of least cost over arrays.

ghost use Rattle.std.specs.Prelude.{◌≡◌, None, Some};
ghost use Rattle.dimacs_arrays.specs.MinArrays.{CertifiesMinArrays, JudgesMinArrays, SolvesMinArrays};
ghost use Rattle.dimacs_c.specs.Arrays.{AnswersItems, AnswersLine, min_found, min_printed, buffers, printed};
ghost use Rattle.dimacs_c.specs.{Calls.{handed}, inside.Printed.{parts}};

use crate::answer::hand_printed;
use crate::lines::{Line, WHOLE_FLOW, hand_judged};
use crate::printed::Printed;
use dimacs_arrays::{
    ArrayError, MinArrays, MinCertified, MinSolved, certify_min_arrays, judge_min_arrays,
    solve_min_arrays,
};
use dimacs_judging::Verdict;
use dimacs_lines::MemorySink;
use dimacs_records::Reason;
use std::alloc::Global;

/// Judges that a flow costs least, as `judge_min_arrays`.
#[unsafe(no_mangle)]
pub extern "C" fn dimacs_judge_min_arrays(
    alloc: Global,
    instance: &MinArrays<'_>,
    flows: &[i64],
    potentials: &[i64],
    out: &mut [u8],
    needed: &mut usize,
) -> u32
    ensures { AnswersLine (JudgesMinArrays instance.now flows.now potentials.now) result (handed out.old out.new needed.new) }
{
    let answer = judge_min_arrays(alloc, instance, flows, potentials);
    hand_judged(alloc, answer, out, needed)
}

/// Certifies that a flow costs least, as `certify_min_arrays`. `potentials` gets potentials that show it, or `better` a
/// better flow. The status is 5 if the potentials don't fit into an array.
#[unsafe(no_mangle)]
pub extern "C" fn dimacs_certify_min_arrays(
    alloc: Global,
    instance: &MinArrays<'_>,
    flows: &[i64],
    out: &mut [u8],
    needed: &mut usize,
    potentials: &mut [i64],
    potentials_needed: &mut usize,
    better: &mut [i64],
    better_needed: &mut usize,
) -> u32
    ensures { AnswersItems min_printed (CertifiesMinArrays instance.now flows.now) result
        (buffers (handed out.old out.new needed.new) None (Some (handed potentials.old potentials.new potentials_needed.new))
        (Some (handed better.old better.new better_needed.new))) }
{
    let answer = certify_min_arrays(alloc, instance, flows);
    let found = certified(&answer);
    let mut line = MemorySink::new(alloc);
    let status = found.line.put(&mut line);
    hand_printed(status, found.numbers, potentials, potentials_needed);
    hand_printed(status, found.amounts, better, better_needed);
    hand_printed(status, line.bytes(), out, needed)
}

fn certified(answer: &Result<MinCertified, ArrayError>) -> Printed<'_, u8>
    ensures { parts result ≡ printed min_printed answer.now }
{
    match answer {
        Ok(MinCertified::Optimal { cost, potentials }) => Printed {
            numbers: potentials,
            ..Printed::only(Line::Yes(Verdict::Min(*cost)))
        },
        Ok(MinCertified::Wide { .. }) => Printed::only(Line::GaveUp),
        Ok(MinCertified::Better(flow)) => Printed {
            amounts: flow.amounts(),
            ..Printed::only(Line::No(WHOLE_FLOW, Reason::NotLeast))
        },
        Err(error) => Printed::only(Line::Error(*error)),
    }
}

/// Finds a flow of least cost, as `solve_min_arrays`. `flows` gets it and `potentials` potentials that show it, or
/// `inside` the bytes of a violated set.
#[unsafe(no_mangle)]
pub extern "C" fn dimacs_solve_min_arrays(
    alloc: Global,
    instance: &MinArrays<'_>,
    limit: u64,
    out: &mut [u8],
    needed: &mut usize,
    flows: &mut [i64],
    flows_needed: &mut usize,
    potentials: &mut [i64],
    potentials_needed: &mut usize,
    inside: &mut [u8],
    inside_needed: &mut usize,
) -> u32
    ensures { AnswersItems min_found (SolvesMinArrays instance.now limit) result
        (buffers (handed out.old out.new needed.new) (Some (handed inside.old inside.new inside_needed.new))
        (Some (handed potentials.old potentials.new potentials_needed.new)) (Some (handed flows.old flows.new flows_needed.new))) }
{
    let answer = solve_min_arrays(alloc, instance, limit);
    let found = solved(&answer);
    let mut line = MemorySink::new(alloc);
    let status = found.line.put(&mut line);
    hand_printed(status, found.marks, inside, inside_needed);
    hand_printed(status, found.numbers, potentials, potentials_needed);
    hand_printed(status, found.amounts, flows, flows_needed);
    hand_printed(status, line.bytes(), out, needed)
}

fn solved(answer: &Result<MinSolved, ArrayError>) -> Printed<'_, u8>
    ensures { parts result ≡ printed min_found answer.now }
{
    match answer {
        Ok(
            MinSolved::Optimal {
                cost,
                flow,
                potentials,
            },
        ) => Printed {
            numbers: potentials,
            amounts: flow.amounts(),
            ..Printed::only(Line::Yes(Verdict::Min(*cost)))
        },
        Ok(MinSolved::Infeasible { inside }) => Printed {
            marks: inside,
            ..Printed::only(Line::Yes(Verdict::Infeasible))
        },
        Ok(MinSolved::Wide { .. } | MinSolved::GaveUp) => Printed::only(Line::GaveUp),
        Err(error) => Printed::only(Line::Error(*error)),
    }
}

//! Distances over arrays.

ghost use Rattle.std.specs.Prelude.{◌≡◌, None, Some};
ghost use Rattle.dimacs_arrays.specs.GraphArrays.{CertifiesPathsArrays, JudgesPathsArrays, SolvesPathsArrays};
ghost use Rattle.dimacs_c.specs.Arrays.{AnswersItems, AnswersLine, paths_found, paths_printed, buffers, printed};
ghost use Rattle.dimacs_c.specs.{Calls.{handed}, inside.Printed.{parts}};

use crate::answer::hand_printed;
use crate::lines::{Line, hand_judged};
use crate::printed::Printed;
use dimacs_arrays::{
    ArrayError, GraphArrays, PathsSolved, certify_paths_arrays, judge_paths_arrays,
    solve_paths_arrays,
};
use dimacs_judging::Verdict;
use dimacs_lines::MemorySink;
use std::alloc::Global;

/// Judges distances with predecessors, as `judge_paths_arrays`.
#[unsafe(no_mangle)]
pub extern "C" fn dimacs_judge_paths_arrays(
    alloc: Global,
    graph: &GraphArrays<'_>,
    source: u32,
    distances: &[i64],
    predecessors: &[u32],
    out: &mut [u8],
    needed: &mut usize,
) -> u32
    ensures { AnswersLine (JudgesPathsArrays graph.now source distances.now predecessors.now) result (handed out.old out.new needed.new) }
{
    let answer = judge_paths_arrays(alloc, graph, source, distances, predecessors);
    hand_judged(alloc, answer, out, needed)
}

/// Certifies distances, as `certify_paths_arrays`. `predecessors` gets those that show them.
#[unsafe(no_mangle)]
pub extern "C" fn dimacs_certify_paths_arrays(
    alloc: Global,
    graph: &GraphArrays<'_>,
    source: u32,
    distances: &[i64],
    out: &mut [u8],
    needed: &mut usize,
    predecessors: &mut [u32],
    predecessors_needed: &mut usize,
) -> u32
    ensures { AnswersItems paths_printed (CertifiesPathsArrays graph.now source distances.now) result
        (buffers (handed out.old out.new needed.new) (Some (handed predecessors.old predecessors.new predecessors_needed.new)) None None) }
{
    let answer = certify_paths_arrays(alloc, graph, source, distances);
    let found = certified(&answer);
    let mut line = MemorySink::new(alloc);
    let status = found.line.put(&mut line);
    hand_printed(status, found.marks, predecessors, predecessors_needed);
    hand_printed(status, line.bytes(), out, needed)
}

fn certified(answer: &Result<Vec<u32>, ArrayError>) -> Printed<'_, u32>
    ensures { parts result ≡ printed paths_printed answer.now }
{
    match answer {
        Ok(predecessors) => Printed {
            marks: predecessors,
            ..Printed::only(Line::Yes(Verdict::Sources(1)))
        },
        Err(error) => Printed::only(Line::Error(*error)),
    }
}

/// Finds the distances from a source, as `solve_paths_arrays`. `distances` and `predecessors` get them.
#[unsafe(no_mangle)]
pub extern "C" fn dimacs_solve_paths_arrays(
    alloc: Global,
    graph: &GraphArrays<'_>,
    source: u32,
    out: &mut [u8],
    needed: &mut usize,
    distances: &mut [i64],
    distances_needed: &mut usize,
    predecessors: &mut [u32],
    predecessors_needed: &mut usize,
) -> u32
    ensures { AnswersItems paths_found (SolvesPathsArrays graph.now source) result
        (buffers (handed out.old out.new needed.new) (Some (handed predecessors.old predecessors.new predecessors_needed.new))
        (Some (handed distances.old distances.new distances_needed.new)) None) }
{
    let answer = solve_paths_arrays(alloc, graph, source);
    let found = solved(&answer);
    let mut line = MemorySink::new(alloc);
    let status = found.line.put(&mut line);
    hand_printed(status, found.marks, predecessors, predecessors_needed);
    hand_printed(status, found.numbers, distances, distances_needed);
    hand_printed(status, line.bytes(), out, needed)
}

fn solved(answer: &Result<PathsSolved, ArrayError>) -> Printed<'_, u32>
    ensures { parts result ≡ printed paths_found answer.now }
{
    match answer {
        Ok(
            PathsSolved::Distances {
                distances,
                predecessors,
            },
        ) => Printed {
            marks: predecessors,
            numbers: distances,
            ..Printed::only(Line::Yes(Verdict::Sources(1)))
        },
        Ok(PathsSolved::Wide(_)) => Printed::only(Line::GaveUp),
        Err(error) => Printed::only(Line::Error(*error)),
    }
}

//! Reading solutions into arrays, and writing them.

ghost use Rattle.std.specs.Prelude.{◌≡◌, None, Some};
ghost use Rattle.dimacs_arrays.specs.SolutionArrays.{MakesSolutionArrays, ReadsSolutionArrays};
ghost use Rattle.dimacs_c.specs.{ArrayTexts.{AnswersClaim, flow_read, solution_text}, Calls.{handed}};
ghost use Rattle.dimacs_c.specs.{Arrays.{AnswersItems, buffers, printed}, inside.Printed.{parts, value_if}};

use crate::answer::hand_printed;
use crate::lines::Line;
use crate::printed::Printed;
use crate::written::hand_text;
use dimacs_arrays::{ArrayError, ClaimedFlow, EndArrays, read_solution_arrays, solution_of_arrays};
use dimacs_lines::{DeviceFault, MemorySink};
use std::alloc::Global;

/// Reads a solution over these arcs, as `read_solution_arrays`. `flows` gets an amount for each arc.
#[unsafe(no_mangle)]
pub extern "C" fn dimacs_read_solution(
    alloc: Global,
    nodes: u32,
    tails: &[u32],
    heads: &[u32],
    text: &[u8],
    out: &mut [u8],
    needed: &mut usize,
    value: &mut i64,
    flows: &mut [i64],
    flows_needed: &mut usize,
) -> u32
    ensures { AnswersClaim (ReadsSolutionArrays (record { nodes = nodes; tails = tails.entry; heads = heads.entry }) text.now) result value.new
        (buffers (handed out.old out.new needed.new) None None (Some (handed flows.old flows.new flows_needed.new))) }
{
    let arcs = EndArrays {
        nodes,
        tails,
        heads,
    };
    let answer = read_solution_arrays(alloc, &arcs, text);
    let found = claimed(&answer);
    let mut line = MemorySink::new(alloc);
    let status = found.line.put(&mut line);
    *value = value_of(status, &answer);
    hand_printed(status, found.amounts, flows, flows_needed);
    hand_printed(status, line.bytes(), out, needed)
}

fn claimed(answer: &Result<ClaimedFlow, ArrayError>) -> Printed<'_, u8>
    ensures { parts result ≡ printed flow_read answer.now }
{
    match answer {
        Ok(claimed) => Printed {
            amounts: claimed.flow.amounts(),
            ..Printed::only(Line::Read)
        },
        Err(error) => Printed::only(Line::Error(*error)),
    }
}

/// The claimed value; 0 after an error, or if the line wasn't written.
fn value_of(status: Result<u32, DeviceFault>, answer: &Result<ClaimedFlow, ArrayError>) -> i64
    ensures { result ≡ value_if status answer.now }
{
    match (status, answer) {
        (Ok(_), Ok(claimed)) => claimed.value,
        _ => 0,
    }
}

/// Writes a solution, as `solution_of_arrays`.
#[unsafe(no_mangle)]
pub extern "C" fn dimacs_write_solution(
    alloc: Global,
    value: i64,
    nodes: u32,
    tails: &[u32],
    heads: &[u32],
    flows: &[i64],
    out: &mut [u8],
    needed: &mut usize,
) -> u32
    ensures { AnswersItems solution_text (MakesSolutionArrays value (record { nodes = nodes; tails = tails.entry; heads = heads.entry }) flows.now) result
        (buffers (handed out.old out.new needed.new) None None None) }
{
    let arcs = EndArrays {
        nodes,
        tails,
        heads,
    };
    let answer = solution_of_arrays(alloc, value, &arcs, flows);
    hand_text(alloc, &answer, out, needed)
}

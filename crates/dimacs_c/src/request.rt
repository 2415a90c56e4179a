//! What the words of a command ask for.

ghost use Rattle.std.specs.{Prelude.{IfOk}, String.{string_bytes}};
ghost use Rattle.dimacs_c.specs.{Calls.{handed}, Requests.{AnswersRequest, TellsWords}};

use crate::answer::{NO_MEMORY, hand_out};
use crate::words::words_of;
use dimacs_usage::{Asked, ask, complaint_of_bytes};
use std::alloc::{AllocError, Global};

/// A text is handed out for the standard output.
const DONE: u32 = 0;

/// The words ask for nothing; what is told on the standard error is handed out.
const NOTHING: u32 = 2;

/// The words ask for a run, whose plan is handed out.
const RUN: u32 = 6;

/// Hands out what the words of a command ask for: a complaint, a text to print, or what a run does with its files.
#[unsafe(no_mangle)]
pub extern "C" fn dimacs_request(
    alloc: Global,
    words: &[u8],
    same: &[u32],
    out: &mut [u8],
    needed: &mut usize,
) -> u32
    ensures { AnswersRequest words.now same.now result (handed out.old out.new needed.new) }
{
    match answer(alloc, words, same) {
        Ok((status, text)) => {
            hand_out(text.as_bytes(), out, needed);
            status
        }
        Err(_) => {
            *needed = 0;
            NO_MEMORY
        }
    }
}

/// The status and the text that are handed out.
fn answer(alloc: Global, words: &[u8], same: &[u32]) -> Result<(u32, String), AllocError>
    ensures { IfOk result (λ answer. TellsWords words.now same.now answer.0 (string_bytes answer.1)) }
{
    let Some(arguments) = words_of(alloc, words)? else {
        return Ok((NOTHING, complaint_of_bytes(alloc)?));
    };
    match ask(alloc, &arguments, same)? {
        Asked::Nothing(text) => Ok((NOTHING, text)),
        Asked::Text(text) => Ok((DONE, text)),
        Asked::Run(run) => Ok((RUN, run.plan(alloc)?)),
    }
}

//! Running a command over texts in memory.

ghost use Rattle.std.specs.{Prelude.{◌≡◌, ◌∷◌, [], ◌↔◌, IfOk, IsTrue, map}, String.{string_bytes}};
ghost use Rattle.dimacs_c.specs.{Calls.{handed}, inside.Command.{Ended}};
ghost use Rattle.dimacs_c.specs.Command.{AnswersCommand, EndsBytes, EndsCommand, EndsJob, IsUnread, readable};
ghost use Rattle.dimacs_explained.specs.Explained.{IsExplained};
ghost use Rattle.dimacs_runs.specs.InMemory.{RanOver};

use crate::answer::{MISUSED, NO_MEMORY, hand_out};
use crate::words::words_of;
use dimacs_explained::explain_in_memory;
use dimacs_jobs::{Job, Request, exit_status, request, words_ask_for_one_thing};
use dimacs_quote::StandFor;
use dimacs_runs::{MemoryTexts, Ran, refuses_text, run_in_memory};
use std::alloc::Global;

/// The status if the run comes to a text that can't be read.
const UNREAD: u32 = 3;

/// Runs a command over texts, as `dimacs`, but in spite of a slip: those of the files that its words name, in order. The
/// one at the place `unread`, from 1, can't be read. `form` is 0 if they are of files, 1 if they are in none, and 2 if they
/// stand for arrays.
#[unsafe(no_mangle)]
pub extern "C" fn dimacs_command(
    alloc: Global,
    form: u32,
    words: &[u8],
    unread: u32,
    first: &[u8],
    second: &[u8],
    third: &[u8],
    out: &mut [u8],
    needed: &mut usize,
    made: &mut [u8],
    made_needed: &mut usize,
    more: &mut [u8],
    more_needed: &mut usize,
) -> u32
    ensures { AnswersCommand words.now unread first.now second.now third.now result
        (handed made.old made.new made_needed.new ∷ handed more.old more.new more_needed.new ∷ handed out.old out.new needed.new ∷ []) }
{
    let texts = MemoryTexts {
        first: readable(unread, 1, first),
        second: readable(unread, 2, second),
        third: readable(unread, 3, third),
    };
    match answer(alloc, words, form, unread, texts) {
        Ok(ran) => {
            hand_out(ran.made.bytes(), made, made_needed);
            hand_out(ran.more.bytes(), more, more_needed);
            hand_out(ran.printed.bytes(), out, needed);
            u32::from(exit_status(&Ok(ran.status)))
        }
        Err(status) => {
            hand_out(&[], made, made_needed);
            hand_out(&[], more, more_needed);
            hand_out(&[], out, needed);
            status
        }
    }
}

/// A text; a line end, which no kind of text is, in place of the one that can't be read.
fn readable(unread: u32, place: u32, text: &[u8]) -> &[u8]
    ensures { result.now ≡ readable unread place text.now }
{
    if unread == place {
        return b"\n";
    }
    text
}

/// What a command writes, or the status of one that hands out nothing.
fn answer(
    alloc: Global,
    words: &[u8],
    form: u32,
    unread: u32,
    texts: MemoryTexts<'_>,
) -> Result<Ran, u32>
    ensures { Ended (EndsBytes words.now unread texts.entry.first.now texts.entry.second.now texts.entry.third.now) result }
{
    match words_of(alloc, words) {
        Ok(Some(arguments)) => run(alloc, &arguments, form, unread, texts),
        Ok(None) => Err(MISUSED),
        Err(_) => Err(NO_MEMORY),
    }
}

/// The same for its arguments.
fn run(
    alloc: Global,
    arguments: &[String],
    form: u32,
    unread: u32,
    texts: MemoryTexts<'_>,
) -> Result<Ran, u32>
    ensures { Ended (EndsCommand (map string_bytes arguments.now) unread texts.entry.first.now texts.entry.second.now texts.entry.third.now) result }
{
    words_ask_for_one_thing();
    match request(arguments) {
        Some(Request::Run(job)) => run_job(alloc, job, unread, texts),
        Some(Request::Explain(job)) => explain_job(alloc, job, form, unread, texts),
        Some(Request::Help) => Err(MISUSED),
        Some(Request::HelpOn(_)) => Err(MISUSED),
        Some(Request::Version) => Err(MISUSED),
        None => Err(MISUSED),
    }
}

fn run_job(alloc: Global, job: Job<'_>, unread: u32, texts: MemoryTexts<'_>) -> Result<Ran, u32>
    ensures ends { Ended (EndsJob job.entry (λ status report printed. printed ≡ report) unread texts.entry.first.now texts.entry.second.now texts.entry.third.now) result }
    ensures ran { IfOk result (RanOver job.entry.verb texts.entry.first.now texts.entry.second.now texts.entry.third.now) }
{
    match run_in_memory(alloc, job.verb, texts) {
        Ok(ran) if is_unread(job, unread, ran.printed.bytes()) => Err(UNREAD),
        Ok(ran) => Ok(ran),
        Err(_) => Err(NO_MEMORY),
    }
}

fn explain_job(
    alloc: Global,
    job: Job<'_>,
    form: u32,
    unread: u32,
    texts: MemoryTexts<'_>,
) -> Result<Ran, u32>
    ensures { Ended (EndsJob job.entry (IsExplained job.entry) unread texts.entry.first.now texts.entry.second.now texts.entry.third.now) result }
{
    let mut ran = run_job(alloc, job, unread, texts)?;
    match explain_in_memory(alloc, job, texts, stand_for(form), &mut ran) {
        Ok(()) => Ok(ran),
        Err(_) => Err(NO_MEMORY),
    }
}

/// Whether a report refuses the text that can't be read.
fn is_unread(job: Job<'_>, unread: u32, report: &[u8]) -> bool
    ensures { IsTrue result ↔ IsUnread job.entry unread report.now }
{
    match unread.checked_sub(1) {
        Some(place) => refuses_text(job.verb, place as usize, report),
        None => false,
    }
}

fn stand_for(form: u32) -> StandFor {
    match form {
        0 => StandFor::Files,
        1 => StandFor::Texts,
        _ => StandFor::Arrays,
    }
}

//! Where the files of a run stand among its words, and what it does with them.

ghost use Rattle.std.specs.{Prelude.{◌≡◌, IfOk}, String.{string_bytes}};
ghost use Rattle.dimacs_usage.specs.{Plans.{first_file, marks, written_mark}, Slips.{kept_count}};

use dimacs_jobs::{Job, Verb, Writes};
use std::alloc::{AllocError, Global};

/// A mark for each of so many words: `-` if it names no file, `r` if the run reads the file, `c` if it creates the file
/// before it reads, `w` if it writes the file once it has a text for it.
pub fn marks(
    alloc: Global,
    job: Job<'_>,
    explains: bool,
    count: usize,
) -> Result<String, AllocError>
    ensures { IfOk result (λ text. string_bytes text ≡ marks job.entry explains count) }
{
    let first = first_file(job, explains);
    let opened = job.names_read().len();
    let created = job.names_written().len();
    let others = count
        .saturating_sub(first)
        .saturating_sub(opened)
        .saturating_sub(created);
    let mut text = "-".repeat(alloc, first)?;
    text.push_str("r".repeat(alloc, opened)?.as_str())?;
    text.push_str(
        written_mark(job.verb.texts().writes)
            .repeat(alloc, created)?
            .as_str(),
    )?;
    text.push_str("-".repeat(alloc, others)?.as_str())?;
    Ok(text)
}

/// How many words come before the first file.
pub fn first_file(job: Job<'_>, explains: bool) -> usize
    ensures { result ≡ first_file job.entry explains }
{
    let explain = if explains { 1 } else { 0 };
    match job.verb {
        Verb::Convert(_) | Verb::Show(_) => explain + 2,
        _ => explain + 1,
    }
}

/// How many of so many files that it reads a run must not replace. To spread deals a solution out, in place too.
pub fn kept_count(verb: Verb, read: usize) -> usize
    ensures { result ≡ kept_count verb read }
{
    match verb {
        Verb::Spread(_) => 1,
        _ => read,
    }
}

/// The mark of a file that a run writes.
fn written_mark(writes: Writes) -> &'static str
    ensures { result.now ≡ written_mark writes }
{
    match writes {
        Writes::Creates => "c",
        _ => "w",
    }
}

//! The explanation of what a run over texts in memory answered.

ghost use Rattle.std.specs.Prelude.{◌≡◌, IfOk, IfSome};
ghost use Rattle.dimacs_runs.specs.{InMemory.{Makes, RanOver}, Reports.{report_lines}};
ghost use Rattle.dimacs_explained.specs.Explained.{IsExplained};

use crate::named_texts::NamedTexts;
use crate::run::write_explanation;
use dimacs_jobs::{Job, Status};
use dimacs_lines::{Memory, MemorySink};
use dimacs_quote::StandFor;
use dimacs_runs::{MemoryTexts, Outcome, Ran};
use std::alloc::Global;

/// Writes lines that explain what the run of the job over these texts answered, if it has any.
pub fn explain_in_memory(
    alloc: Global,
    job: Job<'_>,
    texts: MemoryTexts<'_>,
    stand_for: StandFor,
    ran: &mut Ran,
) -> Result<(), Memory>
    requires { RanOver job.verb texts.first.now texts.second.now texts.third.now ran.old }
    ensures status { ran.new.status ≡ ran.old.status }
    ensures made { ran.new.made ≡ ran.old.made }
    ensures more { ran.new.more ≡ ran.old.more }
    ensures explained { IfOk result (λ done. IsExplained job.entry ran.old.status ran.old.printed.bytes ran.new.printed.bytes) }
{
    let outcome = ran.take_outcome();
    write_named(
        alloc,
        job,
        stand_for,
        texts.first,
        texts.second,
        texts.third,
        ran.made.bytes(),
        ran.more.bytes(),
        ran.status,
        &outcome,
        &mut ran.printed,
    )
}

/// Writes the explanation of what a run answered, for which texts are read again by these names.
fn write_named<'a>(
    alloc: Global,
    job: Job<'a>,
    stand_for: StandFor,
    first: &'a [u8],
    second: &'a [u8],
    third: &'a [u8],
    made: &'a [u8],
    more: &'a [u8],
    status: Status,
    kept: &Option<Outcome>,
    printed: &mut MemorySink,
) -> Result<(), Memory>
    requires { IfSome kept.now (λ outcome. Makes job.verb first.now second.now third.now status made.now more.now (report_lines outcome.report)) }
    ensures explained { IfOk result (λ done. IsExplained job.entry status printed.old.bytes printed.new.bytes) }
{
    let again = NamedTexts::new(job, first, second, third, made, more);
    match write_explanation(alloc, job, stand_for, Ok(status), kept, &again, printed) {
        Ok(_) => Ok(()),
        Err(_) => Err(Memory),
    }
}

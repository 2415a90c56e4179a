//! The file for a run's text, which is created only if there is one.

ghost use Rattle.std.specs.Prelude.{◌∷◌, []};
ghost use Rattle.dimacs_runs.specs.{Commands.{seen_by}, inside.Making.{WritesOutcome, WritesReport, names_of}};

use crate::discard::Discard;
use crate::failure::{CommandError, name_failure};
use crate::files::Files;
use crate::open_files::{close_written, create};
use crate::outcome::{Outcome, write_outcome};
use dimacs_jobs::Status;
use dimacs_lines::Sink;

/// Writes the text of an outcome to the file with this name, then the report to the output. Without a name it drops the
/// text.
pub(crate) fn write_outcome_file<'a, F: Files, K: Sink>(
    outcome: Outcome,
    name: Option<&'a str>,
    files: &mut F,
    output: &mut K,
    kept: &mut Option<Outcome>,
) -> Result<Status, CommandError<'a>>
    ensures writes { WritesOutcome outcome (names_of (λ it. it.now) name.entry) F.empty result
        (seen_by (F.seen files.old) (K.seen output.old))
        (seen_by (F.seen files.new) (K.seen output.new)) }
{
    match name {
        Some(name) => write_into(outcome, name, files, output, kept),
        None => write_report(outcome, output, kept),
    }
}

/// Writes the text, if there is one, to this file, then the report.
fn write_into<'a, F: Files, K: Sink>(
    outcome: Outcome,
    name: &'a str,
    files: &mut F,
    output: &mut K,
    kept: &mut Option<Outcome>,
) -> Result<Status, CommandError<'a>>
    ensures writes { WritesOutcome outcome (name.now ∷ []) F.empty result
        (seen_by (F.seen files.old) (K.seen output.old))
        (seen_by (F.seen files.new) (K.seen output.new)) }
{
    if outcome.shown.is_nothing() {
        return write_report(outcome, output, kept);
    }
    let mut file = create(files, name)?;
    let ended = write_outcome(Ok(outcome), &mut Discard, &mut file.device, output, kept);
    let failure = close_written(files, file);
    name_failure(ended, failure)
}

/// Writes the report only.
fn write_report<'a, K: Sink>(
    outcome: Outcome,
    output: &mut K,
    kept: &mut Option<Outcome>,
) -> Result<Status, CommandError<'a>>
    ensures writes { WritesReport outcome result (K.seen output.old) (K.seen output.new) }
{
    let ended = write_outcome(Ok(outcome), &mut Discard, &mut Discard, output, kept);
    name_failure(ended, None)
}

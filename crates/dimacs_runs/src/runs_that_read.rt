//! The runs that only read files.

ghost use Rattle.std.specs.{Prelude.{◌≡◌, ◌∷◌, [], length, map}, String.{string_bytes}};
ghost use Rattle.dimacs_jobs.specs.declared.jobs.Verb.TheVariants.{Judge};
ghost use Rattle.dimacs_jobs.specs.declared.jobs.JudgeKind.TheVariants as judges;
ghost use Rattle.dimacs_runs.specs.{inside.Commands.{reads, reads_first}, Runs.{Prints}};
ghost use Rattle.dimacs_runs.specs.Commands.{RunsFiles, ReportsJudged, ReportsOne, seen_by};
ghost use Rattle.dimacs_jobs.specs.Jobs.{TakesFiles, texts_of};

use crate::discard::Discard;
use crate::failure::{CommandError, name_failure};
use crate::files::Files;
use crate::judge::judge_texts;
use crate::open_files::{close_read, open};
use crate::outcome::{Outcome, write_outcome};
use crate::text::{TextForm, run_text};
use dimacs_jobs::{JudgeKind, Status};
use dimacs_lines::{MemorySource, Sink};
use dimacs_records::TextKind;
use std::alloc::Global;

/// Prints the text in the file with this name, the only one.
pub(crate) fn print_file<'a, F: Files, K: Sink>(
    alloc: Global,
    form: TextForm,
    kind: TextKind,
    names: &'a [String],
    files: &mut F,
    output: &mut K,
    kept: &mut Option<Outcome>,
) -> Result<Status, CommandError<'a>>
    requires { length names.now ≡ 1 }
    ensures runs { RunsFiles (reads_first 1 (map string_bytes names.now)) (F.holds files.old) F.empty (ReportsOne (Prints form kind)) result
        (seen_by (F.seen files.old) (K.seen output.old))
        (seen_by (F.seen files.new) (K.seen output.new)) }
{
    let [name] = names else { unreachable!() };
    let mut text = open(files, name.as_str())?;
    let ended = run_text(alloc, form, kind, &mut text.device, output, kept);
    let failure = close_read(files, text);
    name_failure(ended, failure)
}

/// Judges a claim in the files with these names.
pub(crate) fn judge_files<'a, F: Files, K: Sink>(
    alloc: Global,
    kind: JudgeKind,
    names: &'a [String],
    files: &mut F,
    output: &mut K,
    kept: &mut Option<Outcome>,
) -> Result<Status, CommandError<'a>>
    requires { TakesFiles (Judge kind) (length names.now) }
    ensures runs { RunsFiles (reads_first (texts_of (Judge kind)).read (map string_bytes names.now)) (F.holds files.old) F.empty (ReportsJudged kind) result
        (seen_by (F.seen files.old) (K.seen output.old))
        (seen_by (F.seen files.new) (K.seen output.new)) }
{
    if kind == JudgeKind::Infeasible {
        let [instance, set] = names else {
            unreachable!()
        };
        return judge_set(alloc, instance.as_str(), set.as_str(), files, output, kept);
    }
    let [instance, claim, certificate] = names else {
        unreachable!()
    };
    judge_claim(
        alloc,
        kind,
        instance.as_str(),
        claim.as_str(),
        certificate.as_str(),
        files,
        output,
        kept,
    )
}

/// Judges a claim in the files of the instance, the claim and its certificate.
fn judge_claim<'a, F: Files, K: Sink>(
    alloc: Global,
    kind: JudgeKind,
    instance: &'a str,
    claim: &'a str,
    certificate: &'a str,
    files: &mut F,
    output: &mut K,
    kept: &mut Option<Outcome>,
) -> Result<Status, CommandError<'a>>
    ensures runs { RunsFiles (reads (instance.now ∷ claim.now ∷ certificate.now ∷ [])) (F.holds files.old) F.empty (ReportsJudged kind) result
        (seen_by (F.seen files.old) (K.seen output.old))
        (seen_by (F.seen files.new) (K.seen output.new)) }
{
    let mut instance = open(files, instance)?;
    let mut claim = open(files, claim)?;
    let mut certificate = open(files, certificate)?;
    let outcome = judge_texts(
        alloc,
        kind,
        &mut instance.device,
        &mut claim.device,
        &mut certificate.device,
    );
    let ended = write_outcome(outcome, &mut Discard, &mut Discard, output, kept);
    let failure = close_read(files, instance)
        .or(close_read(files, claim))
        .or(close_read(files, certificate));
    name_failure(ended, failure)
}

/// Judges that no flow is feasible, in the files of the instance and the set of nodes.
fn judge_set<'a, F: Files, K: Sink>(
    alloc: Global,
    instance: &'a str,
    set: &'a str,
    files: &mut F,
    output: &mut K,
    kept: &mut Option<Outcome>,
) -> Result<Status, CommandError<'a>>
    ensures runs { RunsFiles (reads (instance.now ∷ set.now ∷ [])) (F.holds files.old) F.empty (ReportsJudged judges.Infeasible) result
        (seen_by (F.seen files.old) (K.seen output.old))
        (seen_by (F.seen files.new) (K.seen output.new)) }
{
    let mut instance = open(files, instance)?;
    let mut set = open(files, set)?;
    let outcome = judge_texts(
        alloc,
        JudgeKind::Infeasible,
        &mut instance.device,
        &mut MemorySource::new(&[]),
        &mut set.device,
    );
    let ended = write_outcome(outcome, &mut Discard, &mut Discard, output, kept);
    let failure = close_read(files, instance).or(close_read(files, set));
    name_failure(ended, failure)
}

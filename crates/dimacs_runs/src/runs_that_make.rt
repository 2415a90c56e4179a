//! Runs that read files, close them, and only then create a file for their text.

ghost use Rattle.std.specs.{Prelude.{◌≡◌, ◌≤◌, ◌∷◌, [], ℕ, List, Some, length, map}, String.{string_bytes}};
ghost use Rattle.dimacs_jobs.specs.declared.jobs.Verb.TheVariants.{Certify};
ghost use Rattle.dimacs_jobs.specs.declared.jobs.JudgeKind.TheVariants as judges;
ghost use Rattle.dimacs_runs.specs.{inside.Commands.{reads_first}, Commands.{MakesCertificate, MakesOfFiles, seen_by}};
ghost use Rattle.dimacs_runs.specs.{Judgings.{CountsDevices}, inside.Making.{AnswersFiles, made_for}};
ghost use Rattle.dimacs_runs.specs.inside.Outcomes.{IfEnds, shown_texts};
ghost use Rattle.dimacs_jobs.specs.Jobs.{TakesFiles, texts_of};

use crate::certify::certify_claim;
use crate::certify_infeasible::certify_infeasible;
use crate::early_end::outcome_of;
use crate::failure::{CommandError, name_failure};
use crate::files::Files;
use crate::open_files::{close_read, open};
use crate::outcome::Outcome;
use crate::outcome_file::write_outcome_file;
use crate::spread::spread_claim;
use dimacs_jobs::{JudgeKind, RunError, SpreadKind, Status, name_at};
use dimacs_lines::{Sink, Source};
use std::alloc::Global;

/// The text to make of an instance and a claim.
#[derive(Clone, Copy)]
pub(crate) enum ClaimJob {
    /// A certificate, or a better solution.
    Certify(JudgeKind),
    /// The flow, dealt out to parallel arcs.
    Spread(SpreadKind),
}

/// Certifies a claim in the files with these names.
pub(crate) fn certify_files<'a, F: Files, K: Sink>(
    alloc: Global,
    kind: JudgeKind,
    names: &'a [String],
    files: &mut F,
    output: &mut K,
    kept: &mut Option<Outcome>,
) -> Result<Status, CommandError<'a>>
    requires { TakesFiles (Certify kind) (length names.now) }
    ensures runs { MakesOfFiles (reads_first (texts_of (Certify kind)).read (map string_bytes names.now)) (F.holds files.old) F.empty (MakesCertificate kind) result
        (seen_by (F.seen files.old) (K.seen output.old))
        (seen_by (F.seen files.new) (K.seen output.new)) }
{
    match kind {
        JudgeKind::Infeasible => certify_instance(alloc, names, files, output, kept),
        kind => make_of_claim(alloc, ClaimJob::Certify(kind), names, files, output, kept),
    }
}

/// Makes a text of an instance and a claim in files, and writes it to the third file if one is named.
pub(crate) fn make_of_claim<'a, F: Files, K: Sink>(
    alloc: Global,
    job: ClaimJob,
    names: &'a [String],
    files: &mut F,
    output: &mut K,
    kept: &mut Option<Outcome>,
) -> Result<Status, CommandError<'a>>
    requires at_least { 2 ≤ length names.now }
    requires at_most { length names.now ≤ 3 }
    ensures runs { MakesOfFiles (reads_first 2 (map string_bytes names.now)) (F.holds files.old) F.empty (made_for job) result
        (seen_by (F.seen files.old) (K.seen output.old))
        (seen_by (F.seen files.new) (K.seen output.new)) }
{
    let [instance, claim, ..] = names else {
        unreachable!()
    };
    let outcome = answer_claim(alloc, job, instance.as_str(), claim.as_str(), files)?;
    write_outcome_file(outcome, name_at(names, 2), files, output, kept)
}

/// Certifies that an instance in a file has no feasible flow. Writes the set of nodes, or a feasible flow, to the
/// second file if one is named.
fn certify_instance<'a, F: Files, K: Sink>(
    alloc: Global,
    names: &'a [String],
    files: &mut F,
    output: &mut K,
    kept: &mut Option<Outcome>,
) -> Result<Status, CommandError<'a>>
    requires at_least { 1 ≤ length names.now }
    requires at_most { length names.now ≤ 2 }
    ensures runs { MakesOfFiles (reads_first 1 (map string_bytes names.now)) (F.holds files.old) F.empty (MakesCertificate judges.Infeasible) result
        (seen_by (F.seen files.old) (K.seen output.old))
        (seen_by (F.seen files.new) (K.seen output.new)) }
{
    let [instance, ..] = names else {
        unreachable!()
    };
    let outcome = answer_instance(alloc, instance.as_str(), files)?;
    write_outcome_file(outcome, name_at(names, 1), files, output, kept)
}

/// Opens the files of the instance and the claim, makes a text of them, and closes the files.
fn answer_claim<'a, F: Files>(
    alloc: Global,
    job: ClaimJob,
    instance: &'a str,
    claim: &'a str,
    files: &mut F,
) -> Result<Outcome, CommandError<'a>>
    ensures answers { AnswersFiles (instance.now ∷ claim.now ∷ []) (F.holds files.old) (made_for job) result (F.seen files.old) (F.seen files.new) }
{
    let mut instance = open(files, instance)?;
    let mut claim = open(files, claim)?;
    let answer = make(alloc, job, &mut instance.device, &mut claim.device);
    let failure = close_read(files, instance).or(close_read(files, claim));
    name_failure(answer, failure)
}

/// Makes a text of an instance and a claim.
fn make<P: Source, Q: Source>(
    alloc: Global,
    job: ClaimJob,
    instance: &mut P,
    claim: &mut Q,
) -> Result<Outcome, RunError>
    ensures possible { (a b : List ℕ) → P.coming instance.old ≡ Some a → Q.coming claim.old ≡ Some b →
        IfEnds shown_texts (made_for job (a ∷ b ∷ [])) result }
    ensures faults { CountsDevices result (P.faults instance.old ∷ Q.faults claim.old ∷ []) (P.faults instance.new ∷ Q.faults claim.new ∷ []) }
{
    match job {
        ClaimJob::Certify(kind) => certify_claim(alloc, kind, instance, claim),
        ClaimJob::Spread(kind) => spread_claim(alloc, kind, instance, claim),
    }
}

/// Opens the file of the instance, certifies that no flow is feasible, and closes the file.
fn answer_instance<'a, F: Files>(
    alloc: Global,
    instance: &'a str,
    files: &mut F,
) -> Result<Outcome, CommandError<'a>>
    ensures answers { AnswersFiles (instance.now ∷ []) (F.holds files.old) (MakesCertificate judges.Infeasible) result
        (F.seen files.old) (F.seen files.new) }
{
    let mut instance = open(files, instance)?;
    let answer = outcome_of(certify_infeasible(alloc, &mut instance.device));
    let failure = close_read(files, instance);
    name_failure(answer, failure)
}

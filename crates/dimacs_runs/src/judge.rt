//! Runs that judge a claim by a certificate.

ghost use Rattle.std.specs.Prelude.{◌≡◌, ◌≢◌, ◌⊎◌, ℕ, List, [], ◌∷◌, Some, Err};
ghost use Rattle.dimacs_lines.specs.Lines.{lines};
ghost use Rattle.dimacs_records.specs.declared.kinds.TextKind.{TextKind};
ghost use Rattle.dimacs_records.specs.declared.kinds.TextKind.TheVariants as kinds;
ghost use Rattle.dimacs_records.specs.{declared.reasons.Reason.{Reason}, Faults.{Fault}};
ghost use Rattle.dimacs_jobs.specs.declared.jobs.JudgeKind.TheVariants as judges;
ghost use Rattle.dimacs_jobs.specs.declared.status.RunError.TheVariants.{Memory};
ghost use Rattle.dimacs_runs.specs.{Judgings.{CountsDevices}, Judged.{IsClaim, Judged, claim_kind, instance_kind}};
ghost use Rattle.dimacs_runs.specs.{Runs.{Reports}, inside.Judgings.{HasFault}};
ghost use Rattle.dimacs_runs.specs.inside.Outcomes.{MayReport, outcome_of};
ghost use Rattle.dimacs_runs.specs.inside.Outcomes as outcomes;

use crate::discard::Discard;
use crate::early_end::{EarlyEnd, outcome_of};
use crate::outcome::{Outcome, write_outcome};
use crate::report::Report;
use crate::texts_in_turn::{read, read_placed, read_two};
use dimacs_claims::{Cut, Labels, Potentials};
use dimacs_instance::{Graph, MaxInstance, MinInstance, Queries};
use dimacs_jobs::{JudgeKind, RunError, Status};
use dimacs_judging::{
    FlowPlaces, JudgeError, Verdict, index_for, judge_infeasible, judge_max_placed,
    judge_min_placed, judge_paths,
};
use dimacs_lines::{Sink, Source};
use dimacs_network::{ArcView, CapacityArc, PlainArcs, WeightArc};
use std::alloc::Global;

/// Reads an instance, a claim about it and a certificate, in this order, and prints the judge's verdict, or the line of
/// the first fault or of the first test that fails.
///
/// It reads no text after one with a fault. `Infeasible` has no claim.
pub fn run_judge<P: Source, Q: Source, R: Source, K: Sink>(
    alloc: Global,
    kind: JudgeKind,
    instance: &mut P,
    claim: &mut Q,
    certificate: &mut R,
    sink: &mut K,
) -> Result<Status, RunError>
    ensures reports { (a b c : List ℕ) → P.coming instance.old ≡ Some a → IsClaim kind (Q.coming claim.old) b
        → R.coming certificate.old ≡ Some c
        → Reports (Judged kind a b c) result (K.seen sink.old).accepted (K.seen sink.new).accepted }
    ensures faults { CountsDevices result
        (P.faults instance.old ∷ Q.faults claim.old ∷ R.faults certificate.old ∷ (K.seen sink.old).faults ∷ [])
        (P.faults instance.new ∷ Q.faults claim.new ∷ R.faults certificate.new ∷ (K.seen sink.new).faults ∷ []) }
    ensures nothing_written { (P.faults instance.new ≢ P.faults instance.old)
        ⊎ (Q.faults claim.new ≢ Q.faults claim.old) ⊎ (R.faults certificate.new ≢ R.faults certificate.old)
        → K.seen sink.new ≡ K.seen sink.old }
    ensures memory { result ≡ Err Memory → K.seen sink.new ≡ K.seen sink.old }
    ensures stops_at_instance { (a : List ℕ) (l f : ℕ) (r : Reason) → P.coming instance.old ≡ Some a
        → Fault (instance_kind kind) (lines a) l f r → (claim.new ≡ claim.old) × (certificate.new ≡ certificate.old) }
    ensures stops_at_claim { (claimed : TextKind) (b : List ℕ) (l f : ℕ) (r : Reason) → claim_kind kind ≡ Some claimed
        → Q.coming claim.old ≡ Some b → Fault claimed (lines b) l f r → certificate.new ≡ certificate.old }
    ensures unclaimed { kind ≡ judges.Infeasible → claim.new ≡ claim.old }
{
    let outcome = judge_texts(alloc, kind, instance, claim, certificate);
    write_outcome(outcome, &mut Discard, &mut Discard, sink, &mut None)
}

/// Judges a claim, and returns what `run_judge` prints.
pub(crate) fn judge_texts<P: Source, Q: Source, R: Source>(
    alloc: Global,
    kind: JudgeKind,
    instance: &mut P,
    claim: &mut Q,
    certificate: &mut R,
) -> Result<Outcome, RunError>
    ensures reports { (a b c : List ℕ) → P.coming instance.old ≡ Some a → IsClaim kind (Q.coming claim.old) b
        → R.coming certificate.old ≡ Some c → MayReport (Judged kind a b c) result }
    ensures faults { CountsDevices result (P.faults instance.old ∷ Q.faults claim.old ∷ R.faults certificate.old ∷ [])
        (P.faults instance.new ∷ Q.faults claim.new ∷ R.faults certificate.new ∷ []) }
    ensures stops_at_instance { HasFault (instance_kind kind) (P.coming instance.old) → (claim.new ≡ claim.old) × (certificate.new ≡ certificate.old) }
    ensures stops_at_claim { (claimed : TextKind) → claim_kind kind ≡ Some claimed → HasFault claimed (Q.coming claim.old)
        → certificate.new ≡ certificate.old }
    ensures unclaimed { kind ≡ judges.Infeasible → claim.new ≡ claim.old }
{
    outcome_of(match kind {
        JudgeKind::Max => report_max(alloc, instance, claim, certificate),
        JudgeKind::Min => report_min(alloc, instance, claim, certificate),
        JudgeKind::Infeasible => report_infeasible(alloc, instance, certificate),
        JudgeKind::Paths => report_paths(alloc, instance, claim, certificate),
    })
}

/// The outcome of a judge's answer.
fn judge_outcome(answer: Result<Verdict, JudgeError>) -> Result<Outcome, EarlyEnd>
    ensures { result ≡ outcomes.judge_outcome answer }
{
    Ok(Outcome::reporting(Report::Yes(answer?)))
}

fn report_max<P: Source, Q: Source, R: Source>(
    alloc: Global,
    instance: &mut P,
    claim: &mut Q,
    certificate: &mut R,
) -> Result<Outcome, EarlyEnd>
    ensures reports { (a b c : List ℕ) → P.coming instance.old ≡ Some a → Q.coming claim.old ≡ Some b
        → R.coming certificate.old ≡ Some c → MayReport (Judged judges.Max a b c) (outcome_of result) }
    ensures faults { CountsDevices (outcome_of result) (P.faults instance.old ∷ Q.faults claim.old ∷ R.faults certificate.old ∷ [])
        (P.faults instance.new ∷ Q.faults claim.new ∷ R.faults certificate.new ∷ []) }
    ensures stops_at_instance { HasFault kinds.Max (P.coming instance.old) → (claim.new ≡ claim.old) × (certificate.new ≡ certificate.old) }
    ensures stops_at_claim { HasFault kinds.Solution (Q.coming claim.old) → certificate.new ≡ certificate.old }
{
    let instance: MaxInstance<PlainArcs<CapacityArc>> = read(alloc, instance)?;
    let places = FlowPlaces::new(alloc, instance.network())?;
    let (placed, cut) = read_placed(alloc, places, claim, certificate)?;
    judge_outcome(judge_max_placed(alloc, &instance, &placed, &cut))
}

fn report_min<P: Source, Q: Source, R: Source>(
    alloc: Global,
    instance: &mut P,
    claim: &mut Q,
    certificate: &mut R,
) -> Result<Outcome, EarlyEnd>
    ensures reports { (a b c : List ℕ) → P.coming instance.old ≡ Some a → Q.coming claim.old ≡ Some b
        → R.coming certificate.old ≡ Some c → MayReport (Judged judges.Min a b c) (outcome_of result) }
    ensures faults { CountsDevices (outcome_of result) (P.faults instance.old ∷ Q.faults claim.old ∷ R.faults certificate.old ∷ [])
        (P.faults instance.new ∷ Q.faults claim.new ∷ R.faults certificate.new ∷ []) }
    ensures stops_at_instance { HasFault kinds.Min (P.coming instance.old) → (claim.new ≡ claim.old) × (certificate.new ≡ certificate.old) }
    ensures stops_at_claim { HasFault kinds.Solution (Q.coming claim.old) → certificate.new ≡ certificate.old }
{
    let instance: MinInstance<PlainArcs<ArcView>> = read(alloc, instance)?;
    let places = FlowPlaces::new(alloc, instance.network())?;
    let (placed, potentials) = read_placed(alloc, places, claim, certificate)?;
    judge_outcome(judge_min_placed(alloc, &instance, &placed, &potentials))
}

fn report_infeasible<P: Source, R: Source>(
    alloc: Global,
    instance: &mut P,
    certificate: &mut R,
) -> Result<Outcome, EarlyEnd>
    ensures reports { (a c : List ℕ) → P.coming instance.old ≡ Some a → R.coming certificate.old ≡ Some c →
        MayReport (Judged judges.Infeasible a [] c) (outcome_of result) }
    ensures faults { CountsDevices (outcome_of result) (P.faults instance.old ∷ R.faults certificate.old ∷ [])
        (P.faults instance.new ∷ R.faults certificate.new ∷ []) }
    ensures stops_at_instance { HasFault kinds.Min (P.coming instance.old) → certificate.new ≡ certificate.old }
{
    let (instance, set): (MinInstance<PlainArcs<ArcView>>, _) = read_two(
        alloc,
        instance,
        certificate,
    )?;
    judge_outcome(judge_infeasible(&instance, &set))
}

fn report_paths<P: Source, Q: Source, R: Source>(
    alloc: Global,
    graph: &mut P,
    queries: &mut Q,
    labels: &mut R,
) -> Result<Outcome, EarlyEnd>
    ensures reports { (a b c : List ℕ) → P.coming graph.old ≡ Some a → Q.coming queries.old ≡ Some b
        → R.coming labels.old ≡ Some c → MayReport (Judged judges.Paths a b c) (outcome_of result) }
    ensures faults { CountsDevices (outcome_of result) (P.faults graph.old ∷ Q.faults queries.old ∷ R.faults labels.old ∷ [])
        (P.faults graph.new ∷ Q.faults queries.new ∷ R.faults labels.new ∷ []) }
    ensures stops_at_instance { HasFault kinds.Graph (P.coming graph.old) → (queries.new ≡ queries.old) × (labels.new ≡ labels.old) }
    ensures stops_at_claim { HasFault kinds.Queries (Q.coming queries.old) → labels.new ≡ labels.old }
{
    let graph: Graph<PlainArcs<WeightArc>> = read(alloc, graph)?;
    let (queries, mut labels) = read_two(alloc, queries, labels)?;
    index_for(&queries, &mut labels)?;
    judge_outcome(judge_paths(alloc, &graph, &queries, &labels))
}

//! Runs that certify a claim without a certificate.

ghost use Rattle.std.specs.Prelude.{◌≡◌, ◌≢◌, ◌⊎◌, ◌∷◌, [], ℕ, ℤ, List, Some, Err};
ghost use Rattle.dimacs_lines.specs.Lines.{lines};
ghost use Rattle.dimacs_records.specs.declared.kinds.TextKind.TheVariants as kinds;
ghost use Rattle.dimacs_records.specs.{declared.reasons.Reason.{Reason}, Faults.{Fault}};
ghost use Rattle.dimacs_claims.specs.{SolutionReading.{IsPlacedLawful}, SolutionTexts.{SolutionValue}};
ghost use Rattle.dimacs_instance.specs.MaxFlows.{IsMax};
ghost use Rattle.dimacs_judging.specs.{Feasible.{FeasibleMax, FeasibleMin}, Places.{ArePlaced, StandsFor}};
ghost use Rattle.dimacs_decide.specs.{CertifiedMax.{IsMaxImproved}, CertifiedMin.{IsMinImproved}};
ghost use Rattle.dimacs_jobs.specs.declared.status.RunError.TheVariants.{Device, Memory};
ghost use Rattle.dimacs_jobs.specs.declared.jobs.JudgeKind.TheVariants as judges;
ghost use Rattle.dimacs_runs.specs.Certified.{Certified, CertifiesLeast, CertifiesMaximum, IsClaimed, certified_kind};
ghost use Rattle.dimacs_runs.specs.{Judgings.{CountsDevices}, Outputs.{ReportsAll, WritesAlike}};
ghost use Rattle.dimacs_runs.specs.{inside.Judgings.{HasFault}, inside.Outcomes.{MayCertify, outcome_of}};

use crate::certify_distances::certify_distances;
use crate::certify_infeasible::certify_infeasible;
use crate::discard::Discard;
use crate::early_end::{EarlyEnd, outcome_of};
use crate::outcome::{Outcome, OutputText, write_outcome};
use crate::report::Report;
use crate::texts_in_turn::{place_solution, read};
use dimacs_claims::Placed;
use dimacs_decide::{
    MaxDecision, MinDecision, certify_max_placed, certify_min_placed, max_solution, min_solution,
};
use dimacs_instance::{MaxInstance, MinInstance};
use dimacs_jobs::{JudgeKind, RunError, Status};
use dimacs_judging::{Flow, FlowPlaces, Verdict, Where};
use dimacs_lines::{Sink, Source};
use dimacs_network::{ArcView, CapacityArc, Network, PlainArcs};
use dimacs_records::Reason;
use dimacs_solve::improve_max;
use std::alloc::Global;

/// Reads an instance and a claim about it, in this order, and decides whether the claim is true.
///
/// If it is true, it writes a certificate by which the judge accepts the claim, then the verdict. If the claimed flow
/// is feasible and has its claimed value, but isn't optimal, it writes a solution with a better flow, then a refusal of
/// the value. `Infeasible` writes a solution with a feasible flow if there is one, then a refusal of the instance. Each
/// solution has an entry for every arc. If its cost is out of range, it isn't written.
///
/// Otherwise it writes only a report: the fault of the first text that has one, or, of the judge's tests that need no
/// certificate, the first that fails. The claim isn't read after an instance with a fault. `Infeasible` has no claim.
pub fn run_certify<P: Source, Q: Source, C: Sink, K: Sink>(
    alloc: Global,
    kind: JudgeKind,
    instance: &mut P,
    claim: &mut Q,
    certificate_out: &mut C,
    report: &mut K,
) -> Result<Status, RunError>
    ensures reports { (a b : List ℕ) → P.coming instance.old ≡ Some a → IsClaimed kind (Q.coming claim.old) b
        → ReportsAll (WritesAlike (Certified kind a b)) result
        ((C.seen certificate_out.old).accepted ∷ (K.seen report.old).accepted ∷ [])
        ((C.seen certificate_out.new).accepted ∷ (K.seen report.new).accepted ∷ []) }
    ensures faults { CountsDevices result
        (P.faults instance.old ∷ Q.faults claim.old ∷ (C.seen certificate_out.old).faults ∷ (K.seen report.old).faults ∷ [])
        (P.faults instance.new ∷ Q.faults claim.new ∷ (C.seen certificate_out.new).faults ∷ (K.seen report.new).faults ∷ []) }
    ensures nothing_written { (P.faults instance.new ≢ P.faults instance.old) ⊎ (Q.faults claim.new ≢ Q.faults claim.old)
        → (C.seen certificate_out.new ≡ C.seen certificate_out.old) × (K.seen report.new ≡ K.seen report.old) }
    ensures memory { result ≡ Err Memory → (C.seen certificate_out.new ≡ C.seen certificate_out.old) × (K.seen report.new ≡ K.seen report.old) }
    ensures stops_at_instance { (a : List ℕ) (l f : ℕ) (r : Reason) → P.coming instance.old ≡ Some a → Fault (certified_kind kind) (lines a) l f r
        → claim.new ≡ claim.old }
    ensures unclaimed { kind ≡ judges.Infeasible → claim.new ≡ claim.old }
{
    let outcome = certify_claim(alloc, kind, instance, claim);
    write_outcome(outcome, &mut Discard, certificate_out, report, &mut None)
}

/// Certifies a claim, and returns what `run_certify` writes.
pub(crate) fn certify_claim<P: Source, Q: Source>(
    alloc: Global,
    kind: JudgeKind,
    instance: &mut P,
    claim: &mut Q,
) -> Result<Outcome, RunError>
    ensures certifies { (a b : List ℕ) → P.coming instance.old ≡ Some a → IsClaimed kind (Q.coming claim.old) b
        → MayCertify (Certified kind a b) result }
    ensures faults { CountsDevices result (P.faults instance.old ∷ Q.faults claim.old ∷ []) (P.faults instance.new ∷ Q.faults claim.new ∷ []) }
    ensures stops_at_instance { HasFault (certified_kind kind) (P.coming instance.old) → claim.new ≡ claim.old }
    ensures unclaimed { kind ≡ judges.Infeasible → claim.new ≡ claim.old }
{
    outcome_of(match kind {
        JudgeKind::Max => certify_maximum(alloc, instance, claim),
        JudgeKind::Min => certify_least(alloc, instance, claim),
        JudgeKind::Infeasible => certify_infeasible(alloc, instance),
        JudgeKind::Paths => certify_distances(alloc, instance, claim),
    })
}

/// Certifies a claimed maximum flow, by a cut or a better flow.
fn certify_maximum<P: Source, Q: Source>(
    alloc: Global,
    instance: &mut P,
    solution: &mut Q,
) -> Result<Outcome, EarlyEnd>
    ensures certifies { (a b : List ℕ) → P.coming instance.old ≡ Some a → Q.coming solution.old ≡ Some b →
        MayCertify (Certified judges.Max a b) (outcome_of result) }
    ensures faults { CountsDevices (outcome_of result) (P.faults instance.old ∷ Q.faults solution.old ∷ [])
        (P.faults instance.new ∷ Q.faults solution.new ∷ []) }
    ensures stops_at_instance { HasFault kinds.Max (P.coming instance.old) → solution.new ≡ solution.old }
{
    let instance: MaxInstance<PlainArcs<CapacityArc>> = read(alloc, instance)?;
    let places = FlowPlaces::new(alloc, instance.network())?;
    let placed = place_solution(alloc, places, solution)?;
    answer_maximum(alloc, &instance, &placed)
}

/// Certifies a claimed flow of least cost, by potentials or a better flow.
fn certify_least<P: Source, Q: Source>(
    alloc: Global,
    instance: &mut P,
    solution: &mut Q,
) -> Result<Outcome, EarlyEnd>
    ensures certifies { (a b : List ℕ) → P.coming instance.old ≡ Some a → Q.coming solution.old ≡ Some b →
        MayCertify (Certified judges.Min a b) (outcome_of result) }
    ensures faults { CountsDevices (outcome_of result) (P.faults instance.old ∷ Q.faults solution.old ∷ [])
        (P.faults instance.new ∷ Q.faults solution.new ∷ []) }
    ensures stops_at_instance { HasFault kinds.Min (P.coming instance.old) → solution.new ≡ solution.old }
{
    let instance: MinInstance<PlainArcs<ArcView>> = read(alloc, instance)?;
    let places = FlowPlaces::new(alloc, instance.network())?;
    let placed = place_solution(alloc, places, solution)?;
    answer_least(alloc, &instance, &placed)
}

/// Decides whether a claimed flow is maximum.
fn answer_maximum<N: Network>(
    alloc: Global,
    instance: &MaxInstance<N>,
    placed: &Placed<FlowPlaces<'_, N>>,
) -> Result<Outcome, EarlyEnd>
    requires lawful { IsMax instance.now }
    requires network { placed.now.place.arcs ≡ instance.now.arcs }
    requires placed { IsPlacedLawful placed.now.value placed.now.value_line (ArePlaced placed.now.place) }
    ensures certifies { (s : SolutionValue) → StandsFor placed.now s
        → MayCertify (CertifiesMaximum instance.now s) (outcome_of result) }
    ensures no_device { outcome_of result ≢ Err Device }
{
    match certify_max_placed(alloc, instance, placed)? {
        MaxDecision::Optimal(cut) => {
            let report = Report::Yes(Verdict::Max(placed.value));
            Ok(Outcome::certified(OutputText::Nothing, OutputText::Cut(cut), report))
        }
        MaxDecision::Better(flow) => refuse_maximum(alloc, instance, flow, placed.value_line),
    }
}

/// Decides whether a claimed flow costs least.
fn answer_least<N: Network>(
    alloc: Global,
    instance: &MinInstance<N>,
    placed: &Placed<FlowPlaces<'_, N>>,
) -> Result<Outcome, EarlyEnd>
    requires network { placed.now.place.arcs ≡ instance.now.arcs }
    requires placed { IsPlacedLawful placed.now.value placed.now.value_line (ArePlaced placed.now.place) }
    ensures certifies { (s : SolutionValue) → StandsFor placed.now s
        → MayCertify (CertifiesLeast instance.now s) (outcome_of result) }
    ensures no_device { outcome_of result ≢ Err Device }
{
    match certify_min_placed(alloc, instance, placed)? {
        MinDecision::Optimal(potentials) => {
            let report = Report::Yes(Verdict::Min(placed.value));
            let shown = OutputText::Potentials(potentials);
            Ok(Outcome::certified(OutputText::Nothing, shown, report))
        }
        MinDecision::Better(flow) => refuse_least(alloc, instance, &flow, placed.value_line),
    }
}

/// Refuses a claimed value, because `flow` is better. The solution has `flow`, or a still greater one.
fn refuse_maximum<N: Network>(
    alloc: Global,
    instance: &MaxInstance<N>,
    flow: Flow,
    value_line: u64,
) -> Result<Outcome, EarlyEnd>
    requires lawful { IsMax instance.now }
    requires feasible { FeasibleMax instance.now flow }
    ensures certifies { (s : SolutionValue) (x : List ℤ) → IsMaxImproved instance.now s x flow → value_line ≡ s.value_line
        → MayCertify (CertifiesMaximum instance.now s) (outcome_of result) }
    ensures no_device { outcome_of result ≢ Err Device }
{
    let flow = improve_max(alloc, instance, flow);
    let solution = max_solution(alloc, instance, &flow)?;
    let report = Report::No(at_value(value_line), Reason::NotMaximum);
    Ok(Outcome::with_text(OutputText::Solution(solution), report))
}

/// Refuses a claimed cost, because `flow` is better. The solution has `flow`, if its cost is in range.
fn refuse_least<N: Network>(
    alloc: Global,
    instance: &MinInstance<N>,
    flow: &Flow,
    value_line: u64,
) -> Result<Outcome, EarlyEnd>
    requires { FeasibleMin instance.now flow.now }
    ensures certifies { (s : SolutionValue) (x : List ℤ) → IsMinImproved instance.now s x flow.now → value_line ≡ s.value_line
        → MayCertify (CertifiesLeast instance.now s) (outcome_of result) }
    ensures no_device { outcome_of result ≢ Err Device }
{
    let report = Report::No(at_value(value_line), Reason::NotLeast);
    let text = match min_solution(alloc, instance, flow)? {
        Some(solution) => OutputText::Solution(solution),
        None => OutputText::Nothing,
    };
    Ok(Outcome::with_text(text, report))
}

/// The claimed value on this line.
fn at_value(line: u64) -> Where
    ensures { result ≡ Where.Solution line 2 }
{
    Where::Solution { line, field: 2 }
}

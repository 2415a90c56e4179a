//! Runs that deal a claimed flow out to parallel arcs.

ghost use Rattle.std.specs.Prelude.{◌≡◌, ◌≢◌, ◌≤◌, ◌⊎◌, ◌∷◌, [], ℕ, List, Some, Err, IfOk, length};
ghost use Rattle.dimacs_lines.specs.{Limits.{most_count}, Lines.{lines}};
ghost use Rattle.dimacs_records.specs.declared.kinds.TextKind.TheVariants as kinds;
ghost use Rattle.dimacs_records.specs.{declared.reasons.Reason.{Reason}, Faults.{Fault}};
ghost use Rattle.dimacs_claims.specs.SolutionTexts.{SolutionValue};
ghost use Rattle.dimacs_jobs.specs.declared.jobs.SpreadKind.{SpreadKind};
ghost use Rattle.dimacs_jobs.specs.declared.jobs.SpreadKind.TheVariants as spreads;
ghost use Rattle.dimacs_jobs.specs.declared.status.RunError.TheVariants.{Device, Memory};
ghost use Rattle.dimacs_runs.specs.{Judgings.{CountsDevices}, Outputs.{ReportsAll, WritesAlike}};
ghost use Rattle.dimacs_runs.specs.{Spread.{Spreads, SpreadsClaim, spread_text}, inside.Judgings.{HasFault}};
ghost use Rattle.dimacs_runs.specs.inside.Outcomes.{DealsOut, MayCertify, outcome_of};

use crate::discard::Discard;
use crate::early_end::{EarlyEnd, outcome_of};
use crate::outcome::{Outcome, OutputText, write_outcome};
use crate::report::Report;
use crate::texts_in_turn::read_two;
use dimacs_claims::Solution;
use dimacs_decide::entries_for;
use dimacs_instance::{MaxInstance, MinInstance};
use dimacs_jobs::{RunError, SpreadKind, Status};
use dimacs_judging::{Flow, JudgeError};
use dimacs_lines::{Sink, Source};
use dimacs_network::{ArcView, CapacityArc, Network, PlainArcs};
use dimacs_solve::{spread_max, spread_min};
use std::alloc::Global;

/// Reads an instance and a claimed flow, in this order, and writes a solution with the claimed value and an entry for
/// every arc. It adds up the claimed entries with the same tail and head, and deals the sum out to the arcs with these
/// ends: within their bounds if possible, and for a minimum cost instance at the least cost.
///
/// Otherwise it writes only a report: the fault of the first text that has one, the first entry without an arc, or the
/// first arc whose amount doesn't fit 64 bits. The claim isn't read after an instance with a fault. It doesn't test
/// whether the flow is feasible.
pub fn run_spread<P: Source, Q: Source, C: Sink, K: Sink>(
    alloc: Global,
    kind: SpreadKind,
    instance: &mut P,
    claim: &mut Q,
    solution_out: &mut C,
    report: &mut K,
) -> Result<Status, RunError>
    ensures reports { (a b : List ℕ) → P.coming instance.old ≡ Some a → Q.coming claim.old ≡ Some b
        → ReportsAll (WritesAlike (Spreads kind a b)) result
        ((C.seen solution_out.old).accepted ∷ (K.seen report.old).accepted ∷ [])
        ((C.seen solution_out.new).accepted ∷ (K.seen report.new).accepted ∷ []) }
    ensures faults { CountsDevices result
        (P.faults instance.old ∷ Q.faults claim.old ∷ (C.seen solution_out.old).faults ∷ (K.seen report.old).faults ∷ [])
        (P.faults instance.new ∷ Q.faults claim.new ∷ (C.seen solution_out.new).faults ∷ (K.seen report.new).faults ∷ []) }
    ensures nothing_written { (P.faults instance.new ≢ P.faults instance.old) ⊎ (Q.faults claim.new ≢ Q.faults claim.old)
        → (C.seen solution_out.new ≡ C.seen solution_out.old) × (K.seen report.new ≡ K.seen report.old) }
    ensures memory { result ≡ Err Memory → (C.seen solution_out.new ≡ C.seen solution_out.old) × (K.seen report.new ≡ K.seen report.old) }
    ensures stops_at_instance { (a : List ℕ) (l f : ℕ) (r : Reason) → P.coming instance.old ≡ Some a → Fault (spread_text kind) (lines a) l f r
        → claim.new ≡ claim.old }
{
    let outcome = spread_claim(alloc, kind, instance, claim);
    write_outcome(outcome, &mut Discard, solution_out, report, &mut None)
}

/// Deals out a claimed flow, and returns what `run_spread` writes.
pub(crate) fn spread_claim<P: Source, Q: Source>(
    alloc: Global,
    kind: SpreadKind,
    instance: &mut P,
    claim: &mut Q,
) -> Result<Outcome, RunError>
    ensures spreads { (a b : List ℕ) → P.coming instance.old ≡ Some a → Q.coming claim.old ≡ Some b
        → MayCertify (Spreads kind a b) result }
    ensures faults { CountsDevices result (P.faults instance.old ∷ Q.faults claim.old ∷ []) (P.faults instance.new ∷ Q.faults claim.new ∷ []) }
    ensures stops_at_instance { HasFault (spread_text kind) (P.coming instance.old) → claim.new ≡ claim.old }
{
    outcome_of(match kind {
        SpreadKind::Max => spread_maximum(alloc, instance, claim),
        SpreadKind::Min => spread_least(alloc, instance, claim),
    })
}

fn spread_maximum<P: Source, Q: Source>(
    alloc: Global,
    instance: &mut P,
    claim: &mut Q,
) -> Result<Outcome, EarlyEnd>
    ensures spreads { (a b : List ℕ) → P.coming instance.old ≡ Some a → Q.coming claim.old ≡ Some b →
        MayCertify (Spreads spreads.Max a b) (outcome_of result) }
    ensures faults { CountsDevices (outcome_of result) (P.faults instance.old ∷ Q.faults claim.old ∷ [])
        (P.faults instance.new ∷ Q.faults claim.new ∷ []) }
    ensures stops_at_instance { HasFault kinds.Max (P.coming instance.old) → claim.new ≡ claim.old }
{
    let (instance, claim): (MaxInstance<PlainArcs<CapacityArc>>, _) = read_two(
        alloc, instance, claim,
    )?;
    let flow = spread_max(alloc, &instance, &claim);
    answer_spread(alloc, instance.network(), claim.value, flow)
}

fn spread_least<P: Source, Q: Source>(
    alloc: Global,
    instance: &mut P,
    claim: &mut Q,
) -> Result<Outcome, EarlyEnd>
    ensures spreads { (a b : List ℕ) → P.coming instance.old ≡ Some a → Q.coming claim.old ≡ Some b →
        MayCertify (Spreads spreads.Min a b) (outcome_of result) }
    ensures faults { CountsDevices (outcome_of result) (P.faults instance.old ∷ Q.faults claim.old ∷ [])
        (P.faults instance.new ∷ Q.faults claim.new ∷ []) }
    ensures stops_at_instance { HasFault kinds.Min (P.coming instance.old) → claim.new ≡ claim.old }
{
    let (instance, claim): (MinInstance<PlainArcs<ArcView>>, _) = read_two(alloc, instance, claim)?;
    let flow = spread_min(alloc, &instance, &claim);
    answer_spread(alloc, instance.network(), claim.value, flow)
}

/// The outcome: a solution, or a refusal.
fn answer_spread<N: Network>(
    alloc: Global,
    network: &N,
    value: i128,
    flow: Result<Flow, JudgeError>,
) -> Result<Outcome, EarlyEnd>
    requires few_arcs { length (N.list network.now) ≤ most_count }
    requires one_each { IfOk flow (λ x. length x ≡ length (N.list network.now)) }
    ensures spreads { (kind : SpreadKind) (s : SolutionValue) → value ≡ s.value → DealsOut kind (N.list network.now) s flow
        → MayCertify (SpreadsClaim kind (N.list network.now) s) (outcome_of result) }
    ensures no_device { outcome_of result ≢ Err Device }
{
    let flow = flow?;
    let entries = entries_for(alloc, network, &flow)?;
    let solution = Solution {
        value,
        value_line: 1,
        entries,
    };
    Ok(Outcome::with_text(OutputText::Solution(solution), Report::Nothing))
}

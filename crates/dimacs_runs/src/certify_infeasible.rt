//! Certifies that an instance has no feasible flow.

ghost use Rattle.std.specs.Prelude.{◌≡◌, ◌≢◌, ◌∷◌, [], ℕ, List, Some, Err};
ghost use Rattle.dimacs_judging.specs.Feasible.{FeasibleMin};
ghost use Rattle.dimacs_jobs.specs.declared.jobs.JudgeKind.TheVariants as judges;
ghost use Rattle.dimacs_jobs.specs.declared.status.RunError.TheVariants.{Device};
ghost use Rattle.dimacs_runs.specs.{Judgings.{CountsDevices}, Certified.{Certified, CertifiesInfeasible}};
ghost use Rattle.dimacs_runs.specs.inside.Outcomes.{MayCertify, outcome_of};

use crate::early_end::EarlyEnd;
use crate::outcome::{Outcome, OutputText};
use crate::report::Report;
use crate::texts_in_turn::read;
use dimacs_decide::{Feasibility, decide_infeasible, min_solution};
use dimacs_instance::MinInstance;
use dimacs_judging::{Flow, Verdict};
use dimacs_lines::Source;
use dimacs_network::{ArcView, Network, PlainArcs};
use dimacs_records::{At, Reason, TextKind};
use std::alloc::Global;

/// Certifies that no flow is feasible, by a set of nodes, or refuses it by a feasible flow.
pub(crate) fn certify_infeasible<P: Source>(
    alloc: Global,
    instance: &mut P,
) -> Result<Outcome, EarlyEnd>
    ensures certifies { (a : List ℕ) → P.coming instance.old ≡ Some a → MayCertify (Certified judges.Infeasible a []) (outcome_of result) }
    ensures faults { CountsDevices (outcome_of result) (P.faults instance.old ∷ []) (P.faults instance.new ∷ []) }
{
    let instance: MinInstance<PlainArcs<ArcView>> = read(alloc, instance)?;
    answer_infeasible(alloc, &instance)
}

/// Decides whether a flow is feasible.
fn answer_infeasible<N: Network>(
    alloc: Global,
    instance: &MinInstance<N>,
) -> Result<Outcome, EarlyEnd>
    ensures certifies { MayCertify (CertifiesInfeasible instance.now) (outcome_of result) }
    ensures no_device { outcome_of result ≢ Err Device }
{
    match decide_infeasible(alloc, instance)? {
        Feasibility::Infeasible(set) => {
            let report = Report::Yes(Verdict::Infeasible);
            Ok(Outcome::certified(OutputText::Nothing, OutputText::Cut(set), report))
        }
        Feasibility::Feasible(flow) => refuse_infeasible(alloc, instance, &flow),
    }
}

/// Refuses an instance, because `flow` is feasible. The solution has it, if its cost is in range.
fn refuse_infeasible<N: Network>(
    alloc: Global,
    instance: &MinInstance<N>,
    flow: &Flow,
) -> Result<Outcome, EarlyEnd>
    requires { FeasibleMin instance.now flow.now }
    ensures certifies { MayCertify (CertifiesInfeasible instance.now) (outcome_of result) }
    ensures no_device { outcome_of result ≢ Err Device }
{
    let text = match min_solution(alloc, instance, flow)? {
        Some(solution) => OutputText::Solution(solution),
        None => OutputText::Nothing,
    };
    let at = At { line: 0, field: 0 };
    let report = Report::Refused(TextKind::Min, at, Reason::Feasible);
    Ok(Outcome::with_text(text, report))
}

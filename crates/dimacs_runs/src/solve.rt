//! Runs that solve an instance.

ghost use Rattle.std.specs.Prelude.{◌≡◌, ◌≢◌, ◌⊎◌, ◌∷◌, [], ℕ, List, Some, Ok, Err, IfOk};
ghost use Rattle.dimacs_lines.specs.Lines.{lines};
ghost use Rattle.dimacs_records.specs.declared.kinds.TextKind.TheVariants as kinds;
ghost use Rattle.dimacs_records.specs.{declared.reasons.Reason.{Reason}, Faults.{Fault}};
ghost use Rattle.dimacs_instance.specs.QueryTexts.{AreLawful, asked};
ghost use Rattle.dimacs_jobs.specs.declared.jobs.SolveJob.TheVariants as jobs;
ghost use Rattle.dimacs_runs.specs.{declared.outcome.OutputText.TheVariants.{Nothing}, Judgings.{CountsDevices}};
ghost use Rattle.dimacs_runs.specs.{inside.Judgings.{HasFault}, Outputs.{MayWrite, ReportsAll}};
ghost use Rattle.dimacs_runs.specs.inside.Outcomes.{IsReadable, MaySolve, outcome_of};
ghost use Rattle.dimacs_jobs.specs.declared.status.RunError.TheVariants.{Device, Memory};
ghost use Rattle.dimacs_runs.specs.inside.Outcomes as outcomes;
ghost use Rattle.dimacs_runs.specs.Solved.{AreQueries, FindsPaths, Solved, solved_kind};

use crate::early_end::{EarlyEnd, outcome_of};
use crate::outcome::{Outcome, OutputText, write_outcome};
use crate::report::Report;
use crate::texts_in_turn::{read, read_two};
use dimacs_instance::{Graph, MaxInstance, MinInstance, Queries};
use dimacs_jobs::{RunError, SolveJob, Status};
use dimacs_judging::{Verdict, answer_queries, index_for};
use dimacs_lines::{Sink, Source};
use dimacs_network::{ArcView, CapacityArc, Network, PlainArcs, WeightArc};
use dimacs_solve::{MaxAnswer, MinAnswer, SolveError, solve_max, solve_min, solve_paths};
use std::alloc::Global;

/// Reads an instance, and writes a claim about it, its certificate and the judge's verdict, in this order. If it
/// refuses the instance or gives up, it writes only a report.
///
/// - `Max` writes a solution and a cut. It tests at most `limit` flows, from the zero flow on, and gives up if none is
///   maximum.
/// - `Min` writes a solution and potentials. If no flow is feasible, it writes only a set of nodes. It gives up after
///   `limit` steps to better flows, or if the least cost is out of range.
/// - `Paths` also reads queries, unless the graph has a fault, and writes only labels. It refuses a query with an
///   unknown node, then a negative weight. It never gives up.
pub fn run_solve<P: Source, Q: Source, C: Sink, D: Sink, K: Sink>(
    alloc: Global,
    job: SolveJob,
    instance: &mut P,
    queries: &mut Q,
    claim_out: &mut C,
    certificate_out: &mut D,
    report: &mut K,
) -> Result<Status, RunError>
    ensures reports { (a b : List ℕ) → P.coming instance.old ≡ Some a → AreQueries job (Q.coming queries.old) b
        → ReportsAll (MayWrite (Solved job a b)) result
        ((C.seen claim_out.old).accepted ∷ (D.seen certificate_out.old).accepted ∷ (K.seen report.old).accepted ∷ [])
        ((C.seen claim_out.new).accepted ∷ (D.seen certificate_out.new).accepted ∷ (K.seen report.new).accepted ∷ []) }
    ensures faults { CountsDevices result (P.faults instance.old ∷ Q.faults queries.old ∷ (C.seen claim_out.old).faults ∷
        (D.seen certificate_out.old).faults ∷ (K.seen report.old).faults ∷ []) (P.faults instance.new ∷ Q.faults queries.new ∷
        (C.seen claim_out.new).faults ∷ (D.seen certificate_out.new).faults ∷ (K.seen report.new).faults ∷ []) }
    ensures nothing_written { (P.faults instance.new ≢ P.faults instance.old) ⊎ (Q.faults queries.new ≢ Q.faults queries.old)
        → (C.seen claim_out.new ≡ C.seen claim_out.old) × (D.seen certificate_out.new ≡ D.seen certificate_out.old) × (K.seen report.new ≡ K.seen report.old) }
    ensures memory { result ≡ Err Memory
        → (C.seen claim_out.new ≡ C.seen claim_out.old) × (D.seen certificate_out.new ≡ D.seen certificate_out.old) × (K.seen report.new ≡ K.seen report.old) }
    ensures stops_at_instance { (a : List ℕ) (l f : ℕ) (r : Reason) → P.coming instance.old ≡ Some a
        → Fault (solved_kind job) (lines a) l f r → queries.new ≡ queries.old }
    ensures unqueried { job ≢ jobs.Paths → queries.new ≡ queries.old }
    ensures nothing_made { job ≡ jobs.Paths → claim_out.new ≡ claim_out.old }
{
    let outcome = solve_texts(alloc, job, instance, queries);
    write_outcome(outcome, claim_out, certificate_out, report, &mut None)
}

/// Solves an instance, and returns what `run_solve` writes.
pub(crate) fn solve_texts<P: Source, Q: Source>(
    alloc: Global,
    job: SolveJob,
    instance: &mut P,
    queries: &mut Q,
) -> Result<Outcome, RunError>
    ensures solves { (a b : List ℕ) → P.coming instance.old ≡ Some a → AreQueries job (Q.coming queries.old) b
        → MaySolve (Solved job a b) result }
    ensures faults { CountsDevices result (P.faults instance.old ∷ Q.faults queries.old ∷ []) (P.faults instance.new ∷ Q.faults queries.new ∷ []) }
    ensures stops_at_instance { HasFault (solved_kind job) (P.coming instance.old) → queries.new ≡ queries.old }
    ensures unqueried { job ≢ jobs.Paths → queries.new ≡ queries.old }
    ensures nothing_made { job ≡ jobs.Paths → IfOk result (λ outcome. outcome.made ≡ Nothing) }
{
    outcome_of(match job {
        SolveJob::Max(limit) => solve_maximum(alloc, limit, instance),
        SolveJob::Min(limit) => solve_least(alloc, limit, instance),
        SolveJob::Paths => solve_labels(alloc, instance, queries),
    })
}

fn solve_maximum<P: Source>(
    alloc: Global,
    limit: u64,
    instance: &mut P,
) -> Result<Outcome, EarlyEnd>
    ensures solves { (a : List ℕ) → P.coming instance.old ≡ Some a → MaySolve (Solved (jobs.Max limit) a []) (outcome_of result) }
    ensures faults { CountsDevices (outcome_of result) (P.faults instance.old ∷ []) (P.faults instance.new ∷ []) }
{
    let instance: MaxInstance<PlainArcs<CapacityArc>> = read(alloc, instance)?;
    maximum_outcome(solve_max(alloc, &instance, limit))
}

fn solve_least<P: Source>(alloc: Global, limit: u64, instance: &mut P) -> Result<Outcome, EarlyEnd>
    ensures solves { (a : List ℕ) → P.coming instance.old ≡ Some a → MaySolve (Solved (jobs.Min limit) a []) (outcome_of result) }
    ensures faults { CountsDevices (outcome_of result) (P.faults instance.old ∷ []) (P.faults instance.new ∷ []) }
{
    let instance: MinInstance<PlainArcs<ArcView>> = read(alloc, instance)?;
    least_outcome(solve_min(alloc, &instance, limit))
}

fn solve_labels<P: Source, Q: Source>(
    alloc: Global,
    graph: &mut P,
    queries: &mut Q,
) -> Result<Outcome, EarlyEnd>
    ensures solves { (a b : List ℕ) → P.coming graph.old ≡ Some a → Q.coming queries.old ≡ Some b
        → MaySolve (Solved jobs.Paths a b) (outcome_of result) }
    ensures faults { CountsDevices (outcome_of result) (P.faults graph.old ∷ Q.faults queries.old ∷ [])
        (P.faults graph.new ∷ Q.faults queries.new ∷ []) }
    ensures stops_at_graph { HasFault kinds.Graph (P.coming graph.old) → queries.new ≡ queries.old }
    ensures nothing_made { IfOk (outcome_of result) (λ outcome. outcome.made ≡ Nothing) }
{
    let (graph, queries): (Graph<PlainArcs<WeightArc>>, _) = read_two(alloc, graph, queries)?;
    label(alloc, &graph, &queries)
}

/// Finds labels that answer the queries, or refuses.
fn label<N: Network>(
    alloc: Global,
    graph: &Graph<N>,
    queries: &Queries,
) -> Result<Outcome, EarlyEnd>
    requires lawful { AreLawful (asked queries.now) }
    ensures solves { MaySolve (FindsPaths graph.now (asked queries.now)) (outcome_of result) }
    ensures no_device { outcome_of result ≢ Err Device }
    ensures nothing_made { IfOk (outcome_of result) (λ outcome. outcome.made ≡ Nothing) }
{
    let mut labels = solve_paths(alloc, graph, queries)?;
    index_for(queries, &mut labels)?;
    let answers = answer_queries(alloc, queries, &labels)?;
    let shown = OutputText::Labels(labels);
    Ok(Outcome::certified(OutputText::Nothing, shown, Report::Yes(answers)))
}

/// The outcome of a solver's answer.
fn maximum_outcome(answer: Result<MaxAnswer, SolveError>) -> Result<Outcome, EarlyEnd>
    ensures outcome { result ≡ outcomes.maximum_outcome answer }
    ensures readable { IfOk result (λ outcome. IsReadable outcome.shown) }
{
    match answer? {
        MaxAnswer::Optimal(solution, cut) => {
            let report = Report::Yes(Verdict::Max(solution.value));
            let made = OutputText::Solution(solution);
            Ok(Outcome::certified(made, OutputText::Cut(cut), report))
        }
        MaxAnswer::GaveUp => Ok(Outcome::reporting(Report::GaveUp)),
    }
}

/// The outcome of a solver's answer.
fn least_outcome(answer: Result<MinAnswer, SolveError>) -> Result<Outcome, EarlyEnd>
    ensures outcome { result ≡ outcomes.least_outcome answer }
    ensures readable { IfOk result (λ outcome. IsReadable outcome.shown) }
{
    match answer? {
        MinAnswer::Optimal(solution, potentials) => {
            let report = Report::Yes(Verdict::Min(solution.value));
            let made = OutputText::Solution(solution);
            Ok(Outcome::certified(made, OutputText::Potentials(potentials), report))
        }
        MinAnswer::Infeasible(set) => {
            let report = Report::Yes(Verdict::Infeasible);
            Ok(Outcome::certified(OutputText::Nothing, OutputText::Cut(set), report))
        }
        MinAnswer::GaveUp => Ok(Outcome::reporting(Report::GaveUp)),
    }
}

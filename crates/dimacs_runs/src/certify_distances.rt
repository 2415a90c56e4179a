//! Certifies claimed distances.

ghost use Rattle.std.specs.Prelude.{◌≡◌, ◌≢◌, ◌∷◌, [], ℕ, List, Some, Err};
ghost use Rattle.dimacs_records.specs.declared.kinds.TextKind.TheVariants as kinds;
ghost use Rattle.dimacs_claims.specs.LabelTexts.{FitText};
ghost use Rattle.dimacs_jobs.specs.declared.jobs.JudgeKind.TheVariants as judges;
ghost use Rattle.dimacs_jobs.specs.declared.status.RunError.TheVariants.{Device};
ghost use Rattle.dimacs_runs.specs.{Judgings.{CountsDevices}, Certified.{Certified, CertifiesDistances}};
ghost use Rattle.dimacs_runs.specs.{inside.Judgings.{HasFault}, inside.Outcomes.{MayCertify, outcome_of}};

use crate::early_end::EarlyEnd;
use crate::outcome::{Outcome, OutputText};
use crate::report::Report;
use crate::texts_in_turn::read_two;
use dimacs_claims::Distances;
use dimacs_decide::certify_paths;
use dimacs_instance::Graph;
use dimacs_lines::Source;
use dimacs_network::{Network, PlainArcs, WeightArc};
use dimacs_records::{At, Reason, TextKind};
use std::alloc::Global;

/// Certifies claimed distances, by labels.
pub(crate) fn certify_distances<P: Source, Q: Source>(
    alloc: Global,
    graph: &mut P,
    distances: &mut Q,
) -> Result<Outcome, EarlyEnd>
    ensures certifies { (a b : List ℕ) → P.coming graph.old ≡ Some a → Q.coming distances.old ≡ Some b →
        MayCertify (Certified judges.Paths a b) (outcome_of result) }
    ensures faults { CountsDevices (outcome_of result) (P.faults graph.old ∷ Q.faults distances.old ∷ [])
        (P.faults graph.new ∷ Q.faults distances.new ∷ []) }
    ensures stops_at_graph { HasFault kinds.Graph (P.coming graph.old) → distances.new ≡ distances.old }
{
    let (graph, distances): (Graph<PlainArcs<WeightArc>>, _) = read_two(alloc, graph, distances)?;
    answer_distances(alloc, &graph, &distances)
}

/// Refuses distances of a graph with another number of nodes, and decides about the others.
fn answer_distances<N: Network>(
    alloc: Global,
    graph: &Graph<N>,
    distances: &Distances,
) -> Result<Outcome, EarlyEnd>
    ensures certifies { FitText distances.now → MayCertify (CertifiesDistances graph.now distances.now) (outcome_of result) }
    ensures no_device { outcome_of result ≢ Err Device }
{
    if distances.nodes() != graph.network().nodes() {
        let at = At { line: 0, field: 0 };
        let report = Report::Refused(TextKind::Distances, at, Reason::NodesDiffer);
        return Err(EarlyEnd::Report(report));
    }
    answer_blocks(alloc, graph, distances)
}

/// Decides about distances of a graph with this number of nodes.
fn answer_blocks<N: Network>(
    alloc: Global,
    graph: &Graph<N>,
    distances: &Distances,
) -> Result<Outcome, EarlyEnd>
    requires { distances.now.nodes ≡ graph.now.nodes }
    ensures certifies { FitText distances.now → MayCertify (CertifiesDistances graph.now distances.now) (outcome_of result) }
    ensures no_device { outcome_of result ≢ Err Device }
{
    let labels = certify_paths(alloc, graph, distances)?;
    let report = Report::Distances(distances.blocks().len() as u32);
    Ok(Outcome::certified(OutputText::Nothing, OutputText::Labels(labels), report))
}

//! The outcome of a run: texts and a report.

ghost use Rattle.std.specs.Prelude.{◌≡◌, ◌↔◌, ◌∷◌, [], IfOk, IsTrue, Ok, Some};
ghost use Rattle.dimacs_lines.specs.Puts.{Puts};
ghost use Rattle.dimacs_runs.specs.declared.outcome.OutputText.TheVariants.{Nothing};
ghost use Rattle.dimacs_runs.specs.inside.Outcomes.{EndsWriting, IsReadable, text_bytes};
ghost use Rattle.dimacs_runs.specs.inside.Outcomes as outcomes;

use crate::report::Report;
use dimacs_claims::{
    Cut, Labels, Potentials, Solution, write_cut, write_labels, write_potentials, write_solution,
};
use dimacs_jobs::{RunError, Status};
use dimacs_lines::{DeviceFault, Sink};

/// A text to write.
#[derive(Drop)]
pub(crate) enum OutputText {
    Nothing,
    Solution(Solution),
    Cut(Cut),
    Potentials(Potentials),
    Labels(Labels),
}

impl OutputText {
    pub(crate) fn is_nothing(&self) -> bool
        ensures { IsTrue result ↔ (self.now ≡ Nothing) }
    {
        matches!(self, OutputText::Nothing)
    }

    /// Promises that a certificate can be read again, since its type keeps it lawful. Computes nothing.
    fn be_readable(&self)
        ensures { IsReadable self.now }
    {
        match self {
            OutputText::Nothing | OutputText::Solution(_) => {}
            OutputText::Cut(cut) => {
                cut.len();
            }
            OutputText::Potentials(potentials) => {
                potentials.nodes();
            }
            OutputText::Labels(labels) => {
                labels.blocks();
            }
        }
    }

    pub(crate) fn write<K: Sink>(&self, sink: &mut K) -> Result<(), DeviceFault>
        ensures puts { Puts result (K.seen sink.old) (text_bytes self.now) (K.seen sink.new) }
        ensures nothing_written { self.now ≡ Nothing → sink.new ≡ sink.old }
    {
        match self {
            OutputText::Nothing => Ok(()),
            OutputText::Solution(solution) => write_solution(solution, sink),
            OutputText::Cut(cut) => write_cut(cut, sink),
            OutputText::Potentials(potentials) => write_potentials(potentials, sink),
            OutputText::Labels(labels) => write_labels(labels, sink),
        }
    }
}

/// The outcome of a run that had no error.
#[derive(Drop)]
pub struct Outcome {
    /// The solution that a solver made.
    pub(crate) made: OutputText,
    /// What shows the answer: a certificate, labels, a better flow than the claimed one, any feasible flow, or the claimed
    /// flow dealt out to parallel arcs.
    pub(crate) shown: OutputText,
    pub(crate) report: Report,
}

impl Outcome {
    /// The report.
    pub fn report(&self) -> &Report {
        &self.report
    }

    /// The solution that shows the answer, if one does.
    pub fn solution(&self) -> Option<&Solution> {
        match &self.shown {
            OutputText::Solution(solution) => Some(solution),
            _ => None,
        }
    }

    /// Writes what shows the answer.
    pub fn write_shown<K: Sink>(&self, sink: &mut K) -> Result<(), DeviceFault> {
        self.shown.write(sink)
    }

    /// A report without texts.
    pub(crate) fn reporting(report: Report) -> Outcome
        ensures { result ≡ outcomes.reporting report }
    {
        Outcome::with_text(OutputText::Nothing, report)
    }

    /// A yes with what shows it, and with the solution that a solver made.
    pub(crate) fn certified(made: OutputText, shown: OutputText, report: Report) -> Outcome
        ensures outcome { result ≡ record { made = made; shown = shown; report = report } }
        ensures readable { IsReadable shown }
    {
        shown.be_readable();
        Outcome {
            made,
            shown,
            report,
        }
    }

    /// A report with what shows it.
    pub(crate) fn with_text(shown: OutputText, report: Report) -> Outcome
        ensures { result ≡ outcomes.with_text shown report }
    {
        Outcome {
            made: OutputText::Nothing,
            shown,
            report,
        }
    }
}

/// Writes what a solver made, what shows the answer, and the report, in this order, and keeps the outcome. If it is an
/// error, returns that and writes nothing.
pub(crate) fn write_outcome<C: Sink, D: Sink, K: Sink>(
    outcome: Result<Outcome, RunError>,
    made: &mut C,
    shown: &mut D,
    report: &mut K,
    kept: &mut Option<Outcome>,
) -> Result<Status, RunError>
    ensures ends { EndsWriting outcome result
        (C.seen made.old ∷ D.seen shown.old ∷ K.seen report.old ∷ []) (C.seen made.new ∷ D.seen shown.new ∷ K.seen report.new ∷ []) }
    ensures nothing_made { IfOk outcome (λ o. o.made ≡ Nothing) → made.new ≡ made.old }
    ensures kept { IfOk result (λ status. (o : Outcome) × (outcome ≡ Ok o) × (kept.new ≡ Some o)) }
{
    let outcome = outcome?;
    outcome.made.write(made)?;
    outcome.shown.write(shown)?;
    outcome.report.write(report)?;
    let status = outcome.report.status();
    *kept = Some(outcome);
    Ok(status)
}

//! Runs that print one text: its canonical form, or a line that describes it.

ghost use Rattle.std.specs.Prelude.{◌≡◌, ◌≢◌, ◌∷◌, ℕ, List, [], IfOk, Some, Err};
ghost use Rattle.dimacs_jobs.specs.declared.status.RunError.TheVariants.{Memory};
ghost use Rattle.dimacs_runs.specs.{Judgings.{CountsDevices}, declared.text.TextForm.TheVariants.{Canonical, Summary}};
ghost use Rattle.dimacs_runs.specs.{Runs.{Reports, IsPrinted, Prints, in_form}, inside.Judgings.{FaultIn, text_spells}};
ghost use Rattle.dimacs_runs.specs.inside.Outcomes.{KeepsReport};
ghost use Rattle.dimacs_lines.specs.Puts.{Puts};

use crate::discard::Discard;
use crate::early_end::{EarlyEnd, outcome_of};
use crate::outcome::{Outcome, write_outcome};
use crate::texts_in_turn::{read, read_summary};
use dimacs_claims::{Cut, Distances, Labels, Potentials, Solution};
use dimacs_instance::{
    Graph, GraphSummary, MaxInstance, MaxSummary, MinInstance, MinSummary, Queries, Summary,
};
use dimacs_jobs::{RunError, Status};
use dimacs_lines::{DeviceFault, Sink, Source};
use dimacs_network::{ArcView, CapacityArc, PlainArcs, WeightArc};
use dimacs_records::{Text, TextKind};
use std::alloc::Global;

/// A form in which a text is printed.
#[derive(Clone, Copy, Debug, PartialEq, Eq)]
pub enum TextForm {
    /// The canonical text.
    Canonical,
    /// A line that describes it.
    Summary,
}

/// Reads a text of this kind, and prints its canonical form, or the line of its fault.
pub fn run_convert<S: Source, K: Sink>(
    alloc: Global,
    kind: TextKind,
    text: &mut S,
    sink: &mut K,
) -> Result<Status, RunError>
    ensures reports { (bytes : List ℕ) → S.coming text.old ≡ Some bytes
        → Reports (Prints Canonical kind bytes) result (K.seen sink.old).accepted (K.seen sink.new).accepted }
    ensures faults { CountsDevices result (S.faults text.old ∷ (K.seen sink.old).faults ∷ []) (S.faults text.new ∷ (K.seen sink.new).faults ∷ []) }
    ensures nothing_written { S.faults text.new ≢ S.faults text.old → K.seen sink.new ≡ K.seen sink.old }
    ensures memory { result ≡ Err Memory → K.seen sink.new ≡ K.seen sink.old }
{
    run_text(alloc, TextForm::Canonical, kind, text, sink, &mut None)
}

/// Reads a text of this kind, and prints a line that describes it, or the line of its fault. It keeps no arc in memory.
pub fn run_show<S: Source, K: Sink>(
    alloc: Global,
    kind: TextKind,
    text: &mut S,
    sink: &mut K,
) -> Result<Status, RunError>
    ensures reports { (bytes : List ℕ) → S.coming text.old ≡ Some bytes
        → Reports (Prints Summary kind bytes) result (K.seen sink.old).accepted (K.seen sink.new).accepted }
    ensures faults { CountsDevices result (S.faults text.old ∷ (K.seen sink.old).faults ∷ []) (S.faults text.new ∷ (K.seen sink.new).faults ∷ []) }
    ensures nothing_written { S.faults text.new ≢ S.faults text.old → K.seen sink.new ≡ K.seen sink.old }
    ensures memory { result ≡ Err Memory → K.seen sink.new ≡ K.seen sink.old }
{
    run_text(alloc, TextForm::Summary, kind, text, sink, &mut None)
}

/// Reads a text of this kind, and prints it in this form, or the line of its fault, which it keeps.
pub(crate) fn run_text<S: Source, K: Sink>(
    alloc: Global,
    form: TextForm,
    kind: TextKind,
    text: &mut S,
    sink: &mut K,
    kept: &mut Option<Outcome>,
) -> Result<Status, RunError>
    ensures reports { (bytes : List ℕ) → S.coming text.old ≡ Some bytes
        → Reports (Prints form kind bytes) result (K.seen sink.old).accepted (K.seen sink.new).accepted }
    ensures faults { CountsDevices result (S.faults text.old ∷ (K.seen sink.old).faults ∷ []) (S.faults text.new ∷ (K.seen sink.new).faults ∷ []) }
    ensures nothing_written { S.faults text.new ≢ S.faults text.old → K.seen sink.new ≡ K.seen sink.old }
    ensures memory { result ≡ Err Memory → K.seen sink.new ≡ K.seen sink.old }
    ensures kept { IfOk result (λ status. KeepsReport (K.seen sink.old) (K.seen sink.new) kept.old kept.new) }
{
    match (form, kind) {
        (TextForm::Summary, TextKind::Max) => sum_up::<MaxSummary, S, K>(alloc, text, sink, kept),
        (TextForm::Summary, TextKind::Min) => sum_up::<MinSummary, S, K>(alloc, text, sink, kept),
        (TextForm::Summary, TextKind::Graph) => sum_up::<GraphSummary, S, K>(
            alloc, text, sink, kept,
        ),
        (_, TextKind::Max) => {
            print::<MaxInstance<PlainArcs<CapacityArc>>, S, K>(alloc, form, text, sink, kept)
        }
        (_, TextKind::Min) => {
            print::<MinInstance<PlainArcs<ArcView>>, S, K>(alloc, form, text, sink, kept)
        }
        (_, TextKind::Graph) => print::<Graph<PlainArcs<WeightArc>>, S, K>(
            alloc, form, text, sink, kept,
        ),
        (_, TextKind::Queries) => print::<Queries, S, K>(alloc, form, text, sink, kept),
        (_, TextKind::Solution) => print::<Solution, S, K>(alloc, form, text, sink, kept),
        (_, TextKind::Cut) => print::<Cut, S, K>(alloc, form, text, sink, kept),
        (_, TextKind::Potentials) => print::<Potentials, S, K>(alloc, form, text, sink, kept),
        (_, TextKind::Labels) => print::<Labels, S, K>(alloc, form, text, sink, kept),
        (_, TextKind::Distances) => print::<Distances, S, K>(alloc, form, text, sink, kept),
    }
}

fn print<T: Text, S: Source, K: Sink>(
    alloc: Global,
    form: TextForm,
    text: &mut S,
    sink: &mut K,
    kept: &mut Option<Outcome>,
) -> Result<Status, RunError>
    ensures reports { (bytes : List ℕ) → S.coming text.old ≡ Some bytes
        → Reports (FaultIn (text_spells T.kind T.spells bytes) (IsPrinted (in_form form T.canonical T.shown))) result
        (K.seen sink.old).accepted (K.seen sink.new).accepted }
    ensures faults { CountsDevices result (S.faults text.old ∷ (K.seen sink.old).faults ∷ []) (S.faults text.new ∷ (K.seen sink.new).faults ∷ []) }
    ensures nothing_written { S.faults text.new ≢ S.faults text.old → K.seen sink.new ≡ K.seen sink.old }
    ensures memory { result ≡ Err Memory → K.seen sink.new ≡ K.seen sink.old }
    ensures kept { IfOk result (λ status. KeepsReport (K.seen sink.old) (K.seen sink.new) kept.old kept.new) }
{
    match read::<T, S>(alloc, text) {
        Ok(value) => {
            write_in_form(&value, form, sink)?;
            Ok(Status::Done)
        }
        Err(ended) => {
            let answer = outcome_of(Err(ended));
            write_outcome(answer, &mut Discard, &mut Discard, sink, kept)
        }
    }
}

fn write_in_form<T: Text, K: Sink>(
    value: &T,
    form: TextForm,
    sink: &mut K,
) -> Result<(), DeviceFault>
    ensures puts { Puts result (K.seen sink.old) (in_form form T.canonical T.shown (T.content value.now)) (K.seen sink.new) }
{
    match form {
        TextForm::Canonical => value.write(sink),
        TextForm::Summary => value.show(sink),
    }
}

/// As `print` with the form `Summary`, but keeps only a summary in memory.
fn sum_up<T: Summary, S: Source, K: Sink>(
    alloc: Global,
    text: &mut S,
    sink: &mut K,
    kept: &mut Option<Outcome>,
) -> Result<Status, RunError>
    ensures reports { (bytes : List ℕ) → S.coming text.old ≡ Some bytes
        → Reports (FaultIn (text_spells T.kind T.spells bytes) (IsPrinted T.shown)) result (K.seen sink.old).accepted (K.seen sink.new).accepted }
    ensures faults { CountsDevices result (S.faults text.old ∷ (K.seen sink.old).faults ∷ []) (S.faults text.new ∷ (K.seen sink.new).faults ∷ []) }
    ensures nothing_written { S.faults text.new ≢ S.faults text.old → K.seen sink.new ≡ K.seen sink.old }
    ensures memory { result ≡ Err Memory → K.seen sink.new ≡ K.seen sink.old }
    ensures kept { IfOk result (λ status. KeepsReport (K.seen sink.old) (K.seen sink.new) kept.old kept.new) }
{
    match read_summary::<T, S>(alloc, text) {
        Ok(summary) => {
            summary.show(sink)?;
            Ok(Status::Done)
        }
        Err(ended) => {
            let answer = outcome_of(Err(ended));
            write_outcome(answer, &mut Discard, &mut Discard, sink, kept)
        }
    }
}

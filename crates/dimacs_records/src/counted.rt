//! One reading for all kinds of text that begin with a problem line.

ghost use Rattle.std.specs.Prelude.{◌≡◌, ◌++◌, ◌∷◌, [], ℕ, List, None, Some, IfErr, IfOk, OnOk, OnErr, true};
ghost use Rattle.dimacs_lines.specs.Lines.{lines};
ghost use Rattle.dimacs_records.specs.{declared.kinds.TextKind.{TextKind}, declared.order.Context.{Context}};
ghost use Rattle.dimacs_records.specs.{declared.records.Record.{Record}, Conditions.{needs_problem}, Faults.{Fault}};
ghost use Rattle.dimacs_records.specs.{Earlier.{is_problem}, Spelling.{kind_of}, Takings.{StandsFor}};
ghost use Rattle.dimacs_records.specs.Readings.{CountsRead, LineRecord, IsAllowed, IsComplete, IsOfKind, RefusesEnd, RefusesRecord, records_of};
ghost use Rattle.dimacs_records.specs.Tests.{Passes, PassesEnd, end_context_of, context_after};
ghost use Rattle.dimacs_records.specs.Texts.{Reads, SpellsValue, AreFaultless};

use crate::driver::read_text;
use crate::faults::{ReadError, TakeError};
use crate::kinds::TextKind;
use crate::order::{Context, is_problem, test_end, test_record};
use crate::reading::Reading;
use crate::reasons::Reason;
use crate::records::Record;
use dimacs_lines::{Memory, Source};
use std::alloc::Global;

/// The state of a text after its problem line, and after each further record. `CountedReading` reads the kinds of text
/// that implement this.
pub trait Builder: Drop {
    /// What the text is read into.
    type Value;

    ghost kind: { TextKind };

    /// Which records may lead to this state.
    ghost built_from: { Self → List Record → Type 0 };

    /// The context of one more record.
    ghost context: { Self → Record → Context };

    /// The context of the end.
    ghost end_context: { Self → Context };

    /// Which value the records of a text give.
    ghost gives: { List LineRecord → Self.Value → Type 0 };

    /// The kind of text.
    fn kind() -> TextKind
        ensures kind { result ≡ kind }
        ensures faultless { (rs : List LineRecord) (value : Self.Value) → gives rs value → AreFaultless kind (records_of rs) }
        ensures one_value { (rs : List LineRecord) (value other : Self.Value) → gives rs value → gives rs other → value ≡ other };

    /// The state after the problem line.
    fn begin(alloc: Global, problem: Record) -> Self
        requires of_kind { IsOfKind kind problem }
        requires problem_line { is_problem problem ≡ true }
        ensures { built_from result (problem ∷ []) };

    /// The context of one more record.
    fn context(&self, rec: Record) -> Context
        requires { IsOfKind kind rec }
        ensures context { result ≡ context self.now rec }
        ensures of_records { (rs : List Record) → built_from self.now rs → result ≡ context_after rs rec };

    /// Adds a record that passed all tests.
    fn keep(&mut self, rec: Record) -> Result<(), Memory>
        requires of_kind { IsOfKind kind rec }
        requires passes { Passes (context self.old rec) rec }
        ensures added { OnOk result ((rs : List Record) → built_from self.old rs → built_from self.new (rs ++ rec ∷ [])) }
        ensures unchanged { OnErr result (self.new ≡ self.old) };

    /// The context of the end.
    fn end_context(&self) -> Context
        ensures context { result ≡ end_context self.now }
        ensures of_records { (rs : List Record) → built_from self.now rs → result ≡ end_context_of kind rs };

    /// The value of all records, after the tests at the end.
    fn value(self, alloc: Global) -> Result<Self::Value, Memory>
        requires { PassesEnd kind (end_context self) }
        ensures { IfOk result (λ value. (rs : List LineRecord) → built_from self (records_of rs) → gives rs value) };

    /// This kind of text begins with a problem line.
    ghost has_problem: { needs_problem kind ≡ true };
}

/// Reads a text that begins with a problem line. It makes all tests in their order; `B` keeps the state.
#[derive(Drop)]
pub struct CountedReading<B: Builder> {
    alloc: Global,
    builder: Option<B>,
}

impl<B: Builder> CountedReading<B> {
    /// A reading before the first record.
    pub fn new(alloc: Global) -> CountedReading<B>
        ensures { result.builder ≡ None }
    {
        CountedReading {
            alloc,
            builder: None,
        }
    }

    /// As `finish`, for a reading behind a reference. It then is as before the first record.
    pub fn end(&mut self) -> Result<B::Value, TakeError>
        ensures given { IfOk result (λ value. (rs : List LineRecord) → StandsFor B.built_from self.old.builder (records_of rs) → B.gives rs value) }
        ensures complete { OnOk result ((rs : List LineRecord) → StandsFor B.built_from self.old.builder (records_of rs)
            → IsComplete B.kind (records_of rs)) }
        ensures refused { IfErr result (λ error. (rs : List LineRecord) → StandsFor B.built_from self.old.builder (records_of rs)
            → RefusesEnd B.kind (records_of rs) error) }
        ensures new { self.new.builder ≡ None }
    {
        let Some(builder) = self.builder.take() else {
            return Err(TakeError::refused(0, Reason::ProblemMissing));
        };
        test_end(B::kind(), builder.end_context())?;
        Ok(builder.value(self.alloc)?)
    }
}

impl<B: Builder> Reading for CountedReading<B> {
    type Value = B::Value;

    ghost kind = { λ reading. B.kind };

    ghost stands_for = { λ reading rs. StandsFor B.built_from reading.builder (records_of rs) };

    ghost gives = { λ rs value. B.gives rs value };

    #[inline(always)]
    fn take(&mut self, _line: u64, rec: Record) -> Result<(), TakeError> {
        match &mut self.builder {
            Some(builder) => {
                test_record(builder.context(rec), rec)?;
                builder.keep(rec)?;
            }
            None => {
                test_first(rec)?;
                self.builder = Some(B::begin(self.alloc, rec));
            }
        }
        Ok(())
    }

    fn finish(self) -> Result<B::Value, TakeError> {
        let mut reading = self;
        reading.end()
    }
}

/// Reads a text that begins with a problem line: its value or its first fault.
pub fn read_counted<B: Builder, S: Source>(
    alloc: Global,
    source: &mut S,
) -> Result<B::Value, ReadError>
    ensures reads { (text : List ℕ) → S.coming source.old ≡ Some text
        → Reads (SpellsValue B.kind B.gives (lines text)) (Fault B.kind (lines text)) result }
    ensures faults { CountsRead result (S.faults source.old) (S.faults source.new) }
{
    read_text(alloc, B::kind(), CountedReading::<B>::new(alloc), source)
}

/// The first record must be a problem line.
fn test_first(rec: Record) -> Result<(), TakeError>
    ensures problem { OnOk result (is_problem rec ≡ true) }
    ensures allowed { OnOk result (IsAllowed [] rec) }
    ensures refused { IfErr result (λ error. needs_problem (kind_of rec) ≡ true → RefusesRecord [] rec error) }
{
    if is_problem(rec) {
        Ok(())
    } else {
        Err(TakeError::refused(0, Reason::ProblemMissing))
    }
}

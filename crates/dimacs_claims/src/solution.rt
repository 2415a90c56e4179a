//! Solutions: a value or cost, and the flows of arcs.

ghost use Rattle.std.specs.Prelude.{◌≡◌, ◌<◌, ℕ, List, [], Some, IfOk, length, map, option_map, slice_get};
ghost use Rattle.std.specs.Result.{result_map_both};
ghost use Rattle.dimacs_claims.specs.declared.place.Entry.{Entry};
ghost use Rattle.dimacs_lines.specs.{Lines.{lines}, Puts.{Puts}};
ghost use Rattle.dimacs_records.specs.declared.kinds.TextKind.TheVariants as kinds;
ghost use Rattle.dimacs_records.specs.{Faults.{Fault}, Readings.{CountsRead}, Texts.{Reads}};
ghost use Rattle.dimacs_claims.specs.SolutionTexts.{SolutionValue, IsLawful, SpellsSolution, canonical_solution, claimed, entry_line, entry_record, renumbered, shown_solution};
ghost use Rattle.dimacs_claims.specs.SolutionReading.{GivesPlaced, IsPlaced, IsPlacedLawful, ReadsLike, StandsForSolution};
ghost use Rattle.dimacs_claims.specs.inside.SolutionReading.{value_context};

use crate::place::{Entry, Place, Placed};
use dimacs_lines::{DeviceFault, Sink, Source};
use dimacs_records::{
    Context, Part, ReadError, Reading, Record, TakeError, Text, TextKind, Writable, put_line,
    put_text, read_text, test_end, test_record,
};
use std::alloc::Global;

/// A claimed flow: its value or cost, and the flows of arcs. The fields may hold anything; what `read_solution` reads
/// is lawful.
#[derive(Debug, PartialEq, Eq, Drop)]
pub struct Solution {
    pub value: i128,
    /// The line of the text that has the value.
    pub value_line: u64,
    /// The entries in the order of the text.
    pub entries: Vec<Entry>,
}

/// A value and its line.
#[derive(Clone, Copy)]
pub(crate) struct ValueLine {
    value: i128,
    line: u64,
}

/// Reads the records of a solution. Passes the entries to a place, and keeps the value, which may come anywhere.
#[derive(Drop)]
pub struct SolutionReading<P: Place> {
    value: Option<ValueLine>,
    place: P,
}

impl<P: Place> SolutionReading<P> {
    /// A reading before the first record.
    pub fn new(place: P) -> SolutionReading<P>
        ensures begins { (entries : List Entry) → P.stands_for place entries
            → StandsForSolution result.value (P.stands_for result.place) (map entry_line entries) }
        ensures fixed { P.fixed result.place ≡ P.fixed place }
    {
        SolutionReading { value: None, place }
    }

    /// The context of a value, or of the end.
    #[inline(always)]
    fn context(&self) -> Context
        ensures { result ≡ value_context self.now.value }
    {
        Context {
            valued: self.value.is_some(),
            ..Context::of(None, 0)
        }
    }
}

impl<P: Place> Reading for SolutionReading<P> {
    type Value = Placed<P>;

    ghost kind = { λ reading. kinds.Solution };

    ghost stands_for = { λ reading rs. StandsForSolution reading.value (P.stands_for reading.place) rs };

    ghost gives = { λ rs placed. GivesPlaced placed.value placed.value_line (P.stands_for placed.place) rs };

    ghost keeps = { λ reading placed. P.fixed placed.place ≡ P.fixed reading.place };

    #[inline(always)]
    fn take(&mut self, line: u64, rec: Record) -> Result<(), TakeError> {
        match rec {
            Record::SolutionValue { value } => {
                test_record(self.context(), rec)?;
                self.value = Some(ValueLine { value, line });
            }
            Record::SolutionEntry { tail, head, flow } => {
                self.place.place(Entry {
                    tail,
                    head,
                    flow,
                    line,
                })?;
            }
            _ => unreachable!(),
        }
        Ok(())
    }

    fn finish(self) -> Result<Placed<P>, TakeError> {
        test_end(TextKind::Solution, self.context())?;
        let Some(line) = self.value else {
            unreachable!()
        };
        Ok(Placed {
            value: line.value,
            value_line: line.line,
            place: self.place,
        })
    }
}

/// Reads a text of a solution, without comparing it with an instance. `docs/TEXTS.md` has the rules and the order of
/// faults.
pub fn read_solution<S: Source>(alloc: Global, source: &mut S) -> Result<Solution, ReadError>
    ensures reads { (text : List ℕ) → S.coming source.old ≡ Some text
        → Reads (SpellsSolution text) (Fault kinds.Solution (lines text)) (result_map_both claimed (λ e. e) result) }
    ensures lawful { IfOk result (λ solution. IsLawful (claimed solution)) }
    ensures faults { CountsRead result (S.faults source.old) (S.faults source.new) }
{
    let placed = read_solution_into(alloc, Vec::new(alloc), source)?;
    Ok(Solution {
        value: placed.value,
        value_line: placed.value_line,
        entries: placed.place,
    })
}

/// Like `read_solution`, but passes each entry to the place as soon as it is read.
pub fn read_solution_into<P: Place, S: Source>(
    alloc: Global,
    place: P,
    source: &mut S,
) -> Result<Placed<P>, ReadError>
    requires empty { P.stands_for place [] }
    ensures reads { (text : List ℕ) → S.coming source.old ≡ Some text
        → ReadsLike
        (λ solution placed. IsPlaced placed.value placed.value_line (P.stands_for placed.place) solution) text result }
    ensures lawful { IfOk result (λ placed. IsPlacedLawful placed.value placed.value_line (P.stands_for placed.place)) }
    ensures fixed { IfOk result (λ placed. P.fixed placed.place ≡ P.fixed place) }
    ensures faults { CountsRead result (S.faults source.old) (S.faults source.new) }
{
    read_text(
        alloc,
        TextKind::Solution,
        SolutionReading::new(place),
        source,
    )
}

/// Writes the canonical text of a solution: the value on line 1, then the entries.
pub fn write_solution<S: Sink>(solution: &Solution, sink: &mut S) -> Result<(), DeviceFault>
    ensures puts { Puts result (S.seen sink.old) (canonical_solution (claimed solution.now)) (S.seen sink.new) }
    ensures round_trip { IsLawful (claimed solution.now) → SpellsSolution (canonical_solution (claimed solution.now)) (renumbered (claimed solution.now)) }
    ensures same_text { IsLawful (claimed solution.now) → (read : SolutionValue)
        → SpellsSolution (canonical_solution (claimed solution.now)) read
        → canonical_solution read ≡ canonical_solution (claimed solution.now) }
{
    let value = solution.value;
    let entries = solution.entries.as_slice();
    put_text(
        sink,
        &[Record::SolutionValue { value }],
        entries.len(),
        |i|
            requires { i < length entries.now }
            ensures { result ≡ option_map entry_record (slice_get entries.entry.now i) }
        { Some(entries[i].record()) },
    )
}

impl Writable for Solution {
    ghost kind = { kinds.Solution };

    ghost Content = { SolutionValue };

    ghost content = { λ s. claimed s };

    ghost spells = { λ text s. SpellsSolution text s };

    ghost lawful = { λ s. IsLawful (claimed s) };

    ghost canonical = { λ s. canonical_solution s };

    ghost shown = { λ s. shown_solution s };

    fn kind() -> TextKind {
        TextKind::Solution
    }

    fn write<K: Sink>(&self, sink: &mut K) -> Result<(), DeviceFault> {
        write_solution(self, sink)
    }

    fn show<K: Sink>(&self, sink: &mut K) -> Result<(), DeviceFault> {
        put_line(
            sink,
            b"i",
            &[
                Part::Word(b"solution"),
                Part::Wide(self.value),
                Part::Wide(self.entries.len() as i128),
            ],
        )
    }
}

impl Text for Solution {
    fn read<S: Source>(alloc: Global, source: &mut S) -> Result<Self, ReadError> {
        read_solution(alloc, source)
    }
}

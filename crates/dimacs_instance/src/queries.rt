//! Queries for distances.

ghost use Rattle.std.specs.{Prelude.{◌≡◌, ◌<◌, ℕ, List, Some, IfOk, length, refl, slice_get}, Result.{result_map_both}};
ghost use Rattle.dimacs_lines.specs.{Lines.{lines}, OutputBuffers.{Appends}, Puts.{Puts}};
ghost use Rattle.dimacs_records.specs.declared.kinds.TextKind.TheVariants as kinds;
ghost use Rattle.dimacs_records.specs.{declared.records.Record.TheVariants.{QueriesProblem}, Faults.{Fault}};
ghost use Rattle.dimacs_records.specs.{Canonical.{canonical_line}, Readings.{CountsRead}, Texts.{Reads}};
ghost use Rattle.dimacs_instance.specs.QueryTexts.{QueriesValue, AreLawful, GivesQueries, SpellsQueries, asked, canonical_queries, kind_asked, query_lines, shown_queries};
ghost use Rattle.dimacs_instance.specs.QueriesReading.{queries_begun_records, plain_context, is_of_others, context};

use dimacs_lines::{DeviceFault, Memory, OutputBuffer, Sink, Source};
use dimacs_records::{
    Builder, Context, CountedReading, Declared, Part, QueryKind, ReadError, Record, Text, TextKind,
    Writable, put_line, read_counted, write_line, write_lines,
};
use std::alloc::Global;
use std::marker::Model;

/// Queries for distances. Callers may build any lists; those read from a text are lawful.
#[derive(Drop)]
pub enum Queries {
    /// The distances from each of these nodes to all nodes.
    Sources(Vec<u32>),
    /// The distance from the first node to the second, for each pair.
    Pairs(Vec<(u32, u32)>),
}

impl Queries {
    /// Whether they ask for sources or for pairs.
    pub fn kind(&self) -> QueryKind
        ensures { result ≡ kind_asked (asked self.now) }
    {
        match self {
            Queries::Sources(_) => QueryKind::Sources,
            Queries::Pairs(_) => QueryKind::Pairs,
        }
    }

    /// The number of queries.
    pub fn len(&self) -> usize
        ensures { result ≡ length (query_lines (asked self.now)) }
    {
        match self {
            Queries::Sources(ids) => ids.len(),
            Queries::Pairs(pairs) => pairs.len(),
        }
    }

    /// Whether the record is a query of the other kind.
    #[inline(always)]
    fn is_of_others(&self, rec: Record) -> bool
        ensures { result ≡ is_of_others rec (asked self.now) }
    {
        match rec {
            Record::SourceQuery { .. } => matches!(self, Queries::Pairs(_)),
            Record::PairQuery { .. } => matches!(self, Queries::Sources(_)),
            _ => false,
        }
    }

    #[inline(always)]
    fn line(&self, i: usize) -> Record
        requires { i < length (query_lines (asked self.now)) }
        ensures { slice_get (query_lines (asked self.now)) i ≡ Some result }
    {
        match self {
            Queries::Sources(ids) => Record::SourceQuery { id: ids[i] },
            Queries::Pairs(pairs) => {
                let (from, to) = pairs[i];
                Record::PairQuery { from, to }
            }
        }
    }
}

/// Queries whose IDs and number are in their ranges.
#[derive(Drop)]
pub struct LawfulQueries {
    queries: Queries,
}

impl Model for LawfulQueries {
    ghost use Rattle.dimacs_instance.specs.QueryTexts.{QueriesValue, AreLawful, asked};

    ghost Value = { QueriesValue };

    ghost view = { λ lawful. asked lawful.queries };

    ghost invariant = { λ lawful. AreLawful (asked lawful.queries) };
}

impl LawfulQueries {
    /// The queries themselves.
    pub fn into_queries(self) -> Queries
        ensures same { asked result ≡ self }
        ensures lawful { AreLawful (asked result) }
    {
        self.queries
    }
}

/// Reads the records of queries.
pub type QueriesReading = CountedReading<QueriesBuilder>;

/// Queries while their text is read: those after the problem line.
#[derive(Drop)]
pub struct QueriesBuilder {
    declared: u32,
    queries: Queries,
}

impl Model for QueriesBuilder {
    ghost use Rattle.dimacs_instance.specs.QueryTexts.{asked};
    ghost use Rattle.dimacs_instance.specs.QueriesReading.{QueriesBegun};
    ghost use Rattle.dimacs_instance.specs.inside.QueriesReading.{AreQueriesBegun};

    ghost Value = { QueriesBegun };

    ghost view = { λ b. record { declared = b.declared; queries = asked b.queries } };

    ghost invariant = { λ b. AreQueriesBegun (record { declared = b.declared; queries = asked b.queries }) };
}

impl Builder for QueriesBuilder {
    type Value = LawfulQueries;

    ghost kind = { kinds.Queries };

    ghost built_from = { λ begun rs. rs ≡ queries_begun_records begun };

    ghost context = { λ begun r. context begun r };

    ghost end_context = { λ begun. plain_context begun };

    ghost gives = { λ rs queries. GivesQueries rs queries };

    #[tactic(auto, using(crate::proofs::QueriesLemmas::queries_faultless, crate::proofs::QueriesLemmas::one_queries))]
    fn kind() -> TextKind {
        TextKind::Queries
    }

    fn begin(alloc: Global, problem: Record) -> QueriesBuilder {
        let Record::QueriesProblem { asks, count } = problem else {
            unreachable!()
        };
        let queries = match asks {
            QueryKind::Sources => Queries::Sources(Vec::new(alloc)),
            QueryKind::Pairs => Queries::Pairs(Vec::new(alloc)),
        };
        QueriesBuilder {
            declared: count,
            queries,
        }
    }

    #[tactic(auto, using(crate::proofs::QueriesLemmas::context_by_records))]
    #[inline(always)]
    fn context(&self, rec: Record) -> Context {
        Context {
            misplaced: self.queries.is_of_others(rec),
            ..self.end_context()
        }
    }

    #[inline(always)]
    fn keep(&mut self, rec: Record) -> Result<(), Memory> {
        match rec {
            Record::SourceQuery { id } => {
                let Queries::Sources(ids) = &mut self.queries else {
                    unreachable!()
                };
                ids.push(id)?;
            }
            Record::PairQuery { from, to } => {
                let Queries::Pairs(pairs) = &mut self.queries else {
                    unreachable!()
                };
                pairs.push((from, to))?;
            }
            _ => unreachable!(),
        }
        Ok(())
    }

    #[tactic(auto, using(crate::proofs::QueriesLemmas::plain_context_by_records))]
    #[inline(always)]
    fn end_context(&self) -> Context {
        let count = self.declared;
        Context::of(
            Some(Declared { nodes: None, count }),
            self.queries.len() as u32,
        )
    }

    fn value(self, _alloc: Global) -> Result<LawfulQueries, Memory> {
        Ok(LawfulQueries {
            queries: self.queries,
        })
    }

    ghost has_problem = { refl };
}

/// Reads the text of queries. `docs/TEXTS.md` has the rules and the order of faults.
pub fn read_queries<S: Source>(alloc: Global, source: &mut S) -> Result<Queries, ReadError>
    ensures reads { (text : List ℕ) → S.coming source.old ≡ Some text
        → Reads (SpellsQueries text) (Fault kinds.Queries (lines text)) (result_map_both asked (λ e. e) result) }
    ensures lawful { IfOk result (λ queries. AreLawful (asked queries)) }
    ensures faults { CountsRead result (S.faults source.old) (S.faults source.new) }
{
    match read_counted::<QueriesBuilder, S>(alloc, source) {
        Ok(lawful) => Ok(lawful.into_queries()),
        Err(error) => Err(error),
    }
}

/// Writes the canonical text of queries. Lists that aren't lawful are written, too.
pub fn write_queries<S: Sink>(queries: &Queries, sink: &mut S) -> Result<(), DeviceFault>
    ensures puts { Puts result (S.seen sink.old) (canonical_queries (asked queries.now)) (S.seen sink.new) }
    ensures round_trip { AreLawful (asked queries.now) → SpellsQueries (canonical_queries (asked queries.now)) (asked queries.now) }
    ensures same_text { AreLawful (asked queries.now) → (read : QueriesValue)
        → SpellsQueries (canonical_queries (asked queries.now)) read
        → canonical_queries read ≡ canonical_queries (asked queries.now) }
{
    let mut output = OutputBuffer::new();
    write_problem(&mut output, sink, queries.kind(), queries.len());
    write_lines(
        &mut output,
        sink,
        queries.len(),
        |i|
            requires { i < length (query_lines (asked queries.now)) }
            ensures { result ≡ slice_get (query_lines (asked queries.entry.now)) i }
        { Some(queries.line(i)) },
    );
    output.finish(sink)
}

/// Writes the problem line, even if its number is out of range.
fn write_problem<S: Sink>(output: &mut OutputBuffer, sink: &mut S, asks: QueryKind, count: usize)
    ensures { Appends (canonical_line (QueriesProblem asks count)) (S.seen sink.old) output.old (S.seen sink.new) output.new }
{
    write_line(
        output,
        sink,
        b"p",
        &[
            Part::Word(b"aux"),
            Part::Word(b"sp"),
            Part::Word(asks.word()),
            Part::Wide(count as i128),
        ],
    );
}

impl Writable for Queries {
    ghost kind = { kinds.Queries };

    ghost Content = { QueriesValue };

    ghost content = { λ q. asked q };

    ghost spells = { λ text q. SpellsQueries text q };

    ghost lawful = { λ q. AreLawful (asked q) };

    ghost canonical = { λ q. canonical_queries q };

    ghost shown = { λ q. shown_queries q };

    fn kind() -> TextKind {
        TextKind::Queries
    }

    fn write<K: Sink>(&self, sink: &mut K) -> Result<(), DeviceFault> {
        write_queries(self, sink)
    }

    fn show<K: Sink>(&self, sink: &mut K) -> Result<(), DeviceFault> {
        let word = self.kind().word();
        put_line(
            sink,
            b"i",
            &[Part::Word(word), Part::Wide(self.len() as i128)],
        )
    }
}

impl Text for Queries {
    fn read<S: Source>(alloc: Global, source: &mut S) -> Result<Self, ReadError> {
        read_queries(alloc, source)
    }
}

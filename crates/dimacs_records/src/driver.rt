//! Reading a whole text.

ghost use Rattle.std.specs.Prelude.{◌≡◌, ◌≢◌, ◌+◌, ◌≤◌, [], ℕ, List, Option, Some, IfOk, IfErr, IfSome, OnOk, length, take};
ghost use Rattle.std.specs.Option.{option_len};
ghost use Rattle.dimacs_lines.specs.{Devices.{before_piece}, Lines.{lines, AreWholeLines}, Reader.{text_left}};
ghost use Rattle.dimacs_lines.specs.{declared.reader.Progress.TheVariants.{Open}, Limits.{most_lines}};
ghost use Rattle.dimacs_records.specs.{declared.faults.ReadError.TheVariants.{Device}, inside.Plain.{TakesPlain}};
ghost use Rattle.dimacs_records.specs.declared.records.Record.{Record};
ghost use Rattle.dimacs_records.specs.Readings.{HasTaken, IsReadWhole, ReadsAll, ReadsLines, CountsRead, IsGivenByLines, numbered};
ghost use Rattle.dimacs_records.specs.inside.Driver.{IsReadSoFar, ComesAfter, ReadsNext, ReadsSome, TakesLine, read_error, lines_error};

use crate::faults::{At, ReadError, TakeError};
use crate::kinds::TextKind;
use crate::lines::record;
use crate::plain::{PlainLines, plain_line};
use crate::reading::Reading;
use crate::reasons::Reason;
use dimacs_lines::{Lines, LinesError, MAX_HELD, MAX_LINES, Source};
use std::alloc::Global;

/// Reads a whole text: the value that its records give, or its first fault.
///
/// After an error it reads no more. How far it has read past a refused line isn't specified.
pub fn read_text<R: Reading, S: Source>(
    alloc: Global,
    kind: TextKind,
    reading: R,
    source: &mut S,
) -> Result<R::Value, ReadError>
    requires kind { R.kind reading ≡ kind }
    requires new { R.stands_for reading [] }
    ensures reads { (text : List ℕ) → S.coming source.old ≡ Some text → ReadsLines kind R.gives (lines text) result }
    ensures spelled { IfOk result (λ value. IsGivenByLines kind R.gives value) }
    ensures kept { IfOk result (λ value. R.keeps reading value) }
    ensures faults { CountsRead result (S.faults source.old) (S.faults source.new) }
{
    let mut reading = reading;
    let count = read_records(alloc, kind, &mut reading, source)?;
    end_text(reading, count)
}

/// Passes the records of a whole text to a reading, which the caller keeps. Returns the number of lines. `end_text` makes
/// the tests at the end.
pub fn read_records<R: Reading, S: Source>(
    alloc: Global,
    kind: TextKind,
    reading: &mut R,
    source: &mut S,
) -> Result<u64, ReadError>
    requires kind { R.kind reading.old ≡ kind }
    requires new { R.stands_for reading.old [] }
    ensures kind { R.kind reading.new ≡ kind }
    ensures reads { (text : List ℕ) → S.coming source.old ≡ Some text → ReadsAll kind (lines text) (R.stands_for reading.new) result }
    ensures within_limit { IfOk result (λ count. count ≤ most_lines) }
    ensures spelled { IfOk result (λ count. HasTaken kind (count + 1) (R.stands_for reading.new)) }
    ensures fixed { R.fixed reading.new ≡ R.fixed reading.old }
    ensures kept { (value : R.Value) → R.keeps reading.new value → R.keeps reading.old value }
    ensures faults { CountsRead result (S.faults source.old) (S.faults source.new) }
{
    let mut lines = Lines::new(alloc)?;
    read_lines(kind, &mut lines, reading, source)
}

/// The value of a reading that took the records of a text with so many lines, or the fault at its end.
pub fn end_text<R: Reading>(reading: R, count: u64) -> Result<R::Value, ReadError>
    requires { count ≤ most_lines }
    ensures reads { (all : List (List ℕ)) → IsReadWhole (R.kind reading) all count (R.stands_for reading)
        → ReadsLines (R.kind reading) R.gives all result }
    ensures spelled { IfOk result (λ value. HasTaken (R.kind reading) (count + 1) (R.stands_for reading) → IsGivenByLines (R.kind reading) R.gives value) }
    ensures kept { IfOk result (λ value. R.keeps reading value) }
    ensures no_io_error { IfErr result (λ error. error ≢ Device) }
{
    match reading.finish() {
        Ok(value) => Ok(value),
        Err(error) => Err(at_line(count + 1, error)),
    }
}

/// Reads the remaining lines. Returns the number of lines of the text.
fn read_lines<R: Reading, S: Source>(
    kind: TextKind,
    lines: &mut Lines,
    reading: &mut R,
    source: &mut S,
) -> Result<u64, ReadError>
    requires kind { R.kind reading.old ≡ kind }
    requires open { lines.old.progress ≡ Open }
    requires within_limit { lines.old.given ≤ most_lines }
    ensures kind { R.kind reading.new ≡ kind }
    ensures within_limit { IfOk result (λ count. count ≤ most_lines) }
    ensures reads { (all : List (List ℕ)) → IsReadSoFar kind all lines.old.given (text_left lines.old (S.coming source.old)) (R.stands_for reading.old)
        → ReadsAll kind all (R.stands_for reading.new) result }
    ensures spelled { IfOk result (λ count. HasTaken kind (lines.old.given + 1) (R.stands_for reading.old)
        → HasTaken kind (count + 1) (R.stands_for reading.new)) }
    ensures fixed { R.fixed reading.new ≡ R.fixed reading.old }
    ensures kept { (value : R.Value) → R.keeps reading.new value → R.keeps reading.old value }
    ensures faults { CountsRead result (S.faults source.old) (S.faults source.new) }
{
    loop {
        take_held(kind, lines, reading)?;
        let count = lines.given();
        if read_line(kind, lines, reading, source)?.is_none() {
            return Ok(count);
        }
    }
}

/// Takes the lines in plain form at the front of the buffer. Close to the limit on lines it takes none, and leaves the
/// test to `Lines`.
#[inline(always)]
fn take_held<R: Reading>(
    kind: TextKind,
    lines: &mut Lines,
    reading: &mut R,
) -> Result<(), ReadError>
    requires kind { R.kind reading.old ≡ kind }
    ensures kind { R.kind reading.new ≡ kind }
    ensures progress { lines.new.progress ≡ lines.old.progress }
    ensures no_fewer { lines.old.given ≤ lines.new.given }
    ensures within_limit { lines.old.given ≤ most_lines → lines.new.given ≤ most_lines }
    ensures reads { (all : List (List ℕ)) (coming : Option (List ℕ))
        → IsReadSoFar kind all lines.old.given (text_left lines.old coming) (R.stands_for reading.old)
        → ReadsSome kind all lines.new.given (text_left lines.new coming) (R.stands_for reading.new) result }
    ensures spelled { OnOk result (HasTaken kind (lines.old.given + 1) (R.stands_for reading.old)
        → HasTaken kind (lines.new.given + 1) (R.stands_for reading.new)) }
    ensures fixed { R.fixed reading.new ≡ R.fixed reading.old }
    ensures kept { (value : R.Value) → R.keeps reading.new value → R.keeps reading.old value }
    ensures no_io_error { IfErr result (λ error. error ≢ Device) }
{
    if lines.given() > MAX_LINES - MAX_HELD as u64 {
        return Ok(());
    }
    let taken = take_plain(kind, lines.ahead(), lines.given(), reading)?;
    lines.skip(taken.bytes, taken.lines);
    Ok(())
}

/// Passes the records of the lines in plain form at the front of the held bytes to the reading. Each reading has one such
/// loop for all sources, into which its lines are inlined.
#[inline(never)]
fn take_plain<R: Reading>(
    kind: TextKind,
    held: &[u8],
    given: u64,
    reading: &mut R,
) -> Result<PlainLines, ReadError>
    requires kind { R.kind reading.old ≡ kind }
    requires within_limit { given + length held.now ≤ most_lines }
    ensures kind { R.kind reading.new ≡ kind }
    ensures within { IfOk result (λ taken. taken.bytes ≤ length held.now) }
    ensures whole { IfOk result (λ taken. AreWholeLines (take taken.bytes held.now) taken.lines) }
    ensures within_limit { IfOk result (λ taken. given + taken.lines ≤ most_lines) }
    ensures takes { (all : List (List ℕ)) (coming : Option (List ℕ))
        → IsReadSoFar kind all given (before_piece held.now coming) (R.stands_for reading.old)
        → TakesPlain kind all given held.now coming (R.stands_for reading.new) result }
    ensures spelled { IfOk result (λ taken. HasTaken kind (given + 1) (R.stands_for reading.old)
        → HasTaken kind (given + taken.lines + 1) (R.stands_for reading.new)) }
    ensures fixed { R.fixed reading.new ≡ R.fixed reading.old }
    ensures kept { (value : R.Value) → R.keeps reading.new value → R.keeps reading.old value }
    ensures no_io_error { IfErr result (λ error. error ≢ Device) }
{
    let mut bytes = 0;
    let mut lines = 0;
    while let Some(line) = plain_line::<R>(kind, &held[bytes..]) {
        lines += 1;
        if let Err(error) = reading.take(given + lines, line.rec) {
            return Err(at_line(given + lines, error));
        }
        bytes += line.size;
    }
    Ok(PlainLines { bytes, lines })
}

/// Reads the next line, and hands its record to the reading. Returns the line's number; none at the end.
#[inline(never)]
fn read_line<R: Reading, S: Source>(
    kind: TextKind,
    lines: &mut Lines,
    reading: &mut R,
    source: &mut S,
) -> Result<Option<u64>, ReadError>
    requires kind { R.kind reading.old ≡ kind }
    requires open { lines.old.progress ≡ Open }
    ensures kind { R.kind reading.new ≡ kind }
    ensures next { IfOk result (λ answer. IfSome answer (λ number. (lines.new.progress ≡ Open)
        × (lines.new.given ≡ number) × (number ≡ lines.old.given + 1) × (number ≤ most_lines))) }
    ensures reads { (all : List (List ℕ)) → IsReadSoFar kind all lines.old.given (text_left lines.old (S.coming source.old)) (R.stands_for reading.old)
        → ReadsNext kind all lines.old.given (text_left lines.new (S.coming source.new)) (R.stands_for reading.new) result }
    ensures spelled { IfOk result (λ answer. HasTaken kind (lines.old.given + 1) (R.stands_for reading.old)
        → HasTaken kind (lines.old.given + 1 + option_len answer) (R.stands_for reading.new)) }
    ensures fixed { R.fixed reading.new ≡ R.fixed reading.old }
    ensures kept { (value : R.Value) → R.keeps reading.new value → R.keeps reading.old value }
    ensures faults { CountsRead result (S.faults source.old) (S.faults source.new) }
{
    match lines.next_line(source) {
        Ok(None) => Ok(None),
        Ok(Some(number)) => match take_line(kind, number, lines.line(), reading) {
            Ok(()) => Ok(Some(number)),
            Err(error) => Err(at_line(number, error)),
        },
        Err(error) => Err(lines_error(error)),
    }
}

/// Passes the record of a line, if any, to the reading.
#[inline(always)]
fn take_line<R: Reading>(
    kind: TextKind,
    number: u64,
    line: &[u8],
    reading: &mut R,
) -> Result<(), TakeError>
    requires { R.kind reading.old ≡ kind }
    ensures kind { R.kind reading.new ≡ kind }
    ensures takes { (before : List (List ℕ)) (by_line : List (Option Record)) → ComesAfter kind before by_line number line.now
        → R.stands_for reading.old (numbered 1 by_line)
        → TakesLine kind before by_line line.now (R.stands_for reading.new) result }
    ensures spelled { OnOk result (HasTaken kind number (R.stands_for reading.old) → HasTaken kind (number + 1) (R.stands_for reading.new)) }
    ensures fixed { R.fixed reading.new ≡ R.fixed reading.old }
    ensures kept { (value : R.Value) → R.keeps reading.new value → R.keeps reading.old value }
{
    match record(kind, line) {
        Ok(None) => Ok(()),
        Ok(Some(rec)) => reading.take(number, rec),
        Err(fault) => Err(TakeError::Refused(fault)),
    }
}

fn at_line(line: u64, error: TakeError) -> ReadError
    ensures { result ≡ read_error line error }
{
    match error {
        TakeError::Refused(fault) => {
            let field = fault.field;
            ReadError::Refused(At { line, field }, fault.reason)
        }
        TakeError::Memory => ReadError::Memory,
    }
}

fn lines_error(error: LinesError) -> ReadError
    ensures { result ≡ lines_error error }
{
    match error {
        LinesError::TooMany(line) => ReadError::Refused(At { line, field: 0 }, Reason::LineLimit),
        LinesError::TooLong(line) => ReadError::Refused(At { line, field: 0 }, Reason::LineTooLong),
        LinesError::Device => ReadError::Device,
        LinesError::Memory => ReadError::Memory,
    }
}

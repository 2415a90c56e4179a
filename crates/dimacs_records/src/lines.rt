//! Reading a line as a record.

ghost use Rattle.std.specs.Prelude.{◌≡◌};
ghost use Rattle.dimacs_records.specs.{declared.reasons.Reason.TheVariants.{UnknownLine}, LineReader.{ReadsLine}};
ghost use Rattle.dimacs_records.specs.Spelling.{texts_in, is_comment};
ghost use Rattle.dimacs_records.specs.inside.FieldReader.{IsUntouched, ReadsLetter, texts_left, fault_at};

mod cut;
mod distances;
mod graph;
mod labels;
mod max;
mod min;
mod potentials;
mod queries;
mod solution;

use crate::faults::LineFault;
use crate::field_reader::FieldReader;
use crate::kinds::TextKind;
use crate::reasons::Reason;
use crate::records::Record;
use dimacs_lines::Scan;

/// Reads a line: its record, `None` for a comment or a line without fields, or the first fault of its shape. Makes no
/// test that needs earlier lines.
#[inline(always)]
pub fn record(kind: TextKind, line: &[u8]) -> Result<Option<Record>, LineFault>
    ensures { ReadsLine kind (texts_in line.now) result }
{
    let mut scan = Scan::new(line);
    let Some(first) = scan.next_token() else {
        return Ok(None);
    };
    let letter = first.field.text;
    if is_comment(letter) {
        return Ok(None);
    }
    letter_record(kind, letter, FieldReader::new(scan))
}

#[inline(always)]
fn is_comment(first: &[u8]) -> bool
    ensures { result ≡ is_comment first.now }
{
    first.first() == Some(&b'c')
}

#[inline(always)]
fn letter_record(
    kind: TextKind,
    letter: &[u8],
    fields: FieldReader,
) -> Result<Option<Record>, LineFault>
    requires { IsUntouched fields }
    ensures { ReadsLetter kind letter.now (texts_left fields.entry) result }
{
    match kind {
        TextKind::Max => max::record(letter, fields),
        TextKind::Min => min::record(letter, fields),
        TextKind::Graph => graph::record(letter, fields),
        TextKind::Queries => queries::record(letter, fields),
        TextKind::Solution => solution::record(letter, fields),
        TextKind::Cut => cut::record(letter, fields),
        TextKind::Potentials => potentials::record(letter, fields),
        TextKind::Labels => labels::record(letter, fields),
        TextKind::Distances => distances::record(letter, fields),
    }
}

/// The fault of a line whose first field is no letter of its kind.
fn unknown_line() -> LineFault
    ensures { result ≡ fault_at 1 UnknownLine }
{
    LineFault {
        field: 1,
        reason: Reason::UnknownLine,
    }
}

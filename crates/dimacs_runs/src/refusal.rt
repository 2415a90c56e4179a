//! The lines of refusals.

ghost use Rattle.std.specs.Prelude.{◌≡◌};
ghost use Rattle.dimacs_lines.specs.Puts.{Puts};
ghost use Rattle.dimacs_runs.specs.{Refusals.{refusal_line}, Runs.{text_word}};

use dimacs_lines::{DeviceFault, Sink};
use dimacs_records::{At, Part, Reason, TextKind, put_line};

/// The name of a text in refusals.
pub(crate) fn text_name(kind: TextKind) -> &'static str
    ensures { result.now ≡ text_word kind }
{
    match kind {
        TextKind::Max | TextKind::Min | TextKind::Graph => "instance",
        TextKind::Queries => "query",
        TextKind::Solution => "solution",
        TextKind::Cut | TextKind::Potentials | TextKind::Labels => "certificate",
        TextKind::Distances => "distances",
    }
}

/// Writes `x TEXT LINE FIELD REASON`.
pub fn put_refusal<K: Sink>(
    sink: &mut K,
    text: &str,
    place: At,
    reason: Reason,
) -> Result<(), DeviceFault>
    ensures { Puts result (K.seen sink.old) (refusal_line text.now place.line place.field reason) (K.seen sink.new) }
{
    let line = Part::Wide(i128::from(place.line));
    let field = Part::Number(i64::from(place.field));
    let reason = Part::Word(reason.name().as_bytes());
    put_line(
        sink,
        b"x",
        &[Part::Word(text.as_bytes()), line, field, reason],
    )
}

//! Reading the lines of a solution.

ghost use Rattle.std.specs.Prelude.{◌∷◌, [], codes};
ghost use Rattle.dimacs_records.specs.{declared.kinds.TextKind.TheVariants.{Solution}, Forms.{Id, Whole, Wide}};
ghost use Rattle.dimacs_records.specs.inside.FieldReader.{IsUntouched, ReadsForm, ReadsLetter, texts_left};

use super::unknown_line;
use crate::faults::LineFault;
use crate::field_reader::FieldReader;
use crate::records::Record;

#[inline(always)]
pub(super) fn record(letter: &[u8], fields: FieldReader) -> Result<Option<Record>, LineFault>
    requires { IsUntouched fields }
    ensures { ReadsLetter Solution letter.now (texts_left fields.entry) result }
{
    match letter {
        b"s" => value(fields),
        b"f" => entry(fields),
        _ => Err(unknown_line()),
    }
}

fn value(mut fields: FieldReader) -> Result<Option<Record>, LineFault>
    requires { IsUntouched fields }
    ensures { ReadsForm Solution (codes "s") (Wide ∷ []) (texts_left fields.entry) result }
{
    let value = fields.wide(2);
    fields.finish(Record::SolutionValue { value })
}

#[inline(always)]
fn entry(mut fields: FieldReader) -> Result<Option<Record>, LineFault>
    requires { IsUntouched fields }
    ensures { ReadsForm Solution (codes "f") (Id ∷ Id ∷ Whole ∷ []) (texts_left fields.entry) result }
{
    let tail = fields.id(2);
    let head = fields.id(3);
    let flow = fields.whole(4);
    fields.finish(Record::SolutionEntry { tail, head, flow })
}

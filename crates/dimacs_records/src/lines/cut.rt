//! Reading the lines of a cut.

ghost use Rattle.std.specs.Prelude.{◌∷◌, [], codes};
ghost use Rattle.dimacs_records.specs.{declared.kinds.TextKind.TheVariants.{Cut}, Forms.{Word, Nodes, Count, Id}};
ghost use Rattle.dimacs_records.specs.inside.FieldReader.{IsUntouched, ReadsForm, ReadsLetter, texts_left};

use super::unknown_line;
use crate::faults::LineFault;
use crate::field_reader::FieldReader;
use crate::records::Record;

#[inline(always)]
pub(super) fn record(letter: &[u8], fields: FieldReader) -> Result<Option<Record>, LineFault>
    requires { IsUntouched fields }
    ensures { ReadsLetter Cut letter.now (texts_left fields.entry) result }
{
    match letter {
        b"p" => problem(fields),
        b"u" => node(fields),
        _ => Err(unknown_line()),
    }
}

fn problem(mut fields: FieldReader) -> Result<Option<Record>, LineFault>
    requires { IsUntouched fields }
    ensures { ReadsForm Cut (codes "p") (Word (codes "cut") ∷ Nodes ∷ Count ∷ []) (texts_left fields.entry) result }
{
    fields.word(2, b"cut");
    let nodes = fields.nodes(3);
    let count = fields.count(4);
    fields.finish(Record::CutProblem { nodes, count })
}

#[inline(always)]
fn node(mut fields: FieldReader) -> Result<Option<Record>, LineFault>
    requires { IsUntouched fields }
    ensures { ReadsForm Cut (codes "u") (Id ∷ []) (texts_left fields.entry) result }
{
    let id = fields.id(2);
    fields.finish(Record::CutNode { id })
}

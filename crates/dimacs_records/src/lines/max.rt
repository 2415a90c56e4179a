//! Reading the lines of an instance of maximum flow.

ghost use Rattle.std.specs.Prelude.{◌∷◌, [], codes};
ghost use Rattle.dimacs_records.specs.declared.kinds.TextKind.TheVariants.{Max};
ghost use Rattle.dimacs_records.specs.Forms.{Word, Either, Nodes, Count, Id, Whole};
ghost use Rattle.dimacs_records.specs.inside.FieldReader.{IsUntouched, ReadsForm, ReadsLetter, texts_left};

use super::unknown_line;
use crate::faults::LineFault;
use crate::field_reader::FieldReader;
use crate::records::Record;

#[inline(always)]
pub(super) fn record(letter: &[u8], fields: FieldReader) -> Result<Option<Record>, LineFault>
    requires { IsUntouched fields }
    ensures { ReadsLetter Max letter.now (texts_left fields.entry) result }
{
    match letter {
        b"p" => problem(fields),
        b"n" => node(fields),
        b"a" => arc(fields),
        _ => Err(unknown_line()),
    }
}

fn problem(mut fields: FieldReader) -> Result<Option<Record>, LineFault>
    requires { IsUntouched fields }
    ensures { ReadsForm Max (codes "p") (Word (codes "max") ∷ Nodes ∷ Count ∷ []) (texts_left fields.entry) result }
{
    fields.word(2, b"max");
    let nodes = fields.nodes(3);
    let arcs = fields.count(4);
    fields.finish(Record::MaxProblem { nodes, arcs })
}

fn node(mut fields: FieldReader) -> Result<Option<Record>, LineFault>
    requires { IsUntouched fields }
    ensures { ReadsForm Max (codes "n") (Id ∷ Either (codes "s") (codes "t") ∷ []) (texts_left fields.entry) result }
{
    let id = fields.id(2);
    let end = fields.end(3);
    fields.finish(Record::MaxNode { id, end })
}

#[inline(always)]
fn arc(mut fields: FieldReader) -> Result<Option<Record>, LineFault>
    requires { IsUntouched fields }
    ensures { ReadsForm Max (codes "a") (Id ∷ Id ∷ Whole ∷ []) (texts_left fields.entry) result }
{
    let tail = fields.id(2);
    let head = fields.id(3);
    let cap = fields.whole(4);
    fields.finish(Record::MaxArc { tail, head, cap })
}

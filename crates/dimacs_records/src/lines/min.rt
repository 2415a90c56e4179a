//! Reading the lines of an instance of minimum cost flow.

ghost use Rattle.std.specs.Prelude.{◌∷◌, [], codes};
ghost use Rattle.dimacs_records.specs.declared.kinds.TextKind.TheVariants.{Min};
ghost use Rattle.dimacs_records.specs.Forms.{Word, Nodes, Count, Id, Whole};
ghost use Rattle.dimacs_records.specs.inside.FieldReader.{IsUntouched, ReadsForm, ReadsLetter, texts_left};

use super::unknown_line;
use crate::faults::LineFault;
use crate::field_reader::FieldReader;
use crate::records::Record;

#[inline(always)]
pub(super) fn record(letter: &[u8], fields: FieldReader) -> Result<Option<Record>, LineFault>
    requires { IsUntouched fields }
    ensures { ReadsLetter Min letter.now (texts_left fields.entry) result }
{
    match letter {
        b"p" => problem(fields),
        b"n" => node(fields),
        b"a" => arc(fields),
        _ => Err(unknown_line()),
    }
}

fn problem(mut fields: FieldReader) -> Result<Option<Record>, LineFault>
    requires { IsUntouched fields }
    ensures { ReadsForm Min (codes "p") (Word (codes "min") ∷ Nodes ∷ Count ∷ []) (texts_left fields.entry) result }
{
    fields.word(2, b"min");
    let nodes = fields.nodes(3);
    let arcs = fields.count(4);
    fields.finish(Record::MinProblem { nodes, arcs })
}

fn node(mut fields: FieldReader) -> Result<Option<Record>, LineFault>
    requires { IsUntouched fields }
    ensures { ReadsForm Min (codes "n") (Id ∷ Whole ∷ []) (texts_left fields.entry) result }
{
    let id = fields.id(2);
    let supply = fields.whole(3);
    fields.finish(Record::MinNode { id, supply })
}

#[inline(always)]
fn arc(mut fields: FieldReader) -> Result<Option<Record>, LineFault>
    requires { IsUntouched fields }
    ensures { ReadsForm Min (codes "a") (Id ∷ Id ∷ Whole ∷ Whole ∷ Whole ∷ []) (texts_left fields.entry) result }
{
    let tail = fields.id(2);
    let head = fields.id(3);
    let low = fields.whole(4);
    let cap = fields.whole(5);
    let cost = fields.whole(6);
    fields.finish(Record::MinArc {
        tail,
        head,
        low,
        cap,
        cost,
    })
}

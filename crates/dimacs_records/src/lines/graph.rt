//! Reading the lines of a graph.

ghost use Rattle.std.specs.Prelude.{◌∷◌, [], codes};
ghost use Rattle.dimacs_records.specs.declared.kinds.TextKind.TheVariants.{Graph};
ghost use Rattle.dimacs_records.specs.Forms.{Word, Nodes, Count, Id, Whole};
ghost use Rattle.dimacs_records.specs.inside.FieldReader.{IsUntouched, ReadsForm, ReadsLetter, texts_left};

use super::unknown_line;
use crate::faults::LineFault;
use crate::field_reader::FieldReader;
use crate::records::Record;

#[inline(always)]
pub(super) fn record(letter: &[u8], fields: FieldReader) -> Result<Option<Record>, LineFault>
    requires { IsUntouched fields }
    ensures { ReadsLetter Graph letter.now (texts_left fields.entry) result }
{
    match letter {
        b"p" => problem(fields),
        b"a" => arc(fields),
        _ => Err(unknown_line()),
    }
}

fn problem(mut fields: FieldReader) -> Result<Option<Record>, LineFault>
    requires { IsUntouched fields }
    ensures { ReadsForm Graph (codes "p") (Word (codes "sp") ∷ Nodes ∷ Count ∷ []) (texts_left fields.entry) result }
{
    fields.word(2, b"sp");
    let nodes = fields.nodes(3);
    let arcs = fields.count(4);
    fields.finish(Record::GraphProblem { nodes, arcs })
}

#[inline(always)]
fn arc(mut fields: FieldReader) -> Result<Option<Record>, LineFault>
    requires { IsUntouched fields }
    ensures { ReadsForm Graph (codes "a") (Id ∷ Id ∷ Whole ∷ []) (texts_left fields.entry) result }
{
    let tail = fields.id(2);
    let head = fields.id(3);
    let weight = fields.whole(4);
    fields.finish(Record::GraphArc { tail, head, weight })
}

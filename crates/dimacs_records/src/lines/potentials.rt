//! Reading the lines of node potentials.

ghost use Rattle.std.specs.Prelude.{◌∷◌, [], codes};
ghost use Rattle.dimacs_records.specs.declared.kinds.TextKind.TheVariants.{Potentials};
ghost use Rattle.dimacs_records.specs.Forms.{Word, Nodes, Count, Id, Wide};
ghost use Rattle.dimacs_records.specs.inside.FieldReader.{IsUntouched, ReadsForm, ReadsLetter, texts_left};

use super::unknown_line;
use crate::faults::LineFault;
use crate::field_reader::FieldReader;
use crate::records::Record;

#[inline(always)]
pub(super) fn record(letter: &[u8], fields: FieldReader) -> Result<Option<Record>, LineFault>
    requires { IsUntouched fields }
    ensures { ReadsLetter Potentials letter.now (texts_left fields.entry) result }
{
    match letter {
        b"p" => problem(fields),
        b"y" => node(fields),
        _ => Err(unknown_line()),
    }
}

fn problem(mut fields: FieldReader) -> Result<Option<Record>, LineFault>
    requires { IsUntouched fields }
    ensures { ReadsForm Potentials (codes "p") (Word (codes "pot") ∷ Nodes ∷ Count ∷ []) (texts_left fields.entry) result }
{
    fields.word(2, b"pot");
    let nodes = fields.nodes(3);
    let count = fields.count(4);
    fields.finish(Record::PotentialsProblem { nodes, count })
}

#[inline(always)]
fn node(mut fields: FieldReader) -> Result<Option<Record>, LineFault>
    requires { IsUntouched fields }
    ensures { ReadsForm Potentials (codes "y") (Id ∷ Wide ∷ []) (texts_left fields.entry) result }
{
    let id = fields.id(2);
    let value = fields.wide(3);
    fields.finish(Record::PotentialsNode { id, value })
}

//! Reading the lines of distances.

ghost use Rattle.std.specs.Prelude.{◌∷◌, [], codes};
ghost use Rattle.dimacs_records.specs.declared.kinds.TextKind.TheVariants.{Distances};
ghost use Rattle.dimacs_records.specs.Forms.{Word, Nodes, Count, Id, Wide};
ghost use Rattle.dimacs_records.specs.inside.FieldReader.{IsUntouched, ReadsForm, ReadsLetter, texts_left};

use super::unknown_line;
use crate::faults::LineFault;
use crate::field_reader::FieldReader;
use crate::records::Record;

#[inline(always)]
pub(super) fn record(letter: &[u8], fields: FieldReader) -> Result<Option<Record>, LineFault>
    requires { IsUntouched fields }
    ensures { ReadsLetter Distances letter.now (texts_left fields.entry) result }
{
    match letter {
        b"p" => problem(fields),
        b"t" => block(fields),
        b"d" => node(fields),
        _ => Err(unknown_line()),
    }
}

fn problem(mut fields: FieldReader) -> Result<Option<Record>, LineFault>
    requires { IsUntouched fields }
    ensures { ReadsForm Distances (codes "p") (Word (codes "distances") ∷ Nodes ∷ Count ∷ []) (texts_left fields.entry) result }
{
    fields.word(2, b"distances");
    let nodes = fields.nodes(3);
    let blocks = fields.count(4);
    fields.finish(Record::DistancesProblem { nodes, blocks })
}

fn block(mut fields: FieldReader) -> Result<Option<Record>, LineFault>
    requires { IsUntouched fields }
    ensures { ReadsForm Distances (codes "t") (Id ∷ Count ∷ []) (texts_left fields.entry) result }
{
    let source = fields.id(2);
    let count = fields.count(3);
    fields.finish(Record::DistancesBlock { source, count })
}

#[inline(always)]
fn node(mut fields: FieldReader) -> Result<Option<Record>, LineFault>
    requires { IsUntouched fields }
    ensures { ReadsForm Distances (codes "d") (Id ∷ Wide ∷ []) (texts_left fields.entry) result }
{
    let id = fields.id(2);
    let dist = fields.wide(3);
    fields.finish(Record::DistancesNode { id, dist })
}

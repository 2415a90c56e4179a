//! Reading the lines of distance labels.

ghost use Rattle.std.specs.Prelude.{◌∷◌, [], codes};
ghost use Rattle.dimacs_records.specs.declared.kinds.TextKind.TheVariants.{Labels};
ghost use Rattle.dimacs_records.specs.Forms.{Word, Nodes, Count, Id, Wide};
ghost use Rattle.dimacs_records.specs.inside.FieldReader.{IsUntouched, ReadsForm, ReadsLetter, texts_left};

use super::unknown_line;
use crate::faults::LineFault;
use crate::field_reader::FieldReader;
use crate::records::Record;

#[inline(always)]
pub(super) fn record(letter: &[u8], fields: FieldReader) -> Result<Option<Record>, LineFault>
    requires { IsUntouched fields }
    ensures { ReadsLetter Labels letter.now (texts_left fields.entry) result }
{
    match letter {
        b"p" => problem(fields),
        b"t" => block(fields),
        b"d" => node(fields),
        _ => Err(unknown_line()),
    }
}

fn problem(mut fields: FieldReader) -> Result<Option<Record>, LineFault>
    requires { IsUntouched fields }
    ensures { ReadsForm Labels (codes "p") (Word (codes "dist") ∷ Nodes ∷ Count ∷ []) (texts_left fields.entry) result }
{
    fields.word(2, b"dist");
    let nodes = fields.nodes(3);
    let blocks = fields.count(4);
    fields.finish(Record::LabelsProblem { nodes, blocks })
}

fn block(mut fields: FieldReader) -> Result<Option<Record>, LineFault>
    requires { IsUntouched fields }
    ensures { ReadsLetter Labels (codes "t") (texts_left fields.entry) result }
{
    let source = fields.id(2);
    let count = fields.count(3);
    let radius = fields.radius(4);
    fields.finish(Record::LabelsBlock {
        source,
        count,
        radius,
    })
}

#[inline(always)]
fn node(mut fields: FieldReader) -> Result<Option<Record>, LineFault>
    requires { IsUntouched fields }
    ensures { ReadsForm Labels (codes "d") (Id ∷ Wide ∷ Id ∷ []) (texts_left fields.entry) result }
{
    let id = fields.id(2);
    let dist = fields.wide(3);
    let pred = fields.id(4);
    fields.finish(Record::LabelsNode { id, dist, pred })
}

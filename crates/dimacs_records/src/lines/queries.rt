//! Reading the lines of queries.

ghost use Rattle.std.specs.Prelude.{◌∷◌, [], codes};
ghost use Rattle.dimacs_records.specs.{declared.kinds.TextKind.TheVariants.{Queries}, Forms.{Word, Either, Count, Id}};
ghost use Rattle.dimacs_records.specs.inside.FieldReader.{IsUntouched, ReadsForm, ReadsLetter, texts_left};

use super::unknown_line;
use crate::faults::LineFault;
use crate::field_reader::FieldReader;
use crate::records::Record;

#[inline(always)]
pub(super) fn record(letter: &[u8], fields: FieldReader) -> Result<Option<Record>, LineFault>
    requires { IsUntouched fields }
    ensures { ReadsLetter Queries letter.now (texts_left fields.entry) result }
{
    match letter {
        b"p" => problem(fields),
        b"s" => source(fields),
        b"q" => pair(fields),
        _ => Err(unknown_line()),
    }
}

fn problem(mut fields: FieldReader) -> Result<Option<Record>, LineFault>
    requires { IsUntouched fields }
    ensures { ReadsForm Queries (codes "p")
        (Word (codes "aux") ∷ Word (codes "sp") ∷ Either (codes "ss") (codes "p2p") ∷ Count ∷ [])
        (texts_left fields.entry) result }
{
    fields.word(2, b"aux");
    fields.word(3, b"sp");
    let asks = fields.query_kind(4);
    let count = fields.count(5);
    fields.finish(Record::QueriesProblem { asks, count })
}

fn source(mut fields: FieldReader) -> Result<Option<Record>, LineFault>
    requires { IsUntouched fields }
    ensures { ReadsForm Queries (codes "s") (Id ∷ []) (texts_left fields.entry) result }
{
    let id = fields.id(2);
    fields.finish(Record::SourceQuery { id })
}

fn pair(mut fields: FieldReader) -> Result<Option<Record>, LineFault>
    requires { IsUntouched fields }
    ensures { ReadsForm Queries (codes "q") (Id ∷ Id ∷ []) (texts_left fields.entry) result }
{
    let from = fields.id(2);
    let to = fields.id(3);
    fields.finish(Record::PairQuery { from, to })
}

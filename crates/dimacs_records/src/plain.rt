//! Fast reading of lines in the plain form, which most have: a letter, one blank before each number, and the line's end
//! right after the last. `record` reads all others.

ghost use Rattle.std.specs.Prelude.{◌∷◌, [], pos, IfSome};
ghost use Rattle.dimacs_records.specs.declared.kinds.TextKind.TheVariants.{Min, Queries, Cut, Potentials, Labels, Distances};
ghost use Rattle.dimacs_records.specs.{Forms.{Id, Whole}, inside.Plain.{IsPlainLine, SpellsArc, SpellsFirst}};
ghost use Rattle.dimacs_records.specs.Spelling.{Amount};

use crate::kinds::TextKind;
use crate::reading::Reading;
use crate::records::Record;
use dimacs_lines::PlainNumbers;

/// The size and number of some first lines in the buffer, with their ends.
#[derive(Clone, Copy)]
pub(crate) struct PlainLines {
    pub(crate) bytes: usize,
    pub(crate) lines: u64,
}

/// A record, and the bytes of its line with its end.
#[derive(Clone, Copy)]
pub(crate) struct PlainLine {
    pub(crate) size: usize,
    pub(crate) rec: Record,
}

/// The fields of a line with a node and a number.
#[derive(Clone, Copy)]
struct NodeLine {
    size: usize,
    id: u32,
    number: i64,
}

/// The field of a line with a node alone.
#[derive(Clone, Copy)]
struct LoneNode {
    size: usize,
    id: u32,
}

/// Reads the first line, if it has the plain form.
///
/// Each reading `R` has its own copy, in which the kind is a constant and the compiler drops the other forms.
#[inline(always)]
pub(crate) fn plain_line<R: Reading>(kind: TextKind, bytes: &[u8]) -> Option<PlainLine>
    ensures { IfSome result (λ line. SpellsFirst kind bytes.now line.rec line.size) }
{
    match kind {
        TextKind::Max | TextKind::Graph => arc_line(kind, b'a', bytes),
        TextKind::Min => min_line(bytes),
        TextKind::Solution => arc_line(kind, b'f', bytes),
        TextKind::Potentials => potentials_line(bytes),
        TextKind::Labels => labels_line(bytes),
        TextKind::Distances => distances_line(bytes),
        TextKind::Queries => queries_line(bytes),
        TextKind::Cut => cut_line(bytes),
    }
}

#[inline(always)]
fn min_line(bytes: &[u8]) -> Option<PlainLine>
    ensures { IfSome result (λ line. SpellsFirst Min bytes.now line.rec line.size) }
{
    if let Some(line) = bounds_line(bytes) {
        return Some(line);
    }
    let NodeLine { size, id, number } = node_line(bytes, b'n')?;
    let rec = Record::MinNode { id, supply: number };
    Some(PlainLine { size, rec })
}

#[inline(always)]
fn queries_line(bytes: &[u8]) -> Option<PlainLine>
    ensures { IfSome result (λ line. SpellsFirst Queries bytes.now line.rec line.size) }
{
    if let Some(line) = pair_line(bytes) {
        return Some(line);
    }
    let LoneNode { size, id } = lone_node(bytes, b's')?;
    let rec = Record::SourceQuery { id };
    Some(PlainLine { size, rec })
}

#[inline(always)]
fn pair_line(bytes: &[u8]) -> Option<PlainLine>
    ensures { IfSome result (λ line. SpellsFirst Queries bytes.now line.rec line.size) }
{
    let mut numbers = PlainNumbers::after(b'q', bytes)?;
    let from = numbers.id(b' ')?;
    let to = numbers.id(b'\n')?;
    let rec = Record::PairQuery { from, to };
    let size = numbers.at();
    Some(PlainLine { size, rec })
}

#[inline(always)]
fn cut_line(bytes: &[u8]) -> Option<PlainLine>
    ensures { IfSome result (λ line. SpellsFirst Cut bytes.now line.rec line.size) }
{
    let LoneNode { size, id } = lone_node(bytes, b'u')?;
    let rec = Record::CutNode { id };
    Some(PlainLine { size, rec })
}

#[inline(always)]
fn potentials_line(bytes: &[u8]) -> Option<PlainLine>
    ensures { IfSome result (λ line. SpellsFirst Potentials bytes.now line.rec line.size) }
{
    let NodeLine { size, id, number } = node_line(bytes, b'y')?;
    let rec = Record::PotentialsNode {
        id,
        value: i128::from(number),
    };
    Some(PlainLine { size, rec })
}

#[inline(always)]
fn distances_line(bytes: &[u8]) -> Option<PlainLine>
    ensures { IfSome result (λ line. SpellsFirst Distances bytes.now line.rec line.size) }
{
    let NodeLine { size, id, number } = node_line(bytes, b'd')?;
    let rec = Record::DistancesNode {
        id,
        dist: i128::from(number),
    };
    Some(PlainLine { size, rec })
}

#[inline(always)]
fn labels_line(bytes: &[u8]) -> Option<PlainLine>
    ensures { IfSome result (λ line. SpellsFirst Labels bytes.now line.rec line.size) }
{
    let mut numbers = PlainNumbers::after(b'd', bytes)?;
    let id = numbers.id(b' ')?;
    let dist = numbers.size(b' ')?;
    let pred = numbers.id(b'\n')?;
    let rec = Record::LabelsNode {
        id,
        dist: i128::from(dist),
        pred,
    };
    let size = numbers.at();
    Some(PlainLine { size, rec })
}

/// An arc line with bounds and cost.
#[inline(always)]
fn bounds_line(bytes: &[u8]) -> Option<PlainLine>
    ensures { IfSome result (λ line. SpellsFirst Min bytes.now line.rec line.size) }
{
    let mut numbers = PlainNumbers::after(b'a', bytes)?;
    let tail = numbers.id(b' ')?;
    let head = numbers.id(b' ')?;
    let low = numbers.size(b' ')?;
    let cap = numbers.size(b' ')?;
    let cost = numbers.whole(b'\n')?;
    let rec = Record::MinArc {
        tail,
        head,
        low,
        cap,
        cost,
    };
    let size = numbers.at();
    Some(PlainLine { size, rec })
}

#[inline(always)]
fn lone_node(bytes: &[u8], letter: u8) -> Option<LoneNode>
    ensures { IfSome result (λ line. IsPlainLine bytes.now letter (Id ∷ []) (Amount (pos line.id) ∷ []) line.size) }
{
    let mut numbers = PlainNumbers::after(letter, bytes)?;
    let id = numbers.id(b'\n')?;
    let size = numbers.at();
    Some(LoneNode { size, id })
}

#[inline(always)]
fn node_line(bytes: &[u8], letter: u8) -> Option<NodeLine>
    ensures { IfSome result (λ line. IsPlainLine bytes.now letter (Id ∷ Whole ∷ []) (Amount (pos line.id) ∷ Amount line.number ∷ []) line.size) }
{
    let mut numbers = PlainNumbers::after(letter, bytes)?;
    let id = numbers.id(b' ')?;
    let number = numbers.whole(b'\n')?;
    let size = numbers.at();
    Some(NodeLine { size, id, number })
}

#[inline(always)]
fn arc_line(kind: TextKind, letter: u8, bytes: &[u8]) -> Option<PlainLine>
    ensures { IfSome result (λ line. SpellsFirst kind bytes.now line.rec line.size) }
{
    let mut numbers = PlainNumbers::after(letter, bytes)?;
    let tail = numbers.id(b' ')?;
    let head = numbers.id(b' ')?;
    let number = numbers.size(b'\n')?;
    let size = numbers.at();
    let rec = arc_record(kind, letter, tail, head, number)?;
    Some(PlainLine { size, rec })
}

/// None if lines of the kind with this letter aren't two nodes and a number.
#[inline(always)]
fn arc_record(kind: TextKind, letter: u8, tail: u32, head: u32, number: i64) -> Option<Record>
    ensures { IfSome result (λ rec. SpellsArc kind letter tail head number rec) }
{
    match (kind, letter) {
        (TextKind::Max, b'a') => Some(Record::MaxArc {
            tail,
            head,
            cap: number,
        }),
        (TextKind::Graph, b'a') => Some(Record::GraphArc {
            tail,
            head,
            weight: number,
        }),
        (TextKind::Solution, b'f') => Some(Record::SolutionEntry {
            tail,
            head,
            flow: number,
        }),
        _ => None,
    }
}

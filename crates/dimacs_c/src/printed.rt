//! What calls over arrays hand out.

ghost use Rattle.std.specs.Prelude.{◌≡◌, []};

use crate::lines::Line;

/// A line, and perhaps items.
#[derive(Drop)]
pub(crate) struct Printed<'a, M> {
    pub(crate) line: Line<'a>,
    /// The bytes of a set of nodes, or predecessors.
    pub(crate) marks: &'a [M],
    /// Potentials or distances.
    pub(crate) numbers: &'a [i64],
    pub(crate) amounts: &'a [i64],
}

impl<'a, M> Printed<'a, M> {
    /// Only a line.
    pub(crate) fn only(line: Line<'a>) -> Printed<'a, M>
        ensures line { result.line ≡ line.entry }
        ensures marks { result.marks.now ≡ [] }
        ensures numbers { result.numbers.now ≡ [] }
        ensures amounts { result.amounts.now ≡ [] }
    {
        Printed {
            line,
            marks: &[],
            numbers: &[],
            amounts: &[],
        }
    }
}

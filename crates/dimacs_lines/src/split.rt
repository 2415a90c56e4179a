//! Splitting a line.

ghost use Rattle.std.specs.Prelude.{◌≡◌};
ghost use Rattle.dimacs_lines.specs.Fields.{fields_of, AreFields};

use crate::scan::Fields;

/// The fields of a line: the maximal runs of bytes that are not blanks (32, 9 and 13), from left to right.
pub fn fields(line: &[u8]) -> Fields<'_>
    ensures value { result ≡ fields_of line.now }
    ensures maximal_runs { AreFields line.now result }
{
    Fields::new(line)
}

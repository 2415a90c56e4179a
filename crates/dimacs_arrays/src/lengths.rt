//! Tests the lengths of arrays.

ghost use Rattle.std.specs.Prelude.{◌≡◌};
ghost use Rattle.dimacs_arrays.specs.{Answers.{length_of}, inside.Answers.{TestsLengths}};

use crate::error::{Array, ArrayError};

/// The length of an array, and the one that it has to have.
#[derive(Clone, Copy, Debug, PartialEq, Eq)]
pub(crate) struct ArrayLength {
    pub array: Array,
    pub found: usize,
    pub wanted: usize,
}

impl ArrayLength {
    pub(crate) fn of(array: Array, found: usize, wanted: usize) -> ArrayLength
        ensures { result ≡ length_of array found wanted }
    {
        ArrayLength {
            array,
            found,
            wanted,
        }
    }
}

/// Refuses the first array with a wrong length.
pub(crate) fn lengths_hold(lengths: &[ArrayLength]) -> Result<(), ArrayError>
    ensures { TestsLengths lengths.now result }
{
    for length in lengths {
        if length.found != length.wanted {
            return Err(ArrayError::Length(length.array));
        }
    }
    Ok(())
}

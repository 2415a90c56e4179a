//! Why a text isn't read into arrays.

use dimacs_records::{ReadError, Reason};
use std::fmt;
use thiserror::Error;

/// Why a text isn't read into arrays whose items may not hold what it spells.
#[derive(Clone, Copy, Debug, PartialEq, Eq, Error)]
pub enum FillError {
    /// The text isn't read.
    #[error("{0}")]
    Unread(ReadError),
    /// What the text spells for this node isn't handed out.
    #[error("node {0}: {1}")]
    Node(u32, Reason),
}

impl From<ReadError> for FillError {
    ghost use Rattle.std.specs.Prelude.{◌≡◌};
    ghost use Rattle.dimacs_fill.specs.declared.error.FillError.TheVariants.{Unread};

    ghost from_gives = { λ error given. given ≡ Unread error };

    fn from(error: ReadError) -> FillError {
        FillError::Unread(error)
    }
}

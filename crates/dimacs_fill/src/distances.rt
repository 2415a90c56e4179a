//! Reading distances into arrays.

ghost use Rattle.std.specs.Prelude.{◌≡◌, ℕ, List, Some, IfErr};
ghost use Rattle.dimacs_fill.specs.{BlockFilled.{FillsDistances, ReadsDistancesInto}, Filling.{CountsFilled, IsKept}};

use crate::block::{fill_distances, fitting_block};
use crate::error::FillError;
use dimacs_claims::{Labels, read_distances};
use dimacs_lines::Source;
use std::alloc::Global;

/// Reads the text of distances. The array gets those of the block of this source: 0 at the source, `i64::MAX` at a node
/// without a line. Returns the number of nodes.
pub fn read_distances_into<S: Source>(
    alloc: Global,
    text: &mut S,
    source: u32,
    distances: &mut [i64],
) -> Result<u32, FillError>
    ensures reads { (bytes : List ℕ) → S.coming text.old ≡ Some bytes → ReadsDistancesInto bytes source (distances.old, distances.new) result }
    ensures faults { CountsFilled result (S.faults text.old) (S.faults text.new) }
{
    let claimed = read_distances(alloc, text)?;
    fill_claimed(claimed.labels(), source, distances)
}

fn fill_claimed(labels: &Labels, source: u32, distances: &mut [i64]) -> Result<u32, FillError>
    ensures filled { FillsDistances (distances.old, distances.new) source labels.now result }
    ensures kept { IfErr result (λ error. IsKept (distances.old, distances.new)) }
{
    let block = fitting_block(labels, source)?;
    fill_distances(labels.nodes(), block, distances);
    Ok(labels.nodes())
}

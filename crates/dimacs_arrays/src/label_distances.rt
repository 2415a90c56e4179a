//! Distances by node, from labels.

ghost use Rattle.std.specs.Prelude.{◌≡◌, IfNone, IfOk, IfSome};
ghost use Rattle.dimacs_claims.specs.Labels.{IsBlock, IsItem};
ghost use Rattle.dimacs_records.specs.Ranges.{IsWide};
ghost use Rattle.dimacs_arrays.specs.{Paths.{ExceedsArray}, inside.LabelDistances.{AreDistancesOf}};

use dimacs_claims::Block;
use dimacs_lines::Memory;
use std::alloc::Global;

/// The distance of each node, by ID from 1: 0 at the source, `i64::MAX` at nodes without a label. None if a distance is
/// `i64::MAX` or doesn't fit into 64 bits.
pub(crate) fn distances_of(
    alloc: Global,
    nodes: u32,
    block: &Block,
) -> Result<Option<Vec<i64>>, Memory>
    requires { IsBlock nodes block.now }
    ensures distances { IfOk result (λ outcome. IfSome outcome (λ distances. AreDistancesOf nodes block.now distances.items)) }
    ensures exceeds { IfOk result (λ outcome. IfNone outcome (ExceedsArray block.now)) }
{
    let mut distances = vec![in alloc; i64::MAX; nodes as usize]?;
    distances[block.source() as usize - 1] = 0;
    let labels = block.labels();
    for i in 0..labels.len() {
        let label = labels.at(i);
        let Some(distance) = to_64_bits(label.dist) else {
            return Ok(None);
        };
        distances[label.id as usize - 1] = distance;
    }
    Ok(Some(distances))
}

/// The distance in 64 bits, if it fits and isn't `i64::MAX`, which stands for none.
#[inline(always)]
fn to_64_bits(dist: i128) -> Option<i64>
    requires { IsWide dist }
    ensures some { IfSome result (λ number. (number ≡ dist) × IsItem dist) }
    ensures none { IfNone result (¬ IsItem dist) }
{
    match i64::try_from(dist) {
        Ok(number) if number < i64::MAX => Some(number),
        _ => None,
    }
}

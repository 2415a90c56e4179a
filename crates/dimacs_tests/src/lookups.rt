//! Look-ups of distances, with an index and without.

use crate::checks::same;
use dimacs_claims::{Distances, read_distances};
use dimacs_lines::MemorySource;
use std::process::Abort;
use std::test::Fail;

/// Blocks and nodes, each with its distance.
static DISTANCES: [(usize, u32, Option<i128>); 6] = [
    (0, 1, Some(0)),
    (0, 3, Some(-7)),
    (0, 4, None),
    (0, 0, None),
    (1, 4, Some(0)),
    (2, 4, None),
];

fn has_distances(rt: &impl Abort, distances: &Distances) {
    for &(block, id, dist) in &DISTANCES {
        same(rt, "a distance", distances.distance(block, id), dist);
    }
}

#[test]
fn distances_are_looked_up(rt: HostRuntime) -> Result<(), Fail> {
    let text = b"p distances 4 2\nt 1 2\nd 2 5\nd 3 -7\nt 4 0\n";
    let mut distances = read_distances(rt.alloc(), &mut MemorySource::new(text))?;
    has_distances(&rt, &distances);
    distances.index()?;
    has_distances(&rt, &distances);
    Ok(())
}

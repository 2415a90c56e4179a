//! Rounds over all links.

use crate::number::Number;
use crate::potentials::links::{Link, round_back, round_forth};

const ROUNDS: u32 = 24;

/// How the rounds end.
pub(crate) enum Rounds {
    /// No link lowers a distance any more.
    Suffice,
    /// There would be many more.
    Many,
    /// A distance isn't small, and no later round would raise it.
    Wide,
}

/// Relaxes all links in rounds, forth and back by turns, until none lowers a distance. Stops if a round lowers more than
/// half as many distances as the round two before, unless these are few. Then the distances are a bad start for the
/// search: it would find a long cycle late.
pub(crate) fn relax_in_rounds<V: Number>(links: &[Link<V>], distances: &mut [V]) -> Rounds {
    let few = links.len() / 64;
    let mut last = usize::MAX;
    let mut before = usize::MAX;
    for k in 0..ROUNDS {
        let lowered = if k % 2 == 0 {
            round_forth(links, distances)
        } else {
            round_back(links, distances)
        };
        if !are_small(distances) {
            return Rounds::Wide;
        }
        if lowered == 0 {
            return Rounds::Suffice;
        }
        if lowered > before / 2 && lowered > few {
            return Rounds::Many;
        }
        before = last;
        last = lowered;
    }
    Rounds::Many
}

fn are_small<V: Number>(distances: &[V]) -> bool {
    let mut least = V::of(0);
    for distance in distances {
        least = least.lesser(*distance);
    }
    least.is_small()
}

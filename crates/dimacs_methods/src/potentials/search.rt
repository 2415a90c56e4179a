//! Label correcting, with the tree of the links that lowered last.

use crate::number::Number;
use crate::potentials::links::Link;
use crate::potentials::listing::Listing;
use crate::potentials::tree::Tree;
use dimacs_lines::Memory;
use std::alloc::Global;

/// How a search ends.
#[derive(Drop)]
pub(crate) enum SearchEnd {
    Optimal,
    /// The groups of a cycle of negative cost, in the order of its links.
    Cycle(Vec<u32>),
    /// The budget is used up, or a distance isn't small.
    TooLong,
}

/// Relaxes links until none lowers a distance, or one closes a cycle.
pub(crate) fn lower_all<V: Number>(
    alloc: Global,
    links: &Listing<Link<V>>,
    tree: &mut Tree<V>,
    budget: u64,
) -> Result<SearchEnd, Memory> {
    for _ in 0..u64::MAX {
        let Some(group) = tree.queue.pop() else {
            return Ok(SearchEnd::Optimal);
        };
        if tree.work() > budget || !tree.are_small {
            break;
        }
        if let Some(first) = tree.relax_links(links, group) {
            let cycle = tree_path(alloc, tree, first, group)?;
            return Ok(SearchEnd::Cycle(cycle));
        }
    }
    Ok(SearchEnd::TooLong)
}

/// From `first` down to `last`.
fn tree_path<V: Number>(
    alloc: Global,
    tree: &Tree<V>,
    first: u32,
    last: u32,
) -> Result<Vec<u32>, Memory> {
    let mut path = Vec::new(alloc);
    let mut at = last;
    for _ in 0..tree.groups() {
        path.push(at)?;
        if at == first {
            break;
        }
        at = tree.parent(at);
    }
    path.reverse();
    Ok(path)
}

//! The walks of a queue that a search comes to later, in no order.

ghost use Rattle.std.specs.Prelude.{◌≡◌, ◌<◌, ◌≤◌, ℕ, ◌∷◌, length, IfOk, OnOk, OnErr, IsPermutation};
ghost use Rattle.dimacs_solve.specs.inside.Frontiers.{ArePiles, IsPlace, IsSplit, in_piles, walk_of, walks_in};

use crate::distance::SearchDistance;
use dimacs_lines::Memory;
use std::alloc::Global;
use std::cmp::Reverse;

/// Walks are few if they are less than one of so many.
const FEW: usize = 4;

/// A walk that the search found: its length, its end, and the node before the end.
#[derive(Clone, Copy, PartialEq, Eq, PartialOrd, Ord)]
pub(crate) struct Walk<D> {
    pub dist: D,
    pub node: u32,
    pub pred: u32,
}

/// Walks no longer than `ceiling`.
#[derive(Drop)]
pub(crate) struct Pile<D> {
    pub ceiling: D,
    pub walks: Vec<Reverse<Walk<D>>>,
}

/// Puts a walk into the first pile that reaches as far. If none does, raises the last one.
#[inline(never)]
pub(crate) fn put_aside<D: SearchDistance>(
    alloc: Global,
    piles: &mut Vec<Pile<D>>,
    walk: Walk<D>,
) -> Result<(), Memory>
    ensures piles { (bound : ℕ) → bound < D.value walk.dist → ArePiles D.value bound piles.old.items → ArePiles D.value bound piles.new.items }
    ensures put { OnOk result (IsPermutation (walk_of D.value walk ∷ in_piles D.value piles.old.items) (in_piles D.value piles.new.items)) }
{
    if piles.is_empty() {
        let mut walks = Vec::new(alloc);
        walks.push(Reverse(walk))?;
        piles.push(Pile {
            ceiling: walk.dist,
            walks,
        })?;
        return Ok(());
    }
    let at = place(piles, walk.dist);
    put(&mut piles[at], walk)
}

fn put<D: SearchDistance>(pile: &mut Pile<D>, walk: Walk<D>) -> Result<(), Memory>
    ensures rises { D.value pile.old.ceiling ≤ D.value pile.new.ceiling }
    ensures reaches { OnOk result (D.value walk.dist ≤ D.value pile.new.ceiling) }
    ensures kept { D.value walk.dist ≤ D.value pile.old.ceiling → pile.new.ceiling ≡ pile.old.ceiling }
    ensures put { OnOk result (IsPermutation (walk_of D.value walk ∷ walks_in D.value pile.old.walks.items) (walks_in D.value pile.new.walks.items)) }
    ensures unchanged { OnErr result (pile.new.walks.items ≡ pile.old.walks.items) }
{
    pile.walks.push(Reverse(walk))?;
    if pile.ceiling < walk.dist {
        pile.ceiling = walk.dist;
    }
    Ok(())
}

/// The first pile that reaches as far, or else the last.
fn place<D: SearchDistance>(piles: &[Pile<D>], dist: D) -> usize
    requires { 0 < length piles.now }
    ensures { IsPlace D.value (D.value dist) piles.now result }
{
    let mut at = piles.len() - 1;
    while at > 0 && dist <= piles[at - 1].ceiling {
        at -= 1;
    }
    at
}

/// The walks up to a length, and the longer ones.
pub(crate) fn split<D: SearchDistance>(
    alloc: Global,
    walks: &[Reverse<Walk<D>>],
    middle: D,
) -> Result<(Vec<Reverse<Walk<D>>>, Vec<Reverse<Walk<D>>>), Memory>
    ensures { IfOk result (λ parts. IsSplit D.value (D.value middle) walks.now parts.0.items parts.1.items) }
{
    let near = count_within(walks, middle).min(walks.len());
    let mut closer = Vec::with_capacity(alloc, near)?;
    let mut farther = Vec::with_capacity(alloc, walks.len() - near)?;
    for walk in walks {
        if middle < walk.0.dist {
            farther.push(*walk)?;
        } else {
            closer.push(*walk)?;
        }
    }
    Ok((closer, farther))
}

/// The middle of the range of the lengths in a heap; its end if only few walks come before the middle. Without this, one
/// near walk after another could have all others moved.
pub(crate) fn middle_of<D: SearchDistance>(heap: &[Reverse<Walk<D>>]) -> D {
    let Some(nearest) = heap.first() else {
        return D::zero();
    };
    let mut farthest = nearest;
    for walk in heap {
        if farthest.0.dist < walk.0.dist {
            farthest = walk;
        }
    }
    let middle = nearest.0.dist.middle(farthest.0.dist);
    if count_within(heap, middle) < heap.len() / FEW {
        farthest.0.dist
    } else {
        middle
    }
}

/// How many walks are no longer than this.
fn count_within<D: SearchDistance>(heap: &[Reverse<Walk<D>>], bound: D) -> usize {
    let mut count = 0usize;
    for walk in heap {
        if walk.0.dist <= bound {
            count = count.saturating_add(1);
        }
    }
    count
}

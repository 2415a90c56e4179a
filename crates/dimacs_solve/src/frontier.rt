//! The priority queue of a search, the nearest node first.

ghost use Rattle.std.specs.Prelude.{◌≡◌, ◌∷◌, [], OnOk, MatchOption, IsPermutation};
ghost use Rattle.dimacs_solve.specs.inside.Frontiers.{walk_of, IsNearest};

use crate::distance::SearchDistance;
use crate::piles::{Pile, Walk, middle_of, put_aside, split};
use dimacs_lines::Memory;
use std::alloc::Global;
use std::cmp::Reverse;
use std::collections::BinaryHeap;
use std::marker::Model;

/// How many walks the heap may have before the farther ones leave it.
const MOST_NEAR: usize = 1024;

/// The walks that the search has still to follow. A node may end more than one of them.
///
/// The heap has the walks up to `bound`, so that it stays small. Piles have the longer ones, each pile those that are
/// longer than all before it: they become the heap in turn.
#[derive(Drop)]
pub(crate) struct Frontier<D: SearchDistance> {
    alloc: Global,
    near: BinaryHeap<Reverse<Walk<D>>>,
    most_near: usize,
    bound: D,
    piles: Vec<Pile<D>>,
}

impl<D: SearchDistance> Model for Frontier<D> {
    ghost use Rattle.std.specs.Prelude.{List, ℕ, ◌++◌};
    ghost use Rattle.std.specs.BinaryHeap.{heap_items};
    ghost use Rattle.dimacs_solve.specs.declared.piles.Walk.{Walk};
    ghost use Rattle.dimacs_solve.specs.inside.Frontiers.{IsFrontier, in_piles, walks_in};

    ghost Value = { List (Walk ℕ) };

    ghost view = { λ f. walks_in D.value (heap_items f.near) ++ in_piles D.value f.piles.items };

    ghost invariant = { λ f. IsFrontier D.value D.Ord.cmp (heap_items f.near) (D.value f.bound) f.piles.items };
}

impl<D: SearchDistance> Frontier<D> {
    pub(crate) fn new(alloc: Global) -> Frontier<D>
        ensures { result ≡ [] }
    {
        Frontier {
            alloc,
            near: BinaryHeap::new(alloc),
            most_near: MOST_NEAR,
            bound: D::zero(),
            piles: Vec::new(alloc),
        }
    }

    #[inline(always)]
    pub(crate) fn push(&mut self, walk: Walk<D>) -> Result<(), Memory>
        ensures { OnOk result (IsPermutation (walk_of D.value walk ∷ self.old) self.new) }
    {
        if self.bound < walk.dist {
            return put_aside(self.alloc, &mut self.piles, walk);
        }
        self.near.push(Reverse(walk))?;
        if self.near.len() > self.most_near {
            self.spill()?;
        }
        Ok(())
    }

    #[inline]
    pub(crate) fn pop(&mut self) -> Option<Walk<D>>
        ensures { MatchOption result ((self.old ≡ []) × (self.new ≡ [])) (λ walk. IsPermutation self.old
            (walk_of D.value walk ∷ self.new)
            × IsNearest (walk_of D.value walk) self.new) }
    {
        if let Some(Reverse(walk)) = self.near.pop() {
            return Some(walk);
        }
        if self.piles.is_empty() {
            return None;
        }
        let pile = self.piles.remove(0);
        self.near = BinaryHeap::from(pile.walks);
        self.most_near = MOST_NEAR;
        self.bound = pile.ceiling;
        let Reverse(walk) = self.near.pop()?;
        Some(walk)
    }

    /// Moves the walks in the farther half of the heap's range to a pile. If they are few, the heap may grow before the
    /// next try. A walk is moved at most once for each bit of its length.
    #[inline(never)]
    fn spill(&mut self) -> Result<(), Memory>
        ensures { OnOk result (IsPermutation self.old self.new) }
    {
        let middle = middle_of(self.near.as_slice());
        let (closer, farther) = split(self.alloc, self.near.as_slice(), middle)?;
        let more = closer.len().saturating_sub(farther.len());
        self.most_near = more.saturating_mul(2).max(MOST_NEAR);
        if !farther.is_empty() {
            let pile = Pile {
                ceiling: self.bound,
                walks: farther,
            };
            self.piles.insert(0, pile)?;
            self.near = BinaryHeap::from(closer);
            self.bound = middle;
        }
        Ok(())
    }
}

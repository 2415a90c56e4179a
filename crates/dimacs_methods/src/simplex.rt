//! Minimum cost flow by the primal network simplex.
//!
//! A spanning tree over the nodes and a root holds all arcs between their bounds; every other arc carries one of its
//! bounds. Potentials make the reduced cost of each tree arc 0: its cost, plus its tail's potential, minus its head's.
//! A pivot takes an arc whose reduced cost shows that it should carry the other bound, moves flow round the cycle that
//! it closes with the tree, and exchanges it for an arc of the cycle that came to a bound. If no such arc is left, the
//! flow costs least.
//!
//! At first an artificial arc joins each node to the root. Those that fill a deficit have a price above the cost of any
//! path: they leave the tree once there is a path. If one carries flow at the end, no path is left.

mod arcs;
mod cycle;
mod numbering;
mod tree;

use crate::number::Number;
use crate::problem::Problem;
use crate::simplex::arcs::{AT_CAP, AT_LOW, Arcs, IN_TREE};
use crate::simplex::cycle::{BasisCycle, Leaving};
use crate::simplex::tree::{ARTIFICIAL, Hook, Tree};
use crate::tables::{member, set_member};
use dimacs_lines::Memory;
use dimacs_network::Network;
use std::alloc::Global;

/// Nodes are numbered again after this many moves for each arc and node.
const MOVES_PER_NUMBERING: u64 = 32;

/// The fewest arcs that a search compares at once.
const LEAST_BLOCK: u32 = 10;

/// How many of this many arcs a search compares at once.
pub(crate) fn block_size(arcs: u32) -> u32 {
    arcs.isqrt().max(LEAST_BLOCK)
}

/// While the tree has more than an eighth of its artificial arcs, one leaves it late if the work so far is more than this
/// for each arc and node, and one and a half blocks for each one that left. Then cost scaling is mostly faster.
const FREE_WORK: u64 = 5;

#[derive(Drop)]
pub(crate) struct Simplex<V: Number> {
    tree: Tree<V>,
    arcs: Arcs<V>,
    /// The number of arcs; of arcs and nodes.
    count: u32,
    size: u64,
    /// Where the next search begins, and how many arcs it compares at once.
    at: u32,
    block: u32,
    /// The arcs scanned and the nodes walked over so far.
    work: u64,
    /// How many nodes may move before the next numbering.
    moves: u64,
    /// How many artificial arcs have left the tree, and whether one left it late.
    joined: u32,
    is_late: bool,
}

impl<V: Number> Simplex<V> {
    /// Starts from the lower bounds. Deficits are filled at a price above the cost of any path.
    pub(crate) fn new<N: Network>(
        alloc: Global,
        problem: &Problem<'_, N>,
    ) -> Result<Simplex<V>, Memory> {
        let price = V::of_wide(problem.longest_path().wrapping_mul(2));
        let tree = Tree::star(alloc, &problem.excess, price)?;
        let arcs = Arcs::new(alloc, problem)?;
        let count = problem.network().arcs();
        Ok(Simplex {
            tree,
            arcs,
            count,
            size: problem.size(),
            at: 0,
            block: block_size(count),
            work: 0,
            moves: 1,
            joined: 0,
            is_late: false,
        })
    }

    /// Pivots until no arc should change its state. False if that takes more than `work`, or seems to.
    pub(crate) fn run(&mut self, alloc: Global, work: u64) -> Result<bool, Memory> {
        for _ in 0..u64::MAX {
            let Some(entering) = self.entering() else {
                return Ok(true);
            };
            if self.work > work || self.is_late {
                break;
            }
            self.pivot(entering);
            if self.moves == 0 {
                self.renumber(alloc)?;
            }
        }
        Ok(false)
    }

    /// Block search: the best arc that should change its state, in the first block that has one, after the last block.
    fn entering(&mut self) -> Option<u32> {
        let mut left = self.count;
        for _ in 0..self.count {
            if left == 0 {
                return None;
            }
            let start = if self.at >= self.count { 0 } else { self.at };
            let end = start.saturating_add(self.block.min(left)).min(self.count);
            let looked_at = end.wrapping_sub(start);
            left = left.saturating_sub(looked_at);
            self.at = end;
            self.work = self.work.wrapping_add(u64::from(looked_at));
            let best = self.arcs.best(&self.tree.potentials, start, end);
            if best.is_some() {
                return best;
            }
        }
        None
    }

    /// Lets an arc enter the tree, or come to its other bound.
    fn pivot(&mut self, entering: u32) {
        let price = self.arcs.price(entering);
        let state = self.arcs.state(entering);
        let residual_capacity = V::of(self.arcs.residual_capacity(entering));
        let cycle = if state == AT_LOW {
            BasisCycle::find(&self.tree, price.tail, price.head, residual_capacity)
        } else {
            BasisCycle::find(&self.tree, price.head, price.tail, residual_capacity)
        };
        self.work = self.work.wrapping_add(cycle.steps);
        cycle.augment(&mut self.tree);
        match cycle.leaving {
            Leaving::Itself => self.arcs.set_state(entering, state.wrapping_neg()),
            Leaving::OnFirst(out) => {
                let hook = Hook {
                    parent: cycle.second,
                    arc: entering,
                    up: residual_capacity.minus(cycle.amount),
                    down: cycle.amount,
                };
                self.swap_tree_arc(out, cycle.first, hook);
            }
            Leaving::OnSecond(out) => {
                let hook = Hook {
                    parent: cycle.first,
                    arc: entering,
                    up: cycle.amount,
                    down: residual_capacity.minus(cycle.amount),
                };
                self.swap_tree_arc(out, cycle.second, hook);
            }
        }
    }

    /// Removes the arc between `out` and its parent, and joins what that cuts off by the hook at `top`.
    fn swap_tree_arc(&mut self, out: u32, top: u32, hook: Hook<V>) {
        let price = self.arcs.price(hook.arc);
        let reduced = price.reduced(&self.tree.potentials);
        let raise = if top == price.tail {
            reduced.negated()
        } else {
            reduced
        };
        self.leave(out);
        self.arcs.set_state(hook.arc, IN_TREE);
        let moved = self.tree.rehang(top, out, hook, raise);
        self.work = self.work.wrapping_add(moved);
        self.moves = self.moves.saturating_sub(moved);
    }

    /// Removes the arc between a node and its parent, which carries one of its bounds.
    fn leave(&mut self, out: u32) {
        let node = self.tree.node(out);
        let is_empty = self.arcs.flow(out, &node).is_zero();
        let state = if is_empty { AT_LOW } else { AT_CAP };
        self.arcs.set_state(node.arc, state);
        if node.arc == ARTIFICIAL {
            self.join();
        }
    }

    /// Counts an artificial arc that has left the tree.
    fn join(&mut self) {
        self.joined = self.joined.wrapping_add(1);
        let nodes = self.tree.root();
        let is_joining = self.joined.saturating_add(2) < nodes - nodes / 8;
        let blocks = u64::from(self.joined).wrapping_mul(3) / 2;
        let joining = u64::from(self.block).wrapping_mul(blocks);
        let in_time = self.size.wrapping_mul(FREE_WORK).wrapping_add(joining);
        self.is_late = is_joining && self.work > in_time;
    }

    /// Numbers the nodes again, in the tree and at the arcs.
    fn renumber(&mut self, alloc: Global) -> Result<(), Memory> {
        self.moves = self.size.wrapping_mul(MOVES_PER_NUMBERING);
        let numbers = self.tree.renumber(alloc)?;
        for price in &mut self.arcs.prices {
            price.tail = member(&numbers, price.tail, 0);
            price.head = member(&numbers, price.head, 0);
        }
        Ok(())
    }

    /// Copies the flow of the tree arcs into the table of arcs.
    fn settle(&mut self) {
        for number in 0..self.tree.root() {
            let node = self.tree.node(number);
            let flow = self.arcs.flow(number, &node);
            self.arcs.set_residual_capacity(node.arc, flow.narrow());
        }
    }

    pub(crate) fn amounts<N: Network>(
        &mut self,
        alloc: Global,
        network: &N,
    ) -> Result<Vec<i64>, Memory> {
        self.settle();
        let mut amounts = Vec::with_capacity(alloc, network.arcs() as usize)?;
        for i in 0..network.arcs() {
            let above = self.arcs.above_low(i);
            amounts.push(network.arc(i).low.wrapping_add(above))?;
        }
        Ok(amounts)
    }

    /// The potentials by the first numbers of the nodes.
    pub(crate) fn potentials(&self, alloc: Global) -> Result<Vec<i128>, Memory> {
        let mut potentials = vec![in alloc; 0i128; self.tree.names.len()]?;
        for (name, potential) in self.tree.names.iter().zip(&self.tree.potentials) {
            set_member(&mut potentials, *name, potential.wide());
        }
        Ok(potentials)
    }
}

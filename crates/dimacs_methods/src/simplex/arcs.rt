//! The arcs, in the order of the network.

use crate::number::Number;
use crate::problem::Problem;
use crate::simplex::tree::TreeNode;
use crate::tables::{member, set_member};
use dimacs_lines::Memory;
use dimacs_network::Network;
use std::alloc::Global;

/// What the search for an entering arc needs.
#[derive(Clone, Copy, Default)]
pub(crate) struct Price<V> {
    pub cost: V,
    pub tail: u32,
    pub head: u32,
}

/// The state of an arc: the bound that it carries, or that it is in the tree. It should change if the product of state
/// and reduced cost is negative.
pub(crate) const AT_LOW: i8 = 1;

pub(crate) const IN_TREE: i8 = 0;

pub(crate) const AT_CAP: i8 = -1;

#[derive(Drop)]
pub(crate) struct Arcs<V: Number> {
    pub prices: Vec<Price<V>>,
    states: Vec<i8>,
    /// The capacity minus the lower bound; at the end the amount minus the lower bound, if it isn't 0.
    residual_capacities: Vec<i64>,
}

impl<V: Number> Price<V> {
    #[inline(always)]
    pub(crate) fn reduced(&self, potentials: &[V]) -> V {
        self.cost
            .plus(member(potentials, self.tail, V::of(0)))
            .minus(member(potentials, self.head, V::of(0)))
    }
}

impl<V: Number> Arcs<V> {
    pub(crate) fn new<N: Network>(
        alloc: Global,
        problem: &Problem<'_, N>,
    ) -> Result<Arcs<V>, Memory> {
        let network = problem.network();
        let count = network.arcs() as usize;
        let mut arcs = Arcs {
            prices: Vec::with_capacity(alloc, count)?,
            states: vec![in alloc; AT_LOW; count]?,
            residual_capacities: Vec::with_capacity(alloc, count)?,
        };
        for i in 0..network.arcs() {
            let arc = network.arc(i);
            arcs.prices.push(Price {
                cost: V::of(arc.cost),
                tail: problem.numbers.of(arc.tail),
                head: problem.numbers.of(arc.head),
            })?;
            arcs.residual_capacities
                .push(arc.cap.wrapping_sub(arc.low))?;
        }
        Ok(arcs)
    }

    #[inline(always)]
    pub(crate) fn price(&self, arc: u32) -> Price<V> {
        member(&self.prices, arc, Price::default())
    }

    #[inline(always)]
    pub(crate) fn state(&self, arc: u32) -> i8 {
        member(&self.states, arc, IN_TREE)
    }

    #[inline(always)]
    pub(crate) fn set_state(&mut self, arc: u32, state: i8) {
        set_member(&mut self.states, arc, state);
    }

    #[inline(always)]
    pub(crate) fn residual_capacity(&self, arc: u32) -> i64 {
        member(&self.residual_capacities, arc, 0)
    }

    /// At the end, a tree arc gets the amount minus the lower bound.
    pub(crate) fn set_residual_capacity(&mut self, arc: u32, residual_capacity: i64) {
        set_member(&mut self.residual_capacities, arc, residual_capacity);
    }

    /// The amount minus the lower bound of the arc between a node and its parent.
    #[inline(always)]
    pub(crate) fn flow(&self, number: u32, node: &TreeNode<V>) -> V {
        if self.price(node.arc).tail == number {
            node.down
        } else {
            node.up
        }
    }

    /// The amount minus the lower bound, after `settle`.
    pub(crate) fn above_low(&self, arc: u32) -> i64 {
        if self.state(arc) == AT_LOW {
            return 0;
        }
        self.residual_capacity(arc)
    }

    /// Of the arcs from `start` to `end` that should change their state, the one with the greatest absolute reduced
    /// cost.
    pub(crate) fn best(&self, potentials: &[V], start: u32, end: u32) -> Option<u32> {
        let prices = self.prices.get(start as usize..end as usize)?;
        let states = self.states.get(start as usize..end as usize)?;
        let mut least = V::of(0);
        let mut best = None;
        let mut arc = start;
        for (price, state) in prices.iter().zip(states) {
            let gain = price.reduced(potentials).times(V::of(i64::from(*state)));
            if gain.is_below(least) {
                least = gain;
                best = Some(arc);
            }
            arc = arc.wrapping_add(1);
        }
        best
    }
}

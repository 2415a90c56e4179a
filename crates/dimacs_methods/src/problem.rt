//! An instance in the form that the methods use.

use crate::node_numbers::NodeNumbers;
use dimacs_instance::MinInstance;
use dimacs_lines::Memory;
use dimacs_network::Network;
use std::alloc::Global;

/// A minimum cost flow instance, and bounds on its numbers.
#[derive(Drop)]
pub(crate) struct Problem<'a, N: Network> {
    pub instance: &'a MinInstance<N>,
    pub numbers: NodeNumbers,
    /// By node number: the imbalance if each arc carries its lower bound.
    pub excess: Vec<i128>,
    /// The greatest absolute cost; the least cost, or 0 if none is negative.
    greatest_cost: i128,
    pub least_cost: i64,
    total_capacity: i128,
}

/// If every path costs less than this, 2^60, then potentials and prices for unscaled costs fit into 64 bits.
const PATH_COST_LIMIT: i128 = 1152921504606846976;

/// If less than this, 2^62, can move, then amounts fit into 64 bits.
pub(crate) const MOST_MOVED: i128 = 4611686018427387904;

impl<'a, N: Network> Problem<'a, N> {
    pub(crate) fn new(
        alloc: Global,
        instance: &'a MinInstance<N>,
    ) -> Result<Problem<'a, N>, Memory> {
        let numbers = NodeNumbers::new(alloc, instance)?;
        let mut excess = Vec::with_capacity(alloc, numbers.count() as usize)?;
        for id in numbers.ids() {
            excess.push(i128::from(instance.supply(*id)))?;
        }
        let mut problem = Problem {
            instance,
            numbers,
            excess,
            greatest_cost: 0,
            least_cost: 0,
            total_capacity: 0,
        };
        problem.add_arcs(instance.network());
        Ok(problem)
    }

    fn add_arcs(&mut self, network: &N) {
        for i in 0..network.arcs() {
            let arc = network.arc(i);
            self.greatest_cost = self.greatest_cost.max(i128::from(arc.cost).wrapping_abs());
            self.least_cost = self.least_cost.min(arc.cost);
            self.total_capacity = self.total_capacity.wrapping_add(i128::from(arc.cap));
            if arc.low > 0 {
                let low = i128::from(arc.low);
                self.add_excess(arc.tail, low.wrapping_neg());
                self.add_excess(arc.head, low);
            }
        }
    }

    fn add_excess(&mut self, id: u32, amount: i128) {
        let number = self.numbers.of(id) as usize;
        if let Some(excess) = self.excess.get_mut(number) {
            *excess = excess.wrapping_add(amount);
        }
    }

    pub(crate) fn network(&self) -> &'a N {
        self.instance.network()
    }

    /// Greater than the cost of any path.
    pub(crate) fn longest_path(&self) -> i128 {
        let nodes = i128::from(self.numbers.count());
        self.greatest_cost.wrapping_mul(nodes).wrapping_add(1)
    }

    /// The sum of all excesses and deficits.
    pub(crate) fn total_imbalance(&self) -> i128 {
        let mut sum: i128 = 0;
        for amount in &self.excess {
            sum = sum.wrapping_add(amount.wrapping_abs());
        }
        sum
    }

    /// Whether 64 bits hold the numbers of a method that doesn't scale costs.
    pub(crate) fn is_narrow(&self) -> bool {
        self.longest_path() < PATH_COST_LIMIT && self.total_imbalance() < MOST_MOVED
    }

    /// The number of nodes with an excess.
    pub(crate) fn sources(&self) -> usize {
        self.excess.iter().filter(|excess| **excess > 0).count()
    }

    /// A bound on any excess or deficit, whatever the arcs carry.
    pub(crate) fn greatest_excess(&self) -> i128 {
        self.total_imbalance().wrapping_add(self.total_capacity)
    }

    /// The number of arcs and nodes.
    pub(crate) fn size(&self) -> u64 {
        u64::from(self.network().arcs()) + u64::from(self.numbers.count())
    }

    pub(crate) fn node_bits(&self) -> u32 {
        u32::BITS - self.numbers.count().leading_zeros()
    }

    pub(crate) fn cost_bits(&self) -> u32 {
        i128::BITS - self.greatest_cost.leading_zeros()
    }
}

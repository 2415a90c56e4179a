//! Values of all nodes up to a last one.

ghost use Rattle.std.specs.Prelude.{◌≡◌, ◌≢◌, ◌↔◌, ℕ, IfOk, IsTrue};

use crate::network::Network;
use crate::node_table::fill;
use dimacs_lines::Memory;
use std::alloc::Global;

/// Values by node ID, in one piece. Each is `blank` until it is set. It takes memory for all nodes up to the last, so
/// only where they are known to be few.
#[derive(Drop)]
pub struct DenseTable<T> {
    blank: T,
    values: Vec<T>,
}

impl<T: Copy> DenseTable<T> {
    ghost use Rattle.dimacs_network.specs.DenseTables.{HasNode, HasNodes, SameNodes, value_at};

    pub fn new(alloc: Global, blank: T, last: u32) -> Result<DenseTable<T>, Memory>
        ensures values { IfOk result (λ table. (id : ℕ) → value_at table id ≡ blank) }
        ensures nodes { IfOk result (λ table. HasNodes table last) }
    {
        let mut values = Vec::new(alloc);
        values.resize(last as usize + 1, blank)?;
        Ok(DenseTable { blank, values })
    }

    /// Whether the table has this node.
    #[inline(always)]
    pub fn has(&self, id: u32) -> bool
        ensures { IsTrue result ↔ HasNode self.now id }
    {
        (id as usize) < self.values.len()
    }

    /// The value of a node; the blank one past the last.
    #[inline(always)]
    pub fn get(&self, id: u32) -> T
        ensures { result ≡ value_at self.now id }
    {
        match self.values.get(id as usize) {
            Some(value) => *value,
            None => self.blank,
        }
    }

    /// The value of a node that the table has.
    #[inline(always)]
    pub fn at(&self, id: u32) -> T
        requires { HasNode self.now id }
        ensures { result ≡ value_at self.now id }
    {
        self.values[id as usize]
    }

    #[inline(always)]
    pub fn set(&mut self, id: u32, value: T)
        requires { HasNode self.old id }
        ensures set { value_at self.new id ≡ value }
        ensures others { (other : ℕ) → other ≢ id → value_at self.new other ≡ value_at self.old other }
        ensures nodes { SameNodes self.old self.new }
    {
        self.values[id as usize] = value;
    }

    /// Makes all values this one.
    pub fn fill(&mut self, value: T)
        ensures values { (id : ℕ) → value_at self.new id ≡ value }
        ensures nodes { SameNodes self.old self.new }
    {
        self.blank = value;
        fill(&mut self.values, value);
    }
}

/// Whether there are at most two nodes for each arc, and a few. Tables of all nodes then grow with the text.
pub fn has_dense_ids<N: Network>(network: &N) -> bool {
    u64::from(network.nodes()) <= u64::from(network.arcs()) * 2 + 1024
}

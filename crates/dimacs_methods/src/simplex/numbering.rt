//! Numbering the nodes of a tree again.

use crate::number::Number;
use crate::simplex::tree::Tree;
use crate::tables::{member, set_member};
use dimacs_lines::Memory;
use std::alloc::Global;

impl<V: Number> Tree<V> {
    /// Numbers the nodes in preorder, so that a subtree is contiguous in memory. Returns the new numbers.
    pub(crate) fn renumber(&mut self, alloc: Global) -> Result<Vec<u32>, Memory> {
        let order = self.preorder(alloc)?;
        let mut numbers = vec![in alloc; self.root(); self.nodes.len()]?;
        number_in_order(&mut numbers, &order);
        permute(alloc, &mut self.nodes, &order)?;
        permute(alloc, &mut self.threads, &order)?;
        permute(alloc, &mut self.potentials, &order)?;
        permute(alloc, &mut self.names, &order)?;
        self.rename(&numbers);
        Ok(numbers)
    }

    /// The nodes in preorder, the root last.
    fn preorder(&self, alloc: Global) -> Result<Vec<u32>, Memory> {
        let mut order = Vec::with_capacity(alloc, self.nodes.len())?;
        let mut node = self.root();
        for _ in 0..self.nodes.len() {
            node = self.thread(node).after;
            order.push(node)?;
        }
        Ok(order)
    }

    fn rename(&mut self, numbers: &[u32]) {
        for node in &mut self.nodes {
            node.parent = member(numbers, node.parent, 0);
            node.before = member(numbers, node.before, 0);
        }
        for thread in &mut self.threads {
            thread.after = member(numbers, thread.after, 0);
        }
    }
}

fn number_in_order(numbers: &mut [u32], order: &[u32]) {
    let mut number: u32 = 0;
    for node in order {
        set_member(numbers, *node, number);
        number = number.wrapping_add(1);
    }
}

/// Item k becomes the old item `order[k]`.
fn permute<T: Copy>(alloc: Global, table: &mut Vec<T>, order: &[u32]) -> Result<(), Memory> {
    let mut permuted = Vec::with_capacity(alloc, table.len())?;
    for place in order {
        if let Some(member) = table.get(*place as usize) {
            permuted.push(*member)?;
        }
    }
    *table = permuted;
    Ok(())
}

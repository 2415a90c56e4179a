//! The queue of active nodes, those with excess, the highest first.

use crate::levels::{Levels, NONE};
use crate::tables::{member, set_member};
use dimacs_lines::Memory;
use std::alloc::Global;

/// The queued nodes by height.
#[derive(Drop)]
pub(crate) struct ActiveNodes {
    levels: Levels,
    is_queued: Vec<bool>,
}

impl ActiveNodes {
    /// The empty queue, for heights up to the number of nodes. Takes 13 bytes for each node.
    pub(crate) fn new(alloc: Global, nodes: usize) -> Result<ActiveNodes, Memory> {
        Ok(ActiveNodes {
            levels: Levels::new(alloc, nodes.saturating_add(1), nodes)?,
            is_queued: vec![in alloc; false; nodes]?,
        })
    }

    pub(crate) fn clear(&mut self) {
        self.levels.clear();
        self.is_queued.fill(false);
    }

    /// Right after `pop`, the height at which the node was queued.
    pub(crate) fn highest(&self) -> u32 {
        self.levels.highest()
    }

    /// Queues a node, unless it is queued already or the height is out of range.
    pub(crate) fn push(&mut self, node: u32, height: u32) {
        if member(&self.is_queued, node, true) || height >= self.levels.count() {
            return;
        }
        set_member(&mut self.is_queued, node, true);
        self.levels.insert(node, height);
    }

    /// Takes a node of the greatest height.
    pub(crate) fn pop(&mut self) -> Option<u32> {
        self.descend();
        let highest = self.highest();
        let node = self.levels.take(highest)?;
        set_member(&mut self.is_queued, node, false);
        Some(node)
    }

    fn descend(&mut self) {
        for _ in 0..self.highest() {
            let highest = self.highest();
            if self.levels.first(highest) != NONE {
                return;
            }
            self.levels.forget_above(highest.wrapping_sub(1));
        }
    }
}

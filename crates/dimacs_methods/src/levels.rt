//! Nodes by level, as buckets.

use crate::tables::{count_of, member, set_member};
use dimacs_lines::Memory;
use std::alloc::Global;

/// No node.
pub(crate) const NONE: u32 = u32::MAX;

/// A node's neighbours on its level.
#[derive(Clone, Copy)]
struct Siblings {
    before: u32,
    after: u32,
}

const ALONE: Siblings = Siblings {
    before: NONE,
    after: NONE,
};

/// A linked list of the nodes of each level. Takes 8 bytes for each node and 4 for each level.
#[derive(Drop)]
pub(crate) struct Levels {
    first: Vec<u32>,
    links: Vec<Siblings>,
    highest: u32,
}

impl Levels {
    /// Without nodes. Levels and nodes have numbers below these.
    pub(crate) fn new(alloc: Global, levels: usize, nodes: usize) -> Result<Levels, Memory> {
        Ok(Levels {
            first: vec![in alloc; NONE; levels]?,
            links: vec![in alloc; ALONE; nodes]?,
            highest: 0,
        })
    }

    pub(crate) fn count(&self) -> u32 {
        count_of(&self.first)
    }

    pub(crate) fn clear(&mut self) {
        self.first.fill(NONE);
        self.highest = 0;
    }

    /// No node is above this level.
    pub(crate) fn highest(&self) -> u32 {
        self.highest
    }

    /// The first node of a level, or `NONE`.
    #[inline(always)]
    pub(crate) fn first(&self, level: u32) -> u32 {
        member(&self.first, level, NONE)
    }

    /// The next node of the same level, or `NONE`.
    pub(crate) fn after(&self, node: u32) -> u32 {
        member(&self.links, node, ALONE).after
    }

    pub(crate) fn insert(&mut self, node: u32, level: u32) {
        let after = self.first(level);
        let link = Siblings {
            before: NONE,
            after,
        };
        set_member(&mut self.links, node, link);
        if let Some(later) = self.links.get_mut(after as usize) {
            later.before = node;
        }
        set_member(&mut self.first, level, node);
        self.highest = self.highest.max(level);
    }

    pub(crate) fn remove(&mut self, node: u32, level: u32) {
        let link = member(&self.links, node, ALONE);
        if let Some(earlier) = self.links.get_mut(link.before as usize) {
            earlier.after = link.after;
        } else {
            set_member(&mut self.first, level, link.after);
        }
        if let Some(later) = self.links.get_mut(link.after as usize) {
            later.before = link.before;
        }
    }

    /// Removes any node of a level.
    pub(crate) fn take(&mut self, level: u32) -> Option<u32> {
        let node = self.first(level);
        if node == NONE {
            return None;
        }
        self.remove(node, level);
        Some(node)
    }

    /// Forgets the levels above this one, which have no nodes left.
    pub(crate) fn forget_above(&mut self, level: u32) {
        self.highest = self.highest.min(level);
    }
}

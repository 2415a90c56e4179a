//! The spanning tree.

use crate::number::Number;
use crate::tables::{count_of, member};
use dimacs_lines::Memory;
use std::alloc::Global;

/// Stands for an artificial arc.
pub(crate) const ARTIFICIAL: u32 = u32::MAX;

/// A node of the tree, with its parent arc.
#[derive(Clone, Copy)]
pub(crate) struct TreeNode<V> {
    /// The residual capacities to the parent and from it.
    pub up: V,
    pub down: V,
    pub parent: u32,
    /// The arc to the parent or from it.
    pub arc: u32,
    /// The node before this one in preorder.
    pub before: u32,
}

/// A node's successor in preorder, and its depth: what changes in each node of a moved subtree, beside its potential.
#[derive(Clone, Copy)]
pub(crate) struct Thread {
    /// The node after this one in preorder; the root after the last.
    pub after: u32,
    pub depth: u32,
}

/// The arc that joins a subtree to a parent, and its residual capacities to the parent and from it.
#[derive(Drop)]
pub(crate) struct Hook<V> {
    pub parent: u32,
    pub arc: u32,
    pub up: V,
    pub down: V,
}

/// A tree over all nodes and a root, which has the last number, depth 0 and potential 0, and is its own parent.
#[derive(Drop)]
pub(crate) struct Tree<V: Number> {
    pub nodes: Vec<TreeNode<V>>,
    pub threads: Vec<Thread>,
    pub potentials: Vec<V>,
    /// The first number of each node.
    pub names: Vec<u32>,
}

impl<V: Number> Tree<V> {
    /// Each node is a child of the root, by an artificial arc that takes its excess at no cost, or fills its deficit at
    /// `price`. The arc of other nodes leads to the root: flow can go there from everywhere.
    pub(crate) fn star(alloc: Global, excess: &[i128], price: V) -> Result<Tree<V>, Memory> {
        let root = count_of(excess);
        let size = excess.len().saturating_add(1);
        let mut tree = Tree {
            nodes: Vec::with_capacity(alloc, size)?,
            threads: Vec::with_capacity(alloc, size)?,
            potentials: Vec::with_capacity(alloc, size)?,
            names: (0..root).collect(alloc)?,
        };
        for amount in excess {
            tree.add_leaf(V::of_wide(*amount), price)?;
        }
        tree.nodes.push(TreeNode {
            up: V::of(0),
            down: V::of(0),
            parent: root,
            arc: ARTIFICIAL,
            before: root.saturating_sub(1),
        })?;
        tree.threads.push(Thread { after: 0, depth: 0 })?;
        tree.potentials.push(V::of(0))?;
        Ok(tree)
    }

    fn add_leaf(&mut self, excess: V, price: V) -> Result<(), Memory> {
        let root = self.root();
        let number = count_of(&self.nodes);
        let has_deficit = excess.is_negative();
        let flow = if has_deficit {
            excess.negated()
        } else {
            excess
        };
        let residual_capacity = V::greatest().minus(flow);
        self.nodes.push(TreeNode {
            up: if has_deficit { flow } else { residual_capacity },
            down: if has_deficit { residual_capacity } else { flow },
            parent: root,
            arc: ARTIFICIAL,
            before: number.checked_sub(1).unwrap_or(root),
        })?;
        self.threads.push(Thread {
            after: number.wrapping_add(1),
            depth: 1,
        })?;
        self.potentials
            .push(if has_deficit { price } else { V::of(0) })?;
        Ok(())
    }

    pub(crate) fn root(&self) -> u32 {
        count_of(&self.names)
    }

    #[inline(always)]
    pub(crate) fn node(&self, node: u32) -> TreeNode<V> {
        let past = TreeNode {
            up: V::of(0),
            down: V::of(0),
            parent: ARTIFICIAL,
            arc: ARTIFICIAL,
            before: 0,
        };
        member(&self.nodes, node, past)
    }

    #[inline(always)]
    pub(crate) fn thread(&self, node: u32) -> Thread {
        member(&self.threads, node, Thread { after: 0, depth: 0 })
    }

    /// Moves an amount up along the tree arcs between a node and one above it.
    pub(crate) fn move_up(&mut self, from: u32, to: u32, amount: V) {
        let mut at = from;
        for _ in 0..self.nodes.len() {
            if at == to {
                return;
            }
            let Some(node) = self.nodes.get_mut(at as usize) else {
                return;
            };
            node.up = node.up.minus(amount);
            node.down = node.down.plus(amount);
            at = node.parent;
        }
    }

    /// Cuts off the subtree of `out`, makes `top` its root, joins it by the hook, and raises its potentials. Returns
    /// how many nodes moved.
    ///
    /// The stem is the path from `top` to `out`. Each of its nodes keeps its other subtrees, and its old parent becomes
    /// its child.
    pub(crate) fn rehang(&mut self, top: u32, out: u32, hook: Hook<V>, raise: V) -> u64 {
        let mut hook = hook;
        let mut stem = top;
        let mut last = hook.parent;
        let mut depth = self.thread(hook.parent).depth;
        let mut moved: u64 = 0;
        for _ in 0..self.nodes.len() {
            depth = depth.wrapping_add(1);
            let old = self.node(stem);
            let part = self.move_part(stem, last, depth, raise);
            last = part.last;
            moved = moved.wrapping_add(part.count);
            self.hang(stem, &hook);
            if stem == out {
                break;
            }
            hook = Hook {
                parent: stem,
                arc: old.arc,
                up: old.down,
                down: old.up,
            };
            stem = old.parent;
        }
        moved
    }

    fn hang(&mut self, node: u32, hook: &Hook<V>) {
        if let Some(node) = self.nodes.get_mut(node as usize) {
            node.parent = hook.parent;
            node.arc = hook.arc;
            node.up = hook.up;
            node.down = hook.down;
        }
    }

    /// Moves the rest of the subtree of `top` after the node `to` in preorder.
    fn move_part(&mut self, top: u32, to: u32, depth: u32, raise: V) -> Segment {
        let old = self.thread(top).depth;
        let part = self.shift_part(top, old, depth.wrapping_sub(old), raise);
        self.link(self.node(top).before, part.after);
        let after = self.thread(to).after;
        self.link(to, top);
        self.link(part.last, after);
        part
    }

    /// Raises the potentials and depths of the nodes from `top` on, until one comes that isn't deeper than `top` was.
    fn shift_part(&mut self, top: u32, old: u32, deeper: u32, raise: V) -> Segment {
        let mut part = Segment {
            last: top,
            after: top,
            count: 0,
        };
        for _ in 0..self.threads.len() {
            let at = part.after as usize;
            let Some(thread) = self.threads.get_mut(at) else {
                break;
            };
            if thread.depth <= old && part.count > 0 {
                break;
            }
            thread.depth = thread.depth.wrapping_add(deeper);
            part.last = part.after;
            part.after = thread.after;
            part.count = part.count.wrapping_add(1);
            if let Some(potential) = self.potentials.get_mut(at) {
                *potential = potential.plus(raise);
            }
        }
        part
    }

    #[inline(always)]
    fn link(&mut self, before: u32, after: u32) {
        if let Some(thread) = self.threads.get_mut(before as usize) {
            thread.after = after;
        }
        if let Some(node) = self.nodes.get_mut(after as usize) {
            node.before = before;
        }
    }
}

/// Nodes that follow each other in preorder.
#[derive(Clone, Copy)]
struct Segment {
    last: u32,
    /// The node after the last one.
    after: u32,
    count: u64,
}

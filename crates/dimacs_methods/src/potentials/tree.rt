//! The tree of the links that lowered distances last.

use crate::number::Number;
use crate::potentials::links::Link;
use crate::potentials::listing::Listing;
use crate::potentials::queue::GroupQueue;
use crate::tables::{count_of, member, set_member};
use dimacs_lines::Memory;
use std::alloc::Global;

/// A group in the tree. The groups of the tree form a ring in preorder: each comes right before its subtree.
#[derive(Clone, Copy)]
struct GroupNode {
    parent: u32,
    before: u32,
    after: u32,
    /// The number of children; `OUT` if the group isn't in the tree.
    children: u32,
}

const OUT: u32 = u32::MAX;

/// A part of the ring: a group and its subtree.
#[derive(Clone, Copy)]
struct Segment {
    last: u32,
    /// The group after the last one.
    after: u32,
}

/// What happens to the subtree of a group that is lowered.
#[derive(Drop)]
enum Subtree<V> {
    /// It is lowered by the same amount.
    Moves(V),
    /// It leaves the tree until it is reached again.
    Leaves,
}

/// Subtrees are lowered with their roots while the groups walked over are at most this many times the links scanned.
/// Without this limit, deep trees are walked over again and again.
const WALKS: u64 = 2;

/// The distances of groups, and the tree of the links that lowered them last.
#[derive(Drop)]
pub(crate) struct Tree<V> {
    pub distances: Vec<V>,
    /// Whether all distances are small. Once one isn't, sums may wrap.
    pub are_small: bool,
    nodes: Vec<GroupNode>,
    pub queue: GroupQueue,
    scanned_links: u64,
    walked_groups: u64,
}

/// The groups in the order of their numbers, then a root, the parent of all.
fn ring(alloc: Global, groups: u32) -> Result<Vec<GroupNode>, Memory> {
    let mut nodes = Vec::with_capacity(alloc, groups as usize + 1)?;
    let mut before = groups;
    for group in 0..groups {
        nodes.push(GroupNode {
            parent: groups,
            before,
            after: group + 1,
            children: 0,
        })?;
        before = group;
    }
    nodes.push(GroupNode {
        parent: groups,
        before,
        after: 0,
        children: groups,
    })?;
    Ok(nodes)
}

impl<V: Number> Tree<V> {
    /// All groups are queued, and are children of one root, whose number is the number of groups.
    pub(crate) fn new(alloc: Global, groups: u32) -> Result<Tree<V>, Memory> {
        let nodes = ring(alloc, groups)?;
        let distances = vec![in alloc; V::of(0); groups as usize]?;
        let mut queue = GroupQueue::new(alloc, groups)?;
        for group in 0..groups {
            queue.push(group);
        }
        Ok(Tree {
            distances,
            are_small: true,
            nodes,
            queue,
            scanned_links: 0,
            walked_groups: 0,
        })
    }

    pub(crate) fn groups(&self) -> u32 {
        count_of(&self.distances)
    }

    #[inline(always)]
    pub(crate) fn work(&self) -> u64 {
        self.scanned_links.wrapping_add(self.walked_groups)
    }

    #[inline(always)]
    pub(crate) fn distance(&self, group: u32) -> V {
        member(&self.distances, group, V::of(0))
    }

    #[inline(always)]
    pub(crate) fn parent(&self, group: u32) -> u32 {
        self.node(group).parent
    }

    /// Relaxes the links out of a group while distances are small. Returns the head of a link that closes a cycle.
    #[inline(always)]
    pub(crate) fn relax_links(&mut self, links: &Listing<Link<V>>, from: u32) -> Option<u32> {
        if self.node(from).children == OUT {
            return None;
        }
        let start = self.distance(from);
        let links = links.of(from);
        self.scanned_links = self.scanned_links.wrapping_add(links.len() as u64);
        let mut at = 0usize;
        for _ in 0..links.len() {
            at = next_lowering(links, &self.distances, start, at);
            let link = links.get(at)?;
            let change = start.plus(link.cost).minus(self.distance(link.to));
            if !self.lower(link.to, from, change) {
                return Some(link.to);
            }
            if !self.are_small {
                return None;
            }
            at = at.wrapping_add(1);
        }
        None
    }

    /// Lowers a group by a negative change, and makes it a child of `parent`. False if `parent` is in its subtree.
    #[inline(never)]
    fn lower(&mut self, group: u32, parent: u32, change: V) -> bool {
        let node = self.node(group);
        if node.children != OUT {
            let moves = self.walked_groups <= self.scanned_links.wrapping_mul(WALKS);
            let part = if moves {
                self.walk(group, parent, &Subtree::Moves(change))
            } else {
                self.walk(group, parent, &Subtree::Leaves)
            };
            let Some(part) = part else {
                return false;
            };
            self.cut(node, part);
            if moves {
                self.hang(group, part.last, parent);
                return true;
            }
        }
        self.change(group, change);
        self.set_children(group, 0);
        self.hang(group, group, parent);
        true
    }

    /// Lowers a group's subtree, or marks it `OUT`. None if `other` is in it.
    #[inline(always)]
    fn walk(&mut self, group: u32, other: u32, subtree: &Subtree<V>) -> Option<Segment> {
        let mut last = group;
        let mut at = group;
        let mut open: u32 = 1;
        for _ in 0..u32::MAX {
            if at == other {
                return None;
            }
            let node = self.node(at);
            open = open.wrapping_add(node.children).wrapping_sub(1);
            last = at;
            at = node.after;
            self.walked_groups = self.walked_groups.wrapping_add(1);
            match subtree {
                Subtree::Moves(change) => self.change(last, *change),
                Subtree::Leaves => self.set_children(last, OUT),
            }
            if open == 0 {
                break;
            }
        }
        Some(Segment { last, after: at })
    }

    /// Changes the distance of a group, and queues it.
    #[inline(always)]
    fn change(&mut self, group: u32, change: V) {
        let distance = self.distance(group).plus(change);
        if !distance.is_small() {
            self.are_small = false;
        }
        set_member(&mut self.distances, group, distance);
        self.queue.push(group);
    }

    /// Removes this part, which begins with the node's group, from the ring.
    #[inline(always)]
    fn cut(&mut self, node: GroupNode, part: Segment) {
        self.neighbour(node.before, part.after);
        let children = self.node(node.parent).children;
        self.set_children(node.parent, children.wrapping_sub(1));
    }

    /// Inserts the part from `first` to `last` after `parent`, and makes `first` a child of it.
    #[inline(always)]
    fn hang(&mut self, first: u32, last: u32, parent: u32) {
        let after = self.node(parent).after;
        self.neighbour(parent, first);
        self.neighbour(last, after);
        let children = self.node(parent).children;
        self.set_children(parent, children.wrapping_add(1));
        if let Some(node) = self.nodes.get_mut(first as usize) {
            node.parent = parent;
        }
    }

    #[inline(always)]
    fn neighbour(&mut self, before: u32, after: u32) {
        if let Some(node) = self.nodes.get_mut(before as usize) {
            node.after = after;
        }
        if let Some(node) = self.nodes.get_mut(after as usize) {
            node.before = before;
        }
    }

    #[inline(always)]
    fn set_children(&mut self, group: u32, children: u32) {
        if let Some(node) = self.nodes.get_mut(group as usize) {
            node.children = children;
        }
    }

    #[inline(always)]
    fn node(&self, group: u32) -> GroupNode {
        let past = GroupNode {
            parent: group,
            before: group,
            after: group,
            children: OUT,
        };
        member(&self.nodes, group, past)
    }
}

/// The index of the first link from `from` on that lowers a distance; otherwise the number of links.
#[inline(never)]
fn next_lowering<V: Number>(links: &[Link<V>], distances: &[V], start: V, from: usize) -> usize {
    let mut at = from;
    for _ in 0..links.len() {
        let Some(link) = links.get(at) else {
            break;
        };
        let distance = start.plus(link.cost);
        if distance.is_below(member(distances, link.to, distance)) {
            break;
        }
        at = at.wrapping_add(1);
    }
    at
}

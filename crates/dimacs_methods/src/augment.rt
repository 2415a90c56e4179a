//! Minimum cost flow by successive shortest paths.
//!
//! Each search is Dijkstra's: it settles nodes by distance, ends at the nearest deficit, and excess moves there. Prices
//! keep the reduced costs of residual arcs from being negative. This is fast if few nodes have an excess, and each
//! search moves much of it.

use crate::problem::Problem;
use crate::residual::{Half, Residual};
use crate::tables::{count_of, member, set_member};
use dimacs_lines::Memory;
use dimacs_network::Network;
use std::alloc::Global;
use std::cmp::Reverse;
use std::collections::BinaryHeap;

/// How many half-arcs may be scanned for each arc before any excess has moved, and how many more until all of it has.
/// With one source, paths soon become long.
const FIRST_SCANS: i128 = 1;

const SCANS: i128 = 20;

const SCANS_FROM_ONE: i128 = 1;

/// A node that was reached: its distance, and the place of its parent arc.
#[derive(Clone, Copy, Default)]
struct ReachedNode {
    distance: i64,
    parent_arc: u32,
    /// The last searches that reached it and settled it.
    reached_in: u32,
    settled_in: u32,
}

/// A node in the queue, ordered by distance.
#[derive(Clone, Copy, PartialEq, Eq, PartialOrd, Ord)]
struct QueueEntry {
    distance: i64,
    node: u32,
}

#[derive(Drop)]
pub(crate) struct Augmenting {
    pub residual: Residual<i64>,
    labels: Vec<ReachedNode>,
    queue: BinaryHeap<Reverse<QueueEntry>>,
    settled: Vec<u32>,
    /// The number of the current search.
    search: u32,
    scans: i128,
    /// How much excess has moved, and how much there was at first.
    moved: i128,
    total_excess: i128,
    arc_count: i128,
    /// `SCANS` or `SCANS_FROM_ONE`.
    scans_per_arc: i128,
}

impl Augmenting {
    /// Starts from the lower bounds. No cost may be negative.
    pub(crate) fn new<N: Network>(
        alloc: Global,
        problem: &Problem<'_, N>,
    ) -> Result<Augmenting, Memory> {
        let scans_per_arc = if problem.sources() == 1 {
            SCANS_FROM_ONE
        } else {
            SCANS
        };
        Ok(Augmenting {
            residual: Residual::new(alloc, problem, 0)?,
            labels: vec![in alloc; ReachedNode::default(); problem.excess.len()]?,
            queue: BinaryHeap::new(alloc),
            settled: Vec::new(alloc),
            search: 0,
            scans: 0,
            moved: 0,
            total_excess: problem.total_imbalance() / 2,
            arc_count: i128::from(problem.network().arcs()),
            scans_per_arc,
        })
    }

    /// Moves all excess. False if it can't, or if that seems to take long.
    pub(crate) fn run(&mut self) -> Result<bool, Memory> {
        for source in 0..count_of(&self.residual.nodes) {
            if !self.drain(source)? {
                return Ok(false);
            }
        }
        Ok(true)
    }

    /// The same for the excess of one node.
    fn drain(&mut self, source: u32) -> Result<bool, Memory> {
        for _ in 0..u64::MAX {
            if self.residual.node(source).imbalance <= 0 {
                return Ok(true);
            }
            let Some(sink) = self.search(source)? else {
                return Ok(false);
            };
            let amount = self.most_on_path(source, sink);
            self.send_on_path(source, sink, amount);
            self.moved = self.moved.wrapping_add(i128::from(amount));
            if self.lags() {
                return Ok(false);
            }
        }
        Ok(false)
    }

    /// Whether the searches scan too many half-arcs for the excess that they move.
    fn lags(&self) -> bool {
        let allowed = FIRST_SCANS
            .wrapping_mul(self.total_excess)
            .wrapping_add(self.scans_per_arc.wrapping_mul(self.moved));
        self.scans.wrapping_mul(self.total_excess) > self.arc_count.wrapping_mul(allowed)
    }

    /// Returns the nearest node with a deficit, and lowers the price of each settled node by how much nearer it is.
    /// None if no deficit can be reached.
    fn search(&mut self, source: u32) -> Result<Option<u32>, Memory> {
        self.search = self.search.wrapping_add(1);
        self.settled.clear();
        self.queue.clear();
        self.reach(source, 0, 0)?;
        for _ in 0..u64::MAX {
            let Some(Reverse(nearest)) = self.queue.pop() else {
                break;
            };
            let label = self.label(nearest.node);
            if label.settled_in == self.search {
                continue;
            }
            if self.residual.node(nearest.node).imbalance < 0 {
                self.lower_settled(nearest.distance);
                return Ok(Some(nearest.node));
            }
            self.settle(nearest)?;
        }
        Ok(None)
    }

    /// Settles a node, and relaxes its arcs.
    fn settle(&mut self, at: QueueEntry) -> Result<(), Memory> {
        self.settled.push(at.node)?;
        if let Some(label) = self.labels.get_mut(at.node as usize) {
            label.settled_in = self.search;
        }
        let node = self.residual.node(at.node);
        self.scans = self
            .scans
            .wrapping_add(i128::from(node.end.wrapping_sub(node.start)));
        for place in node.start..node.end {
            let half = self.residual.half(place);
            if half.residual_capacity > 0 {
                let reduced = self.residual.reduced(node.price, &half);
                self.reach(half.to, at.distance.wrapping_add(reduced), place)?;
            }
        }
        Ok(())
    }

    /// Labels and queues a node, unless it has a label of at most this distance.
    #[inline(always)]
    fn reach(&mut self, node: u32, distance: i64, parent_arc: u32) -> Result<(), Memory> {
        let label = self.label(node);
        if label.reached_in == self.search && label.distance <= distance {
            return Ok(());
        }
        let label = ReachedNode {
            distance,
            parent_arc,
            reached_in: self.search,
            settled_in: label.settled_in,
        };
        set_member(&mut self.labels, node, label);
        self.queue.push(Reverse(QueueEntry { distance, node }))?;
        Ok(())
    }

    #[inline(always)]
    fn label(&self, node: u32) -> ReachedNode {
        member(&self.labels, node, ReachedNode::default())
    }

    fn lower_settled(&mut self, distance: i64) {
        for node in &self.settled {
            let own = member(&self.labels, *node, ReachedNode::default()).distance;
            self.residual.lower(*node, distance.wrapping_sub(own));
        }
    }

    /// The least of the path's residual capacity, the excess and the deficit.
    fn most_on_path(&self, source: u32, sink: u32) -> i64 {
        let deficit = self.residual.node(sink).imbalance.wrapping_neg();
        let mut amount = self.residual.node(source).imbalance.min(deficit);
        let mut at = sink;
        for _ in 0..self.labels.len() {
            if at == source {
                break;
            }
            let parent_arc = self.label(at).parent_arc;
            amount = amount.min(self.residual.half(parent_arc).residual_capacity);
            at = self.residual.at(parent_arc);
        }
        amount
    }

    fn send_on_path(&mut self, source: u32, sink: u32, amount: i64) {
        let mut at = sink;
        for _ in 0..self.labels.len() {
            if at == source {
                break;
            }
            let parent_arc = self.label(at).parent_arc;
            at = self.residual.at(parent_arc);
            self.residual.send(at, parent_arc, amount);
        }
    }
}

//! Price refinement, as Goldberg describes it: prices are lowered, so that the flow costs least within the tolerance.
//!
//! If arcs with negative reduced cost form no cycle, they order the nodes. Along this order, nodes are ranked by how
//! many tolerances their prices have to fall. A price that falls may make others fall, so it is repeated. If it comes to
//! an end, a phase is saved; otherwise the phase mostly has less to do.

use crate::number::Number;
use crate::residual::{Half, ResidualNode};
use crate::scaling::Scaling;
use crate::tables::count_of;
use dimacs_lines::Memory;
use std::alloc::Global;

/// Prices are lowered at most this many times.
const ROUNDS: u32 = 32;

/// More tolerances than any rank.
const MOST_TOLERANCES: i64 = 4294967296;

/// In place of a rank, whether a search has finished with the node, has it on its path, or hasn't reached it. All nodes
/// that it has finished with have the rank 0 at first.
const FINISHED: u32 = 0;

const ON_PATH: u32 = 1;

const UNREACHED: u32 = 2;

/// How a search goes on from a node.
#[derive(Drop)]
enum NextStep {
    /// Along the half-arc at this place.
    On(u32),
    Back,
    /// The next half-arc closes a cycle.
    Cycle,
}

impl<V: Number> Scaling<V> {
    /// Lowers prices until the flow costs least within the tolerance. False if it doesn't come to that.
    pub(crate) fn refine_prices(&mut self, alloc: Global) -> Result<bool, Memory> {
        self.residual.take_back();
        for _ in 0..ROUNDS {
            let Some(postorder) = self.postorder(alloc)? else {
                return Ok(false);
            };
            self.rank_backwards(&postorder);
            if self.ranks.highest() == 0 {
                return Ok(true);
            }
            self.lower_by_ranks();
        }
        Ok(false)
    }

    /// The nodes, each after those to which its arcs with negative reduced cost lead. None if such arcs form a cycle.
    fn postorder(&mut self, alloc: Global) -> Result<Option<Vec<u32>>, Memory> {
        for node in &mut self.residual.nodes {
            node.rank = UNREACHED;
            node.cursor = node.start;
        }
        let mut postorder = Vec::with_capacity(alloc, self.residual.nodes.len())?;
        for number in 0..count_of(&self.residual.nodes) {
            let is_new = self.residual.node(number).rank == UNREACHED;
            if is_new && !self.search(number, &mut postorder)? {
                return Ok(None);
            }
        }
        Ok(Some(postorder))
    }

    /// Searches depth first. False if it finds a cycle.
    fn search(&mut self, start: u32, postorder: &mut Vec<u32>) -> Result<bool, Memory> {
        self.path.clear();
        let mut tip = start;
        self.set_rank(tip, ON_PATH);
        for _ in 0..u64::MAX {
            match self.step(tip) {
                NextStep::On(place) => {
                    self.set_cursor(tip, place);
                    self.path.push(place)?;
                    tip = self.residual.half(place).to;
                    self.set_rank(tip, ON_PATH);
                }
                NextStep::Back => {
                    self.set_rank(tip, FINISHED);
                    postorder.push(tip)?;
                    let Some(place) = self.path.pop() else {
                        break;
                    };
                    tip = self.residual.at(place);
                }
                NextStep::Cycle => return Ok(false),
            }
        }
        Ok(true)
    }

    #[inline(always)]
    fn is_admissible(&self, node: &ResidualNode<V>, half: &Half<V>) -> bool {
        half.residual_capacity > 0 && self.residual.reduced(node.price, half).is_negative()
    }

    /// Looks for the first half-arc that leads on, from a node's cursor.
    fn step(&self, number: u32) -> NextStep {
        let node = self.residual.node(number);
        let mut place = node.cursor;
        for half in self.residual.between(node.cursor, node.end) {
            let rank = if self.is_admissible(&node, half) {
                self.residual.node(half.to).rank
            } else {
                FINISHED
            };
            if rank == ON_PATH {
                return NextStep::Cycle;
            }
            if rank == UNREACHED {
                return NextStep::On(place);
            }
            place = place.wrapping_add(1);
        }
        NextStep::Back
    }

    /// Ranks nodes by how many tolerances their prices have to fall because of arcs with negative reduced cost.
    fn rank_backwards(&mut self, postorder: &[u32]) {
        self.ranks.clear();
        for number in postorder.iter().rev() {
            let node = self.residual.node(*number);
            for place in node.start..node.end {
                let half = self.residual.half(place);
                let fall = self.fall(&node, &half);
                if fall >= 0 {
                    self.raise_rank(half.to, i64::from(node.rank).saturating_add(fall));
                }
            }
        }
    }

    /// Lowers prices by the tolerance times the rank, from the highest rank down. A price that falls may raise the rank
    /// of nodes to which other arcs lead.
    fn lower_by_ranks(&mut self) {
        for rank in (1..=self.ranks.highest()).rev() {
            for _ in 0..u64::MAX {
                let Some(number) = self.ranks.take(rank) else {
                    break;
                };
                let node = self.residual.node(number);
                for place in node.start..node.end {
                    let half = self.residual.half(place);
                    let fall = self.fall(&node, &half).min(0);
                    self.raise_rank(half.to, i64::from(rank).saturating_add(fall));
                }
                let lowering = V::of(i64::from(rank)).doubled(self.level);
                self.residual.lower(number, lowering);
            }
        }
    }

    /// By how many tolerances more than a node's price that of a half-arc's other end has to fall; negative if fewer.
    #[inline(always)]
    fn fall(&self, node: &ResidualNode<V>, half: &Half<V>) -> i64 {
        if half.residual_capacity == 0 {
            return i64::MIN;
        }
        let reduced = self.residual.reduced(node.price, half);
        reduced
            .halved(self.level)
            .lesser(V::of(MOST_TOLERANCES))
            .narrow()
            .wrapping_neg()
            .wrapping_sub(1)
    }

    #[inline(always)]
    fn raise_rank(&mut self, number: u32, rank: i64) {
        let old = self.residual.node(number).rank;
        if rank <= i64::from(old) {
            return;
        }
        if old > 0 {
            self.ranks.remove(number, old);
        }
        let highest = self.ranks.count().saturating_sub(1);
        let rank = u32::try_from(rank).unwrap_or(highest).min(highest);
        self.ranks.insert(number, rank);
        self.set_rank(number, rank);
    }

    #[inline(always)]
    fn set_rank(&mut self, number: u32, rank: u32) {
        if let Some(node) = self.residual.nodes.get_mut(number as usize) {
            node.rank = rank;
        }
    }
}

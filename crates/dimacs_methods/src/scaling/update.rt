//! The global update: prices fall by the nodes' distances to a deficit.

use crate::levels::Levels;
use crate::number::Number;
use crate::residual::{Half, ResidualNode};
use crate::scaling::Scaling;

/// Halved so often, each number is 0 or -1.
const ANY_COST: u32 = 127;

impl<V: Number> Scaling<V> {
    /// Lowers each node's price by the tolerance times its rank. False if some excess reaches no deficit within the
    /// ranks.
    pub(crate) fn update(&mut self) -> bool {
        let most = self.rank_all(self.level);
        lower(&mut self.residual.nodes, self.level, most);
        most < self.ranks.count()
    }

    /// Ranks the nodes by their distance to a deficit, until all excess is reached. Returns the greatest rank that this
    /// takes; the number of ranks if some excess isn't reached. A half-arc has length 1, and 1 more for each 2 to the
    /// power of `level` in its reduced cost.
    fn rank_all(&mut self, level: u32) -> u32 {
        let count = self.ranks.count();
        let mut left = rank_deficits(&mut self.residual.nodes, &mut self.ranks);
        for rank in 0..count {
            left = left.minus(self.settle(rank, level, left));
            if !left.is_positive() {
                return rank;
            }
        }
        count
    }

    /// Settles the nodes of a rank, until their excess is at least `left`. Returns how much they have.
    fn settle(&mut self, rank: u32, level: u32, left: V) -> V {
        let mut found = V::of(0);
        for _ in 0..u64::MAX {
            if !found.is_below(left) {
                break;
            }
            let Some(number) = self.ranks.take(rank) else {
                break;
            };
            let node = self.residual.node(number);
            for place in node.start..node.end {
                let half = self.residual.half(place);
                self.reach(&node, &half, level);
            }
            if node.imbalance.is_positive() {
                found = found.plus(node.imbalance);
            }
        }
        found
    }

    /// Lowers the rank of the other end, if an arc from it makes it nearer.
    #[inline(always)]
    fn reach(&mut self, node: &ResidualNode<V>, half: &Half<V>, level: u32) {
        let other = self.residual.node(half.to);
        if other.rank <= node.rank {
            return;
        }
        let gap = V::of(i64::from(other.rank.wrapping_sub(node.rank)));
        let reduced = other.price.minus(node.price).minus(half.cost);
        let farther = reduced.halved(level).plus(V::of(1));
        if !farther.is_below(gap) || half.residual_capacity_back == 0 {
            return;
        }
        if other.rank < self.ranks.count() {
            self.ranks.remove(half.to, other.rank);
        }
        // A negative number counts as 0.
        let farther = u32::try_from(farther.narrow()).unwrap_or(0);
        let rank = node.rank.wrapping_add(farther);
        self.ranks.insert(half.to, rank);
        if let Some(other) = self.residual.nodes.get_mut(half.to as usize) {
            other.rank = rank;
        }
    }

    /// Discards the excess of nodes that reach no deficit. Returns whether there is some.
    ///
    /// No flow can leave these nodes any more: they stay cut off.
    pub(crate) fn discard_excess(&mut self) -> bool {
        let none = self.ranks.count();
        self.rank_all(ANY_COST);
        let mut has_discarded = false;
        for node in &mut self.residual.nodes {
            if node.rank >= none && node.imbalance.is_positive() {
                node.imbalance = V::of(0);
                has_discarded = true;
            }
        }
        has_discarded
    }
}

/// Gives rank 0 to the nodes with a deficit, and none to others. Returns the sum of the excesses.
fn rank_deficits<V: Number>(nodes: &mut [ResidualNode<V>], ranks: &mut Levels) -> V {
    ranks.clear();
    let none = ranks.count();
    let mut sum = V::of(0);
    let mut number: u32 = 0;
    for node in nodes.iter_mut() {
        node.rank = none;
        if node.imbalance.is_negative() {
            node.rank = 0;
            ranks.insert(number, 0);
        } else {
            sum = sum.plus(node.imbalance);
        }
        number = number.wrapping_add(1);
    }
    sum
}

/// Lowers prices by ranks, up to `most`, and resets cursors.
fn lower<V: Number>(nodes: &mut [ResidualNode<V>], level: u32, most: u32) {
    for node in nodes.iter_mut() {
        let rank = node.rank.min(most);
        if rank > 0 {
            node.price = node.price.minus(V::of(i64::from(rank)).doubled(level));
            node.cursor = node.start;
        }
    }
}

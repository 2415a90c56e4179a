//! Short paths of arcs with negative reduced cost.

use crate::number::Number;
use crate::residual::ResidualNode;
use crate::scaling::{PATH_LENGTH, Scaling};
use dimacs_lines::Memory;

/// What a scan of a node's half-arcs finds, from its cursor on.
#[derive(Drop)]
enum ScanResult<V> {
    /// The place of the first with negative reduced cost.
    Negative(u32),
    /// None has a negative reduced cost; this is the least.
    Least(V),
}

impl<V: Number> Scaling<V> {
    /// Finds a path from a node with excess. It ends at a deficit, after `PATH_LENGTH` arcs, at an arc that it has
    /// already, or if a global update is due. If no half-arc leads on from a node, the node is relabelled, and the path
    /// goes back.
    pub(crate) fn find_path(&mut self, start: u32) -> Result<(), Memory> {
        self.path.clear();
        let mut tip = start;
        for _ in 0..u64::MAX {
            let node = self.residual.node(tip);
            let is_done = self.path.len() >= PATH_LENGTH || self.relabels_left == 0;
            if is_done || node.imbalance.is_negative() {
                break;
            }
            match self.scan(&node) {
                ScanResult::Negative(place) => {
                    self.set_cursor(tip, place);
                    let closes_cycle = self.path.contains(&place);
                    self.path.push(place)?;
                    if closes_cycle {
                        break;
                    }
                    tip = self.residual.half(place).to;
                }
                ScanResult::Least(reduced) => {
                    self.relabel(tip, reduced);
                    if let Some(place) = self.path.pop() {
                        tip = self.residual.at(place);
                    }
                }
            }
        }
        Ok(())
    }

    #[inline(always)]
    fn scan(&self, node: &ResidualNode<V>) -> ScanResult<V> {
        let mut least = V::greatest();
        let mut place = node.cursor;
        for half in self.residual.between(node.cursor, node.end) {
            if half.residual_capacity > 0 {
                let reduced = self.residual.reduced(node.price, half);
                if reduced.is_negative() {
                    return ScanResult::Negative(place);
                }
                least = least.lesser(reduced);
            }
            place = place.wrapping_add(1);
        }
        ScanResult::Least(least)
    }

    /// Lowers a node's price, to make the least reduced cost of its arcs negative. `least` is that from the cursor on.
    /// The arc back along the path counts too. If the node has no arc, the next global update finds that out.
    fn relabel(&mut self, number: u32, least: V) {
        let node = self.residual.node(number);
        let least = least
            .lesser(self.reduced_back(node.price))
            .lesser(self.least_before(&node));
        if least.is_below(V::greatest()) {
            let lowering = least.plus(V::of(1).doubled(self.level));
            self.residual.lower(number, lowering);
        }
        self.set_cursor(number, node.start);
        self.relabels_left = self.relabels_left.saturating_sub(1);
    }

    /// The least reduced cost of a residual arc before the cursor; the greatest number if there is none.
    #[inline(always)]
    fn least_before(&self, node: &ResidualNode<V>) -> V {
        let mut least = V::greatest();
        for half in self.residual.between(node.start, node.cursor) {
            if half.residual_capacity > 0 {
                least = least.lesser(self.residual.reduced(node.price, half));
            }
        }
        least
    }

    /// The reduced cost of going back along the last arc of the path, which leads to a node with this price; the
    /// greatest number if the path is empty.
    fn reduced_back(&self, price: V) -> V {
        match self.path.last() {
            Some(place) => {
                let half = self.residual.half(*place);
                let back = self.residual.half(half.back);
                self.residual.reduced(price, &back)
            }
            None => V::greatest(),
        }
    }

    /// Moves excess along the path, as much as each residual capacity allows. Queues nodes that had none before.
    pub(crate) fn send_along(&mut self, start: u32) -> Result<(), Memory> {
        let mut from = start;
        for place in &self.path {
            let half = self.residual.half(*place);
            let excess = self.residual.node(from).imbalance;
            let amount = V::of(half.residual_capacity).lesser(excess).narrow();
            self.residual.send(from, *place, amount);
            let after = self.residual.node(half.to).imbalance;
            if after.is_positive() && !V::of(amount).is_below(after) {
                self.active.push_back(half.to)?;
            }
            from = half.to;
        }
        Ok(())
    }
}

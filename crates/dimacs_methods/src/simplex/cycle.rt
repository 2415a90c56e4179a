//! The cycle that an arc closes with the tree.

use crate::number::Number;
use crate::simplex::tree::Tree;

/// Flow moves from `join` down to `first`, along the arc to `second`, and up to `join`.
#[derive(Drop)]
pub(crate) struct BasisCycle<V> {
    pub first: u32,
    pub second: u32,
    pub join: u32,
    pub amount: V,
    pub leaving: Leaving,
    /// How many steps it took to find.
    pub steps: u64,
}

/// The arc that leaves the tree: the parent arc of a node on the path to `first` or from `second`, or the entering arc.
#[derive(Clone, Copy)]
pub(crate) enum Leaving {
    OnFirst(u32),
    OnSecond(u32),
    Itself,
}

/// A path up to the join.
#[derive(Drop)]
struct Climb<V> {
    at: u32,
    depth: u32,
    /// The least residual capacity so far, and the node whose parent arc has it.
    residual_capacity: V,
    narrow: Option<u32>,
}

impl<V: Number> BasisCycle<V> {
    /// The cycle of an arc from `first` to `second` with this residual capacity.
    ///
    /// If several arcs come to a bound, the last one on the cycle leaves, from the join on in the direction of the
    /// flow: the first one on the path up from `first`, the last one on the path up from `second`. This keeps the tree
    /// strongly feasible: everywhere in it there is residual capacity towards the root. Then pivots without flow don't
    /// cycle for ever.
    pub(crate) fn find(
        tree: &Tree<V>,
        first: u32,
        second: u32,
        residual_capacity: V,
    ) -> BasisCycle<V> {
        let mut down = Climb::start(tree, first, residual_capacity);
        let mut up = Climb::start(tree, second, residual_capacity);
        let mut steps: u64 = 0;
        for _ in 0..tree.nodes.len().saturating_mul(2) {
            if down.at == up.at {
                break;
            }
            steps = steps.wrapping_add(1);
            if down.depth >= up.depth {
                down.climb_against(tree);
            } else {
                up.climb_along(tree);
            }
        }
        let leaving = narrowest(&down, &up);
        BasisCycle {
            first,
            second,
            join: down.at,
            amount: down.residual_capacity.lesser(up.residual_capacity),
            leaving,
            steps,
        }
    }

    /// Moves its amount along its tree arcs.
    pub(crate) fn augment(&self, tree: &mut Tree<V>) {
        if self.amount.is_zero() {
            return;
        }
        tree.move_up(self.first, self.join, self.amount.negated());
        tree.move_up(self.second, self.join, self.amount);
    }
}

impl<V: Number> Climb<V> {
    fn start(tree: &Tree<V>, at: u32, residual_capacity: V) -> Climb<V> {
        Climb {
            at,
            depth: tree.thread(at).depth,
            residual_capacity,
            narrow: None,
        }
    }

    /// One step up, against the flow.
    #[inline(always)]
    fn climb_against(&mut self, tree: &Tree<V>) {
        let node = tree.node(self.at);
        if node.down.is_below(self.residual_capacity) {
            self.residual_capacity = node.down;
            self.narrow = Some(self.at);
        }
        self.at = node.parent;
        self.depth = self.depth.wrapping_sub(1);
    }

    /// One step up, with the flow.
    #[inline(always)]
    fn climb_along(&mut self, tree: &Tree<V>) {
        let node = tree.node(self.at);
        if !self.residual_capacity.is_below(node.up) {
            self.residual_capacity = node.up;
            self.narrow = Some(self.at);
        }
        self.at = node.parent;
        self.depth = self.depth.wrapping_sub(1);
    }
}

/// The arc with the least residual capacity. Among equals, those on the path from `second` come first, then the
/// entering arc, then those on the path to `first`.
fn narrowest<V: Number>(down: &Climb<V>, up: &Climb<V>) -> Leaving {
    if let Some(node) = up.narrow
        && !down.residual_capacity.is_below(up.residual_capacity)
    {
        return Leaving::OnSecond(node);
    }
    match down.narrow {
        Some(node) => Leaving::OnFirst(node),
        None => Leaving::Itself,
    }
}

//! Minimum cost flow by cost scaling with partial augmentation, as Goldberg and Tarjan, and Kovács, describe it.
//!
//! Costs are scaled up: then a flow that costs least within a tolerance of 1 costs least. A phase makes the tolerance a
//! sixteenth: it saturates arcs with negative reduced cost, and moves the excess that this leaves to deficits along
//! short paths of such arcs. If a path can't be extended from a node, the node's price is lowered until it can.
//!
//! Before each phase but the first, price refinement tries to reach the tolerance by lower prices alone.
//!
//! From time to time a global update lowers all prices by the nodes' distances to a deficit. If an excess reaches none,
//! no flow is feasible, and the excess stays where it is.
//!
//! A phase leaves out arcs whose reduced cost is far from 0: most keep their flow. If some excess reaches no deficit
//! without them, they are taken back for good, and the phase begins again. At the end all arcs are tested.

mod paths;
mod refinement;
mod update;

use crate::levels::Levels;
use crate::number::Number;
use crate::problem::Problem;
use crate::residual::Residual;
use crate::tables::count_of;
use dimacs_lines::Memory;
use dimacs_network::Network;
use std::alloc::Global;
use std::collections::VecDeque;

/// The most arcs on a path of excess.
const PATH_LENGTH: usize = 4;

/// Each phase halves the tolerance this many times.
const HALVINGS: u32 = 4;

/// Arcs are left out if their absolute reduced cost is above the tolerance, times 2 to this power, times the root of
/// the number of nodes.
const FAR: u32 = 6;

/// Ranks for each node.
const RANKS: usize = 16;

#[derive(Drop)]
pub(crate) struct Scaling<V: Number> {
    pub residual: Residual<V>,
    /// The nodes with excess.
    active: VecDeque<u32>,
    /// The half-arcs of the path, by place.
    path: Vec<u32>,
    /// The nodes by rank: in a global update the distance to a deficit, in price refinement how many tolerances the
    /// price falls.
    ranks: Levels,
    /// The tolerance is 2 to this power.
    level: u32,
    /// How many relabels may follow before the next global update.
    relabels_left: u64,
    /// Whether arcs with a reduced cost far from 0 are left out.
    leaves_out: bool,
}

impl<V: Number> Scaling<V> {
    /// Starts from the lower bounds.
    pub(crate) fn new<N: Network>(
        alloc: Global,
        problem: &Problem<'_, N>,
    ) -> Result<Scaling<V>, Memory> {
        let nodes = problem.excess.len();
        let node_bits = problem.node_bits();
        let residual = Residual::new(alloc, problem, node_bits)?;
        let path = Vec::with_capacity(alloc, PATH_LENGTH)?;
        let ranks = Levels::new(alloc, nodes.saturating_mul(RANKS), nodes)?;
        Ok(Scaling {
            residual,
            active: VecDeque::new(alloc),
            path,
            ranks,
            level: problem.cost_bits().saturating_add(node_bits),
            relabels_left: 0,
            leaves_out: true,
        })
    }

    /// Runs phases until the flow costs least, or an excess can't be moved.
    pub(crate) fn run(&mut self, alloc: Global) -> Result<(), Memory> {
        self.level = self.level.saturating_sub(HALVINGS);
        if self.refine(V::of(0))? {
            return Ok(());
        }
        for _ in 0..u32::MAX {
            if self.level == 0 {
                break;
            }
            self.level = self.level.saturating_sub(HALVINGS);
            if !self.refine_prices(alloc)? && self.refine(V::of(0))? {
                return Ok(());
            }
        }
        self.leaves_out = false;
        self.refine(V::of(-1))?;
        Ok(())
    }

    /// One phase, which first saturates the arcs whose reduced cost is below `bound`. Returns whether an excess reaches
    /// no deficit.
    fn refine(&mut self, bound: V) -> Result<bool, Memory> {
        self.saturate(bound);
        self.gather_active()?;
        let mut is_short = self.update_or_discard()?;
        for _ in 0..u64::MAX {
            let Some(node) = self.active.pop_front() else {
                break;
            };
            is_short |= self.drain(node)?;
        }
        Ok(is_short)
    }

    /// Saturates all arcs with a reduced cost below `bound`, and chooses the arcs of the phase.
    fn saturate(&mut self, bound: V) {
        let nodes = count_of(&self.residual.nodes);
        let far = V::of(i64::from(nodes.isqrt())).doubled(self.level.wrapping_add(FAR));
        self.residual.take_back();
        for number in 0..nodes {
            self.saturate_at(number, bound);
            if self.leaves_out {
                self.residual.leave_out(number, far);
            }
        }
    }

    fn saturate_at(&mut self, number: u32, bound: V) {
        let node = self.residual.node(number);
        for place in node.start..node.end {
            self.residual.saturate(number, place, bound);
        }
    }

    fn gather_active(&mut self) -> Result<(), Memory> {
        for number in 0..count_of(&self.residual.nodes) {
            if self.residual.node(number).imbalance.is_positive() {
                self.active.push_back(number)?;
            }
        }
        Ok(())
    }

    /// Updates all prices. Returns whether an excess reaches no deficit.
    fn update_or_discard(&mut self) -> Result<bool, Memory> {
        self.relabels_left = u64::from(count_of(&self.residual.nodes)).max(1);
        if self.update() {
            return Ok(false);
        }
        if self.residual.take_back() {
            self.leaves_out = false;
            self.saturate(V::of(0));
            self.gather_active()?;
            if self.update() {
                return Ok(false);
            }
        }
        Ok(self.discard_excess())
    }

    /// Moves a node's excess on. Returns whether some excess reaches no deficit.
    fn drain(&mut self, node: u32) -> Result<bool, Memory> {
        let mut is_short = false;
        for _ in 0..u64::MAX {
            if !self.residual.node(node).imbalance.is_positive() {
                break;
            }
            self.find_path(node)?;
            self.send_along(node)?;
            if self.relabels_left == 0 {
                is_short |= self.update_or_discard()?;
            }
        }
        Ok(is_short)
    }

    #[inline(always)]
    fn set_cursor(&mut self, number: u32, place: u32) {
        if let Some(node) = self.residual.nodes.get_mut(number as usize) {
            node.cursor = place;
        }
    }
}

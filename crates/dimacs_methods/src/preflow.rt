//! Preflow-push: highest label first, with global relabelling and gaps, as Goldberg and Cherkassky describe it. Excess
//! is pushed along paths of two arcs, as in Goldberg's partial augmentation: only to nodes from which it can be pushed
//! on.

mod active;
mod residual;

use crate::cut::add_node;
use crate::levels::{Levels, NONE};
use crate::number::Number;
use crate::preflow::active::ActiveNodes;
use crate::preflow::residual::{Half, Residual};
use crate::tables::{member, set_member};
use dimacs_claims::Cut;
use dimacs_instance::{MaxInstance, MinInstance};
use dimacs_lines::Memory;
use dimacs_network::Network;
use std::alloc::Global;

/// The height of a node that reaches no deficit.
const CUT_OFF: u32 = u32::MAX;

/// A deficit that no flow fills is minus 2 to this power: of 64 bits and of 128.
const ENDLESS: u32 = 62;

const WIDE_ENDLESS: u32 = 120;

/// A flow that leaves excess and deficits at nodes. Excess is pushed to lower nodes: a node's height is at most one
/// more than its distance to a deficit.
#[derive(Drop)]
struct Preflow<R: Number, V: Number> {
    residual: Residual<R>,
    /// By node: supply plus inflow minus outflow.
    imbalance: Vec<V>,
    height: Vec<u32>,
    /// By node: no half-arc before this place is admissible.
    cursor: Vec<u32>,
    levels: Levels,
    active: ActiveNodes,
    /// The work since the last global relabelling, and how much brings on the next one.
    work: u64,
    work_limit: u64,
}

/// The amounts, in the order of the arcs, and the nodes that the residual network reaches from the source.
#[derive(Drop)]
pub struct MaximumFlow {
    pub amounts: Vec<i64>,
    pub cut: Cut,
}

/// Finds a maximum flow from a feasible one, and a cut that shows it. `amounts` are in the order of the arcs. Takes some
/// 60 bytes for each node, of at most two for each arc and a few, and 44 for each arc, or 60 if a residual capacity needs
/// 64 bits.
pub fn raise_value<N: Network>(
    alloc: Global,
    instance: &MaxInstance<N>,
    amounts: &[i64],
) -> Result<MaximumFlow, Memory> {
    if has_short_capacities(instance.network()) {
        raise::<N, i32, i64>(alloc, instance, amounts, ENDLESS)
    } else {
        raise::<N, i64, i128>(alloc, instance, amounts, WIDE_ENDLESS)
    }
}

/// The same with residual capacities and imbalances of these widths.
fn raise<N: Network, R: Number, V: Number>(
    alloc: Global,
    instance: &MaxInstance<N>,
    amounts: &[i64],
    endless: u32,
) -> Result<MaximumFlow, Memory> {
    let network = instance.network();
    let mut preflow: Preflow<R, V> = Preflow::new(alloc, network, amounts)?;
    let source = preflow.residual.numbers.of(instance.source());
    let sink = preflow.residual.numbers.of(instance.sink());
    let deficit = V::of(-1).doubled(endless);
    preflow.saturate_from(source);
    preflow.drain_to(sink, source, deficit);
    preflow.drain_to(source, sink, deficit);
    let reached = preflow.residual.reached(alloc, source)?;
    let mut cut = Cut::new(alloc, network.nodes());
    for number in reached {
        add_node(&mut cut, preflow.residual.numbers.id(number))?;
    }
    let amounts = preflow.residual.amounts(alloc, network)?;
    Ok(MaximumFlow { amounts, cut })
}

/// Finds a flow that leaves the least excess, from one within the bounds. Takes as much memory.
pub fn send_excess<N: Network>(
    alloc: Global,
    instance: &MinInstance<N>,
    amounts: &[i64],
) -> Result<Vec<i64>, Memory> {
    if has_short_capacities(instance.network()) && has_short_supplies(instance) {
        send::<N, i32, i64>(alloc, instance, amounts)
    } else {
        send::<N, i64, i128>(alloc, instance, amounts)
    }
}

/// The same with residual capacities and imbalances of these widths.
fn send<N: Network, R: Number, V: Number>(
    alloc: Global,
    instance: &MinInstance<N>,
    amounts: &[i64],
) -> Result<Vec<i64>, Memory> {
    let network = instance.network();
    let mut preflow: Preflow<R, V> = Preflow::new(alloc, network, amounts)?;
    preflow.set_supplies(instance);
    preflow.add_flow(network, amounts);
    preflow.drain();
    preflow.residual.amounts(alloc, network)
}

/// Whether 32 bits hold the bounds of each arc, and their difference. 64 bits then hold the sum over all arcs.
fn has_short_capacities<N: Network>(network: &N) -> bool {
    for i in 0..network.arcs() {
        let arc = network.arc(i);
        if !(is_short(arc.low) && is_short(arc.cap) && is_short(arc.cap.wrapping_sub(arc.low))) {
            return false;
        }
    }
    true
}

/// Whether 32 bits hold the supply of each node that has an arc. 64 bits then hold their sum.
fn has_short_supplies<N: Network>(instance: &MinInstance<N>) -> bool {
    for i in 0..instance.network().arcs() {
        let arc = instance.network().arc(i);
        if !(is_short(instance.supply(arc.tail)) && is_short(instance.supply(arc.head))) {
            return false;
        }
    }
    true
}

fn is_short(number: i64) -> bool {
    i32::try_from(number).is_ok()
}

impl<R: Number, V: Number> Preflow<R, V> {
    /// With imbalance 0 everywhere.
    fn new<N: Network>(
        alloc: Global,
        network: &N,
        amounts: &[i64],
    ) -> Result<Preflow<R, V>, Memory> {
        let residual: Residual<R> = Residual::new(alloc, network, amounts)?;
        let count = residual.numbers.count();
        let nodes = count as usize;
        Ok(Preflow {
            residual,
            imbalance: vec![in alloc; V::of(0); nodes]?,
            height: vec![in alloc; 0u32; nodes]?,
            cursor: vec![in alloc; 0u32; nodes]?,
            levels: Levels::new(alloc, nodes + 1, nodes)?,
            active: ActiveNodes::new(alloc, nodes)?,
            work: 0,
            work_limit: 24 * u64::from(count) + u64::from(network.arcs()),
        })
    }

    /// Sets the imbalances to the supplies.
    fn set_supplies<N: Network>(&mut self, instance: &MinInstance<N>) {
        for (imbalance, id) in self.imbalance.iter_mut().zip(self.residual.numbers.ids()) {
            *imbalance = V::of(instance.supply(*id));
        }
    }

    /// Adds inflow minus outflow to the imbalances.
    fn add_flow<N: Network>(&mut self, network: &N, amounts: &[i64]) {
        for i in 0..network.arcs() {
            let arc = network.arc(i);
            let amount = V::of(member(amounts, i, 0));
            let tail = self.residual.numbers.of(arc.tail);
            let head = self.residual.numbers.of(arc.head);
            self.add_imbalance(tail, amount.negated());
            self.add_imbalance(head, amount);
        }
    }

    fn saturate_from(&mut self, node: u32) {
        for place in self.residual.starts.first(node)..self.residual.starts.end(node) {
            let half = self.residual.half(place);
            if half.residual_capacity.is_positive() {
                self.move_along(node, place, half, half.residual_capacity.narrow());
            }
        }
    }

    /// Pushes excess to one terminal, until the rest can't reach it. The other one counts as balanced.
    fn drain_to(&mut self, terminal: u32, other: u32, deficit: V) {
        set_member(&mut self.imbalance, other, V::of(0));
        set_member(&mut self.imbalance, terminal, deficit);
        self.drain();
    }

    /// Pushes excess to deficits, until the rest can't reach any.
    fn drain(&mut self) {
        self.global_relabel();
        for _ in 0..u64::MAX {
            let Some(node) = self.active.pop() else {
                return;
            };
            self.serve(node);
            if self.work > self.work_limit {
                self.global_relabel();
            }
        }
    }

    /// A node's height becomes its distance to a deficit, plus 1. Nodes with excess are queued again.
    fn global_relabel(&mut self) {
        self.height.fill(CUT_OFF);
        self.levels.clear();
        self.active.clear();
        self.work = 0;
        for node in 0..self.residual.numbers.count() {
            if self.imbalance(node).is_negative() {
                self.set_height(node, 1);
            }
        }
        for height in 1..u32::MAX {
            let first = self.levels.first(height);
            if first == NONE {
                return;
            }
            self.relabel_from(first, height);
        }
    }

    /// Relabels from the nodes of one height, from `first` on in its list.
    fn relabel_from(&mut self, first: u32, height: u32) {
        let mut node = first;
        for _ in 0..u32::MAX {
            if node == NONE {
                return;
            }
            self.reach_back(node, height);
            if self.imbalance(node).is_positive() {
                self.active.push(node, height);
            }
            node = self.levels.after(node);
        }
    }

    /// Gives the next height to nodes without one that have a residual arc to this node.
    fn reach_back(&mut self, node: u32, height: u32) {
        for place in self.residual.starts.first(node)..self.residual.starts.end(node) {
            let half = self.residual.half(place);
            if self.height(half.to) == CUT_OFF && half.residual_capacity_back.is_positive() {
                self.set_height(half.to, height.wrapping_add(1));
            }
        }
    }

    /// Discharges a node from the queue, or queues it again if it was relabelled since.
    fn serve(&mut self, node: u32) {
        if !self.imbalance(node).is_positive() {
            return;
        }
        let height = self.height(node);
        if height == self.active.highest() {
            self.discharge(node);
        } else if height != CUT_OFF {
            self.active.push(node, height);
        }
    }

    /// Pushes a node's excess and relabels the node, until no excess is left or no deficit can be reached.
    fn discharge(&mut self, node: u32) {
        for _ in 0..u64::MAX {
            self.push_down(node);
            if !self.imbalance(node).is_positive() || !self.relabel(node) {
                return;
            }
        }
    }

    /// Pushes excess along admissible half-arcs, and from their heads on, as long as there is some.
    fn push_down(&mut self, node: u32) {
        let height = self.height(node);
        for place in member(&self.cursor, node, 0)..self.residual.starts.end(node) {
            let half = self.residual.half(place);
            if self.is_admissible(half, height) && self.look_ahead(half.to) {
                self.push(node, place, half);
                self.push_on(half.to);
                if !self.imbalance(node).is_positive() {
                    set_member(&mut self.cursor, node, place);
                    return;
                }
            }
        }
    }

    /// Whether a half-arc of a node with this height has residual capacity and leads one level down.
    #[inline(always)]
    fn is_admissible(&self, half: Half<R>, height: u32) -> bool {
        half.residual_capacity.is_positive() && self.height(half.to).wrapping_add(1) == height
    }

    /// Whether a node has a deficit or an admissible half-arc; its cursor then points to that. Otherwise relabels it.
    #[inline(always)]
    fn look_ahead(&mut self, node: u32) -> bool {
        if self.imbalance(node).is_negative() {
            return true;
        }
        let height = self.height(node);
        for place in member(&self.cursor, node, 0)..self.residual.starts.end(node) {
            if self.is_admissible(self.residual.half(place), height) {
                set_member(&mut self.cursor, node, place);
                return true;
            }
        }
        self.relabel(node);
        false
    }

    /// Pushes excess along the half-arc at a node's cursor, if it is admissible. Queues the ends that keep some.
    #[inline(always)]
    fn push_on(&mut self, node: u32) {
        if !self.imbalance(node).is_positive() {
            return;
        }
        let height = self.height(node);
        let place = member(&self.cursor, node, 0);
        let half = self.residual.half(place);
        if self.is_admissible(half, height) {
            self.push(node, place, half);
            self.queue(half.to);
        }
        self.queue(node);
    }

    /// Queues a node if it has excess.
    #[inline(always)]
    fn queue(&mut self, node: u32) {
        if self.imbalance(node).is_positive() {
            let height = self.height(node);
            self.active.push(node, height);
        }
    }

    /// Pushes as much as excess and residual capacity allow.
    #[inline(always)]
    fn push(&mut self, from: u32, place: u32, half: Half<R>) {
        let capacity = V::of(half.residual_capacity.narrow());
        self.move_along(
            from,
            place,
            half,
            capacity.lesser(self.imbalance(from)).narrow(),
        );
    }

    #[inline(always)]
    fn move_along(&mut self, from: u32, place: u32, half: Half<R>, amount: i64) {
        self.residual.send(place, amount);
        self.add_imbalance(from, V::of(amount.wrapping_neg()));
        self.add_imbalance(half.to, V::of(amount));
    }

    /// Raises a node to one above the lowest head of its residual arcs. False if it has none, or if no other node has
    /// its old height: then no deficit can be reached.
    fn relabel(&mut self, node: u32) -> bool {
        let old = self.height(node);
        if old == CUT_OFF {
            return false;
        }
        self.levels.remove(node, old);
        set_member(&mut self.height, node, CUT_OFF);
        if self.levels.first(old) == NONE {
            self.cut_off_above(old);
            return false;
        }
        let lowest = self.lowest_head(node);
        if lowest == CUT_OFF {
            return false;
        }
        self.set_height(node, lowest.wrapping_add(1));
        true
    }

    fn lowest_head(&mut self, node: u32) -> u32 {
        let halves = self.residual.halves_of(node);
        let mut lowest = CUT_OFF;
        for half in halves {
            if half.residual_capacity.is_positive() {
                lowest = lowest.min(self.height(half.to));
            }
        }
        let work = 12 + u64::try_from(halves.len()).unwrap_or(0);
        self.work = self.work.wrapping_add(work);
        lowest
    }

    /// Sets a node's height, and its cursor to the first half-arc.
    fn set_height(&mut self, node: u32, height: u32) {
        let first = self.residual.starts.first(node);
        set_member(&mut self.height, node, height);
        set_member(&mut self.cursor, node, first);
        self.levels.insert(node, height);
    }

    /// Gap: nodes above a height without nodes reach no deficit.
    fn cut_off_above(&mut self, height: u32) {
        for above in height..self.levels.highest() {
            self.cut_off(above.wrapping_add(1));
        }
        self.levels.forget_above(height);
    }

    fn cut_off(&mut self, height: u32) {
        for _ in 0..u32::MAX {
            let Some(node) = self.levels.take(height) else {
                return;
            };
            set_member(&mut self.height, node, CUT_OFF);
        }
    }

    #[inline(always)]
    fn height(&self, node: u32) -> u32 {
        member(&self.height, node, 0)
    }

    #[inline(always)]
    fn imbalance(&self, node: u32) -> V {
        member(&self.imbalance, node, V::of(0))
    }

    #[inline(always)]
    fn add_imbalance(&mut self, node: u32, amount: V) {
        if let Some(imbalance) = self.imbalance.get_mut(node as usize) {
            *imbalance = imbalance.plus(amount);
        }
    }
}

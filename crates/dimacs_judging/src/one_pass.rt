//! All tests in one pass over the arcs, which can only answer yes.

ghost use Rattle.std.specs.Prelude.{◌≡◌, ◌≤◌, ◌^◌, ℕ, ℤ, All, length, pos, IsTrue, IfSome, OnSome};
ghost use Rattle.dimacs_lines.specs.Limits.{most_count, most_nodes};
ghost use Rattle.dimacs_network.specs.{Arcs.{JoinsNodes}, DenseTables.{value_at}, Skips.{Skips}, Tables.{value_of}};
ghost use Rattle.dimacs_network.specs.declared.network.ArcView.{ArcView};
ghost use Rattle.dimacs_records.specs.declared.reasons.Reason.{Reason};
ghost use Rattle.dimacs_claims.specs.Potentials.{potential_of};
ghost use Rattle.dimacs_judging.specs.{CertificateTests.{SlackFails}, Cuts.{members}, inside.Ranges.{IsOfSize}};
ghost use Rattle.dimacs_judging.specs.{declared.one_pass.NodeState.{NodeState}, inside.Tests.{NamesReason}};
ghost use Rattle.dimacs_judging.specs.inside.OnePass.{AddsArc, AddsAt, AreBlank, AreInitial, CostFitsOneMore, HavePassed, IsSmall, Passes, SetsState, indicator, state_with};

use crate::arc_test::ArcTest;
use crate::balances::NodeBalances;
use crate::costs::product;
use crate::feasible::{Bounds, Demands, balances_hold};
use crate::flow::Flow;
use crate::potentials::slack_fault;
use dimacs_claims::{Cut, Potentials};
use dimacs_network::{ArcView, DenseTable, Network, NodeTable, has_dense_ids};
use dimacs_records::Reason;
use std::alloc::Global;

/// The greatest amount and cost for which 64 bits are sure to hold all sums of one arc.
const MOST: i64 = 1 << 31;

/// Potentials, and the test that they make of an arc.
pub(crate) trait HasPotentials {
    ghost potential: { Self → ℕ → ℤ };

    ghost fails: { Self → ℤ → ArcView → ℤ → Reason → Type 0 };

    fn potential_at(&self, node: u32) -> i128
        ensures { result ≡ potential self.now node };

    /// Goes from `from` over nodes whose potentials are 0, at most to `end`.
    fn next(&self, from: u32, end: u32) -> u32
        requires { from ≤ end }
        ensures { Skips (λ v. potential self.now v ≡ pos 0) from end result };

    /// The reason why an arc of this reduced cost fails, if it does.
    fn fault_at(&self, reduced: i64, arc: ArcView, amount: i64) -> Option<Reason>
        ensures { NamesReason (fails self.now reduced arc amount) result };
}

/// 1 for the nodes inside, and 0 outside: a cut is tight if these are slack.
impl HasPotentials for Cut {
    ghost potential = { λ cut. indicator (members cut) };

    ghost fails = { λ cut reduced a. SlackFails reduced a };

    fn potential_at(&self, node: u32) -> i128 {
        if self.contains(node) { 1 } else { 0 }
    }

    fn next(&self, from: u32, end: u32) -> u32 {
        Cut::next(self, from, end)
    }

    #[inline(always)]
    fn fault_at(&self, reduced: i64, arc: ArcView, amount: i64) -> Option<Reason> {
        slack_fault(i128::from(reduced), arc, amount)
    }
}

impl HasPotentials for Potentials {
    ghost potential = { potential_of };

    ghost fails = { λ potentials reduced a. SlackFails reduced a };

    fn potential_at(&self, node: u32) -> i128 {
        self.of(node)
    }

    fn next(&self, from: u32, end: u32) -> u32 {
        Potentials::next(self, from, end)
    }

    #[inline(always)]
    fn fault_at(&self, reduced: i64, arc: ArcView, amount: i64) -> Option<Reason> {
        slack_fault(i128::from(reduced), arc, amount)
    }
}

/// For the tests of a claim alone.
pub(crate) struct NoPotentials;

impl HasPotentials for NoPotentials {
    ghost potential = { λ none v. pos 0 };

    ghost fails = { λ none reduced a x reason. ⊥ };

    fn potential_at(&self, _node: u32) -> i128 {
        0
    }

    fn next(&self, _from: u32, end: u32) -> u32 {
        end
    }

    #[inline(always)]
    fn fault_at(&self, _reduced: i64, _arc: ArcView, _amount: i64) -> Option<Reason> {
        None
    }
}

/// A node's balance over the arcs so far, and its potential.
#[derive(Clone, Copy)]
pub(crate) struct NodeState {
    balance: i32,
    potential: i32,
}

const BLANK: NodeState = NodeState {
    balance: 0,
    potential: 0,
};

/// The states of all nodes.
pub(crate) trait NodeStates {
    ghost state: { Self → ℕ → NodeState };

    fn state_at(&self, node: u32) -> NodeState
        ensures { result ≡ state self.now node };

    /// Goes from `from` over nodes whose balances are 0, at most to `end`.
    fn next(&self, from: u32, end: u32) -> u32
        requires { from ≤ end }
        ensures { Skips (λ v. (state self.now v).balance ≡ pos 0) from end result };

    /// None if the node has no place.
    fn set_state(&mut self, node: u32, value: NodeState) -> Option<()>
        ensures { OnSome result (SetsState node value (state self.old) (state self.new)) };
}

impl NodeStates for DenseTable<NodeState> {
    ghost state = { value_at };

    #[inline(always)]
    fn state_at(&self, node: u32) -> NodeState {
        self.get(node)
    }

    #[inline(always)]
    fn next(&self, from: u32, _end: u32) -> u32 {
        from
    }

    #[inline(always)]
    fn set_state(&mut self, node: u32, value: NodeState) -> Option<()> {
        if !self.has(node) {
            return None;
        }
        self.set(node, value);
        Some(())
    }
}

impl NodeStates for NodeTable<NodeState> {
    ghost state = { value_of };

    #[inline(always)]
    fn state_at(&self, node: u32) -> NodeState {
        self.get(node)
    }

    #[inline(always)]
    fn next(&self, from: u32, end: u32) -> u32 {
        if self.blank().balance == 0 {
            NodeTable::next(self, from, end)
        } else {
            from
        }
    }

    #[inline(always)]
    fn set_state(&mut self, node: u32, value: NodeState) -> Option<()> {
        self.set(node, value).ok()
    }
}

/// The sums over the arcs so far.
#[derive(Drop)]
pub(crate) struct Sums<T> {
    states: T,
    cost: i128,
}

impl<T: NodeStates + Drop> Sums<T> {
    /// The sums of no arcs. None if a potential is too large, or a node has no place.
    fn new<N: Network, P: HasPotentials>(states: T, network: &N, potentials: &P) -> Option<Sums<T>>
        requires nodes { N.node_count network.now ≤ most_nodes }
        requires blank { AreBlank (T.state states) }
        ensures { IfSome result (λ sums. AreInitial (N.node_count network.now) (P.potential potentials.now) (T.state sums.states) sums.cost) }
    {
        let mut states = states;
        let end = network.nodes() + 1;
        let mut v = 1;
        while v < end {
            set_potential(&mut states, v, potentials.potential_at(v))?;
            v = potentials.next(v + 1, end);
        }
        Some(Sums { states, cost: 0 })
    }

    /// Tests one more arc, and adds it. None if it fails, a number is too large or a node has no place. Where all arcs
    /// pass, no branch is mispredicted.
    #[inline(always)]
    fn add_arc<P: HasPotentials>(&mut self, arc: ArcView, amount: i64, potentials: &P) -> Option<()>
        requires { CostFitsOneMore self.old.cost }
        ensures { OnSome result (AddsArc (P.fails potentials.now) arc amount (T.state self.old.states) (T.state self.new.states) self.old.cost self.new.cost) }
    {
        if !is_small(arc, amount) {
            return None;
        }
        let tail = add_at(&mut self.states, arc.tail, amount)?;
        let head = add_at(&mut self.states, arc.head, -amount)?;
        let reduced = arc.cost - i64::from(tail) + i64::from(head);
        if !passes(arc, amount, reduced, potentials) {
            return None;
        }
        self.cost += product(arc.cost, amount);
        Some(())
    }
}

/// Sets the potential of a node; 0 takes no memory. None if it is too large, or the node has no place.
fn set_potential<T: NodeStates>(states: &mut T, node: u32, potential: i128) -> Option<()>
    requires { T.state states.old node ≡ state_with (pos 0) }
    ensures { OnSome result (SetsState node (state_with potential) (T.state states.old) (T.state states.new)) }
{
    if potential == 0 {
        return Some(());
    }
    let potential = i32::try_from(potential).ok()?;
    states.set_state(
        node,
        NodeState {
            balance: 0,
            potential,
        },
    )
}

impl<T: NodeStates> NodeBalances for Sums<T> {
    ghost balance = { λ sums v. (T.state sums.states v).balance };

    #[inline(always)]
    fn of(&self, node: u32) -> i128 {
        i128::from(self.states.state_at(node).balance)
    }

    #[inline(always)]
    fn next(&self, from: u32, end: u32) -> u32 {
        self.states.next(from, end)
    }
}

/// Whether 64 bits surely hold all sums if this arc is added.
#[inline(always)]
fn is_small(arc: ArcView, amount: i64) -> bool
    ensures { IsTrue result → IsSmall arc.cost amount }
{
    (-MOST <= amount && amount <= MOST) && (-MOST <= arc.cost && arc.cost <= MOST)
}

#[inline(always)]
fn passes<P: HasPotentials>(arc: ArcView, amount: i64, reduced: i64, potentials: &P) -> bool
    ensures { IsTrue result → Passes (P.fails potentials.now) arc amount reduced }
{
    match (
        Bounds.fault(arc, amount),
        potentials.fault_at(reduced, arc, amount),
    ) {
        (None, None) => true,
        _ => false,
    }
}

/// Returns the node's potential. None if the balance is too large, or the node has no place.
#[inline(always)]
fn add_at<T: NodeStates>(states: &mut T, node: u32, amount: i64) -> Option<i32>
    requires { IsOfSize (2 ^ 31) amount }
    ensures potential { IfSome result (λ p. p ≡ (T.state states.old node).potential) }
    ensures adds { OnSome result (AddsAt node amount (T.state states.old) (T.state states.new)) }
{
    let NodeState { balance, potential } = states.state_at(node);
    let balance = narrow(i64::from(balance) + amount)?;
    states.set_state(node, NodeState { balance, potential })?;
    Some(potential)
}

#[inline(always)]
fn narrow(sum: i64) -> Option<i32>
    ensures { IfSome result (λ number. number ≡ sum) }
{
    i32::try_from(sum).ok()
}

/// The balance of a node, and the cost.
#[derive(Clone, Copy)]
pub(crate) struct Totals {
    pub(crate) balance: i128,
    pub(crate) cost: i128,
}

/// The balance of a node and the cost of a flow, if its tests pass and the potentials are slack. None if a test fails,
/// a number is too large or there is no memory.
pub(crate) fn totals_if_passed<N: Network, D: Demands, P: HasPotentials>(
    alloc: Global,
    network: &N,
    flow: &Flow,
    demands: &D,
    potentials: &P,
    node: u32,
) -> Option<Totals>
    requires node_limit { N.node_count network.now ≤ most_nodes }
    requires arc_limit { length (N.list network.now) ≤ most_count }
    requires joined { All (JoinsNodes (N.node_count network.now)) (N.list network.now) }
    requires one_each { length flow.now ≡ length (N.list network.now) }
    ensures { IfSome result (HavePassed (N.node_count network.now) (N.list network.now) (D.demand demands.now)
        (P.potential potentials.now) (P.fails potentials.now) flow.now node) }
{
    if has_dense_ids(network) {
        let states = DenseTable::new(alloc, BLANK, network.nodes()).ok()?;
        totals_by(states, network, flow, demands, potentials, node)
    } else {
        let states = NodeTable::new(alloc, BLANK);
        totals_by(states, network, flow, demands, potentials, node)
    }
}

fn totals_by<N: Network, D: Demands, P: HasPotentials, T: NodeStates + Drop>(
    states: T,
    network: &N,
    flow: &Flow,
    demands: &D,
    potentials: &P,
    node: u32,
) -> Option<Totals>
    requires blank { AreBlank (T.state states) }
    requires node_limit { N.node_count network.now ≤ most_nodes }
    requires arc_limit { length (N.list network.now) ≤ most_count }
    requires joined { All (JoinsNodes (N.node_count network.now)) (N.list network.now) }
    requires one_each { length flow.now ≡ length (N.list network.now) }
    ensures { IfSome result (HavePassed (N.node_count network.now) (N.list network.now) (D.demand demands.now)
        (P.potential potentials.now) (P.fails potentials.now) flow.now node) }
{
    let mut sums = Sums::new(states, network, potentials)?;
    for i in 0..network.arcs() {
        sums.add_arc(network.arc(i), flow.amount(i as usize), potentials)?;
    }
    match balances_hold(network, &sums, demands) {
        Ok(()) => Some(Totals {
            balance: sums.of(node),
            cost: sums.cost,
        }),
        Err(_) => None,
    }
}

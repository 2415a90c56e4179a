//! The balance of each node: its outflow less its inflow.

ghost use Rattle.std.specs.Prelude.{◌≡◌, ◌≤◌, ◌^◌, ◌==◌, ℕ, ℤ, pos, ◌+ℤ◌, ◌-ℤ◌, length, IfOk, OnOk, FitsSigned};
ghost use Rattle.std.specs.Int.{w128};
ghost use Rattle.dimacs_lines.specs.Limits.{most_count};
ghost use Rattle.dimacs_network.specs.{Skips.{Skips}, Tables.{value_of}};
ghost use Rattle.dimacs_judging.specs.{Flows.{when}, FlowTests.{AreBalances}, inside.Ranges.{IsOfSize}};

use crate::flow::Flow;
use dimacs_lines::Memory;
use dimacs_network::{ArcView, Network, NodeTable};
use std::alloc::Global;

/// The balance of each node.
#[derive(Drop)]
pub struct Balances {
    sums: NodeTable<i128>,
}

/// Anything that has a balance for each node.
pub(crate) trait NodeBalances {
    ghost balance: { Self → ℕ → ℤ };

    fn of(&self, node: u32) -> i128
        ensures { result ≡ balance self.now node };

    /// Goes from `from` over nodes whose balances are 0, at most to `end`.
    fn next(&self, from: u32, end: u32) -> u32
        requires { from ≤ end }
        ensures { Skips (λ v. balance self.now v ≡ pos 0) from end result };
}

impl NodeBalances for Balances {
    ghost balance = { λ balances v. value_of balances.sums v };

    #[inline(always)]
    fn of(&self, node: u32) -> i128 {
        Balances::of(self, node)
    }

    #[inline(always)]
    fn next(&self, from: u32, end: u32) -> u32 {
        Balances::next(self, from, end)
    }
}

impl Balances {
    /// Computes the balances of a flow. Allocates a table of the nodes that have arcs.
    pub fn new<N: Network>(alloc: Global, network: &N, flow: &Flow) -> Result<Balances, Memory>
        requires arc_limit { length (N.list network.now) ≤ most_count }
        requires one_each { length flow.now ≡ length (N.list network.now) }
        ensures { IfOk result (AreBalances (N.list network.now) flow.now) }
    {
        let mut sums = NodeTable::new(alloc, 0i128);
        for i in 0..network.arcs() {
            transfer(&mut sums, network.arc(i), flow.amount(i as usize))?;
        }
        Ok(Balances { sums })
    }

    /// The balance of a node; 0 for a node without arcs.
    #[inline(always)]
    pub fn of(&self, node: u32) -> i128
        ensures { result ≡ value_of self.now.sums node }
    {
        self.sums.get(node)
    }

    /// Goes from `from` over nodes whose balances are 0, at most to `end`.
    #[inline(always)]
    pub fn next(&self, from: u32, end: u32) -> u32
        requires { from ≤ end }
        ensures { Skips (λ v. value_of self.now.sums v ≡ pos 0) from end result }
    {
        self.sums.next_nonzero(from, end)
    }
}

/// Adds the amount to the tail's balance, and subtracts it from the head's.
#[inline(always)]
fn transfer(sums: &mut NodeTable<i128>, arc: ArcView, amount: i64) -> Result<(), Memory>
    requires { (v : ℕ) → IsOfSize (2 ^ 120) (value_of sums.old v) }
    ensures { OnOk result ((v : ℕ) → value_of sums.new v ≡ (value_of sums.old v +ℤ when (arc.tail == v) amount) -ℤ when (arc.head == v) amount) }
{
    let amount = i128::from(amount);
    add_at(sums, arc.tail, amount)?;
    add_at(sums, arc.head, -amount)?;
    Ok(())
}

fn add_at(sums: &mut NodeTable<i128>, node: u32, amount: i128) -> Result<(), Memory>
    requires { FitsSigned w128 (value_of sums.old node +ℤ amount) }
    ensures { OnOk result ((v : ℕ) → value_of sums.new v ≡ value_of sums.old v +ℤ when (node == v) amount) }
{
    let sum = sums.get(node);
    sums.set(node, sum + amount)
}

//! Why a flow costs least: by the potentials, each feasible flow costs at least as much.

ghost use Rattle.dimacs_claims.specs.SolutionTexts.{claimed};
ghost use Rattle.dimacs_judging.specs.MinJudge.{ShowsLeast};

use crate::explanation::Explanation;
use crate::facts::{write_least, write_only_flow, write_opposite_shows, write_same_cost};
use crate::sums::{SHOWN, Sum, bound, number_of};
use dimacs_claims::{Potentials, Solution};
use dimacs_facts::{cost_of, count_tight, opposite_shows, same_but_tight};
use dimacs_instance::MinInstance;
use dimacs_judging::Flow;
use dimacs_network::{ArcView, Network};
use dimacs_quote::Value::{Arc, Node, Operand};
use dimacs_quote::{Prose, Reopen, Said, TextFile, say};
use std::alloc::Global;

/// What the flow of an arc costs.
#[derive(Clone, Copy)]
struct ArcCost {
    cost: i128,
    amount: i64,
    arc: ArcView,
    index: u32,
}

impl ArcCost {
    fn of(arc: ArcView, flow: &Flow, index: u32) -> ArcCost {
        let amount = flow.amounts().get(index as usize).copied().unwrap_or(0);
        let cost = i128::from(amount).saturating_mul(i128::from(arc.cost));
        ArcCost {
            cost,
            amount,
            arc,
            index,
        }
    }

    /// Whether this is greater in size, or as great and of an earlier arc.
    fn is_before(self, other: ArcCost) -> bool {
        let (size, other_size) = (self.cost.unsigned_abs(), other.cost.unsigned_abs());
        size > other_size || size == other_size && self.index < other.index
    }
}

/// The cost after this one, the greatest in size first; none if all others are 0.
fn next_cost<N: Network>(network: &N, flow: &Flow, last: Option<ArcCost>) -> Option<ArcCost> {
    let mut next: Option<ArcCost> = None;
    for i in 0..network.arcs() {
        let it = ArcCost::of(network.arc(i), flow, i);
        let is_left = it.cost != 0 && last.is_none_or(|last| last.is_before(it));
        if is_left && next.is_none_or(|next| it.is_before(next)) {
            next = Some(it);
        }
    }
    next
}

/// The sum of a potential times a supply, over the nodes.
fn supply_sum<N: Network>(alloc: Global, min: &MinInstance<N>, potentials: &Potentials) -> Sum {
    let mut sum = Sum::new(alloc);
    let (mut id, end) = (1, potentials.nodes().saturating_add(1));
    for _ in 0..end {
        if id >= end {
            break;
        }
        let (y, supply) = (potentials.of(id), i128::from(min.supply(id)));
        if y != 0 && supply != 0 {
            say!(sum; "  node {}: {} * {}\n", Node(id), y, Operand(supply));
            sum.add(y.checked_mul(supply));
        }
        id = min.next_supply(id + 1, end);
    }
    sum
}

pub(crate) fn reduced_cost(arc: ArcView, tail: i128, head: i128) -> i128 {
    let cost = i128::from(arc.cost);
    cost.saturating_sub(tail).saturating_add(head)
}

/// The sum of a reduced cost times the bound at which that is least, over the arcs.
fn reduced_sum<N: Network>(alloc: Global, network: &N, potentials: &Potentials) -> Sum {
    let mut sum = Sum::new(alloc);
    for i in 0..network.arcs() {
        let arc = network.arc(i);
        let (tail, head) = (potentials.of(arc.tail), potentials.of(arc.head));
        let reduced = reduced_cost(arc, tail, head);
        let name = paid_bound(reduced);
        let paid = number_of(arc, name);
        if reduced != 0 && paid != 0 {
            say!(sum; "  arc {}: {} -> {}, r = {} - {} + {} = {}, {} {}\n", Arc(i.saturating_add(1)), Node(arc.tail),
                Node(arc.head), arc.cost, Operand(tail), Operand(head), reduced, name, bound(name, paid));
            sum.add(reduced.checked_mul(i128::from(paid)));
        }
    }
    sum
}

/// The bound at which a reduced cost is paid least.
pub(crate) fn paid_bound(reduced: i128) -> &'static str {
    if reduced > 0 { "LOW" } else { "CAP" }
}

/// Writes the cost that potentials show, of which there is more to say first.
pub(crate) fn explain_least<N: Network>(
    out: &mut Prose,
    min: &MinInstance<N>,
    solution: &Solution,
    potentials: &Potentials,
    zero: &str,
)
    requires { ShowsLeast min.now (claimed solution.now) potentials.now }
{
    let fixed = supply_sum(out.alloc, min, potentials);
    let least = reduced_sum(out.alloc, min.network(), potentials);
    if write_bound(out, &fixed, &least, zero) {
        write_least(out, min, solution, potentials);
    }
    write_tight(out, min, solution, potentials);
}

/// Writes the cost as a sum, the arcs whose cost is greatest in size first.
pub(crate) fn write_cost<N: Network>(out: &mut Prose, network: &N, flow: &Flow) {
    let mut sum = Sum::new(out.alloc);
    let mut next = next_cost(network, flow, None);
    if next.is_none() {
        return say!(out; "no arc with flow has a COST: the cost is 0\n");
    }
    say!(out; "FLOW * COST of the arcs, the greatest in size first:\n");
    for _ in 0..SHOWN {
        let Some(it) = next else {
            break;
        };
        let (number, arc) = (it.index.saturating_add(1), it.arc);
        say!(out; "  arc {}: {} -> {}, {} * {} = {}\n", Arc(number), Node(arc.tail), Node(arc.head), it.amount,
            Operand(i128::from(arc.cost)), it.cost);
        sum.add(Some(it.cost));
        next = next_cost(network, flow, next);
    }
    if next.is_some() {
        let rest = cost_of(network, flow)
            .unwrap_or(0)
            .saturating_sub(sum.sum());
        say!(out; "  all others: {}\n", rest);
        sum.add(Some(rest));
    }
    sum.write_to(out);
    say!(out; ", the cost\n");
}

/// Writes what each feasible flow costs at least, after what is said of potentials. Returns whether the numbers fit.
fn write_bound(out: &mut Prose, fixed: &Sum, least: &Sum, zero: &str) -> bool {
    let mut bound = Sum::new(out.alloc);
    bound.add(fixed.total);
    bound.add(least.total);
    say!(out; "with potentials y{} and r = COST - y(TAIL) + y(HEAD), a feasible flow costs the sum of y * SUPPLY over the nodes plus that of r * FLOW over the arcs\n",
        zero);
    if bound.total.is_none() {
        say!(out; "some of these numbers don't fit 128 bits, so they are left out\n");
        return false;
    }
    fixed.write_lines(
        out,
        "y * SUPPLY, the same for each flow; nodes where it isn't 0",
    );
    fixed.write_to(out);
    least.write_lines(
        out,
        "\nr * FLOW, at least r * LOW if r is above 0, else r * CAP; arcs where that isn't 0",
    );
    least.write_to(out);
    say!(out; "\n");
    bound.write_to(out);
    true
}

/// Writes on which arcs another flow of this cost can differ.
fn write_tight<N: Network>(
    out: &mut Prose,
    min: &MinInstance<N>,
    solution: &Solution,
    potentials: &Potentials,
)
    requires { ShowsLeast min.now (claimed solution.now) potentials.now }
{
    let count = count_tight(min, solution, potentials);
    if count == 0 {
        return write_only_flow(out, min, solution, potentials);
    }
    same_but_tight(min, solution, potentials);
    write_same_cost(out, min, solution, potentials, count);
    let network = min.network();
    let mut shown = 0u64;
    for i in 0..network.arcs() {
        let arc = network.arc(i);
        if reduced_cost(arc, potentials.of(arc.tail), potentials.of(arc.head)) == 0 {
            if shown == SHOWN {
                return say!(out; " ..\n");
            }
            say!(out; " {}", Arc(i.saturating_add(1)));
            shown = shown.saturating_add(1);
        }
    }
    say!(out; "\n");
}

impl<'a, A: Reopen> Explanation<'a, A> {
    /// Writes that a flow costs least by the opposite of potentials that don't show it, if that is so.
    pub(crate) fn write_opposite(&mut self, certificate: TextFile<'a>) -> Said<'a> {
        let potentials = self.potentials(&mut self.page.source(certificate)?)?;
        let min = self.min_instance()?;
        let flow = self.flow(min.network(), &self.solution()?)?;
        if opposite_shows(self.page.alloc, &min, &flow, &potentials) {
            write_opposite_shows(&mut self.page.out, &min, &flow, &potentials);
        }
        Ok(())
    }
}

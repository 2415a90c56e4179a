//! Decides whether a flow costs least. A heuristic proposes potentials or a cycle. If these fail their test, potentials
//! are raised over residual arcs.

ghost use Rattle.std.specs.Prelude.{◌≡◌, ◌≤◌, ◌≤ℤ◌, ◌+◌, ℕ, pos, IfOk, OnOk, IsTrue};
ghost use Rattle.dimacs_lines.specs.Limits.{most_nodes, IsNode};
ghost use Rattle.dimacs_claims.specs.Potentials.{potential_of};
ghost use Rattle.dimacs_records.specs.Ranges.{IsWide};
ghost use Rattle.dimacs_judging.specs.Feasible.{FeasibleMin};
ghost use Rattle.dimacs_network.specs.{Skips.{Skips}, Tables.{value_of}};
ghost use Rattle.dimacs_network.specs.declared.adjacency_lists.Side.TheVariants.{Tail};
ghost use Rattle.dimacs_decide.specs.{MinDecision.{DecidesMin}, inside.Cycles.{IsSaving}};
ghost use Rattle.dimacs_decide.specs.inside.Heights.{AreStartHeights, BelowBound, bound, height_of};

use crate::cancel::cancel;
use crate::cycle::{is_saving, raised_along};
use crate::heights::{HeightLabel, round, unraised_label};
use crate::trace::cycle_in;
use dimacs_claims::Potentials;
use dimacs_instance::MinInstance;
use dimacs_judging::{Flow, cost_if_shown, slack_tests};
use dimacs_lines::Memory;
use dimacs_methods::{Guess, ResidualArc, guess_potentials};
use dimacs_network::{Network, NodeTable, Side};
use std::alloc::Global;

/// Whether a feasible flow costs least.
#[derive(Drop)]
pub enum MinDecision {
    /// It costs least; these potentials are slack.
    Optimal(Potentials),
    /// It doesn't: this flow is feasible and costs less.
    Better(Flow),
}

/// Decides whether a feasible flow costs least. Usually takes a few passes over the arcs, and memory for the arcs and
/// the nodes that have one.
pub fn decide_min<N: Network>(
    alloc: Global,
    instance: &MinInstance<N>,
    flow: &Flow,
) -> Result<MinDecision, Memory>
    requires { FeasibleMin instance.now flow.now }
    ensures { IfOk result (DecidesMin instance.now flow.now) }
{
    match guess_potentials(alloc, instance, flow.amounts())? {
        Guess::Optimal(potentials) | Guess::GaveUp(potentials) => {
            decide_min_from(alloc, instance, flow, potentials)
        }
        Guess::Cycle(cycle) => decide_by_cycle(alloc, instance, flow, &cycle),
    }
}

/// The same, from any potentials: one pass over the arcs, if they are slack. Otherwise they are raised in rounds over
/// the arcs, at most as many as there are nodes, usually far fewer. Takes memory for the nodes that have an arc.
pub fn decide_min_from<N: Network>(
    alloc: Global,
    instance: &MinInstance<N>,
    flow: &Flow,
    start: Potentials,
) -> Result<MinDecision, Memory>
    requires { FeasibleMin instance.now flow.now }
    ensures { IfOk result (DecidesMin instance.now flow.now) }
{
    if shows_least(alloc, instance, flow, &start) {
        return Ok(MinDecision::Optimal(start));
    }
    let labels = start_labels(alloc, instance.network(), &start)?;
    decide_by_rounds(alloc, instance, flow, labels)
}

/// Whether the potentials are slack for a feasible flow.
fn shows_least<N: Network>(
    alloc: Global,
    instance: &MinInstance<N>,
    flow: &Flow,
    potentials: &Potentials,
) -> bool
    requires { FeasibleMin instance.now flow.now }
    ensures { IsTrue result → DecidesMin instance.now flow.now (MinDecision.Optimal potentials.now) }
{
    if potentials.nodes() != instance.network().nodes() {
        return false;
    }
    if let Some(_cost) = cost_if_shown(alloc, instance, flow, potentials) {
        return true;
    }
    slack_tests(instance, flow, potentials).is_ok()
}

/// Cancels these residual arcs, if they form a cycle of negative cost; otherwise raises potentials.
fn decide_by_cycle<N: Network>(
    alloc: Global,
    instance: &MinInstance<N>,
    flow: &Flow,
    cycle: &[ResidualArc],
) -> Result<MinDecision, Memory>
    requires { FeasibleMin instance.now flow.now }
    ensures { IfOk result (DecidesMin instance.now flow.now) }
{
    if is_saving(alloc, instance.network(), flow, cycle)? {
        return better_by(alloc, instance, flow, cycle);
    }
    let labels = NodeTable::new(alloc, unraised_label());
    decide_by_rounds(alloc, instance, flow, labels)
}

fn better_by<N: Network>(
    alloc: Global,
    instance: &MinInstance<N>,
    flow: &Flow,
    cycle: &[ResidualArc],
) -> Result<MinDecision, Memory>
    requires feasible { FeasibleMin instance.now flow.now }
    requires cycle { IsSaving instance.now.arcs flow.now cycle.now }
    ensures { IfOk result (DecidesMin instance.now flow.now) }
{
    let mut better = flow.copy(alloc)?;
    cancel(instance.network(), cycle, &mut better);
    Ok(MinDecision::Better(better))
}

/// Raises potentials in rounds over the arcs, until none rises, or there is a cycle to cancel.
fn decide_by_rounds<N: Network>(
    alloc: Global,
    instance: &MinInstance<N>,
    flow: &Flow,
    labels: NodeTable<HeightLabel>,
) -> Result<MinDecision, Memory>
    requires feasible { FeasibleMin instance.now flow.now }
    requires start_heights { AreStartHeights (value_of labels) }
    ensures { IfOk result (DecidesMin instance.now flow.now) }
{
    let network = instance.network();
    let mut labels = labels;
    let mut changed = true;
    while changed {
        changed = round(network, flow, &mut labels)?;
        if changed {
            if let Some(cycle) = cycle_in(alloc, network, &labels)? {
                let cycle = raised_along(alloc, network, flow, &labels, &cycle)?;
                return better_by(alloc, instance, flow, &cycle);
            }
        }
    }
    let potentials = potentials_of(alloc, network.nodes(), &labels)?;
    Ok(MinDecision::Optimal(potentials))
}

/// The greatest height at which raising starts: 2^96.
const HIGHEST: i128 = 79228162514264337593543950336;

/// The nearest number in the range of start heights.
fn clamped(number: i128) -> i128
    ensures low { pos 0 ≤ℤ result }
    ensures high { result ≤ℤ bound 0 }
{
    if number < 0 {
        0
    } else if number > HIGHEST {
        HIGHEST
    } else {
        number
    }
}

/// The least of 0 and the potentials of nodes that have an arc.
fn least_of<N: Network>(network: &N, start: &Potentials) -> i128
    ensures { IsWide result }
{
    let mut least: i128 = 0;
    for i in 0..network.arcs() {
        let arc = network.arc(i);
        least = lesser(least, lesser(start.of(arc.tail), start.of(arc.head)));
    }
    least
}

fn lesser(a: i128, b: i128) -> i128
    requires a { IsWide a }
    requires b { IsWide b }
    ensures { IsWide result }
{
    if a < b { a } else { b }
}

/// The potentials less `least_of` as start heights, from 0 to `HIGHEST`. Nodes without an arc get none, node 0 the
/// greatest.
fn start_labels<N: Network>(
    alloc: Global,
    network: &N,
    start: &Potentials,
) -> Result<NodeTable<HeightLabel>, Memory>
    ensures { IfOk result (λ labels. AreStartHeights (value_of labels)) }
{
    let least = least_of(network, start);
    let mut labels = NodeTable::new(alloc, unraised_label());
    labels.set(0, unraised_at(HIGHEST))?;
    for i in 0..network.arcs() {
        let arc = network.arc(i);
        start_at(&mut labels, arc.tail, clamped(start.of(arc.tail) - least))?;
        start_at(&mut labels, arc.head, clamped(start.of(arc.head) - least))?;
    }
    Ok(labels)
}

/// Gives a node its start height. Node 0 stays the highest.
fn start_at(labels: &mut NodeTable<HeightLabel>, id: u32, height: i128) -> Result<(), Memory>
    requires start_heights { AreStartHeights (value_of labels.old) }
    requires root { height_of (value_of labels.old) 0 ≡ bound 0 }
    requires low { pos 0 ≤ℤ height }
    requires high { height ≤ℤ bound 0 }
    ensures start_heights { OnOk result (AreStartHeights (value_of labels.new)) }
    ensures root { OnOk result (height_of (value_of labels.new) 0 ≡ bound 0) }
{
    if id == 0 || height == 0 {
        return Ok(());
    }
    labels.set(id, unraised_at(height))
}

fn unraised_at(height: i128) -> HeightLabel
    ensures { result ≡ record { height = height; arc_number = 0; side = Tail } }
{
    HeightLabel {
        height,
        arc_number: 0,
        side: Side::Tail,
    }
}

fn potentials_of(
    alloc: Global,
    nodes: u32,
    labels: &NodeTable<HeightLabel>,
) -> Result<Potentials, Memory>
    requires node_limit { nodes ≤ most_nodes }
    requires not_negative { (v : ℕ) → pos 0 ≤ℤ height_of (value_of labels.now) v }
    requires bounded { BelowBound (nodes + 1) (value_of labels.now) }
    ensures nodes { IfOk result (λ p. p.nodes ≡ nodes) }
    ensures values { IfOk result (λ p. (v : ℕ) → IsNode nodes v → potential_of p v ≡ height_of (value_of labels.now) v) }
{
    let mut potentials = Potentials::new(alloc, nodes);
    let end = nodes + 1;
    let mut id = 1;
    while id < end {
        let height = labels.get(id).height;
        if height > 0 {
            potentials.set(id, height)?;
        }
        id = next_label(labels, id + 1, end);
    }
    Ok(potentials)
}

/// Goes from `from` over nodes whose heights are 0, at most to `end`.
#[inline(always)]
fn next_label(labels: &NodeTable<HeightLabel>, from: u32, end: u32) -> u32
    requires { from ≤ end }
    ensures { Skips (λ v. height_of (value_of labels.now) v ≡ pos 0) from end result }
{
    if labels.blank().height == 0 {
        labels.next(from, end)
    } else {
        from
    }
}

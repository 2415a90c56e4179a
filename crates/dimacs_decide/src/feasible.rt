//! Decides by a search from excesses to deficits whether a flow within the bounds is feasible.

ghost use Rattle.std.specs.Prelude.{◌≡◌, ◌≤◌, ◌+◌, ◌<ℤ◌, ℕ, All, length, pos, true, IfOk, OnOk};
ghost use Rattle.dimacs_lines.specs.Limits.{most_nodes, IsNode};
ghost use Rattle.dimacs_judging.specs.Cuts.{members};
ghost use Rattle.dimacs_network.specs.{Arcs.{JoinsNodes}, Tables.{value_of}};
ghost use Rattle.dimacs_decide.specs.{Bounds.{KeepsBounds}, FeasibilityDecision.{DecidesFeasible}};
ghost use Rattle.dimacs_decide.specs.Incidence.{IsIncidenceOf};
ghost use Rattle.dimacs_decide.specs.inside.Imbalances.{AreImbalances, HasDeficits, HasEnds, IsNodeTest};

use crate::imbalance::{ImbalanceSigns, imbalance_signs, imbalances};
use crate::incidence::Incidence;
use crate::search::Search;
use crate::send::{Augmentation, send};
use dimacs_claims::Cut;
use dimacs_instance::MinInstance;
use dimacs_judging::Flow;
use dimacs_lines::Memory;
use dimacs_network::{Network, NodeTable};
use std::alloc::Global;

/// Whether a flow that keeps the bounds is feasible.
#[derive(Drop)]
pub enum FeasibilityDecision {
    /// It is feasible.
    Balanced,
    /// No flow is feasible; this violated set shows it.
    Infeasible(Cut),
    /// It isn't. This flow keeps the bounds, too, with less excess.
    LessExcess(Flow),
}

/// Decides whether a flow that keeps the bounds is feasible. If it isn't, the answer is such a flow with less excess,
/// or a set that shows that no flow is. Takes time and memory for the arcs and the nodes that have one.
pub fn decide_feasible<N: Network>(
    alloc: Global,
    instance: &MinInstance<N>,
    flow: &Flow,
) -> Result<FeasibilityDecision, Memory>
    requires { KeepsBounds instance.now.arcs flow.now }
    ensures { IfOk result (DecidesFeasible instance.now flow.now) }
{
    match test_nodes(alloc, instance, flow)? {
        NodeTest::Decided(decision) => Ok(decision),
        NodeTest::Excess(imbalance) => {
            let incidence = Incidence::new(alloc, instance.network())?;
            decide_with_excess(alloc, instance, &incidence, flow, imbalance)
        }
    }
}

/// The same over adjacency lists that several calls can share.
pub fn decide_feasible_over<N: Network>(
    alloc: Global,
    instance: &MinInstance<N>,
    incidence: &Incidence,
    flow: &Flow,
) -> Result<FeasibilityDecision, Memory>
    requires within { KeepsBounds instance.now.arcs flow.now }
    requires incidence { IsIncidenceOf instance.now.arcs incidence.now }
    ensures { IfOk result (DecidesFeasible instance.now flow.now) }
{
    match test_nodes(alloc, instance, flow)? {
        NodeTest::Decided(decision) => Ok(decision),
        NodeTest::Excess(imbalance) => decide_with_excess(
            alloc, instance, incidence, flow, imbalance,
        ),
    }
}

/// What the imbalances alone show.
#[derive(Drop)]
enum NodeTest {
    /// The answer, if no node has excess.
    Decided(FeasibilityDecision),
    /// The imbalance of each node, if some has excess.
    Excess(NodeTable<i128>),
}

/// Decides the question if no node has excess.
fn test_nodes<N: Network>(
    alloc: Global,
    instance: &MinInstance<N>,
    flow: &Flow,
) -> Result<NodeTest, Memory>
    requires { KeepsBounds instance.now.arcs flow.now }
    ensures { IfOk result (IsNodeTest instance.now flow.now) }
{
    let imbalance = imbalances(alloc, instance, flow)?;
    let nodes = instance.network().nodes();
    match imbalance_signs(nodes, &imbalance) {
        ImbalanceSigns::Even => Ok(NodeTest::Decided(FeasibilityDecision::Balanced)),
        ImbalanceSigns::Deficit => {
            let set = nodes_in_use(alloc, instance.network(), &imbalance)?;
            Ok(NodeTest::Decided(FeasibilityDecision::Infeasible(set)))
        }
        ImbalanceSigns::Excess => Ok(NodeTest::Excess(imbalance)),
    }
}

/// Decides the question if some node has excess.
fn decide_with_excess<N: Network>(
    alloc: Global,
    instance: &MinInstance<N>,
    incidence: &Incidence,
    flow: &Flow,
    imbalance: NodeTable<i128>,
) -> Result<FeasibilityDecision, Memory>
    requires within { KeepsBounds instance.now.arcs flow.now }
    requires incidence { IsIncidenceOf instance.now.arcs incidence.now }
    requires imbalance { AreImbalances instance.now flow.now (value_of imbalance) }
    requires excess { (v : ℕ) × IsNode instance.now.nodes v × (pos 0 <ℤ value_of imbalance v) }
    ensures { IfOk result (DecidesFeasible instance.now flow.now) }
{
    let network = instance.network();
    let mut search = Search::new(alloc, imbalance);
    search.begin_all(network.nodes())?;
    match send(alloc, network, incidence, flow, search)? {
        Augmentation::Sent(nearer) => Ok(FeasibilityDecision::LessExcess(nearer)),
        Augmentation::Stuck(set) => Ok(FeasibilityDecision::Infeasible(set)),
    }
}

/// All ends of arcs, and all nodes with a deficit.
fn nodes_in_use<N: Network>(
    alloc: Global,
    network: &N,
    imbalance: &NodeTable<i128>,
) -> Result<Cut, Memory>
    requires node_limit { N.node_count network.now ≤ most_nodes }
    requires joined { All (JoinsNodes (N.node_count network.now)) (N.list network.now) }
    ensures nodes { IfOk result (λ set. set.nodes ≡ N.node_count network.now) }
    ensures ends { IfOk result (λ set. HasEnds (N.list network.now) (length (N.list network.now)) (members set)) }
    ensures deficits { IfOk result (λ set. HasDeficits (N.node_count network.now + 1) (value_of imbalance.now) (members set)) }
{
    let mut set = ends_of_arcs(alloc, network)?;
    add_deficits(network.nodes(), imbalance, &mut set)?;
    Ok(set)
}

fn ends_of_arcs<N: Network>(alloc: Global, network: &N) -> Result<Cut, Memory>
    requires node_limit { N.node_count network.now ≤ most_nodes }
    requires joined { All (JoinsNodes (N.node_count network.now)) (N.list network.now) }
    ensures nodes { IfOk result (λ set. set.nodes ≡ N.node_count network.now) }
    ensures ends { IfOk result (λ set. HasEnds (N.list network.now) (length (N.list network.now)) (members set)) }
{
    let mut set = Cut::new(alloc, network.nodes());
    for i in 0..network.arcs() {
        let arc = network.arc(i);
        set.add(arc.tail)?;
        set.add(arc.head)?;
    }
    Ok(set)
}

fn add_deficits(nodes: u32, imbalance: &NodeTable<i128>, set: &mut Cut) -> Result<(), Memory>
    requires node_limit { nodes ≤ most_nodes }
    requires nodes { set.old.nodes ≡ nodes }
    ensures nodes { OnOk result (set.new.nodes ≡ nodes) }
    ensures stay { OnOk result ((v : ℕ) → members set.old v ≡ true → members set.new v ≡ true) }
    ensures deficits { OnOk result (HasDeficits (nodes + 1) (value_of imbalance.now) (members set.new)) }
{
    let end = nodes + 1;
    let mut id = 1;
    while id < end {
        if imbalance.get(id) < 0 {
            set.add(id)?;
        }
        id = imbalance.next_nonzero(id + 1, end);
    }
    Ok(())
}

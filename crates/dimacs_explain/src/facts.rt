//! The sentences that are verdicts of their own. Each is written by one function here, which requires its fact.

ghost use Rattle.std.specs.Prelude.{◌≡◌, ◌+ℤ◌, ◌-ℤ◌, ◌<ℤ◌, None, pos};
ghost use Rattle.dimacs_claims.specs.SolutionTexts.{claimed};
ghost use Rattle.dimacs_explain.specs.inside.Routes.{IsFarthest};
ghost use Rattle.dimacs_facts.specs.{Blocks.{IsAlone, OthersUnreached}, Cycles.{HasNegativeCycle}, Walks.{IsNear}};
ghost use Rattle.dimacs_facts.specs.Facts.{HasCost, HasValue, OnlyFlow, OppositeShows, SameButTight, tight_count};
ghost use Rattle.dimacs_judging.specs.{Feasible.{value}, Flows.{cost}, Labels.{AreDistances}, Optimum.{NoFlow}};
ghost use Rattle.dimacs_judging.specs.{MaxJudge.{ShowsMaximum}, MinJudge.{ShowsLeast}, Walks.{Beyond, IsDistance}};

use crate::sums::Sum;
use dimacs_claims::{Block, Cut, Label, Labels, Potentials, Solution};
use dimacs_facts::Unreached;
use dimacs_instance::{Graph, MaxInstance, MinInstance};
use dimacs_judging::Flow;
use dimacs_network::Network;
use dimacs_quote::Value::Node;
use dimacs_quote::{Prose, say};

/// Writes that no flow has a greater value than the claimed one, by the capacities of the arcs out of a cut.
pub(crate) fn write_greatest<N: Network>(
    out: &mut Prose,
    _max: &MaxInstance<N>,
    solution: &Solution,
    _cut: &Cut,
    leaving: &Sum,
)
    requires { ShowsMaximum _max.now (claimed solution.now) _cut.now }
{
    if leaving.count == 0 && solution.value == 0 {
        return say!(out; "no flow reaches the sink, so none has a value above 0\n");
    }
    leaving.write_to(out);
    say!(out; ", the value of the flow: all flow to the sink has to cross these arcs, so none has a greater value\n");
}

/// Ends a sentence on the cost that potentials show.
pub(crate) fn write_least<N: Network>(
    out: &mut Prose,
    _min: &MinInstance<N>,
    _solution: &Solution,
    _potentials: &Potentials,
)
    requires { ShowsLeast _min.now (claimed _solution.now) _potentials.now }
{
    say!(out; ": no flow costs less\n");
}

/// Writes that no other flow costs as little.
pub(crate) fn write_only_flow<N: Network>(
    out: &mut Prose,
    _min: &MinInstance<N>,
    _solution: &Solution,
    _potentials: &Potentials,
)
    requires only { OnlyFlow _min.now (claimed _solution.now) }
    requires none { tight_count _min.now.arcs _potentials.now ≡ 0 }
{
    say!(out; "no arc has r = 0: no other flow costs as little\n");
}

/// Writes how many arcs have the reduced cost 0, on which alone another flow of this cost can differ.
pub(crate) fn write_same_cost<N: Network>(
    out: &mut Prose,
    min: &MinInstance<N>,
    _solution: &Solution,
    _potentials: &Potentials,
    count: u32,
)
    requires same { SameButTight min.now (claimed _solution.now) _potentials.now }
    requires count { count ≡ tight_count min.now.arcs _potentials.now }
{
    say!(out; "another flow of this cost can differ only on arcs with r = 0, {} of {}:",
        u64::from(count), u64::from(min.network().arcs()));
}

pub(crate) fn write_value_claim<N: Network>(
    out: &mut Prose,
    _max: &MaxInstance<N>,
    _flow: &Flow,
    claim: i128,
    found: i128,
)
    requires { found ≡ value _max.now _flow.now }
{
    say!(out; "{} is claimed, and the flow has the value {}", claim, found);
}

pub(crate) fn write_cost_claim<N: Network>(
    out: &mut Prose,
    _network: &N,
    _flow: &Flow,
    claim: i128,
    found: i128,
)
    requires { found ≡ cost (N.list _network.now) _flow.now }
{
    say!(out; "{} is claimed, and the flow costs {}\n", claim, found);
}

/// Writes that no walk leads to a node; with a radius, that none within it does.
pub(crate) fn write_no_walk<N: Network>(out: &mut Prose, _graph: &Graph<N>, to: u32, it: Unreached)
    requires { IsDistance _graph.now.arcs it.source to None it.radius }
{
    let (from, to) = (Node(it.source), Node(to));
    match it.radius {
        None =>
            say!(out; "no walk from {} to {}: no arc leads out of the nodes that {} reaches", from, to, from),
        Some(radius) =>
            say!(out; "no walk from {} to {} weighs at most {}, the RADIUS: each arc from a node with a label to one without leads past it, and no WEIGHT is negative\n",
            from, to, radius),
    }
}

/// The same of all nodes but the source of a block without labels.
pub(crate) fn write_alone<N: Network>(out: &mut Prose, _graph: &Graph<N>, block: &Block)
    requires { IsAlone _graph.now.arcs block.now.source block.now.radius }
{
    let from = Node(block.source());
    match block.radius() {
        None => say!(out; "{} reaches no other node: no arc leads from it to another\n", from),
        Some(radius) =>
            say!(out; "no other node is within {}, the RADIUS, of {}: each arc from it to another leads past it\n", radius, from),
    }
}

/// Writes that no walk leads to nodes without a label, beside those of a block without a radius.
pub(crate) fn write_others_unreached<N: Network>(out: &mut Prose, _graph: &Graph<N>, _block: &Block)
    requires { OthersUnreached _graph.now.arcs _block.now }
{
    say!(out; "the other nodes can't be reached: no arc leads to them from these\n");
}

/// Begins a sentence on the farthest node of a block. Its route follows.
pub(crate) fn write_farthest_of(out: &mut Prose, block: &Block, _farthest: Label)
    requires { IsFarthest block.now _farthest }
{
    let count = block.labels().len() as u64;
    say!(out; "the farthest node from {}, of {}", Node(block.source()), count);
    match block.radius() {
        None => say!(out; " that it reaches: "),
        Some(radius) => say!(out; " within {}, the RADIUS: ", radius),
    }
}

pub(crate) fn write_shortest<N: Network>(
    out: &mut Prose,
    _graph: &Graph<N>,
    _labels: &Labels,
    name: &str,
)
    requires { AreDistances _graph.now.arcs _labels.now.blocks }
{
    say!(out; "no walk is shorter: from the source, whose {} is 0, each arc raises the {} by its WEIGHT at most\n",
        name, name);
}

/// Writes that a flow is feasible, and how much more its value is than the claimed one.
pub(crate) fn write_greater<N: Network>(
    out: &mut Prose,
    _max: &MaxInstance<N>,
    _flow: &Flow,
    name: &str,
    claimed: i128,
    more: i128,
)
    requires more { pos 0 <ℤ more }
    requires value { HasValue _max.now _flow.now (claimed +ℤ more) }
{
    say!(out; "{} is feasible, and has {} more than the {} that is claimed", name, more, claimed);
}

/// The same of how much less it costs.
pub(crate) fn write_cheaper<N: Network>(
    out: &mut Prose,
    _min: &MinInstance<N>,
    _flow: &Flow,
    name: &str,
    claimed: i128,
    less: i128,
)
    requires less { pos 0 <ℤ less }
    requires cost { HasCost _min.now _flow.now (claimed -ℤ less) }
{
    say!(out; "{} is feasible, and costs {} less than the {} that is claimed", name, less, claimed);
}

pub(crate) fn write_feasible_cost<N: Network>(
    out: &mut Prose,
    _min: &MinInstance<N>,
    _flow: &Flow,
    cost: i128,
)
    requires { HasCost _min.now _flow.now cost }
{
    say!(out; "the instance has a feasible flow, which costs {}", cost);
}

pub(crate) fn write_no_flow<N: Network>(out: &mut Prose, _min: &MinInstance<N>)
    requires { NoFlow _min.now }
{
    say!(out; ": no flow is feasible\n");
}

pub(crate) fn write_opposite_shows<N: Network>(
    out: &mut Prose,
    _min: &MinInstance<N>,
    _flow: &Flow,
    _potentials: &Potentials,
)
    requires { OppositeShows _min.now _flow.now _potentials.now }
{
    say!(out; "with the opposite sign of each VALUE, the potentials show the claim\n");
}

/// Writes that the node is at this distance from the source or nearer.
pub(crate) fn write_near<N: Network>(
    out: &mut Prose,
    _network: &N,
    _source: u32,
    node: u32,
    dist: i128,
)
    requires { IsNear (N.list _network.now) _source node dist }
{
    say!(out; ": node {} is at distance {} at most", Node(node), dist);
}

/// Writes a negative cycle, which leaves the nodes that it leads to without a distance.
pub(crate) fn write_negative_cycle<N: Network>(
    out: &mut Prose,
    _network: &N,
    _source: u32,
    arcs: &Sum,
)
    requires { HasNegativeCycle (N.list _network.now) _source }
{
    let what = "a cycle that the source reaches weighs less than 0; its arcs";
    arcs.write_lines(out, what);
    arcs.write_to(out);
    say!(out; ": with each round a walk weighs less, so the nodes that it leads to have no distance\n");
}

/// Writes that a label says less than every walk from the source weighs.
pub(crate) fn write_too_near<N: Network>(
    out: &mut Prose,
    _network: &N,
    _source: u32,
    node: u32,
    dist: i128,
)
    requires { Beyond (N.list _network.now) _source node dist }
{
    say!(out; "node {} is at distance {}, but no walk from the source weighs as little\n", Node(node), dist);
}

//! The calls of the judges, one by one.

ghost use Rattle.std.specs.Prelude.{◌≡◌, length, IfOk};

use crate::checks::same;
use dimacs_claims::{
    Cut, Labels, Potentials, Solution, read_cut, read_labels, read_potentials, read_solution,
};
use dimacs_instance::{
    ArcView, CapacityArc, ForwardStar, Graph, MaxInstance, MinInstance, Network, WeightArc,
    read_graph, read_max, read_min, read_queries,
};
use dimacs_judge::{
    Decision, Flow, JudgeError, Verdict, Where, cut_tests, decide_max, feasible_max, feasible_min,
    flow_of, judge_max, judge_min, judge_paths, label_tests, slack_tests,
};
use dimacs_lines::MemorySource;
use dimacs_records::{ReadError, Reason};
use std::alloc::Global;
use std::test::Fail;

/// A network of three nodes.
const MAX: &[u8] = b"p max 3 3\nn 1 s\nn 3 t\na 1 2 4\na 2 3 2\na 1 3 1\n";

/// A maximum flow in it, and its tight cut.
const MAXIMUM: &[u8] = b"f 1 3 1\nf 1 2 2\nf 2 3 2\ns 3\n";

const CUT: &[u8] = b"p cut 3 2\nu 1\nu 2\n";

fn solution(alloc: Global, text: &[u8]) -> Result<Solution, ReadError> {
    read_solution(alloc, &mut MemorySource::new(text))
}

/// The flow of a solution, with an amount for each arc.
fn flow_in<N: Network>(alloc: Global, network: &N, text: &[u8]) -> Result<Flow, Fail>
    ensures { IfOk result (λ flow. length flow ≡ length (N.list network.now)) }
{
    let flow = flow_of(alloc, network, &solution(alloc, text)?)?;
    if flow.len() != network.arcs() as usize {
        return Err(Fail::from("a flow of other arcs"));
    }
    Ok(flow)
}

fn max_instance(alloc: Global) -> Result<MaxInstance<ForwardStar<CapacityArc>>, ReadError> {
    read_max(alloc, &mut MemorySource::new(MAX))
}

fn cut_of(alloc: Global, text: &[u8]) -> Result<Cut, ReadError> {
    read_cut(alloc, &mut MemorySource::new(text))
}

/// The judge's answer to a claim with the cut.
fn judged_max(alloc: Global, claim: &[u8]) -> Result<Result<Verdict, JudgeError>, Fail> {
    let solution = solution(alloc, claim)?;
    let cut = cut_of(alloc, CUT)?;
    let instance = max_instance(alloc)?;
    Ok(judge_max(alloc, &instance, &solution, &cut))
}

#[test]
fn a_maximum_flow_is_judged_by_a_cut(rt: HostRuntime) -> Result<(), Fail> {
    let yes = judged_max(rt.alloc(), MAXIMUM)?;
    same(&rt, "verdict", yes, Ok(Verdict::Max(3)));
    let no = judged_max(rt.alloc(), b"f 1 3 1\nc\nf 1 3 2\nf 3 1 2\ns 3\n")?;
    let place = Where::Solution { line: 3, field: 0 };
    let refusal = JudgeError::Refused(place, Reason::ArcTwice);
    same(&rt, "the first entry that fails", no, Err(refusal));
    Ok(())
}

/// The maximum flow. Tests that it is feasible.
fn maximum_flow<N: Network>(alloc: Global, instance: &MaxInstance<N>) -> Result<Flow, Fail>
    ensures { IfOk result (λ flow. length flow ≡ length instance.now.arcs) }
{
    let flow = flow_in(alloc, instance.network(), MAXIMUM)?;
    feasible_max(alloc, instance, &flow)?;
    Ok(flow)
}

/// The judge's answer to a cut for the maximum flow.
fn tests_of_max(alloc: Global, cut: &[u8]) -> Result<Result<(), (Where, Reason)>, Fail> {
    let cut = cut_of(alloc, cut)?;
    let instance = max_instance(alloc)?;
    let flow = maximum_flow(alloc, &instance)?;
    Ok(cut_tests(&instance, &flow, &cut))
}

#[test]
fn a_maximum_flow_is_feasible_and_its_cut_is_tight(rt: HostRuntime) -> Result<(), Fail> {
    same(&rt, "a tight cut", tests_of_max(rt.alloc(), CUT)?, Ok(()));
    let refusal = (Where::Node(1), Reason::SourceOutside);
    let tests = tests_of_max(rt.alloc(), b"p cut 3 0\n")?;
    same(&rt, "the empty set", tests, Err(refusal));
    Ok(())
}

/// The decision of a flow without a cut.
fn decided(alloc: Global, claim: &[u8]) -> Result<Decision, Fail> {
    let instance = max_instance(alloc)?;
    let flow = flow_in(alloc, instance.network(), claim)?;
    feasible_max(alloc, &instance, &flow)?;
    Ok(decide_max(alloc, &instance, &flow)?)
}

#[test]
fn a_flow_is_decided_without_a_cut(rt: HostRuntime) -> Result<(), Fail> {
    let Decision::Optimal(cut) = decided(rt.alloc(), MAXIMUM)? else {
        return Err(Fail::from("the flow is maximum"));
    };
    let inside = (cut.contains(1), cut.contains(2), cut.contains(3));
    same(&rt, "a maximum flow", inside, (true, true, false));
    let Decision::Better(flow) = decided(rt.alloc(), b"f 1 2 2\nf 2 3 2\ns 2\n")? else {
        return Err(Fail::from("the flow isn't maximum"));
    };
    let wanted = [2, 2, 1].as_slice();
    same(&rt, "a smaller flow", flow.amounts(), wanted);
    Ok(())
}

/// Two nodes, and an arc each way between them.
const MIN: &[u8] = b"p min 2 2\nn 1 1\nn 2 -1\na 1 2 0 1 3\na 2 1 0 1 0\n";

/// A flow of least cost in it.
const LEAST: &[u8] = b"s 3\nf 1 2 1\n";

fn min_instance(alloc: Global) -> Result<MinInstance<ForwardStar<ArcView>>, ReadError> {
    read_min(alloc, &mut MemorySource::new(MIN))
}

fn potentials_of(alloc: Global, text: &[u8]) -> Result<Potentials, ReadError> {
    read_potentials(alloc, &mut MemorySource::new(text))
}

/// The judge's answer to it with these potentials.
fn judged_min(alloc: Global, potentials: &[u8]) -> Result<Result<Verdict, JudgeError>, Fail> {
    let potentials = potentials_of(alloc, potentials)?;
    let solution = solution(alloc, LEAST)?;
    let instance = min_instance(alloc)?;
    Ok(judge_min(alloc, &instance, &solution, &potentials))
}

/// The flow of least cost. Tests that it is feasible.
fn least_flow<N: Network>(alloc: Global, instance: &MinInstance<N>) -> Result<Flow, Fail>
    ensures { IfOk result (λ flow. length flow ≡ length instance.now.arcs) }
{
    let flow = flow_in(alloc, instance.network(), LEAST)?;
    feasible_min(alloc, instance, &flow)?;
    Ok(flow)
}

/// The judge's answer to potentials for the flow of least cost.
fn tests_of_min(alloc: Global, potentials: &[u8]) -> Result<Result<(), (Where, Reason)>, Fail> {
    let potentials = potentials_of(alloc, potentials)?;
    let instance = min_instance(alloc)?;
    let flow = least_flow(alloc, &instance)?;
    Ok(slack_tests(&instance, &flow, &potentials))
}

#[test]
fn a_flow_of_least_cost_is_judged_by_potentials(rt: HostRuntime) -> Result<(), Fail> {
    let slack = b"p pot 2 1\ny 1 3\n".as_slice();
    same(&rt, "slack", tests_of_min(rt.alloc(), slack)?, Ok(()));
    let verdict = judged_min(rt.alloc(), slack)?;
    same(&rt, "verdict", verdict, Ok(Verdict::Min(3)));
    let refusal = (Where::Arc(1), Reason::NotTight);
    let tests = tests_of_min(rt.alloc(), b"p pot 2 1\ny 1 2\n")?;
    same(&rt, "a potential too small", tests, Err(refusal));
    Ok(())
}

fn graph(alloc: Global) -> Result<Graph<ForwardStar<WeightArc>>, ReadError> {
    let text = b"p sp 3 2\na 1 2 5\na 2 1 -5\n";
    read_graph(alloc, &mut MemorySource::new(text))
}

fn labels_of(alloc: Global, text: &[u8]) -> Result<Labels, ReadError> {
    read_labels(alloc, &mut MemorySource::new(text))
}

/// The judge's answer to labels, and the answers to two queries.
fn judged_labels(alloc: Global, labels: &[u8]) -> Result<Result<Verdict, JudgeError>, Fail> {
    let labels = labels_of(alloc, labels)?;
    let text = b"p aux sp p2p 2\nq 1 3\nq 1 2\n";
    let queries = read_queries(alloc, &mut MemorySource::new(text))?;
    let graph = graph(alloc)?;
    if let Err((place, reason)) = label_tests(&graph, &labels) {
        return Ok(Err(JudgeError::Refused(place, reason)));
    }
    Ok(judge_paths(alloc, &graph, &queries, &labels))
}

#[test]
fn labels_answer_queries(rt: HostRuntime) -> Result<(), Fail> {
    let actual = judged_labels(rt.alloc(), b"p dist 3 1\nt 1 1\nd 2 4 1\n")?;
    let refusal = JudgeError::Refused(Where::Node(2), Reason::NoTightArc);
    same(&rt, "a label that no arc makes", actual, Err(refusal));
    let actual = judged_labels(rt.alloc(), b"p dist 3 1\nt 1 1\nd 2 5 1\n")?;
    let Ok(Verdict::Pairs(answers)) = actual else {
        return Err(Fail::from("the labels are distances"));
    };
    let [first, second] = answers.as_slice() else {
        return Err(Fail::from("other answers"));
    };
    same(&rt, "the first", (first.to, first.distance), (3, None));
    same(
        &rt,
        "the second",
        (second.to, second.distance),
        (2, Some(5)),
    );
    Ok(())
}

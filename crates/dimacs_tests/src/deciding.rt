//! Decisions about distances that are no text.

use crate::checks::same;
use dimacs_claims::{Labels, write_labels};
use dimacs_decide::{DistancesByNode, decide_distances};
use dimacs_instance::read_graph;
use dimacs_judging::JudgeError;
use dimacs_lines::{MemorySink, MemorySource};
use dimacs_network::Network;
use std::alloc::Global;
use std::process::Abort;
use std::test::Fail;

/// A graph with a node that no walk leads to.
const GRAPH: &[u8] = b"p sp 4 2\na 1 3 1\na 3 2 1\n";

fn answers(
    rt: &impl Abort,
    alloc: Global,
    name: &str,
    answer: Result<Labels, JudgeError>,
    wanted: &str,
) -> Result<(), Fail> {
    let labels = answer?;
    let mut sink = MemorySink::new(alloc);
    write_labels(&labels, &mut sink)?;
    same(rt, name, sink.bytes(), wanted.as_bytes());
    Ok(())
}

#[test]
fn a_list_is_a_claim(rt: HostRuntime) -> Result<(), Fail> {
    let alloc = rt.alloc();
    let graph = read_graph(alloc, &mut MemorySource::new(GRAPH))?;
    assert!(&rt; graph.network().nodes() >= 1);
    let distances = [0, 2, 1].as_slice();
    let claim = DistancesByNode { distances };
    let answer = decide_distances(alloc, &graph, 1, &claim);
    let wanted = "p dist 4 1\nt 1 2\nd 3 1 1\nd 2 2 3\n";
    answers(&rt, alloc, "a list that ends before node 4", answer, wanted)
}

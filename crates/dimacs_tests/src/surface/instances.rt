//! Instances and queries: their networks, look-ups, and how they are written.

use crate::checks::{holds, same};
use dimacs_instance::{
    Network, Queries, read_graph, read_max, read_min, read_queries, write_graph, write_max,
    write_min, write_queries,
};
use dimacs_lines::{MemorySink, MemorySource};
use std::alloc::Global;
use std::process::Abort;
use std::test::Fail;

const MAX: &[u8] = b"p max 4 5\nn 1 s\nn 4 t\na 1 2 4\na 1 3 2\na 2 3 2\na 2 4 3\na 3 4 5\n";

const MIN: &[u8] =
    b"p min 4 5\nn 1 4\nn 4 -4\na 1 2 0 4 2\na 1 3 0 2 2\na 2 3 0 2 1\na 2 4 0 3 3\na 3 4 0 5 1\n";

const GRAPH: &[u8] = b"p sp 2 3\na 1 2 5\na 2 1 -6\na 1 2 7\n";

#[test]
fn an_instance_of_maximum_flow_has_its_ends_and_arcs(rt: HostRuntime) -> Result<(), Fail> {
    let max = read_max(rt.alloc(), &mut MemorySource::new(MAX))?;
    same(&rt, "source and sink", (max.source(), max.sink()), (1, 4));
    let mut sink = MemorySink::new(rt.alloc());
    write_max(&max.into_plain(), &mut sink)?;
    holds(&rt, "the text without an index", sink.bytes() == MAX);
    Ok(())
}

#[test]
fn an_instance_of_least_cost_has_its_supplies_and_arcs(rt: HostRuntime) -> Result<(), Fail> {
    let min = read_min(rt.alloc(), &mut MemorySource::new(MIN))?;
    let supplies = (min.supply(1), min.supply(2), min.supply(4));
    same(&rt, "supplies", supplies, (4, 0, -4));
    let mut sink = MemorySink::new(rt.alloc());
    write_min(&min.into_plain(), &mut sink)?;
    holds(&rt, "the text without an index", sink.bytes() == MIN);
    Ok(())
}

#[test]
fn a_graph_has_its_arcs(rt: HostRuntime) -> Result<(), Fail> {
    let graph = read_graph(rt.alloc(), &mut MemorySource::new(GRAPH))?;
    finds(&rt, graph.network());
    let plain = graph.into_plain();
    finds(&rt, plain.network());
    let mut sink = MemorySink::new(rt.alloc());
    write_graph(&plain, &mut sink)?;
    holds(&rt, "the text without an index", sink.bytes() == GRAPH);
    Ok(())
}

/// The queries of a text.
fn asked(alloc: Global, text: &[u8]) -> Result<String, Fail> {
    match read_queries(alloc, &mut MemorySource::new(text))? {
        Queries::Sources(ids) => Ok(format!(in alloc; "{:?}", ids.as_slice())?),
        Queries::Pairs(pairs) => Ok(format!(in alloc; "{:?}", pairs.as_slice())?),
    }
}

#[test]
fn queries_keep_their_order_and_open_lists_are_written(rt: HostRuntime) -> Result<(), Fail> {
    let alloc = rt.alloc();
    let actual = asked(alloc, b"p aux sp ss 3\ns 5\ns 1\ns 5\n")?;
    same(&rt, "sources", actual.as_str(), "[5, 1, 5]");
    let actual = asked(alloc, b"p aux sp p2p 2\nq 2 1\nq 1 4\n")?;
    same(&rt, "pairs", actual.as_str(), "[(2, 1), (1, 4)]");
    let open = Queries::Sources([0, u32::MAX].to_vec(alloc)?);
    let mut sink = MemorySink::new(alloc);
    write_queries(&open, &mut sink)?;
    let wanted = b"p aux sp ss 2\ns 0\ns 4294967295\n".as_slice();
    holds(&rt, "an open list", sink.bytes() == wanted);
    Ok(())
}

/// Tail, head, how many such arcs are skipped, and the index of the arc that is found.
static FOUND: [(u32, u32, u32, Option<u32>); 7] = [
    (1, 2, 0, Some(0)),
    (1, 2, 1, Some(2)),
    (1, 2, 2, None),
    (2, 2, 0, None),
    (2, 1, 0, Some(1)),
    (1, 2, u32::MAX, None),
    (0, 5, 0, None),
];

/// Tests that a network finds parallel arcs in the order of its list.
fn finds<N: Network>(rt: &impl Abort, network: &N) {
    for &(tail, head, k, found) in &FOUND {
        same(rt, "an arc", network.find(tail, head, k), found);
    }
}

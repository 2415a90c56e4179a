//! Claims and certificates: how they are made, looked up and written.
//!
//! Each function makes few calls, since the checker goes over the promises of one at each later call.

use crate::checks::{holds, same};
use dimacs_claims::{
    Block, Cut, Entry, Label, Labels, Potentials, Solution, read_labels, read_solution,
    read_solution_into, write_cut, write_labels, write_potentials, write_solution,
};
use dimacs_lines::{Memory, MemorySink, MemorySource};
use dimacs_records::ReadError;
use std::alloc::Global;
use std::process::Abort;
use std::test::Fail;

fn entry(tail: u32, head: u32, flow: i64, line: u64) -> Entry {
    Entry {
        tail,
        head,
        flow,
        line,
    }
}

/// The value after an entry, with comments and empty lines between.
const SCATTERED: &[u8] = b"c x\nf 1 2 4\n\ns 6\nf 3 4 -2\nf 1 2 4";

/// The solution of that text.
fn scattered(alloc: Global) -> Result<Solution, ReadError> {
    read_solution(alloc, &mut MemorySource::new(SCATTERED))
}

#[test]
fn a_solution_knows_the_lines_of_its_text(rt: HostRuntime) -> Result<(), Fail> {
    let solution = scattered(rt.alloc())?;
    let found = (solution.value, solution.value_line);
    same(&rt, "value and its line", found, (6, 4));
    let wanted = [entry(1, 2, 4, 2), entry(3, 4, -2, 5), entry(1, 2, 4, 6)];
    same(
        &rt,
        "entries",
        solution.entries.as_slice(),
        wanted.as_slice(),
    );
    Ok(())
}

#[test]
fn a_solution_that_was_written_knows_its_new_lines(rt: HostRuntime) -> Result<(), Fail> {
    let mut written = MemorySink::new(rt.alloc());
    write_solution(&scattered(rt.alloc())?, &mut written)?;
    let list = Vec::new(rt.alloc());
    let again = read_solution_into(rt.alloc(), list, &mut MemorySource::new(written.bytes()))?;
    let found = (again.value, again.value_line);
    same(&rt, "value and its line", found, (6, 1));
    let wanted = [entry(1, 2, 4, 2), entry(3, 4, -2, 3), entry(1, 2, 4, 4)];
    same(&rt, "entries", again.place.as_slice(), wanted.as_slice());
    Ok(())
}

#[test]
fn open_solutions_are_written_as_they_are(rt: HostRuntime) -> Result<(), Fail> {
    let solution = Solution {
        value: i128::MIN,
        value_line: 0,
        entries: [entry(0, u32::MAX, i64::MIN, 0)].to_vec(rt.alloc())?,
    };
    let mut sink = MemorySink::new(rt.alloc());
    write_solution(&solution, &mut sink)?;
    let wanted =
        b"s -170141183460469231731687303715884105728\nf 0 4294967295 -9223372036854775808\n".as_slice();
    holds(&rt, "the text", sink.bytes() == wanted);
    Ok(())
}

/// Two nodes of 300.
fn cut(alloc: Global) -> Result<Cut, Memory> {
    let mut cut = Cut::new(alloc, 300);
    cut.add(300)?;
    cut.add(1)?;
    Ok(cut)
}

#[test]
fn a_cut_has_the_nodes_that_were_put_in(rt: HostRuntime) -> Result<(), Fail> {
    let cut = cut(rt.alloc())?;
    same(&rt, "nodes", cut.nodes(), 300);
    for id in [0, 2, 255, 256, 299, 301, u32::MAX] {
        holds(&rt, "a node outside", !cut.contains(id));
    }
    holds(&rt, "a node inside", cut.contains(1) && cut.contains(300));
    let mut sink = MemorySink::new(rt.alloc());
    write_cut(&cut, &mut sink)?;
    let wanted = b"p cut 300 2\nu 1\nu 300\n".as_slice();
    holds(&rt, "the text", sink.bytes() == wanted);
    Ok(())
}

/// A potential that is set twice, and one that is set to 0.
fn potentials(alloc: Global) -> Result<Potentials, Memory> {
    let mut potentials = Potentials::new(alloc, 300);
    potentials.set(1, 5)?;
    potentials.set(1, -5)?;
    potentials.set(2, 0)?;
    Ok(potentials)
}

#[test]
fn potentials_are_those_that_were_set(rt: HostRuntime) -> Result<(), Fail> {
    let potentials = potentials(rt.alloc())?;
    same(&rt, "nodes", potentials.nodes(), 300);
    let found = (potentials.of(1), potentials.of(2), potentials.of(301));
    same(&rt, "potentials", found, (-5, 0, 0));
    let mut sink = MemorySink::new(rt.alloc());
    write_potentials(&potentials, &mut sink)?;
    let wanted = b"p pot 300 1\ny 1 -5\n".as_slice();
    holds(&rt, "the text", sink.bytes() == wanted);
    Ok(())
}

/// Blocks with the radius 8, without one, and with 0.
const BLOCKS: &[u8] = b"p dist 4 3\nt 1 2 8\nd 2 5 1\nd 3 -7 2\nt 2 1\nd 3 1000 2\nt 3 0 0\n";

fn labels(alloc: Global) -> Result<Labels, ReadError> {
    read_labels(alloc, &mut MemorySource::new(BLOCKS))
}

/// Blocks and nodes, each with its distance.
static DISTANCES: [(usize, u32, Option<i128>); 9] = [
    (0, 1, Some(0)),
    (0, 2, Some(5)),
    (0, 3, Some(-7)),
    (0, 4, None),
    (0, 0, None),
    (1, 3, Some(1000)),
    (2, 3, Some(0)),
    (3, 4, None),
    (usize::MAX, u32::MAX, None),
];

#[test]
fn labels_are_those_of_the_text(rt: HostRuntime) -> Result<(), Fail> {
    let labels = labels(rt.alloc())?;
    same(&rt, "nodes", labels.nodes(), 4);
    for &(block, id, dist) in &DISTANCES {
        same(&rt, "a distance", labels.label(block, id), dist);
    }
    let mut sink = MemorySink::new(rt.alloc());
    write_labels(&labels, &mut sink)?;
    holds(&rt, "the text", sink.bytes() == BLOCKS);
    Ok(())
}

/// Tests a block's source, radius and number of labels.
fn is_block(rt: &impl Abort, block: &Block, source: u32, radius: Option<i128>, count: usize) {
    same(rt, "source", block.source(), source);
    same(rt, "radius", block.radius(), radius);
    same(rt, "labels", block.labels().len(), count);
}

/// Tests the labels of the first block, by look-ups and in order.
fn has_labels(rt: &impl Abort, block: &Block) {
    let labels = block.labels();
    let (dist, id, pred) = (5, 2, 1);
    same(
        rt,
        "the first",
        labels.first(),
        Some(Label { dist, id, pred }),
    );
    same(rt, "after the last", labels.get(2), None);
    holds(rt, "some", !labels.is_empty());
    holds(rt, "short", labels.is_short());
    let mut last = 0;
    for label in labels {
        last = label.id;
    }
    same(rt, "the last", last, 3);
    same(rt, "the first again", labels.iter().next(), labels.first());
}

#[test]
fn blocks_are_those_of_the_text(rt: HostRuntime) -> Result<(), Fail> {
    let labels = labels(rt.alloc())?;
    let [first, second, third] = labels.blocks() else {
        return Err(Fail::from("other blocks"));
    };
    is_block(&rt, first, 1, Some(8), 2);
    is_block(&rt, second, 2, None, 1);
    is_block(&rt, third, 3, Some(0), 0);
    has_labels(&rt, first);
    Ok(())
}

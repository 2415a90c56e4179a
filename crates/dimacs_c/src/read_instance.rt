//! Reading the texts of instances into arrays.

ghost use Rattle.std.specs.Prelude.{codes};
ghost use Rattle.dimacs_fill.specs.{GraphFilled.{ReadsGraphInto}, MaxFilled.{ReadsMaxInto}, MinFilled.{ReadsMinInto}};
ghost use Rattle.dimacs_c.specs.{Calls.{handed}, Reading.{AnswersRead, SetsGraph, SetsMax, SetsMin}};

use crate::reading::{end_read, end_unread};
use dimacs_fill::{read_graph_into, read_max_into, read_min_into};
use dimacs_lines::MemorySource;
use std::alloc::Global;

/// Reads a maximum flow instance.
#[unsafe(no_mangle)]
pub extern "C" fn dimacs_read_max(
    alloc: Global,
    text: &[u8],
    out: &mut [u8],
    needed: &mut usize,
    nodes: &mut u32,
    source: &mut u32,
    sink: &mut u32,
    tails: &mut [u32],
    heads: &mut [u32],
    caps: &mut [i64],
    arcs: &mut usize,
) -> u32
    ensures { AnswersRead (ReadsMaxInto text.now (tails.old, tails.new) (heads.old, heads.new) (caps.old, caps.new))
        (SetsMax nodes.new source.new sink.new arcs.new) (codes "instance") result (handed out.old out.new needed.new) }
{
    match read_max_into(alloc, &mut MemorySource::new(text), tails, heads, caps) {
        Ok(sizes) => {
            *nodes = sizes.nodes;
            *source = sizes.source;
            *sink = sizes.sink;
            *arcs = sizes.arcs as usize;
            end_read(needed)
        }
        Err(error) => {
            *nodes = 0;
            *source = 0;
            *sink = 0;
            *arcs = 0;
            end_unread(alloc, "instance", error, out, needed)
        }
    }
}

/// Reads a minimum cost flow instance.
#[unsafe(no_mangle)]
pub extern "C" fn dimacs_read_min(
    alloc: Global,
    text: &[u8],
    out: &mut [u8],
    needed: &mut usize,
    nodes: &mut u32,
    tails: &mut [u32],
    heads: &mut [u32],
    lows: &mut [i64],
    caps: &mut [i64],
    costs: &mut [i64],
    arcs: &mut usize,
    supplies: &mut [i64],
    supplies_needed: &mut usize,
) -> u32
    ensures { AnswersRead (ReadsMinInto text.now (tails.old, tails.new) (heads.old, heads.new) (lows.old, lows.new) (caps.old, caps.new)
        (costs.old, costs.new) (supplies.old, supplies.new))
        (SetsMin nodes.new arcs.new supplies_needed.new) (codes "instance") result (handed out.old out.new needed.new) }
{
    let read = read_min_into(
        alloc,
        &mut MemorySource::new(text),
        tails,
        heads,
        lows,
        caps,
        costs,
        supplies,
    );
    match read {
        Ok(sizes) => {
            *nodes = sizes.nodes;
            *arcs = sizes.arcs as usize;
            *supplies_needed = sizes.nodes as usize;
            end_read(needed)
        }
        Err(error) => {
            *nodes = 0;
            *arcs = 0;
            *supplies_needed = 0;
            end_unread(alloc, "instance", error, out, needed)
        }
    }
}

/// Reads a graph.
#[unsafe(no_mangle)]
pub extern "C" fn dimacs_read_graph(
    alloc: Global,
    text: &[u8],
    out: &mut [u8],
    needed: &mut usize,
    nodes: &mut u32,
    tails: &mut [u32],
    heads: &mut [u32],
    weights: &mut [i64],
    arcs: &mut usize,
) -> u32
    ensures { AnswersRead (ReadsGraphInto text.now (tails.old, tails.new) (heads.old, heads.new) (weights.old, weights.new))
        (SetsGraph nodes.new arcs.new) (codes "instance") result (handed out.old out.new needed.new) }
{
    match read_graph_into(alloc, &mut MemorySource::new(text), tails, heads, weights) {
        Ok(sizes) => {
            *nodes = sizes.nodes;
            *arcs = sizes.arcs as usize;
            end_read(needed)
        }
        Err(error) => {
            *nodes = 0;
            *arcs = 0;
            end_unread(alloc, "instance", error, out, needed)
        }
    }
}

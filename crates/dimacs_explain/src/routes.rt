//! Why distances are right: a route for each, with its weights.

ghost use Rattle.std.specs.Prelude.{IfSome};
ghost use Rattle.dimacs_explain.specs.inside.Routes.{IsFarthest};
ghost use Rattle.dimacs_facts.specs.Blocks.{IsBlockOf};
ghost use Rattle.dimacs_judging.specs.Labels.{AreDistances};

use crate::facts::{
    write_alone, write_farthest_of, write_no_walk, write_others_unreached, write_shortest,
};
use crate::sums::{SHOWN, Sum};
use dimacs_claims::{Block, Label, Labels};
use dimacs_facts::{block_from, is_alone, others_unreached, unreached_from};
use dimacs_instance::{Graph, Queries};
use dimacs_lines::Memory;
use dimacs_network::Network;
use dimacs_quote::Value::Node;
use dimacs_quote::{Prose, say};
use std::alloc::Global;

/// The most routes that are shown.
const ROUTES: usize = 10;

/// The most nodes that are shown beside a source that reaches them, and the most sources of blocks.
pub(crate) const REACHED: usize = 5;

/// The ends of a route: those of the query with this index; without queries, of the block. Without a second end it leads
/// to the farthest node.
fn ends_at(queries: &Queries, labels: &Labels, k: usize) -> Option<(u32, Option<u32>)> {
    match queries {
        Queries::Pairs(pairs) if !pairs.is_empty() => {
            pairs.get(k).map(|&(from, to)| (from, Some(to)))
        }
        Queries::Sources(ids) if !ids.is_empty() => ids.get(k).map(|id| (*id, None)),
        _ => labels.blocks().get(k).map(|block| (block.source(), None)),
    }
}

/// The label with the greatest distance; none if no node but the source has a label.
fn farthest(block: &Block) -> Option<Label>
    ensures { IfSome result (IsFarthest block.now) }
{
    let labels = block.labels();
    let mut farthest = labels.first()?;
    for place in 0..labels.len() {
        let label = labels.at(place);
        if label.dist > farthest.dist {
            farthest = label;
        }
    }
    Some(farthest)
}

/// The labels on the route to a node, from the source's successor on. Each comes after that of its PRED.
fn route_to(alloc: Global, block: &Block, to: u32) -> Result<Vec<Label>, Memory> {
    let (labels, mut route, mut node) = (block.labels(), Vec::new(alloc), to);
    for place in (0..labels.len()).rev() {
        if let Some(label) = labels.get(place)
            && label.id == node
        {
            route.push(label)?;
            node = label.pred;
        }
    }
    route.reverse();
    Ok(route)
}

/// Explains distances by labels that pass the judge's tests: of each pair that is asked for, of the farthest node
/// from each source that is, or, without queries, of the farthest in each block. A label has this name.
pub(crate) fn explain_distances<N: Network>(
    out: &mut Prose,
    graph: &Graph<N>,
    queries: &Queries,
    labels: &Labels,
    name: &str,
) -> Result<(), Memory>
    requires { AreDistances graph.now.arcs labels.now.blocks }
{
    let mut has_route = false;
    for k in 0..ROUTES {
        if let Some((from, to)) = ends_at(queries, labels, k)
            && let Some(block) = block_from(graph, labels, from)
        {
            has_route |= match to {
                Some(to) => write_pair(out, graph, labels, block, to)?,
                None => write_farthest(out, graph, labels, block)?,
            };
        }
    }
    let count = match queries.len() {
        0 => labels.blocks().len(),
        asked => asked,
    };
    if count == 0 {
        say!(out; "no distance is claimed: there is no block\n");
    }
    if count > ROUTES {
        say!(out; "..\n");
    }
    if has_route {
        write_shortest(out, graph, labels, name);
    }
    Ok(())
}

/// Writes the route to a node, or why there is none. Returns whether there is one.
fn write_pair<N: Network>(
    out: &mut Prose,
    graph: &Graph<N>,
    labels: &Labels,
    block: &Block,
    to: u32,
) -> Result<bool, Memory>
    requires { AreDistances graph.now.arcs labels.now.blocks }
{
    let source = block.source();
    if to == source {
        say!(out; "{} to itself, without an arc: 0\n", Node(to));
        return Ok(true);
    }
    let route = route_to(out.alloc, block, to)?;
    if !route.is_empty() {
        write_route(out, source, &route);
        return Ok(true);
    }
    if let Some(it) = unreached_from(graph, labels, source, to) {
        write_no_walk(out, graph, to, it);
        if it.radius.is_none() {
            write_reached(out, block);
        }
    }
    Ok(false)
}

fn write_reached(out: &mut Prose, block: &Block) {
    let labels = block.labels();
    say!(out; ", {}: {}", labels.len().saturating_add(1) as u64, Node(block.source()));
    for label in labels.into_iter().take(REACHED) {
        say!(out; " {}", Node(label.id));
    }
    say!(out; if labels.len() > REACHED { " ..\n" } else { "\n" });
}

/// Writes the route to the node with the greatest label. Returns whether there is one.
fn write_farthest<N: Network>(
    out: &mut Prose,
    graph: &Graph<N>,
    labels: &Labels,
    block: &Block,
) -> Result<bool, Memory>
    requires { IsBlockOf graph.now.arcs block.now }
{
    let Some(farthest) = farthest(block) else {
        if is_alone(graph, block) {
            write_alone(out, graph, block);
        }
        return Ok(false);
    };
    write_farthest_of(out, block, farthest);
    let route = route_to(out.alloc, block, farthest.id)?;
    write_route(out, block.source(), &route);
    let count = block.labels().len();
    if count.saturating_add(1) < labels.nodes() as usize && others_unreached(graph, block) {
        write_others_unreached(out, graph, block);
    }
    Ok(true)
}

/// Writes the first nodes of a route, the last, and the sum of the weights.
fn write_route(out: &mut Prose, source: u32, route: &[Label]) {
    let mut weights = Sum::new(out.alloc);
    let mut before = 0i128;
    say!(out; "{}", Node(source));
    let last = route.len().saturating_sub(1);
    for (k, label) in route.iter().enumerate() {
        if weights.shows_next() || k == last {
            say!(out; " -> {}", Node(label.id));
        } else if weights.count == SHOWN {
            say!(out; " -> ..");
        }
        weights.add(Some(label.dist.saturating_sub(before)));
        before = label.dist;
    }
    say!(out; ": ");
    weights.write_to(out);
    say!(out; "\n");
}

//! The search for the lightest walks from a source.

ghost use Rattle.std.specs.Prelude.{◌≡◌, ◌+ℤ◌, ℕ, List, Contains, Some, IfOk, IfSome, OnOk};
ghost use Rattle.dimacs_facts.specs.{declared.walks.Walk.{Walk}, Walks.{AreWalks, AreWalksFrom}};
ghost use Rattle.dimacs_network.specs.{AdjacencyLists.{AreAdjacencyLists}, declared.network.ArcView.{ArcView}};
ghost use Rattle.dimacs_network.specs.declared.adjacency_lists.Side.TheVariants.{Tail};
ghost use Rattle.std.specs.FinMap as map;

use crate::cycle::far_back;
use crate::least::{are_least, with_arc};
use crate::steps::Steps;
use crate::walks::{Walk, Walks};
use dimacs_lines::Memory;
use dimacs_network::{AdjacencyLists, ArcView, Network, NodeMap, Side};
use std::alloc::Global;

/// A round of a search.
#[derive(Drop)]
struct Round {
    number: u32,
    /// The nodes whose walks changed in it, each once.
    changed: Vec<u32>,
}

/// Walks from the source, made lighter until they are least, a cycle of negative weight is found, or no steps are left.
pub fn walks_from<N: Network>(
    alloc: Global,
    network: &N,
    source: u32,
    steps: &mut Steps,
) -> Result<Walks, Memory>
    ensures { IfOk result (λ walks. AreWalksFrom (N.list network.now) source walks) }
{
    let leaving = AdjacencyLists::new(alloc, network, Side::Tail)?;
    walks_along(alloc, network, &leaving, source, steps)
}

/// The same by the lists of the arcs that leave each node.
pub(crate) fn walks_along<N: Network>(
    alloc: Global,
    network: &N,
    leaving: &AdjacencyLists,
    source: u32,
    steps: &mut Steps,
) -> Result<Walks, Memory>
    requires { AreAdjacencyLists Tail (N.list network.now) leaving.now }
    ensures { IfOk result (λ walks. AreWalksFrom (N.list network.now) source walks) }
{
    let mut by_node = NodeMap::new(alloc);
    let (weight, number) = (0, 0);
    by_node.set(
        source,
        Walk {
            weight,
            last: None,
            round: number,
        },
    )?;
    let mut last = Round {
        number,
        changed: vec![in alloc; source]?,
    };
    let most_back = network.nodes().min(network.arcs().saturating_add(1));
    let (mut on_cycle, mut looked) = (None, steps.left());
    for _round in 0..u32::MAX {
        if last.changed.is_empty() || on_cycle.is_some() || steps.left() == 0 {
            break;
        }
        last = lighten(alloc, network, leaving, &mut by_node, &last, steps)?;
        // A look costs as much as the rounds since the last one.
        if steps.left().saturating_add(most_back) <= looked {
            on_cycle = far_back(network, &by_node, last.changed.last().copied(), most_back);
            looked = steps.left();
        }
    }
    let are_least = steps.take(network.arcs()) && are_least(network, &by_node, source);
    Ok(Walks {
        by_node,
        are_least,
        on_cycle,
    })
}

/// Makes walks lighter by the arcs that leave the nodes whose walks changed in the last round.
fn lighten<N: Network>(
    alloc: Global,
    network: &N,
    leaving: &AdjacencyLists,
    walks: &mut NodeMap<Walk>,
    last: &Round,
    steps: &mut Steps,
) -> Result<Round, Memory>
    requires { AreAdjacencyLists Tail (N.list network.now) leaving.now }
    ensures { OnOk result ((s : ℕ) → AreWalks (N.list network.now) s walks.old → AreWalks (N.list network.now) s walks.new) }
{
    let (number, changed) = (last.number.saturating_add(1), Vec::new(alloc));
    let mut round = Round { number, changed };
    for node in last.changed.iter() {
        lighten_from(network, leaving, walks, *node, &mut round, steps)?;
    }
    Ok(round)
}

/// Makes walks lighter by the arcs that leave a node, as long as steps are left.
fn lighten_from<N: Network>(
    network: &N,
    leaving: &AdjacencyLists,
    walks: &mut NodeMap<Walk>,
    node: u32,
    round: &mut Round,
    steps: &mut Steps,
) -> Result<(), Memory>
    requires { AreAdjacencyLists Tail (N.list network.now) leaving.now }
    ensures { OnOk result ((s : ℕ) → AreWalks (N.list network.now) s walks.old → AreWalks (N.list network.now) s walks.new) }
{
    let mut next = leaving.last(node);
    while next > 0 {
        if !steps.take(1) {
            break;
        }
        let index = next - 1;
        let arc = network.arc(index);
        if lighten_by(walks, arc, index, round.number)? {
            round.changed.push(arc.head)?;
        }
        next = leaving.before(index);
    }
    Ok(())
}

/// Makes the walk to an arc's head lighter if the arc, which has this index, allows it. Returns whether it is the first
/// change of that walk in this round.
fn lighten_by(
    walks: &mut NodeMap<Walk>,
    arc: ArcView,
    index: u32,
    round: u32,
) -> Result<bool, Memory>
    ensures { OnOk result ((g : List ArcView) (s : ℕ) → Contains g arc → AreWalks g s walks.old → AreWalks g s walks.new) }
{
    let Some(weight) = lighter(walks, arc) else {
        return Ok(false);
    };
    let is_first = walks.get(arc.head).is_none_or(|it| it.round != round);
    let last = Some(index);
    walks.set(
        arc.head,
        Walk {
            weight,
            last,
            round,
        },
    )?;
    Ok(is_first)
}

/// The weight of the walk to the arc's tail with the arc, if it is less than that of the walk to its head.
fn lighter(walks: &NodeMap<Walk>, arc: ArcView) -> Option<i128>
    ensures { IfSome result (λ weight. (w : Walk) × (map.get walks.now arc.tail ≡ Some w) × (weight ≡ (w.weight +ℤ arc.cost))) }
{
    let tail = walks.get(arc.tail)?;
    let weight = with_arc(tail, arc)?;
    match walks.get(arc.head) {
        Some(head) if head.weight <= weight => None,
        _ => Some(weight),
    }
}

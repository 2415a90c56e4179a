//! Potentials that show that a flow costs least, or a cycle of residual arcs that makes it cheaper.
//!
//! A residual arc leads along an arc that can carry more, at its cost, or back along one that can carry less, at the
//! negated cost. Distances, negated, are slack potentials if no residual arc can lower one. They are computed in four
//! stages, any of which may be the last:
//!
//! 1. An arc that can carry both more and less fixes the difference of its ends' distances. Nodes joined by such arcs
//!    form a group. A node has a shift in its group, and the group has a distance.
//! 2. The other residual arcs are links between groups. Rounds over all links, forth and back, lower the distances.
//! 3. If that would take many rounds, a group with only one link in, or out, is joined to the link's other end.
//! 4. Label correcting: all groups are queued, later those that were lowered, and the links out of each are relaxed.
//!    The tree of the links that lowered last is kept. If a group is lowered, its subtree is lowered with it, or leaves
//!    the tree until it is reached again. A link that would lower a group from within its own subtree closes a cycle.

mod claim;
mod cycle;
mod groups;
mod join;
mod links;
mod listing;
mod queue;
mod rounds;
mod search;
mod step;
mod tight;
mod tree;

use crate::number::Number;
use crate::potentials::claim::Claim;
use crate::potentials::cycle::{cycle_over, cycle_within};
use crate::potentials::groups::{GroupPlaces, Groups};
use crate::potentials::join::{Joints, join_all};
use crate::potentials::links::{Link, all_links, joined_links};
use crate::potentials::listing::Listing;
use crate::potentials::rounds::{Rounds, relax_in_rounds};
use crate::potentials::search::{SearchEnd, lower_all};
use crate::potentials::tree::Tree;
use crate::tables::member;
pub use claim::ResidualArc;
use dimacs_claims::Potentials;
use dimacs_instance::MinInstance;
use dimacs_lines::{Memory, WIDE};
use dimacs_network::Network;
use std::alloc::Global;

/// The likely answer about a flow.
#[derive(Drop)]
pub enum Guess {
    /// It costs least: these potentials are slack.
    Optimal(Potentials),
    /// It doesn't: these residual arcs form a cycle of negative cost. Each begins where the one before it ends, the
    /// first where the last ends.
    Cycle(Vec<ResidualArc>),
    /// It took too long. These potentials are a start for another method.
    GaveUp(Potentials),
}

/// How many links and groups the search may visit, for each arc and each node.
const BUDGET: u64 = 256;

/// Looks for potentials that are slack for a flow, or for a cycle that makes it cheaper. `amounts` are in the order of
/// the arcs, within their bounds. Takes memory for the arcs and for the nodes that have one.
pub fn guess_potentials<N: Network>(
    alloc: Global,
    instance: &MinInstance<N>,
    amounts: &[i64],
) -> Result<Guess, Memory> {
    let claim = Claim::new(alloc, instance, amounts)?;
    let cost_bits = claim.cost_bits();
    if let Some(guess) = tie_and_link::<N, i32>(alloc, &claim, cost_bits)? {
        return Ok(guess);
    }
    if let Some(guess) = tie_and_link::<N, i64>(alloc, &claim, cost_bits)? {
        return Ok(guess);
    }
    match tie_and_link::<N, i128>(alloc, &claim, cost_bits)? {
        Some(guess) => Ok(guess),
        None => Ok(Guess::GaveUp(Potentials::new(alloc, instance.network().nodes()))),
    }
}

/// Stages 1 and 2, then the others. None if a number isn't small.
fn tie_and_link<N: Network, V: Number>(
    alloc: Global,
    claim: &Claim<'_, N>,
    cost_bits: u64,
) -> Result<Option<Guess>, Memory> {
    if V::small_end().wide() <= i128::from(cost_bits) {
        return Ok(None);
    }
    let mut groups: Groups<V> = Groups::apart(alloc, claim.numbers.count())?;
    let tied = groups.tie_all(claim);
    let Some(places) = groups.into_places(alloc)? else {
        return Ok(None);
    };
    if !tied {
        return Ok(Some(Guess::Cycle(cycle_within(alloc, claim, &places)?)));
    }
    let Some(links) = all_links(alloc, claim, &places)? else {
        return Ok(Some(Guess::Cycle(cycle_within(alloc, claim, &places)?)));
    };
    let mut distances = vec![in alloc; V::of(0); places.groups as usize]?;
    match relax_in_rounds(&links, &mut distances) {
        Rounds::Suffice => {
            let potentials = potentials(alloc, claim, &places, &distances)?;
            return Ok(Some(Guess::Optimal(potentials)));
        }
        Rounds::Many => {}
        Rounds::Wide => return Ok(None),
    }
    drop(distances);
    join_and_correct(alloc, claim, places, links)
}

/// Stage 3.
fn join_and_correct<N: Network, V: Number>(
    alloc: Global,
    claim: &Claim<'_, N>,
    places: GroupPlaces<V>,
    links: Vec<Link<V>>,
) -> Result<Option<Guess>, Memory> {
    let joints = match join_all(alloc, &links, places.groups)? {
        Joints::Places(joints) => joints,
        Joints::Few => return correct_labels(alloc, claim, &places, links),
        Joints::Wide => return Ok(None),
    };
    let mut places = places;
    places.join(&joints);
    match joined_links(links, &joints) {
        Some(links) => correct_labels(alloc, claim, &places, links),
        None => Ok(Some(Guess::Cycle(cycle_within(alloc, claim, &places)?))),
    }
}

/// Stage 4.
fn correct_labels<N: Network, V: Number>(
    alloc: Global,
    claim: &Claim<'_, N>,
    places: &GroupPlaces<V>,
    links: Vec<Link<V>>,
) -> Result<Option<Guess>, Memory> {
    let listing = Listing::new(alloc, &links, places.groups)?;
    drop(links);
    let mut tree = Tree::new(alloc, places.groups)?;
    let size = u64::from(claim.network().arcs()) + u64::from(claim.numbers.count());
    let end = lower_all(alloc, &listing, &mut tree, size * BUDGET)?;
    drop(listing);
    if let SearchEnd::Cycle(groups) = &end {
        return Ok(Some(Guess::Cycle(cycle_over(alloc, claim, places, groups)?)));
    }
    if !tree.are_small {
        return Ok(None);
    }
    let potentials = potentials(alloc, claim, places, &tree.distances)?;
    Ok(Some(match end {
        SearchEnd::Optimal => Guess::Optimal(potentials),
        _ => Guess::GaveUp(potentials),
    }))
}

/// The distances, which are small, negated.
fn potentials<N: Network, V: Number>(
    alloc: Global,
    claim: &Claim<'_, N>,
    places: &GroupPlaces<V>,
    distances: &[V],
) -> Result<Potentials, Memory> {
    let mut potentials = Potentials::new(alloc, claim.instance.network().nodes());
    for number in 0..claim.numbers.count() {
        let place = places.of(number);
        let distance = member(distances, place.group, V::of(0));
        let value = distance.plus(place.shift).negated().wide();
        set_potential(&mut potentials, claim.numbers.id(number), value)?;
    }
    Ok(potentials)
}

/// Sets a potential that is 0 until now. Ignores an ID that is no node, and a value out of range.
pub(crate) fn set_potential(
    potentials: &mut Potentials,
    id: u32,
    value: i128,
) -> Result<(), Memory> {
    let is_node = 1 <= id && id <= potentials.nodes();
    if is_node && value != 0 && -WIDE <= value && value <= WIDE {
        potentials.set(id, value)?;
    }
    Ok(())
}

//! Links: residual arcs between groups.

use crate::number::Number;
use crate::potentials::claim::Claim;
use crate::potentials::groups::{GroupPlace, GroupPlaces};
use crate::potentials::listing::HasKey;
use crate::tables::{member, set_member};
use dimacs_lines::Memory;
use dimacs_network::{ArcView, Network};
use std::alloc::Global;

/// The distance of `to` is at most that of `from` plus `cost`.
#[derive(Clone, Copy)]
pub(crate) struct Link<V> {
    pub cost: V,
    pub from: u32,
    pub to: u32,
}

impl<V: Number> HasKey for Link<V> {
    #[inline(always)]
    fn key(&self) -> u32 {
        self.from
    }
}

impl<V: Number> Link<V> {
    /// None if the arc can carry both more and less, or neither.
    #[inline(always)]
    pub(crate) fn of<N: Network>(
        claim: &Claim<'_, N>,
        places: &GroupPlaces<V>,
        i: u32,
        arc: ArcView,
    ) -> Option<Link<V>> {
        let directions = claim.directions(i, arc);
        if directions.more == directions.less {
            return None;
        }
        let tail = places.of(claim.numbers.of(arc.tail));
        let head = places.of(claim.numbers.of(arc.head));
        let cost = V::of(arc.cost);
        if directions.more {
            Some(Link::between(tail, cost, head))
        } else {
            Some(Link::between(head, cost.negated(), tail))
        }
    }

    #[inline(always)]
    pub(crate) fn between(near: GroupPlace<V>, cost: V, far: GroupPlace<V>) -> Link<V> {
        Link {
            cost: near.shift.plus(cost).minus(far.shift),
            from: near.group,
            to: far.group,
        }
    }

    /// The same link after groups were joined.
    #[inline(always)]
    pub(crate) fn joined(self, joints: &GroupPlaces<V>) -> Link<V> {
        Link::between(joints.of(self.from), self.cost, joints.of(self.to))
    }

    #[inline(always)]
    pub(crate) fn is_within_group(&self) -> bool {
        self.from == self.to
    }

    /// Whether it is a loop that costs the difference of its ends' shifts.
    pub(crate) fn is_tight(&self) -> bool {
        self.is_within_group() && self.cost.is_zero()
    }

    /// Whether it closes a cycle of negative cost within a group.
    #[inline(always)]
    pub(crate) fn is_negative_loop(&self) -> bool {
        self.is_within_group() && self.cost.is_negative()
    }

    /// Returns whether that lowered the distance of `to`.
    #[inline(always)]
    fn relax(&self, distances: &mut [V]) -> bool {
        let distance = member(distances, self.from, V::of(0)).plus(self.cost);
        if !distance.is_below(member(distances, self.to, distance)) {
            return false;
        }
        set_member(distances, self.to, distance);
        true
    }
}

/// The links between groups. None if one within a group closes a cycle of negative cost.
pub(crate) fn all_links<N: Network, V: Number>(
    alloc: Global,
    claim: &Claim<'_, N>,
    places: &GroupPlaces<V>,
) -> Result<Option<Vec<Link<V>>>, Memory> {
    let network = claim.network();
    let mut links = Vec::with_capacity(alloc, network.arcs() as usize)?;
    for i in 0..network.arcs() {
        let Some(link) = Link::of(claim, places, i, network.arc(i)) else {
            continue;
        };
        if link.is_negative_loop() {
            return Ok(None);
        }
        if !link.is_within_group() {
            links.push(link)?;
        }
    }
    Ok(Some(links))
}

/// The same after groups were joined.
pub(crate) fn joined_links<V: Number>(
    links: Vec<Link<V>>,
    joints: &GroupPlaces<V>,
) -> Option<Vec<Link<V>>> {
    let mut links = links;
    let mut has_negative_loop = false;
    links.retain_mut(|link| {
        *link = link.joined(joints);
        has_negative_loop = has_negative_loop || link.is_negative_loop();
        !link.is_within_group()
    });
    if has_negative_loop {
        return None;
    }
    Some(links)
}

/// Relaxes all links once, in order. Returns how many lowered a distance.
pub(crate) fn round_forth<V: Number>(links: &[Link<V>], distances: &mut [V]) -> usize {
    let mut lowered: usize = 0;
    for link in links {
        if link.relax(distances) {
            lowered = lowered.wrapping_add(1);
        }
    }
    lowered
}

/// The same from the last link to the first.
pub(crate) fn round_back<V: Number>(links: &[Link<V>], distances: &mut [V]) -> usize {
    let mut lowered: usize = 0;
    for link in links.iter().rev() {
        if link.relax(distances) {
            lowered = lowered.wrapping_add(1);
        }
    }
    lowered
}

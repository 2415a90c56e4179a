//! Groups of nodes with known differences of distances: a union-find structure with shifts.

use crate::number::Number;
use crate::potentials::claim::Claim;
use crate::tables::{count_of, member, set_member};
use dimacs_lines::Memory;
use dimacs_network::Network;
use std::alloc::Global;

#[derive(Clone, Copy)]
pub(crate) struct GroupPlace<V> {
    /// The node's distance minus the group's.
    pub shift: V,
    pub group: u32,
}

/// The places of all nodes. Groups are numbered from 0.
#[derive(Drop)]
pub(crate) struct GroupPlaces<V> {
    places: Vec<GroupPlace<V>>,
    /// The number of groups.
    pub groups: u32,
}

/// Groups while they are joined, as trees. Each node has its parent and the shift from it; a root is its own parent.
#[derive(Drop)]
pub(crate) struct Groups<V> {
    parents: Vec<GroupPlace<V>>,
}

impl<V: Number> GroupPlaces<V> {
    #[inline(always)]
    pub(crate) fn of(&self, node: u32) -> GroupPlace<V> {
        place_of(&self.places, node)
    }

    pub(crate) fn nodes(&self) -> u32 {
        count_of(&self.places)
    }

    /// Replaces each group by the one that it was joined to.
    pub(crate) fn join(&mut self, joints: &GroupPlaces<V>) {
        for place in self.places.iter_mut() {
            let joint = joints.of(place.group);
            *place = GroupPlace {
                shift: place.shift.plus(joint.shift),
                group: joint.group,
            };
        }
        self.groups = joints.groups;
    }
}

impl<V: Number> Groups<V> {
    /// A group for each node.
    pub(crate) fn apart(alloc: Global, nodes: u32) -> Result<Groups<V>, Memory> {
        let mut parents = Vec::with_capacity(alloc, nodes as usize)?;
        for node in 0..nodes {
            parents.push(place_at(node))?;
        }
        Ok(Groups { parents })
    }

    /// The root of a node's group, and the node's shift from it. Halves the path: every second node is attached to its
    /// grandparent.
    #[inline(always)]
    pub(crate) fn find(&mut self, node: u32) -> GroupPlace<V> {
        let mut at = node;
        let mut sum = V::of(0);
        for _ in 0..u32::MAX {
            let first = place_of(&self.parents, at);
            let second = place_of(&self.parents, first.group);
            if second.group == first.group {
                return GroupPlace {
                    shift: sum.plus(first.shift),
                    group: first.group,
                };
            }
            let both = GroupPlace {
                shift: first.shift.plus(second.shift),
                group: second.group,
            };
            set_member(&mut self.parents, at, both);
            at = both.group;
            sum = sum.plus(both.shift);
        }
        GroupPlace {
            shift: sum,
            group: at,
        }
    }

    #[inline(always)]
    pub(crate) fn is_root(&self, node: u32) -> bool {
        place_of(&self.parents, node).group == node
    }

    /// Fixes the distance of `to` at that of `from` plus `cost`. False if another difference is known.
    pub(crate) fn tie(&mut self, from: u32, to: u32, cost: V) -> bool {
        let here = self.find(from);
        let there = self.find(to);
        let shift = here.shift.plus(cost).minus(there.shift);
        if here.group == there.group {
            return shift.is_zero();
        }
        let below = GroupPlace {
            shift,
            group: here.group,
        };
        set_member(&mut self.parents, there.group, below);
        true
    }

    /// Ties the ends of all arcs that can carry both more and less. False if one contradicts earlier ones.
    pub(crate) fn tie_all<N: Network>(&mut self, claim: &Claim<'_, N>) -> bool {
        let network = claim.network();
        for i in 0..network.arcs() {
            let arc = network.arc(i);
            let directions = claim.directions(i, arc);
            if directions.more && directions.less {
                let tail = claim.numbers.of(arc.tail);
                let head = claim.numbers.of(arc.head);
                if !self.tie(tail, head, V::of(arc.cost)) {
                    return false;
                }
            }
        }
        true
    }

    /// None if a shift isn't small.
    pub(crate) fn into_places(mut self, alloc: Global) -> Result<Option<GroupPlaces<V>>, Memory> {
        let nodes = count_of(&self.parents);
        let mut places = vec![in alloc; place_at(0); nodes as usize]?;
        let groups = self.number_roots(&mut places);
        for node in 0..nodes {
            let root = self.find(node);
            if !root.shift.is_small() {
                return Ok(None);
            }
            let own = GroupPlace {
                shift: root.shift,
                group: place_of(&places, root.group).group,
            };
            set_member(&mut places, node, own);
        }
        Ok(Some(GroupPlaces { places, groups }))
    }

    /// Numbers the groups at their roots. Returns how many there are.
    fn number_roots(&self, places: &mut [GroupPlace<V>]) -> u32 {
        let mut groups: u32 = 0;
        for node in 0..count_of(&self.parents) {
            if self.is_root(node) {
                set_member(places, node, place_at(groups));
                groups = groups.wrapping_add(1);
            }
        }
        groups
    }
}

/// Beyond the end, a node is a group of its own.
#[inline(always)]
fn place_of<V: Number>(places: &[GroupPlace<V>], node: u32) -> GroupPlace<V> {
    member(places, node, place_at(node))
}

/// The place of a group's root: shift 0.
#[inline(always)]
fn place_at<V: Number>(group: u32) -> GroupPlace<V> {
    GroupPlace {
        shift: V::of(0),
        group,
    }
}

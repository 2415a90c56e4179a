//! Joining groups with only one link in, or only one link out.

use crate::number::Number;
use crate::potentials::groups::{GroupPlaces, Groups};
use crate::potentials::links::Link;
use crate::tables::{member, set_member};
use dimacs_lines::Memory;
use std::alloc::Global;

/// The number of links into a group, or out of it, and the exclusive or of their indices: of one link, its index.
#[derive(Clone, Copy, Default)]
struct Degree {
    count: u32,
    index_xor: u32,
}

#[derive(Drop)]
struct Joining<'a, V> {
    links: &'a [Link<V>],
    groups: Groups<V>,
    into: Vec<Degree>,
    out: Vec<Degree>,
    /// Groups that may have only one link in, or out.
    todo: Vec<u32>,
    joined: u32,
    /// Whether the shifts that were looked at are small.
    are_small: bool,
}

/// What comes of joining groups.
#[derive(Drop)]
pub(crate) enum Joints<V> {
    Places(GroupPlaces<V>),
    /// Less than an eighth of the groups can be joined.
    Few,
    /// A shift isn't small.
    Wide,
}

/// Joins each group with only one link in, or out, to the link's other end. If slack potentials exist, then some of
/// them make the link tight.
pub(crate) fn join_all<V: Number>(
    alloc: Global,
    links: &[Link<V>],
    groups: u32,
) -> Result<Joints<V>, Memory> {
    let mut joining = Joining::new(alloc, links, groups)?;
    joining.count_links();
    for _ in 0..u64::MAX {
        let Some(group) = joining.todo.pop() else {
            break;
        };
        joining.join(group)?;
        if !joining.are_small {
            return Ok(Joints::Wide);
        }
    }
    if joining.joined < groups / 8 {
        return Ok(Joints::Few);
    }
    Ok(match joining.groups.into_places(alloc)? {
        Some(places) => Joints::Places(places),
        None => Joints::Wide,
    })
}

impl<'a, V: Number> Joining<'a, V> {
    fn new(alloc: Global, links: &'a [Link<V>], count: u32) -> Result<Joining<'a, V>, Memory> {
        let groups = Groups::apart(alloc, count)?;
        let into = vec![in alloc; Degree::default(); count as usize]?;
        let out = vec![in alloc; Degree::default(); count as usize]?;
        Ok(Joining {
            links,
            groups,
            into,
            out,
            todo: (0..count).collect(alloc)?,
            joined: 0,
            are_small: true,
        })
    }

    fn count_links(&mut self) {
        let mut number: u32 = 0;
        for link in self.links {
            count(&mut self.out, link.from, 1, number);
            count(&mut self.into, link.to, 1, number);
            number = number.wrapping_add(1);
        }
    }

    /// The only link into a group, or otherwise the only one out of it.
    fn only_link(&self, group: u32) -> Option<u32> {
        let into = member(&self.into, group, Degree::default());
        let out = member(&self.out, group, Degree::default());
        if into.count == 1 {
            Some(into.index_xor)
        } else if out.count == 1 {
            Some(out.index_xor)
        } else {
            None
        }
    }

    /// Joins a group to the other end of its only link, unless it was joined to another group.
    fn join(&mut self, group: u32) -> Result<(), Memory> {
        let Some(number) = self.only_link(group) else {
            return Ok(());
        };
        let Some(&link) = self.links.get(number as usize) else {
            return Ok(());
        };
        let from = self.groups.find(link.from).group;
        let to = self.groups.find(link.to).group;
        if from == to || from != group && to != group {
            return Ok(());
        }
        let back = self.other_link(group, number);
        self.groups.tie(link.from, link.to, link.cost);
        let place = self.groups.find(link.to);
        let root = place.group;
        self.are_small = place.shift.is_small();
        merge(&mut self.into, from, to, root);
        merge(&mut self.out, from, to, root);
        self.leave_out(root, number);
        if back != number && self.is_loop(back) {
            self.leave_out(root, back);
        }
        self.joined = self.joined.wrapping_add(1);
        self.todo.push(root)?;
        Ok(())
    }

    /// The other link of a group with one link in and one out; otherwise this one.
    fn other_link(&self, group: u32, number: u32) -> u32 {
        let into = member(&self.into, group, Degree::default());
        let out = member(&self.out, group, Degree::default());
        if into.count == 1 && out.count == 1 {
            into.index_xor ^ out.index_xor ^ number
        } else {
            number
        }
    }

    fn is_loop(&mut self, number: u32) -> bool {
        match self.links.get(number as usize) {
            Some(&link) => self.groups.find(link.from).group == self.groups.find(link.to).group,
            None => false,
        }
    }

    /// Stops counting a loop.
    fn leave_out(&mut self, group: u32, number: u32) {
        count(&mut self.into, group, -1, number);
        count(&mut self.out, group, -1, number);
    }
}

/// Counts a link, or stops counting it if `change` is -1.
#[inline(always)]
fn count(degrees: &mut [Degree], group: u32, change: i32, link: u32) {
    if let Some(degree) = degrees.get_mut(group as usize) {
        degree.count = degree.count.wrapping_add_signed(change);
        degree.index_xor ^= link;
    }
}

fn merge(degrees: &mut [Degree], one: u32, other: u32, root: u32) {
    let a = member(degrees, one, Degree::default());
    let b = member(degrees, other, Degree::default());
    let sum = Degree {
        count: a.count.wrapping_add(b.count),
        index_xor: a.index_xor ^ b.index_xor,
    };
    set_member(degrees, root, sum);
}

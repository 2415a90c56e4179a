//! An index of the arcs of a network by their ends.

ghost use Rattle.std.specs.Prelude.{◌≤◌, List, length, IfOk, IsTrue};
ghost use Rattle.dimacs_network.specs.{declared.network.ArcView.{ArcView}, Arcs.{IsKthBetween}};
ghost use Rattle.dimacs_network.specs.{ArcOrder.{HasRoom, Indexes}, inside.ArcOrder.{IsFirst}};

use crate::arc_order::fill_in_order;
use crate::network::Network;
use crate::out_arc::{FEW, OutArc};
use crate::tail_starts::TailStarts;
use dimacs_lines::Memory;
use std::alloc::Global;

/// A forward star apart from its network: the arcs ordered by tail, then head.
///
/// `with_room_for` allocates all memory: at most 16 bytes an arc, 12 for the order and 4 for the starts. The system assigns a
/// page only when `fill` writes it; `fill` allocates nothing.
#[derive(Drop)]
pub struct ArcIndex {
    /// All arcs by tail, then head, then index.
    pub(crate) outs: Vec<OutArc>,
    /// A guess where the arcs of each group of tails begin. Only the time depends on it.
    pub(crate) starts: TailStarts,
}

impl ArcIndex {
    /// Allocates an empty index with room for the arcs of this network.
    pub fn with_room_for<N: Network>(alloc: Global, network: &N) -> Result<ArcIndex, Memory>
        ensures { IfOk result (HasRoom (N.list network.now)) }
    {
        Ok(ArcIndex {
            outs: Vec::with_capacity(alloc, network.arcs() as usize)?,
            starts: TailStarts::with_room(alloc, network.nodes(), network.arcs())?,
        })
    }

    /// Fills the index with the arcs of the network that `with_room_for` was called for.
    #[inline(never)]
    pub fn fill<N: Network>(&mut self, network: &N)
        requires { HasRoom (N.list network.now) self.old }
        ensures { Indexes (N.list network.now) self.new }
    {
        fill_in_order(network, &mut self.starts, &mut self.outs);
    }

    /// As `Network::find` of the network that filled the index.
    #[inline(always)]
    pub fn find(&self, tail: u32, head: u32, k: u32) -> Option<u32>
        ensures { (arcs : List ArcView) → Indexes arcs self.now → IsKthBetween arcs tail head k result }
    {
        let first = self.first(tail, head);
        let out = self.outs.get(first + k as usize)?;
        if out.tail == tail && out.head == head {
            Some(out.index)
        } else {
            None
        }
    }

    /// The first place whose arc doesn't come before all arcs with these ends. A guess is tested: a wrong one costs
    /// only time.
    #[inline(always)]
    fn first(&self, tail: u32, head: u32) -> usize
        ensures inside { result ≤ length self.now.outs.items }
        ensures first { (arcs : List ArcView) → Indexes arcs self.now → IsFirst self.now.outs.items tail head result }
    {
        let guess = self.guess(tail, head);
        if self.is_first(tail, head, guess) {
            guess
        } else {
            self.outs
                .partition_point(|out| out.is_before_ends(tail, head))
        }
    }

    /// Whether `place` is that first place.
    #[inline(always)]
    fn is_first(&self, tail: u32, head: u32, place: usize) -> bool
        requires { place ≤ length self.now.outs.items }
        ensures { (arcs : List ArcView) → Indexes arcs self.now → IsTrue result → IsFirst self.now.outs.items tail head place }
    {
        if place > 0 && !self.outs[place - 1].is_before_ends(tail, head) {
            return false;
        }
        if place < self.outs.len() && self.outs[place].is_before_ends(tail, head) {
            return false;
        }
        true
    }

    /// A guess for that place: right if `starts` is.
    #[inline(always)]
    fn guess(&self, tail: u32, head: u32) -> usize
        ensures { result ≤ length self.now.outs.items }
    {
        let range = self.starts.range_of(tail, self.outs.len());
        let outs = &self.outs[range.from..range.to];
        range.from
            + if outs.len() <= FEW {
                count_before(outs, tail, head)
            } else {
                outs.partition_point(|out| out.is_before_ends(tail, head))
            }
    }
}

/// How many of these arcs come before all arcs with these ends. For few arcs this is faster than a binary search.
#[inline(always)]
fn count_before(outs: &[OutArc], tail: u32, head: u32) -> usize
    ensures { result ≤ length outs.now }
{
    let mut count = 0;
    for place in 0..outs.len() {
        count += usize::from(outs[place].is_before_ends(tail, head));
    }
    count
}

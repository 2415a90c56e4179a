//! The flow that entries claim, placed on the arcs entry by entry.

ghost use Rattle.std.specs.Prelude.{◌≡◌, ◌≤◌, ◌<◌, ◌+◌, ◌++◌, ◌∷◌, [], List, Some, None, true, false, length, take, count_by, IfOk, IfErr, IfSome, IsOk, IsTrue, OnOk, OnErr, ◌↔◌};
ghost use Rattle.dimacs_claims.specs.declared.place.Entry.{Entry};
ghost use Rattle.dimacs_network.specs.{declared.network.ArcView.{ArcView}, Arcs.{joins, IsKthBetween, arc_at}};
ghost use Rattle.dimacs_judging.specs.{Claims.{Carries, entry_row}, Places.{ArePlaced, HavePlaced, placed_between}};
ghost use Rattle.dimacs_judging.specs.inside.Places.{IsIndexFor, PutsEntry, FindsFlow, left_order};
ghost use Rattle.dimacs_judging.specs.{inside.ArcChains.{IsFirstBetween}, Tests.{FirstOfRow}};

use crate::arc_chains::{ArcChains, GAP, has_ends};
use crate::flow::Flow;
use crate::verdict::Where;
use dimacs_claims::{Entry, Place};
use dimacs_lines::Memory;
use dimacs_network::{ArcIndex, Network};
use dimacs_records::Reason;
use std::alloc::Global;
use std::marker::Model;

/// The flow of the entries so far: an amount and a count for each arc.
///
/// The k-th entry with given ends belongs to the k-th arc with them. While entries come in the order of the arcs, each
/// belongs to the next arc, without a search. From the first one out of order on, entries are counted at the first arc
/// with their ends. While entries only leave arcs out, this is the next arc with these ends, unless an earlier one has
/// them. Then, or if an entry goes back, an index finds it.
#[derive(Drop)]
pub struct FlowPlaces<'a, N: Network> {
    network: &'a N,
    flow: Flow,
    /// At the first arc between two nodes, the number of entries between them; 0 if none came out of order. Empty before
    /// the first entry out of order: then most texts have none, and its memory is never touched.
    counts: Vec<u32>,
    /// The number of entries before the first one out of order.
    in_order: u32,
    out_of_order: bool,
    /// Chains of the arcs up to that of the last entry, while entries only leave arcs out.
    chains: Option<ArcChains>,
    /// Whether arcs are searched for by their ends.
    searched: bool,
    /// An index of the arcs, if the network has none itself. The first search fills it.
    index: Option<ArcIndex>,
    /// The first entry that fails. Nothing is counted or placed after it.
    refusal: Option<(Where, Reason)>,
    alloc: Global,
}

impl<'a, N: Network> Model for FlowPlaces<'a, N> {
    ghost use Rattle.std.specs.Prelude.{◌≡◌, ◌≤◌, false, length, vec_capacity};
    ghost use Rattle.dimacs_judging.specs.Claims.{Carries, entry_row};
    ghost use Rattle.dimacs_judging.specs.Places.{PlacesValue};
    ghost use Rattle.dimacs_judging.specs.inside.Places.{HaveRoom, IsIndexFor};
    ghost use Rattle.dimacs_judging.specs.inside.ArcChains.{AreChainedIf};

    ghost Value = { PlacesValue };

    ghost view = { λ p. record {
      arcs = N.list p.network.now;
      flow = p.flow;
      counts = p.counts.items;
      in_order = p.in_order;
      out_of_order = p.out_of_order;
      searched = p.searched;
      refusal = p.refusal;
    } };

    ghost invariant = { λ p. HaveRoom (record {
      arcs = N.list p.network.now;
      flow = p.flow;
      counts = p.counts.items;
      in_order = p.in_order;
      out_of_order = p.out_of_order;
      searched = p.searched;
      refusal = p.refusal;
    })
        × (p.out_of_order ≡ false → length (N.list p.network.now) ≤ vec_capacity p.counts)
        × IsIndexFor (N.list p.network.now) p.searched p.index
        × AreChainedIf (N.list p.network.now) p.chains };
}

impl<'a, N: Network> FlowPlaces<'a, N> {
    /// No entries yet. Allocates all memory that placing can't do without.
    pub fn new(alloc: Global, network: &'a N) -> Result<FlowPlaces<'a, N>, Memory>
        ensures network { IfOk result (λ places. places.arcs ≡ N.list network.now) }
        ensures empty { IfOk result (λ places. ArePlaced places []) }
    {
        let arcs = network.arcs();
        Ok(FlowPlaces {
            network,
            flow: Flow::zero(alloc, arcs)?,
            counts: Vec::with_capacity(alloc, arcs as usize)?,
            in_order: 0,
            out_of_order: false,
            chains: None,
            searched: false,
            index: room_for_index(alloc, network)?,
            refusal: None,
            alloc,
        })
    }

    /// Places one more entry. The first that fails is kept.
    #[inline(always)]
    pub(crate) fn put(&mut self, entry: Entry)
        ensures network { self.new.arcs ≡ self.old.arcs }
        ensures placed { (before : List Entry) → ArePlaced self.old before → ArePlaced self.new (before ++ entry ∷ []) }
    {
        if self.refusal.is_some() {
            return;
        }
        if let Err(reason) = self.put_on_arc(entry) {
            let place = Where::Solution {
                line: entry.line,
                field: 0,
            };
            self.refusal = Some((place, reason));
        }
    }

    /// The flow of the entries, or the first entry that fails.
    pub fn flow(&self) -> Result<&Flow, (Where, Reason)>
        ensures one_each { IfOk result (λ flow. length flow.now ≡ length self.now.arcs) }
        ensures carried { IfOk result (λ flow. (entries : List Entry) → ArePlaced self.now entries → Carries self.now.arcs entries flow.now) }
        ensures first { IfErr result (λ refusal. (entries : List Entry) → ArePlaced self.now entries
            → FirstOfRow (entry_row self.now.arcs entries) refusal.0 refusal.1) }
    {
        match self.refusal {
            None => Ok(&self.flow),
            Some(refusal) => Err(refusal),
        }
    }

    pub(crate) fn into_flow(self) -> Result<Flow, (Where, Reason)>
        ensures { (entries : List Entry) → ArePlaced self.entry entries → FindsFlow self.entry.arcs entries result }
    {
        match self.refusal {
            None => Ok(self.flow),
            Some(refusal) => Err(refusal),
        }
    }

    #[inline(always)]
    fn put_on_arc(&mut self, entry: Entry) -> Result<(), Reason>
        requires { self.old.refusal ≡ None }
        ensures network { self.new.arcs ≡ self.old.arcs }
        ensures refusal { self.new.refusal ≡ None }
        ensures puts { (before : List Entry) → HavePlaced self.old before → PutsEntry self.old.arcs before entry result self.new }
    {
        if self.is_next(entry) {
            self.flow.set(self.in_order as usize, entry.flow);
            self.in_order += 1;
            return Ok(());
        }
        self.put_out_of_order(entry)
    }

    /// Places an entry that is out of order, or comes after one that is.
    #[inline(never)]
    fn put_out_of_order(&mut self, entry: Entry) -> Result<(), Reason>
        requires { self.old.refusal ≡ None }
        ensures network { self.new.arcs ≡ self.old.arcs }
        ensures refusal { self.new.refusal ≡ None }
        ensures puts { (before : List Entry) → HavePlaced self.old before → PutsEntry self.old.arcs before entry result self.new }
    {
        self.leave_order(entry);
        if let Some(first) = self.next_first(entry) {
            self.flow.set(first as usize, entry.flow);
            self.counts[first as usize] = 1;
            return Ok(());
        }
        self.search();
        self.put_by_search(entry)
    }

    /// From now on entries are counted at their first arcs. Chains find these if the network has no index, and the
    /// entry's arc comes soon.
    #[inline]
    fn leave_order(&mut self, entry: Entry)
        ensures { self.new ≡ left_order self.old }
    {
        if !self.out_of_order {
            if self.index.is_some() && self.comes_soon(entry) {
                if let Ok(chains) = ArcChains::with_room_for(self.alloc, self.network) {
                    self.chains = Some(chains);
                }
            }
            // It has memory for them: this can't fail.
            let _ = self.counts.resize(self.network.arcs() as usize, 0);
            self.out_of_order = true;
        }
    }

    /// Whether one of the next `GAP` arcs has the ends of this entry. If not, it mostly goes back.
    fn comes_soon(&self, entry: Entry) -> bool {
        let end = self.in_order.saturating_add(GAP).min(self.network.arcs());
        for i in self.in_order..end {
            if has_ends(self.network.arc(i), entry) {
                return true;
            }
        }
        false
    }

    /// From now on arcs are found by their ends. The first call fills the index.
    #[inline]
    fn search(&mut self)
        ensures { self.new ≡ record self.old { searched = true } }
    {
        if !self.searched {
            self.chains = None;
            if let Some(index) = &mut self.index {
                index.fill(self.network);
            }
            self.searched = true;
        }
    }

    /// The first arc with the ends of this entry, if it is among the next ones and no earlier entry has them.
    #[inline(always)]
    fn next_first(&mut self, entry: Entry) -> Option<u32>
        requires { self.old.out_of_order ≡ true }
        ensures unchanged { self.new ≡ self.old }
        ensures first { IfSome result (λ arc. IsFirstBetween self.old.arcs entry.tail entry.head arc
            × (placed_between self.old entry.tail entry.head arc ≡ 0)) }
    {
        let first = match &mut self.chains {
            Some(chains) => chains.extend_to(self.network, entry, self.in_order)?,
            None => return None,
        };
        if first < self.in_order || self.counts[first as usize] > 0 {
            return None;
        }
        Some(first)
    }

    /// Whether all entries came in the order of the arcs, and this one has the ends of the next arc.
    #[inline(always)]
    fn is_next(&self, entry: Entry) -> bool
        ensures { IsTrue result
            → (self.now.out_of_order ≡ false) × (self.now.in_order < length self.now.arcs)
            × (joins entry.tail entry.head (arc_at self.now.arcs self.now.in_order) ≡ true) }
    {
        if self.out_of_order || self.in_order >= self.network.arcs() {
            return false;
        }
        let arc = self.network.arc(self.in_order);
        arc.tail == entry.tail && arc.head == entry.head
    }

    fn put_by_search(&mut self, entry: Entry) -> Result<(), Reason>
        requires out_of_order { self.old.out_of_order ≡ true }
        requires searched { self.old.searched ≡ true }
        requires no_refusal { self.old.refusal ≡ None }
        ensures network { self.new.arcs ≡ self.old.arcs }
        ensures refusal { self.new.refusal ≡ None }
        ensures puts { (before : List Entry) → HavePlaced self.old before → PutsEntry self.old.arcs before entry result self.new }
    {
        let Some(first) = self.find(entry, 0) else {
            return Err(Reason::UnknownArc);
        };
        let count = self.placed_count(entry, first);
        let Some(arc) = self.kth(entry, first, count) else {
            return Err(Reason::ArcTwice);
        };
        self.flow.set(arc as usize, entry.flow);
        self.counts[first as usize] = count + 1;
        Ok(())
    }

    /// The number of entries so far with the ends of this one; `first` is the first such arc.
    fn placed_count(&self, entry: Entry, first: u32) -> u32
        requires out_of_order { self.now.out_of_order ≡ true }
        requires searched { self.now.searched ≡ true }
        requires first { IsKthBetween self.now.arcs entry.tail entry.head 0 (Some first) }
        ensures { result ≡ placed_between self.now entry.tail entry.head first }
    {
        let counted = self.counts[first as usize];
        if counted > 0 {
            return counted;
        }
        if self.in_order <= first {
            return 0;
        }
        self.arcs_below(entry, self.in_order)
    }

    fn arcs_below(&self, entry: Entry, end: u32) -> u32
        requires searched { self.now.searched ≡ true }
        requires has_arc { 1 ≤ count_by (joins entry.tail entry.head) (take end self.now.arcs) }
        ensures { result ≡ count_by (joins entry.tail entry.head) (take end self.now.arcs) }
    {
        for k in 1..self.network.arcs() {
            match self.find(entry, k) {
                Some(arc) if arc < end => {}
                _ => return k,
            }
        }
        self.network.arcs()
    }

    /// The k-th arc, from 0, with the ends of this entry; `first` is the first.
    #[inline]
    fn kth(&self, entry: Entry, first: u32, k: u32) -> Option<u32>
        requires searched { self.now.searched ≡ true }
        requires first { IsKthBetween self.now.arcs entry.tail entry.head 0 (Some first) }
        ensures { IsKthBetween self.now.arcs entry.tail entry.head k result }
    {
        if k == 0 {
            Some(first)
        } else {
            self.find(entry, k)
        }
    }

    #[inline(always)]
    fn find(&self, entry: Entry, k: u32) -> Option<u32>
        requires { self.now.searched ≡ true }
        ensures { IsKthBetween self.now.arcs entry.tail entry.head k result }
    {
        match &self.index {
            Some(index) => index.find(entry.tail, entry.head, k),
            None => self.network.find(entry.tail, entry.head, k),
        }
    }
}

/// `place` always succeeds: the first entry that fails is kept, and without memory for chains, arcs are searched for.
impl<'a, N: Network> Place for FlowPlaces<'a, N> {
    ghost stands_for = { λ places entries. ArePlaced places entries };

    ghost Fixed = { List ArcView };

    ghost fixed = { λ places. places.arcs };

    #[inline(always)]
    fn place(&mut self, entry: Entry) -> Result<(), Memory>
        ensures always { IsOk result }
        ensures fixed { self.new.arcs ≡ self.old.arcs }
        ensures placed { OnOk result ((entries : List Entry) → ArePlaced self.old entries → ArePlaced self.new (entries ++ entry ∷ [])) }
        ensures unchanged { OnErr result ((entries : List Entry) → ArePlaced self.new entries ↔ ArePlaced self.old entries) }
    {
        self.put(entry);
        Ok(())
    }
}

/// Memory for an index, if the network has none itself.
fn room_for_index<N: Network>(alloc: Global, network: &N) -> Result<Option<ArcIndex>, Memory>
    ensures { IfOk result (λ index. IsIndexFor (N.list network.now) false index) }
{
    if network.is_indexed() {
        return Ok(None);
    }
    Ok(Some(ArcIndex::with_room_for(alloc, network)?))
}

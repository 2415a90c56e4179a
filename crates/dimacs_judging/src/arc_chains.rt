//! Chains of a network's first arcs, for entries that come in order but leave arcs out.

ghost use Rattle.std.specs.Prelude.{◌≡◌, ◌<◌, ◌≤◌, ◌+◌, ◌^◌, Some, true, IfOk, IfSome, IsTrue, OnOk, length};
ghost use Rattle.dimacs_network.specs.{declared.network.ArcView.{ArcView}, Arcs.{arc_at, joins}};
ghost use Rattle.dimacs_judging.specs.inside.ArcChains.{AreChained, IsFirstBetween, chain_of};

use dimacs_claims::Entry;
use dimacs_lines::Memory;
use dimacs_network::{ArcView, Network};
use std::alloc::Global;

/// How many arcs ahead the arc of an entry is looked for.
pub(crate) const GAP: u32 = 1000;

/// How many arcs there are for each chain.
const ARCS_A_CHAIN: u32 = 4;

/// How many arcs of its chain an arc is compared with at most.
const MOST_COMPARED: u32 = 16;

/// The first arcs of a network, in chains. Parallel arcs are in one chain, with few others.
#[derive(Drop)]
pub(crate) struct ArcChains {
    /// For each chain 1 + the index of its last arc; 0 for none.
    last: Vec<u32>,
    /// For each arc 1 + the index of the one before it in its chain; 0 for none.
    before: Vec<u32>,
    /// How many chains after a tail's those of the next tail begin.
    step: u32,
}

impl ArcChains {
    /// No arcs, and memory for those of a network: 5 to 6 bytes for each.
    pub(crate) fn with_room_for<N: Network>(alloc: Global, network: &N) -> Result<ArcChains, Memory>
        ensures { IfOk result (AreChained (N.list network.now)) }
    {
        let arcs = network.arcs();
        let chains = (arcs / ARCS_A_CHAIN).max(1);
        Ok(ArcChains {
            step: (chains / network.nodes().max(1)).max(1),
            last: vec![in alloc; 0u32; (chains as usize).next_power_of_two()]?,
            before: Vec::with_capacity(alloc, arcs as usize)?,
        })
    }

    /// Appends arcs up to the next one with the ends of this entry. Returns it if it is the first with these ends. It
    /// may be missed if it comes more than `GAP` arcs after these and `start`, or if its chain is long.
    #[inline]
    pub(crate) fn extend_to<N: Network>(
        &mut self,
        network: &N,
        entry: Entry,
        start: u32,
    ) -> Option<u32>
        requires { AreChained (N.list network.now) self.old }
        ensures chained { AreChained (N.list network.now) self.new }
        ensures first { IfSome result (IsFirstBetween (N.list network.now) entry.tail entry.head) }
    {
        let arcs = network.arcs();
        let from = self.before.len() as u32;
        let end = from.max(start).saturating_add(GAP).min(arcs);
        for i in from..end {
            self.append(network, i).ok()?;
            if has_ends(network.arc(i), entry) {
                return if self.is_first(network, entry, i) {
                    Some(i)
                } else {
                    None
                };
            }
        }
        None
    }

    #[inline(always)]
    fn append<N: Network>(&mut self, network: &N, i: u32) -> Result<(), Memory>
        requires chained { AreChained (N.list network.now) self.old }
        requires next { length self.old.before.items ≡ i }
        requires inside { i < length (N.list network.now) }
        requires index_fits { i + 1 < 2 ^ 32 }
        ensures chained { AreChained (N.list network.now) self.new }
        ensures one_more { OnOk result (length self.new.before.items ≡ i + 1) }
    {
        let chain = chain_of(network.arc(i), self.step, self.last.len());
        self.before.push(self.last[chain])?;
        self.last[chain] = i + 1;
        Ok(())
    }

    /// Whether this arc, which has the ends of the entry, is the first that has them. False if its chain is too long.
    #[inline(always)]
    fn is_first<N: Network>(&self, network: &N, entry: Entry, arc: u32) -> bool
        requires chained { AreChained (N.list network.now) self.now }
        requires arc { arc < length self.now.before.items }
        requires joins { joins entry.tail entry.head (arc_at (N.list network.now) arc) ≡ true }
        ensures { IsTrue result → IsFirstBetween (N.list network.now) entry.tail entry.head arc }
    {
        let mut before = self.before[arc as usize];
        for _ in 0..MOST_COMPARED {
            if before == 0 {
                return true;
            }
            if has_ends(network.arc(before - 1), entry) {
                return false;
            }
            before = self.before[(before - 1) as usize];
        }
        false
    }
}

/// The arc's chain. The chains of a tail are near one another, since its arcs often come together.
#[inline(always)]
fn chain_of(arc: ArcView, step: u32, chains: usize) -> usize
    ensures chain { result ≡ chain_of step chains arc }
    ensures inside { 1 ≤ chains → result < chains }
{
    let scattered = u64::from(arc.head) * 2_654_435_761 >> 20 & 4095;
    (u64::from(arc.tail) * u64::from(step) + scattered) as usize & chains.saturating_sub(1)
}

#[inline(always)]
pub(crate) fn has_ends(arc: ArcView, entry: Entry) -> bool
    ensures { result ≡ joins entry.tail entry.head arc }
{
    arc.tail == entry.tail && arc.head == entry.head
}

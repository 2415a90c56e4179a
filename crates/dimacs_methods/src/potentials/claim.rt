//! A flow that is claimed to cost least, and its residual arcs.

use crate::node_numbers::NodeNumbers;
use dimacs_instance::MinInstance;
use dimacs_lines::Memory;
use dimacs_network::{ArcView, Network, Side};
use std::alloc::Global;

/// It leads along an arc from its tail, or back from its head.
#[derive(Clone, Copy)]
pub struct ResidualArc {
    /// The index of the arc, from 0.
    pub arc: u32,
    /// The end at which it begins.
    pub side: Side,
}

/// Whether an arc can carry more, and less.
#[derive(Clone, Copy)]
pub(crate) struct ResidualDirections {
    pub more: bool,
    pub less: bool,
}

#[derive(Drop)]
pub(crate) struct Claim<'a, N: Network> {
    pub instance: &'a MinInstance<N>,
    /// In the order of the arcs.
    amounts: &'a [i64],
    pub numbers: NodeNumbers,
}

impl<'a, N: Network> Claim<'a, N> {
    pub(crate) fn new(
        alloc: Global,
        instance: &'a MinInstance<N>,
        amounts: &'a [i64],
    ) -> Result<Claim<'a, N>, Memory> {
        let numbers = NodeNumbers::of_ends(alloc, instance.network())?;
        Ok(Claim {
            instance,
            amounts,
            numbers,
        })
    }

    #[inline(always)]
    pub(crate) fn network(&self) -> &'a N {
        self.instance.network()
    }

    /// Whether arc `i` can carry more, and less; neither if it has no amount.
    #[inline(always)]
    pub(crate) fn directions(&self, i: u32, arc: ArcView) -> ResidualDirections {
        match self.amounts.get(i as usize) {
            Some(&amount) => ResidualDirections {
                more: amount < arc.cap,
                less: arc.low < amount,
            },
            None => ResidualDirections {
                more: false,
                less: false,
            },
        }
    }

    /// All bits that the absolute costs have.
    pub(crate) fn cost_bits(&self) -> u64 {
        let network = self.network();
        let mut bits: u64 = 0;
        for i in 0..network.arcs() {
            bits |= network.arc(i).cost.unsigned_abs();
        }
        bits
    }
}

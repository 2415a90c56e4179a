//! Steps: residual arcs between nodes, with their costs.

use crate::number::Number;
use crate::potentials::claim::{Claim, ResidualArc};
use crate::potentials::groups::GroupPlaces;
use crate::potentials::links::Link;
use crate::potentials::listing::HasKey;
use dimacs_lines::Memory;
use dimacs_network::{Network, Side};
use std::alloc::Global;

#[derive(Clone, Copy)]
pub(crate) struct Step<V> {
    pub cost: V,
    pub from: u32,
    pub to: u32,
    pub arc: ResidualArc,
}

/// Steps are grouped by their heads.
impl<V: Number> HasKey for Step<V> {
    #[inline(always)]
    fn key(&self) -> u32 {
        self.to
    }
}

impl<V: Number> Step<V> {
    /// All steps, in the order of the arcs.
    pub(crate) fn all<N: Network>(
        alloc: Global,
        claim: &Claim<'_, N>,
    ) -> Result<Vec<Step<V>>, Memory> {
        let network = claim.network();
        let mut steps = Vec::new(alloc);
        for i in 0..network.arcs() {
            let arc = network.arc(i);
            let directions = claim.directions(i, arc);
            let forth = Step {
                cost: V::of(arc.cost),
                from: claim.numbers.of(arc.tail),
                to: claim.numbers.of(arc.head),
                arc: ResidualArc {
                    arc: i,
                    side: Side::Tail,
                },
            };
            if directions.more {
                steps.push(forth)?;
            }
            if directions.less {
                steps.push(forth.reversed())?;
            }
        }
        Ok(steps)
    }

    fn reversed(self) -> Step<V> {
        Step {
            cost: self.cost.negated(),
            from: self.to,
            to: self.from,
            arc: ResidualArc {
                arc: self.arc.arc,
                side: Side::Head,
            },
        }
    }

    /// The same as a link between groups.
    pub(crate) fn link(&self, places: &GroupPlaces<V>) -> Link<V> {
        Link::between(places.of(self.from), self.cost, places.of(self.to))
    }
}

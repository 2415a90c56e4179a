//! Cycles of residual arcs with negative cost.

use crate::number::Number;
use crate::potentials::claim::{Claim, ResidualArc};
use crate::potentials::groups::GroupPlaces;
use crate::potentials::step::Step;
use crate::potentials::tight::Tight;
use crate::tables::{member, set_member};
use dimacs_lines::Memory;
use dimacs_network::Network;
use std::alloc::Global;

/// The cheapest step from a group to the next group of a cycle.
#[derive(Clone, Copy)]
struct Cheapest<V> {
    cost: V,
    next: u32,
    step: Option<Step<V>>,
}

/// A cycle over these groups: the cheapest step from each to the next, joined by tight steps within groups.
pub(crate) fn cycle_over<N: Network, V: Number>(
    alloc: Global,
    claim: &Claim<'_, N>,
    places: &GroupPlaces<V>,
    groups: &[u32],
) -> Result<Vec<ResidualArc>, Memory> {
    let none = Cheapest {
        cost: V::greatest(),
        next: u32::MAX,
        step: None,
    };
    let steps = Step::all(alloc, claim)?;
    let mut cheapest = vec![in alloc; none; places.groups as usize]?;
    set_next(&mut cheapest, groups, none);
    keep_cheapest(&mut cheapest, &steps, places);
    let mut chosen = Vec::with_capacity(alloc, groups.len())?;
    for group in groups {
        if let Some(step) = member(&cheapest, *group, none).step {
            chosen.push(step)?;
        }
    }
    close(alloc, steps, places, &chosen)
}

/// A cycle with one step within a group that costs less than the difference of its ends' shifts. Empty if there is
/// none.
pub(crate) fn cycle_within<N: Network, V: Number>(
    alloc: Global,
    claim: &Claim<'_, N>,
    places: &GroupPlaces<V>,
) -> Result<Vec<ResidualArc>, Memory> {
    let steps = Step::all(alloc, claim)?;
    let mut chosen = Vec::new(alloc);
    for step in &steps {
        if step.link(places).is_negative_loop() {
            chosen.push(*step)?;
            break;
        }
    }
    close(alloc, steps, places, &chosen)
}

fn set_next<V: Number>(cheapest: &mut [Cheapest<V>], groups: &[u32], none: Cheapest<V>) {
    let mut before = groups.last().copied().unwrap_or(0);
    for group in groups {
        let next = Cheapest {
            next: *group,
            ..none
        };
        set_member(cheapest, before, next);
        before = *group;
    }
}

fn keep_cheapest<V: Number>(
    cheapest: &mut [Cheapest<V>],
    steps: &[Step<V>],
    places: &GroupPlaces<V>,
) {
    for step in steps {
        let link = step.link(places);
        if let Some(best) = cheapest.get_mut(link.from as usize)
            && link.to == best.next
            && link.cost.is_below(best.cost)
        {
            best.cost = link.cost;
            best.step = Some(*step);
        }
    }
}

/// Joins the chosen steps into a cycle by tight steps within groups.
fn close<V: Number>(
    alloc: Global,
    steps: Vec<Step<V>>,
    places: &GroupPlaces<V>,
    chosen: &[Step<V>],
) -> Result<Vec<ResidualArc>, Memory> {
    let mut cycle = Vec::new(alloc);
    let Some(last) = chosen.last() else {
        return Ok(cycle);
    };
    let mut steps = steps;
    steps.retain(|step| step.link(places).is_tight());
    let mut tight = Tight::new(alloc, &steps, places.nodes())?;
    let mut at = last.to;
    for step in chosen {
        tight.connect(at, step.from, &mut cycle)?;
        cycle.push(step.arc)?;
        at = step.to;
    }
    Ok(cycle)
}

//! Flows of least cost.

use crate::augment::Augmenting;
use crate::number::Number;
use crate::potentials::set_potential;
use crate::problem::{MOST_MOVED, Problem};
use crate::residual::Residual;
use crate::scaling::Scaling;
use crate::simplex::{Simplex, block_size};
use dimacs_claims::Potentials;
use dimacs_instance::MinInstance;
use dimacs_lines::Memory;
use dimacs_network::Network;
use std::alloc::Global;

/// The amounts, in the order of the arcs, and potentials.
#[derive(Drop)]
pub struct LeastFlow {
    pub amounts: Vec<i64>,
    pub potentials: Potentials,
}

/// Finds a flow of least cost, and potentials that show it. If no flow is feasible, the result leaves the least excess.
///
/// Successive shortest paths come first, if few nodes have an excess and no cost is negative. Then comes the network
/// simplex, the fastest on most small instances. If that takes long, or seems to, cost scaling follows.
pub fn make_least_flow<N: Network>(
    alloc: Global,
    instance: &MinInstance<N>,
) -> Result<LeastFlow, Memory> {
    let problem = Problem::new(alloc, instance)?;
    if let Some(flow) = by_paths(alloc, &problem)? {
        return Ok(flow);
    }
    let by_simplex = if problem.is_narrow() {
        by_simplex::<N, i64>(alloc, &problem)?
    } else {
        by_simplex::<N, i128>(alloc, &problem)?
    };
    if let Some(flow) = by_simplex {
        return Ok(flow);
    }
    let price_bits = problem
        .cost_bits()
        .wrapping_add(problem.node_bits().wrapping_mul(2));
    if price_bits <= PRICE_BITS && problem.greatest_excess() < MOST_MOVED {
        by_scaling::<N, i64>(alloc, &problem)
    } else {
        by_scaling::<N, i128>(alloc, &problem)
    }
}

/// Successive shortest paths are tried for at most this many nodes with an excess.
const MOST_SOURCES: usize = 128;

/// Successive shortest paths. None if they aren't tried, take too much work, or can't move all excess.
fn by_paths<N: Network>(
    alloc: Global,
    problem: &Problem<'_, N>,
) -> Result<Option<LeastFlow>, Memory> {
    let sources = problem.sources();
    let is_fit = problem.is_narrow() && problem.least_cost >= 0;
    if !is_fit || sources > MOST_SOURCES {
        return Ok(None);
    }
    let mut augmenting = Augmenting::new(alloc, problem)?;
    if !augmenting.run()? {
        return Ok(None);
    }
    let flow = of_residual(alloc, problem, &augmenting.residual)?;
    Ok(Some(flow))
}

/// Prices fit into 64 bits if the bits of the greatest cost and twice those of the number of nodes sum to at most this.
/// Of nodes that reach a deficit they then fall by less than 2^62: for each node, by a few tolerances in the first
/// phase, and by at most 32 such tolerances in the price refinement after it; later by less.
const PRICE_BITS: u32 = 60;

/// How many arcs the simplex may scan, and nodes it may walk over, together, for each arc and node.
const WORK_FOR_EACH: u64 = 320;

/// The simplex isn't tried if this many pivots for each node are too much work.
const PIVOTS_FOR_EACH: u64 = 3;

/// The network simplex with numbers of this width. None if it takes too much work, or seems to.
fn by_simplex<N: Network, V: Number>(
    alloc: Global,
    problem: &Problem<'_, N>,
) -> Result<Option<LeastFlow>, Memory> {
    let work = problem.size().wrapping_mul(WORK_FOR_EACH);
    let arcs = problem.network().arcs();
    let pivots = u64::from(problem.numbers.count()).wrapping_mul(PIVOTS_FOR_EACH);
    if pivots.wrapping_mul(u64::from(block_size(arcs))) > work {
        return Ok(None);
    }
    let mut simplex: Simplex<V> = Simplex::new(alloc, problem)?;
    if !simplex.run(alloc, work)? {
        return Ok(None);
    }
    let values = simplex.potentials(alloc)?;
    let amounts = simplex.amounts(alloc, problem.network())?;
    let flow = least_flow(alloc, problem, &values, amounts)?;
    Ok(Some(flow))
}

fn by_scaling<N: Network, V: Number>(
    alloc: Global,
    problem: &Problem<'_, N>,
) -> Result<LeastFlow, Memory> {
    let mut scaling: Scaling<V> = Scaling::new(alloc, problem)?;
    scaling.run(alloc)?;
    of_residual(alloc, problem, &scaling.residual)
}

/// The flow and the prices of a residual network.
fn of_residual<N: Network, V: Number>(
    alloc: Global,
    problem: &Problem<'_, N>,
    residual: &Residual<V>,
) -> Result<LeastFlow, Memory> {
    let values = residual.potentials(alloc)?;
    let amounts = residual.amounts(alloc, problem.network())?;
    least_flow(alloc, problem, &values, amounts)
}

/// The result for these amounts. `values` are potentials by node number; the judge's have the opposite sign. Those out
/// of range become 0.
fn least_flow<N: Network>(
    alloc: Global,
    problem: &Problem<'_, N>,
    values: &[i128],
    amounts: Vec<i64>,
) -> Result<LeastFlow, Memory> {
    let mut potentials = Potentials::new(alloc, problem.instance.network().nodes());
    for (id, value) in problem.numbers.ids().iter().zip(values) {
        set_potential(&mut potentials, *id, value.wrapping_neg())?;
    }
    Ok(LeastFlow {
        amounts,
        potentials,
    })
}

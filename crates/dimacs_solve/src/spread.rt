//! Dealing out the sums between any two nodes to the arcs between them.

ghost use Rattle.std.specs.{Prelude.{◌≡◌, ◌<◌, ◌^◌, pos, length, replicate, IfErr, IfOk, OnOk}, List.{All}};
ghost use Rattle.dimacs_instance.specs.MinFlows.{HasBounds};
ghost use Rattle.dimacs_judging.specs.Tests.{AllClear, FirstAlone, Refuses};
ghost use Rattle.dimacs_solve.specs.{Spread.{Deals, NoneCheaper, spread_rows}, inside.ArcsByCost.{AreByCost}};

use crate::arcs_by_cost::{ArcOfCost, arcs_by_cost};
use crate::arcs_by_ends::ArcsByEnds;
use crate::raise::raise_all;
use crate::rests::{add_entries, no_amounts, no_rests, put_lows, put_rests};
use dimacs_claims::{Entry, Solution};
use dimacs_instance::{MaxInstance, MinInstance};
use dimacs_judging::{Flow, JudgeError, Where};
use dimacs_network::Network;
use dimacs_records::Reason;
use std::alloc::Global;

/// Between any two nodes, the result carries the sum of the solution's entries. Their arcs keep their bounds if they
/// can. Otherwise all but the first carry their lower bounds, or their capacities, and the first what is left:
/// `judge_max` refuses the flow there.
///
/// `UnknownArc` at the first entry without an arc. Then `BelowLow` or `AboveCap` at the first arc whose amount doesn't
/// fit 64 bits, as `judge_max` would refuse it.
pub fn spread_max<N: Network>(
    alloc: Global,
    instance: &MaxInstance<N>,
    solution: &Solution,
) -> Result<Flow, JudgeError>
    ensures deals { IfOk result (λ flow. Deals instance.now.arcs solution.now.entries.items flow) }
    ensures tested { IfOk result (λ flow. AllClear (spread_rows instance.now.arcs solution.now.entries.items)) }
    ensures refused { IfErr result (Refuses (FirstAlone (spread_rows instance.now.arcs solution.now.entries.items))) }
{
    let network = instance.network();
    spread(alloc, network, solution)
}

/// The same for a minimum cost flow. Between two nodes whose arcs can keep their bounds, no amounts with this sum that
/// keep them cost less.
pub fn spread_min<N: Network>(
    alloc: Global,
    instance: &MinInstance<N>,
    solution: &Solution,
) -> Result<Flow, JudgeError>
    ensures deals { IfOk result (λ flow. Deals instance.now.arcs solution.now.entries.items flow) }
    ensures least { IfOk result (λ flow. NoneCheaper instance.now.arcs solution.now.entries.items flow) }
    ensures tested { IfOk result (λ flow. AllClear (spread_rows instance.now.arcs solution.now.entries.items)) }
    ensures refused { IfErr result (Refuses (FirstAlone (spread_rows instance.now.arcs solution.now.entries.items))) }
{
    spread(alloc, instance.network(), solution)
}

/// Each arc gets its lower bound; then the arcs are filled, the cheapest first.
fn spread<N: Network>(alloc: Global, network: &N, solution: &Solution) -> Result<Flow, JudgeError>
    requires { All HasBounds (N.list network.now) }
    ensures deals { IfOk result (λ flow. Deals (N.list network.now) solution.now.entries.items flow) }
    ensures least { IfOk result (λ flow. NoneCheaper (N.list network.now) solution.now.entries.items flow) }
    ensures tested { IfOk result (λ flow. AllClear (spread_rows (N.list network.now) solution.now.entries.items)) }
    ensures refused { IfErr result (Refuses (FirstAlone (spread_rows (N.list network.now) solution.now.entries.items))) }
{
    let arcs = ArcsByEnds::of(alloc, network)?;
    let order = arcs_by_cost(alloc, network)?;
    let mut rests = no_rests(alloc, network.arcs())?;
    let mut amounts = no_amounts(alloc, network.arcs())?;
    deal(&arcs, &order, &solution.entries, &mut rests, &mut amounts)?;
    Ok(Flow::from_vec(amounts))
}

/// Deals out the sums of the entries. At first all rests and amounts are 0.
fn deal<N: Network>(
    arcs: &ArcsByEnds<'_, N>,
    order: &[ArcOfCost],
    entries: &[Entry],
    rests: &mut [i128],
    amounts: &mut [i64],
) -> Result<(), (Where, Reason)>
    requires bounds { All HasBounds arcs.now }
    requires arc_limit { length arcs.now < 2 ^ 32 }
    requires entry_limit { length entries.now < 2 ^ 63 }
    requires by_cost { AreByCost arcs.now order.now }
    requires no_rests { rests.old ≡ replicate (length arcs.now) (pos 0) }
    requires no_amounts { amounts.old ≡ replicate (length arcs.now) (pos 0) }
    ensures deals { OnOk result (Deals arcs.now entries.now amounts.new) }
    ensures least { OnOk result (NoneCheaper arcs.now entries.now amounts.new) }
    ensures tested { OnOk result (AllClear (spread_rows arcs.now entries.now)) }
    ensures refused { IfErr result (λ refusal. FirstAlone (spread_rows arcs.now entries.now) refusal.0 refusal.1) }
{
    put_lows(arcs, rests, amounts);
    add_entries(arcs, entries, rests)?;
    raise_all(arcs, order, rests, amounts);
    put_rests(rests, amounts)
}

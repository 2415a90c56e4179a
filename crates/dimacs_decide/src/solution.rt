//! Making solutions with an entry for every arc.

ghost use Rattle.std.specs.Prelude.{◌≡◌, ◌≤◌, ◌+◌, length, IfNone, IfOk, IfSome, map};
ghost use Rattle.dimacs_lines.specs.Limits.{most_count};
ghost use Rattle.dimacs_claims.specs.{declared.place.Entry.{Entry}, SolutionTexts.{claimed}};
ghost use Rattle.dimacs_decide.specs.Entries.{AreEntriesOf, IsEntryOf, IsMaxSolutionOf, IsMinSolutionOf};
ghost use Rattle.dimacs_judging.specs.{Feasible.{FeasibleMax, FeasibleMin}, FlowTests.{LeavesCostRange}};

use dimacs_claims::{Entry, Solution};
use dimacs_instance::{MaxInstance, MinInstance};
use dimacs_judging::{Flow, cost_within, value_of};
use dimacs_lines::Memory;
use dimacs_network::{ArcView, Network};
use std::alloc::Global;

/// The solution that claims this feasible flow: its value on line 1, then an entry for every arc, in order.
pub fn max_solution<N: Network>(
    alloc: Global,
    instance: &MaxInstance<N>,
    flow: &Flow,
) -> Result<Solution, Memory>
    requires { FeasibleMax instance.now flow.now }
    ensures { IfOk result (λ solution. IsMaxSolutionOf instance.now flow.now (claimed solution)) }
{
    let value = value_of(instance, flow);
    let entries = entries_for(alloc, instance.network(), flow)?;
    Ok(Solution {
        value,
        value_line: 1,
        entries,
    })
}

/// The same with the flow's cost. None if the sum of the costs up to some arc is out of range: `judge_min` would refuse
/// the solution.
pub fn min_solution<N: Network>(
    alloc: Global,
    instance: &MinInstance<N>,
    flow: &Flow,
) -> Result<Option<Solution>, Memory>
    requires { FeasibleMin instance.now flow.now }
    ensures some { IfOk result (λ outcome. IfSome outcome (λ solution. IsMinSolutionOf instance.now flow.now (claimed solution))) }
    ensures none { IfOk result (λ outcome. IfNone outcome (LeavesCostRange instance.now.arcs flow.now)) }
{
    let network = instance.network();
    let Ok(value) = cost_within(network, flow) else {
        return Ok(None);
    };
    let entries = entries_for(alloc, network, flow)?;
    Ok(Some(Solution {
        value,
        value_line: 1,
        entries,
    }))
}

/// The entry of the arc with this index. The first one is on line 2, after the value.
#[inline(always)]
fn entry_of(arc: ArcView, i: u32, flow: i64) -> Entry
    ensures place { IsEntryOf arc (i + 2) result }
    ensures flow { result.flow ≡ flow }
{
    Entry {
        tail: arc.tail,
        head: arc.head,
        flow,
        line: u64::from(i) + 2,
    }
}

/// An entry for every arc, in order, with its amount, from line 2 on.
pub fn entries_for<N: Network>(
    alloc: Global,
    network: &N,
    flow: &Flow,
) -> Result<Vec<Entry>, Memory>
    requires arc_limit { length (N.list network.now) ≤ most_count }
    requires one_each { length flow.now ≡ length (N.list network.now) }
    ensures all { IfOk result (λ entries. AreEntriesOf (N.list network.now) entries.items) }
    ensures flows { IfOk result (λ entries. map (λ (e : Entry). e.flow) entries.items ≡ flow.now) }
{
    let mut entries = Vec::with_capacity(alloc, network.arcs() as usize)?;
    for i in 0..network.arcs() {
        let arc = network.arc(i);
        entries.push(entry_of(arc, i, flow.amount(i as usize)))?;
    }
    Ok(entries)
}

//! Rests: what is still to be dealt out between two nodes, stored at the first arc between them.

ghost use Rattle.std.specs.Prelude.{◌≡◌, ◌<◌, ◌+◌, ◌^◌, ◌+ℤ◌, [], ℕ, ℤ, List, pos, length, replicate, IfNone, IfOk, IfSome, OnOk, ◌≢◌};
ghost use Rattle.std.specs.List.{All};
ghost use Rattle.dimacs_instance.specs.MinFlows.{HasBounds};
ghost use Rattle.dimacs_records.specs.Ranges.{IsWhole};
ghost use Rattle.dimacs_judging.specs.{Rows.{amount_at}, Tests.{TestsRow}};
ghost use Rattle.dimacs_solve.specs.Spread.{unknown_row};
ghost use Rattle.dimacs_solve.specs.inside.Rests.{AddUp, AreLows, AreRests, RestFails, rest_row};

use crate::arcs_by_ends::ArcsByEnds;
use dimacs_claims::Entry;
use dimacs_judging::Where;
use dimacs_lines::Memory;
use dimacs_network::Network;
use dimacs_records::Reason;
use std::alloc::Global;

pub(crate) fn no_rests(alloc: Global, arcs: u32) -> Result<Vec<i128>, Memory>
    ensures { IfOk result (λ rests. rests.items ≡ replicate arcs (pos 0)) }
{
    Ok(vec![in alloc; 0i128; arcs as usize]?)
}

pub(crate) fn no_amounts(alloc: Global, arcs: u32) -> Result<Vec<i64>, Memory>
    ensures { IfOk result (λ amounts. amounts.items ≡ replicate arcs (pos 0)) }
{
    Ok(vec![in alloc; 0i64; arcs as usize]?)
}

/// Puts its lower bound on each arc, and subtracts it from the rest between its ends.
pub(crate) fn put_lows<N: Network>(
    arcs: &ArcsByEnds<'_, N>,
    rests: &mut [i128],
    amounts: &mut [i64],
)
    requires bounds { All HasBounds arcs.now }
    requires no_rests { rests.old ≡ replicate (length arcs.now) (pos 0) }
    requires no_amounts { amounts.old ≡ replicate (length arcs.now) (pos 0) }
    ensures rests { AreRests arcs.now (length arcs.now) rests.new }
    ensures lows { AreLows arcs.now (length arcs.now) amounts.new }
    ensures sums { AddUp arcs.now [] rests.new amounts.new }
{
    for arc in 0..arcs.len() {
        let low = arcs.arc(arc).low;
        amounts[arc as usize] = low;
        rests[arcs.first_parallel(arc) as usize] -= i128::from(low);
    }
}

/// Adds each entry to the rest between its ends. `UnknownArc` at the first entry without an arc.
pub(crate) fn add_entries<N: Network>(
    arcs: &ArcsByEnds<'_, N>,
    entries: &[Entry],
    rests: &mut [i128],
) -> Result<(), (Where, Reason)>
    requires rests { AreRests arcs.now (length arcs.now) rests.old }
    requires arc_limit { length arcs.now < 2 ^ 32 }
    requires entry_limit { length entries.now < 2 ^ 63 }
    ensures unknown { TestsRow (unknown_row arcs.now entries.now) result }
    ensures rests { OnOk result (AreRests arcs.now (length arcs.now + length entries.now) rests.new) }
    ensures sums { OnOk result ((x : List ℤ) → AddUp arcs.now [] rests.old x → AddUp arcs.now entries.now rests.new x) }
{
    for entry in entries {
        let Some(first) = arcs.first(entry.tail, entry.head) else {
            let place = Where::Solution {
                line: entry.line,
                field: 0,
            };
            return Err((place, Reason::UnknownArc));
        };
        rests[first as usize] += i128::from(entry.flow);
    }
    Ok(())
}

/// Adds each rest that is left to its arc, which then violates its bounds. Refuses the first arc whose amount doesn't
/// fit 64 bits, for the reason for which the judge would.
pub(crate) fn put_rests(rests: &[i128], amounts: &mut [i64]) -> Result<(), (Where, Reason)>
    requires one_each { length rests.now ≡ length amounts.old }
    requires arc_limit { length amounts.old < 2 ^ 32 }
    ensures put { OnOk result ((k : ℕ) → amount_at amounts.new k ≡ amount_at amounts.old k +ℤ amount_at rests.now k) }
    ensures fits { TestsRow (rest_row amounts.old rests.now) result }
{
    for arc in 0..amounts.len() {
        let rest = rests[arc];
        match with_rest(amounts[arc], rest) {
            Some(amount) => amounts[arc] = amount,
            None => return Err((Where::Arc(arc as u32 + 1), reason_of(rest))),
        }
    }
    Ok(())
}

/// The sum of an amount and a rest, if it fits 64 bits.
fn with_rest(amount: i64, rest: i128) -> Option<i64>
    ensures sum { IfSome result (λ sum. sum ≡ amount +ℤ rest) }
    ensures wide { IfNone result (¬ IsWhole (amount +ℤ rest)) }
{
    let sum = rest.checked_add(i128::from(amount))?;
    i64::try_from(sum).ok()
}

/// The reason to refuse a rest other than 0.
fn reason_of(rest: i128) -> Reason
    requires { rest ≢ pos 0 }
    ensures { RestFails rest result }
{
    if rest < 0 {
        Reason::BelowLow
    } else {
        Reason::AboveCap
    }
}

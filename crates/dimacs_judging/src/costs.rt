//! The cost of a flow.

ghost use Rattle.std.specs.Prelude.{◌≡◌, ◌^◌, ◌+ℤ◌, ◌*ℤ◌, length, IsTrue, ◌↔◌, MatchOption};
ghost use Rattle.dimacs_judging.specs.{FlowTests.{SumsCost}, inside.Ranges.{IsOfSize}};
ghost use Rattle.dimacs_records.specs.Ranges.{IsWide};

use crate::flow::Flow;
use crate::verdict::Where;
use dimacs_lines::WIDE;
use dimacs_network::Network;
use dimacs_records::Reason;

/// The cost of a flow. `CostRange` at the first arc at which the sum of the costs leaves -10^30 to 10^30.
pub fn cost_within<N: Network>(network: &N, flow: &Flow) -> Result<i128, (Where, Reason)>
    requires one_each { length flow.now ≡ length (N.list network.now) }
    ensures { SumsCost (N.list network.now) flow.now result }
{
    let mut sum: i128 = 0;
    for i in 0..network.arcs() {
        let Some(next) = add_cost(sum, network.arc(i).cost, flow.amount(i as usize)) else {
            return Err((Where::Arc(i + 1), Reason::CostRange));
        };
        sum = next;
    }
    Ok(sum)
}

/// The sum with one more arc; none if it leaves the range.
fn add_cost(sum: i128, cost: i64, amount: i64) -> Option<i128>
    requires { IsWide sum }
    ensures { MatchOption result (¬ IsWide (sum +ℤ cost *ℤ amount)) (λ next. (next ≡ sum +ℤ cost *ℤ amount) × IsWide next) }
{
    let next = sum + product(cost, amount);
    if is_wide(next) { Some(next) } else { None }
}

/// The product as 128 bits, which always hold it.
pub(crate) fn product(cost: i64, amount: i64) -> i128
    ensures value { result ≡ cost *ℤ amount }
    ensures size { IsOfSize (2 ^ 126) result }
{
    i128::from(cost) * i128::from(amount)
}

/// Whether the sum is from -10^30 to 10^30.
fn is_wide(sum: i128) -> bool
    ensures { IsTrue result ↔ IsWide sum }
{
    -WIDE <= sum && sum <= WIDE
}

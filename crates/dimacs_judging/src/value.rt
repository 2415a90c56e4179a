//! The value of a flow.

ghost use Rattle.std.specs.Prelude.{◌≡◌, ◌≤◌, ◌==◌, ◌-ℤ◌, length};
ghost use Rattle.dimacs_lines.specs.Limits.{most_count};
ghost use Rattle.dimacs_judging.specs.{Feasible.{value}, Flows.{net, when}};

use crate::flow::Flow;
use dimacs_instance::MaxInstance;
use dimacs_network::{ArcView, Network};

/// The value of a flow: the outflow of the source less its inflow. Allocates nothing.
pub fn value_of<N: Network>(instance: &MaxInstance<N>, flow: &Flow) -> i128
    requires { length flow.now ≡ length instance.now.arcs }
    ensures { result ≡ value instance.now flow.now }
{
    balance_at(instance.network(), flow, instance.source())
}

fn balance_at<N: Network>(network: &N, flow: &Flow, node: u32) -> i128
    requires arc_limit { length (N.list network.now) ≤ most_count }
    requires one_each { length flow.now ≡ length (N.list network.now) }
    ensures { result ≡ net (N.list network.now) flow.now node }
{
    let mut sum = 0i128;
    for i in 0..network.arcs() {
        sum += share(network.arc(i), flow.amount(i as usize), node);
    }
    sum
}

/// What one arc contributes to the balance of a node.
#[inline(always)]
fn share(arc: ArcView, amount: i64, node: u32) -> i128
    ensures { result ≡ when (arc.tail == node) amount -ℤ when (arc.head == node) amount }
{
    let out = if arc.tail == node {
        i128::from(amount)
    } else {
        0
    };
    let back = if arc.head == node {
        i128::from(amount)
    } else {
        0
    };
    out - back
}

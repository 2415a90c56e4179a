//! Whether a set of nodes is violated: its supply can't be met.

ghost use Rattle.std.specs.Prelude.{◌≡◌, ◌^◌, ◌+ℤ◌, ◌-ℤ◌, ◌<ℤ◌, ◌⊎◌, ◌↔◌, IsTrue};
ghost use Rattle.dimacs_instance.specs.MinFlows.{supply_of};
ghost use Rattle.dimacs_judging.specs.{CertificateTests.{violated_row}, Cuts.{members, leaves, enters}, Flows.{when}};
ghost use Rattle.dimacs_judging.specs.{inside.Ranges.{IsOfSize}, Tests.{TestsRow}};
ghost use Rattle.dimacs_judging.specs.ViolatedSets as theory;
ghost use Rattle.dimacs_judging.specs.ViolatedSets.{most_out, least_out};

use crate::verdict::Where;
use dimacs_claims::Cut;
use dimacs_instance::MinInstance;
use dimacs_network::{ArcView, Network};
use dimacs_records::Reason;

/// The most and the least that can flow out of a set, less what flows into it.
#[derive(Clone, Copy)]
pub struct Crossing {
    pub most: i128,
    pub least: i128,
}

/// Tests whether the set's supply is more than can flow out of it, or less than must.
pub(crate) fn set_is_violated<N: Network>(
    instance: &MinInstance<N>,
    set: &Cut,
) -> Result<(), (Where, Reason)>
    ensures { TestsRow (violated_row instance.now (members set.now)) result }
{
    let crossing = bounds_across(instance, set);
    let supply = supply_in(instance, set);
    if crossing.excludes(supply) {
        Ok(())
    } else {
        Err((Where::Certificate, Reason::NotViolated))
    }
}

/// The supplies of the set's nodes together.
pub fn supply_in<N: Network>(instance: &MinInstance<N>, set: &Cut) -> i128
    ensures { result ≡ theory.supply_in instance.now.nodes (supply_of instance.now) (members set.now) }
{
    let mut sum: i128 = 0;
    let end = instance.network().nodes() + 1;
    let mut v = 1;
    while v < end {
        sum += i128::from(supply_at(v, instance, set));
        v = instance.next_supply(v + 1, end);
    }
    sum
}

fn supply_at<N: Network>(node: u32, instance: &MinInstance<N>, set: &Cut) -> i64
    ensures { result ≡ when (members set.now node) (supply_of instance.now node) }
{
    if set.contains(node) {
        instance.supply(node)
    } else {
        0
    }
}

/// The bounds of all arcs together.
pub fn bounds_across<N: Network>(instance: &MinInstance<N>, set: &Cut) -> Crossing
    ensures most { result.most ≡ most_out instance.now.arcs (members set.now) }
    ensures least { result.least ≡ least_out instance.now.arcs (members set.now) }
{
    let network = instance.network();
    let mut crossing = Crossing { most: 0, least: 0 };
    for i in 0..network.arcs() {
        crossing = crossing.with(network.arc(i), set);
    }
    crossing
}

impl Crossing {
    fn excludes(self, supply: i128) -> bool
        ensures { IsTrue result ↔ (self.most <ℤ supply ⊎ supply <ℤ self.least) }
    {
        supply > self.most || supply < self.least
    }

    /// The bounds with one more arc.
    #[inline(always)]
    fn with(self, arc: ArcView, set: &Cut) -> Crossing
        requires most { IsOfSize (2 ^ 120) self.most }
        requires least { IsOfSize (2 ^ 120) self.least }
        ensures most { result.most ≡ (self.most +ℤ when (leaves (members set.now) arc) arc.cap) -ℤ when (enters (members set.now) arc) arc.low }
        ensures least { result.least ≡ (self.least +ℤ when (leaves (members set.now) arc) arc.low) -ℤ when (enters (members set.now) arc) arc.cap }
    {
        match (set.contains(arc.tail), set.contains(arc.head)) {
            (true, false) => Crossing {
                most: self.most + i128::from(arc.cap),
                least: self.least + i128::from(arc.low),
            },
            (false, true) => Crossing {
                most: self.most - i128::from(arc.low),
                least: self.least - i128::from(arc.cap),
            },
            _ => self,
        }
    }
}

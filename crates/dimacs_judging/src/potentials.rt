//! Whether potentials are slack for a flow.

ghost use Rattle.std.specs.Prelude.{◌≡◌, ◌*◌, ◌^◌, [], ◌∷◌, length};
ghost use Rattle.dimacs_claims.specs.Potentials.{potential_of};
ghost use Rattle.dimacs_judging.specs.Potentials as theory;
ghost use Rattle.dimacs_judging.specs.{Potentials.{Slack}, CertificateTests.{SlackFails, slack_row}, Tests.{Decides}};
ghost use Rattle.dimacs_judging.specs.{inside.Ranges.{IsOfSize}, inside.Tests.{NamesReason}};

use crate::arc_test::{ArcTest, arcs_hold};
use crate::flow::Flow;
use crate::verdict::Where;
use dimacs_claims::Potentials;
use dimacs_instance::MinInstance;
use dimacs_network::{ArcView, Network};
use dimacs_records::Reason;

/// Tests complementary slackness: an arc of positive reduced cost carries its lower bound, one of negative reduced cost
/// its capacity. The reduced cost is the cost, minus the tail's potential, plus the head's. `NotTight` at the first arc
/// that fails. Allocates nothing.
pub fn slack_tests<N: Network>(
    instance: &MinInstance<N>,
    flow: &Flow,
    potentials: &Potentials,
) -> Result<(), (Where, Reason)>
    requires { length flow.now ≡ length instance.now.arcs }
    ensures { Decides (Slack instance.now.arcs flow.now (potential_of potentials.now))
        (slack_row instance.now.arcs (potential_of potentials.now) flow.now ∷ []) result }
{
    arcs_hold(instance.network(), flow, potentials)
}

impl ArcTest for Potentials {
    ghost fails = { λ potentials a. SlackFails (theory.reduced_cost (potential_of potentials) a) a };

    fn fault(&self, arc: ArcView, amount: i64) -> Option<Reason> {
        slack_fault(reduced_cost(arc, self), arc, amount)
    }
}

/// Makes both tests without a branch between them, which would be mispredicted.
pub(crate) fn slack_fault(reduced: i128, arc: ArcView, amount: i64) -> Option<Reason>
    ensures { NamesReason (SlackFails reduced arc amount) result }
{
    let above_low = (reduced > 0) & (amount != arc.low);
    let below_cap = (reduced < 0) & (amount != arc.cap);
    if above_low | below_cap {
        Some(Reason::NotTight)
    } else {
        None
    }
}

fn reduced_cost(arc: ArcView, potentials: &Potentials) -> i128
    ensures value { result ≡ theory.reduced_cost (potential_of potentials.now) arc }
    ensures size { IsOfSize (3 * 10 ^ 30) result }
{
    i128::from(arc.cost) - potentials.of(arc.tail) + potentials.of(arc.head)
}

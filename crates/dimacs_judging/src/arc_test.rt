//! Tests of each arc with its amount.

ghost use Rattle.std.specs.Prelude.{◌≡◌, ℤ, length};
ghost use Rattle.dimacs_network.specs.declared.network.ArcView.{ArcView};
ghost use Rattle.dimacs_records.specs.declared.reasons.Reason.{Reason};
ghost use Rattle.dimacs_judging.specs.{Rows.{flow_row}, Tests.{TestsRow}, inside.Tests.{NamesReason}};

use crate::flow::Flow;
use crate::verdict::Where;
use dimacs_network::{ArcView, Network};
use dimacs_records::Reason;

/// A test of an arc with the amount that it carries.
pub(crate) trait ArcTest {
    ghost fails: { Self → ArcView → ℤ → Reason → Type 0 };

    /// The reason why an arc fails, if it does.
    fn fault(&self, arc: ArcView, amount: i64) -> Option<Reason>
        ensures { NamesReason (fails self.now arc amount) result };
}

/// Tests each arc.
pub(crate) fn arcs_hold<N: Network, T: ArcTest>(
    network: &N,
    flow: &Flow,
    test: &T,
) -> Result<(), (Where, Reason)>
    requires one_each { length flow.now ≡ length (N.list network.now) }
    ensures { TestsRow (flow_row (T.fails test.now) (N.list network.now) flow.now) result }
{
    for i in 0..network.arcs() {
        if let Some(reason) = test.fault(network.arc(i), flow.amount(i as usize)) {
            return Err((Where::Arc(i + 1), reason));
        }
    }
    Ok(())
}

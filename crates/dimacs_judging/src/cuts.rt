//! Whether a cut is tight for a flow.

ghost use Rattle.std.specs.Prelude.{◌≡◌, length};
ghost use Rattle.dimacs_judging.specs.{CertificateTests.{TightFails, cut_rows}, Cuts.{CutTight, members}};
ghost use Rattle.dimacs_judging.specs.Tests.{Decides};

use crate::arc_test::{ArcTest, arcs_hold};
use crate::flow::Flow;
use crate::verdict::Where;
use dimacs_claims::Cut;
use dimacs_instance::MaxInstance;
use dimacs_network::{ArcView, Network};
use dimacs_records::Reason;

/// Tests whether the cut is tight: it separates source and sink, arcs that leave it carry their capacity, and arcs that
/// enter it carry nothing. Allocates nothing.
///
/// The tests in order: `SourceOutside`, at the source; `SinkInside`, at the sink; for each arc `NotSaturated` if it
/// leaves the cut, `BackFlow` if it enters.
pub fn cut_tests<N: Network>(
    instance: &MaxInstance<N>,
    flow: &Flow,
    cut: &Cut,
) -> Result<(), (Where, Reason)>
    requires { length flow.now ≡ length instance.now.arcs }
    ensures { Decides (CutTight instance.now flow.now (members cut.now)) (cut_rows instance.now (members cut.now) flow.now) result }
{
    let source = instance.source();
    let sink = instance.sink();
    if !cut.contains(source) {
        return Err((Where::Node(source), Reason::SourceOutside));
    }
    if cut.contains(sink) {
        return Err((Where::Node(sink), Reason::SinkInside));
    }
    arcs_hold(instance.network(), flow, cut)
}

impl ArcTest for Cut {
    ghost fails = { λ cut. TightFails (members cut) };

    #[inline(always)]
    fn fault(&self, arc: ArcView, amount: i64) -> Option<Reason> {
        match (self.contains(arc.tail), self.contains(arc.head)) {
            (true, false) if amount != arc.cap => Some(Reason::NotSaturated),
            (false, true) if amount != 0 => Some(Reason::BackFlow),
            _ => None,
        }
    }
}

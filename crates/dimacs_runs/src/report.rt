//! The reports of runs.

ghost use Rattle.std.specs.Prelude.{◌≡◌};
ghost use Rattle.dimacs_lines.specs.Puts.{Puts};
ghost use Rattle.dimacs_runs.specs.{Reports.{report_lines}, inside.Reports.{report_status}};

use crate::refusal::{put_refusal, text_name};
use crate::verdict::{put_distances, put_failure, put_gave_up, put_verdict};
use dimacs_jobs::Status;
use dimacs_judging::{Verdict, Where};
use dimacs_lines::{DeviceFault, Sink};
use dimacs_records::{At, Reason, TextKind};

/// The report of a run.
#[derive(Drop)]
pub enum Report {
    /// The claim is true.
    Yes(Verdict),
    /// The claimed distances from this many sources are right.
    Distances(u32),
    /// The first test that fails.
    No(Where, Reason),
    /// A text of this kind is refused at this place: where it has a fault, or as a whole.
    Refused(TextKind, At, Reason),
    /// A solver gave up.
    GaveUp,
    /// No line: a solution was dealt out.
    Nothing,
}

impl Report {
    pub(crate) fn status(&self) -> Status
        ensures { result ≡ report_status self.now }
    {
        match self {
            Report::Yes(_) | Report::Distances(_) | Report::Nothing => Status::Done,
            Report::No(..) | Report::Refused(..) => Status::Refused,
            Report::GaveUp => Status::GaveUp,
        }
    }

    pub(crate) fn write<K: Sink>(&self, sink: &mut K) -> Result<(), DeviceFault>
        ensures { Puts result (K.seen sink.old) (report_lines self.now) (K.seen sink.new) }
    {
        match self {
            Report::Yes(verdict) => put_verdict(sink, verdict),
            Report::Distances(sources) => put_distances(sink, *sources),
            Report::No(place, reason) => put_failure(sink, *place, *reason),
            Report::Refused(kind, place, reason) => {
                put_refusal(sink, text_name(*kind), *place, *reason)
            }
            Report::GaveUp => put_gave_up(sink),
            Report::Nothing => Ok(()),
        }
    }
}

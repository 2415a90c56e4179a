//! The text that a report refuses.

ghost use Rattle.std.specs.Prelude.{◌≡◌, ◌↔◌, IsTrue, slice_get, take};
ghost use Rattle.dimacs_jobs.specs.Jobs.{texts_of};
ghost use Rattle.dimacs_runs.specs.{InMemory.{Refuses, lacking}, Refusals.{refusal_line}, Runs.{text_word}};

use dimacs_jobs::Verb;
use dimacs_records::TextKind;

/// Whether a report of a run refuses the text at this place, from 0, as one of a line end alone.
pub fn refuses_text(verb: Verb, place: usize, report: &[u8]) -> bool
    ensures { IsTrue result ↔ Refuses verb place report.now }
{
    match kind_at(verb, place) {
        Some(kind) => report == refusal(kind).as_bytes(),
        None => false,
    }
}

/// What a text of this kind is refused for that has a line end alone.
fn refusal(kind: TextKind) -> &'static str
    ensures { result.now ≡ refusal_line (text_word kind) 2 0 (lacking kind) }
{
    match kind {
        TextKind::Max | TextKind::Min | TextKind::Graph => "x instance 2 0 ProblemMissing\n",
        TextKind::Queries => "x query 2 0 ProblemMissing\n",
        TextKind::Solution => "x solution 2 0 SolutionMissing\n",
        TextKind::Cut | TextKind::Potentials | TextKind::Labels => {
            "x certificate 2 0 ProblemMissing\n"
        }
        TextKind::Distances => "x distances 2 0 ProblemMissing\n",
    }
}

/// The kind of the text at this place, from 0, if the run reads it.
fn kind_at(verb: Verb, place: usize) -> Option<TextKind>
    ensures { result ≡ slice_get (take (texts_of verb).read (texts_of verb).kinds) place }
{
    let texts = verb.texts();
    if place < texts.read {
        texts.kinds.get(place).copied()
    } else {
        None
    }
}

//! The texts of jobs, for those who explain what a run answered.

use dimacs_jobs::{Job, Verb, name_at};
use dimacs_quote::{Purpose, StandFor, Texts};

/// The texts of a job.
pub(crate) fn texts_of(stand_for: StandFor, job: Job<'_>) -> Texts<'_> {
    let purpose = match job.verb {
        Verb::Convert(kind) | Verb::Show(kind) => {
            let name = name_at(job.files, 0).unwrap_or_default();
            return Texts::one(stand_for, kind, name);
        }
        Verb::Judge(_) | Verb::Certify(_) => Purpose::Decide,
        Verb::Spread(_) => Purpose::Spread,
        Verb::Solve(_) => Purpose::Solve,
    };
    let texts = job.verb.texts();
    Texts::new(stand_for, purpose, texts.kinds, job.files, texts.read)
}

//! What the command can be asked for, the texts that it reads and writes for it, and how it ends.
//!
//! For the runs of `dimacs_runs` and the words of `dimacs_usage`. One table, `Verb::texts`, says which texts a run reads
//! and writes. A contract states which words ask for which job.
#![tactic(auto)]

mod argument_laws;
mod arguments;
mod build;
mod jobs;
mod status;
mod texts;

pub use argument_laws::words_ask_for_one_thing;
pub use arguments::{job, request};
pub use build::{PROVED, version};
pub use jobs::{Job, JudgeKind, Request, SolveJob, SpreadKind, Verb, name_at};
pub use status::{NO_RUN, RunError, Status, complaint, exit_status};
pub use texts::{RunTexts, Writes};

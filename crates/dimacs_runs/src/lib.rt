//! The runs of the command `dimacs`, over any sources and sinks.
//!
//! For the command, the calls from C and programs that run a whole command. A run reads its texts in turn, has them
//! judged, certified or solved, and writes a claim, a certificate and a report. A contract states, for the bytes of the
//! texts, which bytes these may be and which status comes with them; that after an I/O error nothing or a beginning of
//! them was written, and without memory nothing.
#![tactic(auto)]

mod certify;
mod certify_distances;
mod certify_infeasible;
mod command;
mod discard;
mod early_end;
mod failure;
mod files;
mod in_memory;
mod judge;
mod laws;
mod open_files;
mod outcome;
mod outcome_file;
mod refusal;
mod refused_text;
mod report;
mod runs_that_make;
mod runs_that_read;
mod runs_that_write;
mod solve;
mod spread;
mod text;
mod texts_in_turn;
mod verdict;

pub use certify::run_certify;
pub use command::{command_status, run_and_keep, run_command, run_job};
pub use failure::{CommandError, Failure, FileCall};
pub use files::Files;
pub use in_memory::{MemoryTexts, Ran, run_in_memory};
pub use judge::run_judge;
pub use laws::{
    canonical_is_a_fixed_point, certified_is_judged_yes, enough_limit_never_gives_up,
    solved_is_judged_yes, true_claims_are_certified,
};
pub use outcome::Outcome;
pub use refusal::put_refusal;
pub use refused_text::refuses_text;
pub use report::Report;
pub use solve::run_solve;
pub use spread::run_spread;
pub use text::{run_convert, run_show};
pub use verdict::{put_failure, put_gave_up, put_verdict};

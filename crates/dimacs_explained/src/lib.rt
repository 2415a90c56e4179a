//! Explains runs: a run of the command, over files or texts in memory, and then lines that explain its answer.
//!
//! For the program and the calls from C. A contract states that the run is the run without them, and that they end with a
//! line end, if there are any and the output takes them; `dimacs_explain` writes them.
#![tactic(auto)]

mod in_memory;
mod named_texts;
mod run;
mod texts;

pub use in_memory::explain_in_memory;
pub use run::explain_job;

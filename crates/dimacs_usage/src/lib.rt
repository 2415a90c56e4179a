//! What the command says about its arguments: usage texts, complaints, and what a run does with its files.
//!
//! For the program and for the commands over the library. `dimacs_jobs::request` decides what arguments ask for.
#![tactic(auto)]

mod asked;
mod misuse;
mod plan;
mod slips;
mod usage;

pub use asked::{Asked, Run, ask};
pub use misuse::complaint_of_bytes;

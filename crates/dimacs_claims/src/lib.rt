//! Claims and certificates: solutions, cuts, potentials, labels and distances, read and written.
//!
//! For judges, which test them, and for certifiers and solvers, which make them. Reading answers with the value that
//! the text spells, or its first fault; writing gives its canonical text. The entries of a solution can go to a `Place`
//! as they are read, so that nothing keeps them. A contract has a claim as a list or a function of the ID, each entry
//! with its line.
#![tactic(auto)]

mod block;
mod by_id;
mod cut;
mod distances;
mod label_list;
mod labels;
mod place;
mod potentials;
mod show;
mod solution;

pub use block::Block;
pub use cut::{Cut, CutReading, read_cut, write_cut};
pub use distances::{Distances, DistancesReading, read_distances, write_distances};
pub use label_list::{Label, LabelList};
pub use labels::{Labels, LabelsReading, read_labels, read_plain_labels, write_labels};
pub use place::{Entry, Place, Placed};
pub use potentials::{Potentials, PotentialsReading, read_potentials, write_potentials};
pub use solution::{Solution, SolutionReading, read_solution, read_solution_into, write_solution};

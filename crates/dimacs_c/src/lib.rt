//! The functions of the library for C, which `lib/include/dimacs.h` declares and describes.
//!
//! Each but `dimacs_request` and those about the version returns the exit status of a command. It copies what the command
//! prints and writes to files into the caller's buffers, as much as fits, and sets the length of the whole. Functions over
//! arrays copy flows, distances and certificates as arrays. They return 2 if an array's length is wrong or a number is out
//! of range.
#![tactic(auto)]

mod answer;
mod certify;
mod command;
mod cut;
mod distances;
mod infeasible;
mod judge;
mod kinds;
mod labels;
mod laws;
mod lines;
mod max;
mod min;
mod paths;
mod potentials;
mod printed;
mod queries;
mod read_instance;
mod reading;
mod request;
mod solution;
mod solve;
mod spread;
mod texts;
mod version;
mod words;
mod write_instance;
mod written;

pub use laws::{
    cut_array_comes_back, distances_array_comes_back, graph_arrays_come_back,
    label_arrays_come_back, line_end_is_no_text, max_arrays_come_back, min_arrays_come_back,
    potentials_array_comes_back, query_arrays_come_back, solution_arrays_come_back,
};

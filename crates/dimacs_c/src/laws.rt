//! Theorems: arrays that are written as a text come back from it, and what stands for a text that can't be read is none.
//!
//! The contract of a function here states the theorem. The body is empty on purpose: there is nothing to compute.

ghost use Rattle.dimacs_c.specs.LineEnd.{LineEndLaw};
ghost use Rattle.dimacs_c.specs.Laws.{CutArrayLaw, DistancesArrayLaw, GraphArraysLaw, LabelArraysLaw, MaxArraysLaw, MinArraysLaw, PotentialsArrayLaw, QueryArraysLaw, SolutionArraysLaw};

/// What `dimacs_write_graph` writes, `dimacs_read_graph` reads into arrays with the same items, as far as they have room,
/// unless memory runs out.
pub fn graph_arrays_come_back()
    ensures { GraphArraysLaw }
{}

/// The same of `dimacs_write_max` and `dimacs_read_max`.
pub fn max_arrays_come_back()
    ensures { MaxArraysLaw }
{}

/// The same of `dimacs_write_min` and `dimacs_read_min`.
pub fn min_arrays_come_back()
    ensures { MinArraysLaw }
{}

/// The same of `dimacs_write_queries` and `dimacs_read_queries`.
pub fn query_arrays_come_back()
    ensures { QueryArraysLaw }
{}

/// The same of `dimacs_write_cut` and `dimacs_read_cut`: each byte comes back as 0 or 1.
pub fn cut_array_comes_back()
    ensures { CutArrayLaw }
{}

/// The same of `dimacs_write_potentials` and `dimacs_read_potentials`.
pub fn potentials_array_comes_back()
    ensures { PotentialsArrayLaw }
{}

/// The same of `dimacs_write_solution` and `dimacs_read_solution`, over the same arcs.
pub fn solution_arrays_come_back()
    ensures { SolutionArraysLaw }
{}

/// The same of `dimacs_write_distances` and `dimacs_read_distances`, from the same source.
pub fn distances_array_comes_back()
    ensures { DistancesArrayLaw }
{}

/// The same of `dimacs_write_labels` and `dimacs_read_labels`, from the same source.
pub fn label_arrays_come_back()
    ensures { LabelArraysLaw }
{}

/// A text of a line end alone, which `dimacs_command` reads in place of one that can't be read, is refused, whatever its
/// kind.
pub fn line_end_is_no_text()
    ensures { LineEndLaw }
{}

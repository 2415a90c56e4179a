//! The calls that a program in Rattle makes and `dimacs` doesn't, by the paths that it uses: those of `dimacs_lines`,
//! `dimacs_records`, `dimacs_instance`, `dimacs_claims`, `dimacs_judge`, `dimacs_jobs` and `dimacs_runs` alone, which the
//! gate tests. The answers were worked out by hand.

mod claims;
mod devices;
mod instances;
mod judges;
mod lines;
mod own_types;
mod records;
mod spelling;

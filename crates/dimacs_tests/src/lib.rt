//! Tests of what no run shows: inner calls, a file for each subject, and in `surface` the calls of programs in Rattle.
//! They test what no contract states: that a call succeeds while memory lasts, and, by answers worked out by hand, that
//! the contracts mean what was meant. Runs over texts are rows of `tests/rows`, calls over arrays rows of
//! `lib/test/arrays.c`.
#![tactic(auto)]

#[cfg(test)]
mod arguments;
#[cfg(test)]
mod checks;
#[cfg(test)]
mod deciding;
#[cfg(test)]
mod lookups;
#[cfg(test)]
mod pages;
#[cfg(test)]
mod scan;
#[cfg(test)]
mod surface;

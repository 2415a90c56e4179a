//! Certifies a maximum flow by the crates: example_judge INSTANCE SOLUTION
//!
//! Prints a minimum cut or a better solution, then its checksum as a comment. The exit statuses are those of `dimacs
//! certify-max`.
#![tactic(auto)]

mod certify;
mod checksum;
mod failure;

use crate::certify::certify;
use crate::checksum::{Checksum, START};
use crate::failure::Failure;
use dimacs_claims::read_solution;
use dimacs_instance::read_max;
use dimacs_lines::{FileSink, FileSource, StdoutSink};
use std::fs::File;
use std::process::ExitCode;
use std::{env, io};

fn main(rt: HostRuntime) -> ExitCode {
    ExitCode::from(match run(&rt) {
        Ok(true) => 0,
        Ok(false) => 1,
        Err(failure) => failure.status(&rt),
    })
}

/// Whether the solution in the second file is a maximum flow of the instance in the first.
fn run(rt: &HostRuntime) -> Result<bool, Failure> {
    let arguments: Vec<String> = arguments(rt).map_err(|_| Failure::Misused)?;
    let [_, instance, solution] = arguments.as_slice() else {
        return Err(Failure::Misused);
    };
    let instance = read_max(rt.alloc(), &mut open(rt, instance)?);
    let instance = instance.map_err(|it| Failure::of("instance", it))?;
    let solution = read_solution(rt.alloc(), &mut open(rt, solution)?);
    let solution = solution.map_err(|it| Failure::of("solution", it))?;
    let sink: StdoutSink<'_, HostRuntime> = FileSink::new(io::writer(rt));
    let mut out = Checksum { sink, sum: START };
    let is_maximum = certify(rt.alloc(), &instance, &solution, &mut out)?;
    println!(rt; "c checksum {:08x}", out.sum)?;
    Ok(is_maximum)
}

fn arguments(rt: &HostRuntime) -> io::Result<Vec<String>> {
    Ok(env::args(rt)?.collect(rt.alloc())?)
}

fn open(rt: &HostRuntime, name: &String) -> io::Result<FileSource<File>> {
    Ok(FileSource::new(File::open(rt, name.as_str())?))
}

//! The command `dimacs`: runs a command over the operating system's files.
//!
//! For a person at a terminal. What it runs, and what that writes, is `dimacs_runs`; here are the system's arguments
//! and files, the words of help and complaints, and the status.
#![tactic(auto)]

ghost use Rattle.std.specs.{Prelude.{IfOk, List, map, ℕ}, String.{string_bytes}};
ghost use Rattle.dimacs_jobs.specs.Jobs.{HasFiles};
ghost use Rattle.dimacs_usage.specs.Answers.{Answers};

mod files;
mod kept;
mod same;

use crate::files::SystemFiles;
use crate::same::same_files;
use dimacs_explained::explain_job;
use dimacs_jobs::{NO_RUN, RunError, Status, complaint, exit_status};
use dimacs_lines::{FileSink, Sink, StdoutSink, put_all};
use dimacs_quote::Shown;
use dimacs_runs::{CommandError, Failure, command_status, run_job};
use dimacs_usage::{Asked, Run, ask, complaint_of_bytes};
use std::alloc::{AllocError, Global};
use std::fs::File;
use std::io::ErrorKind;
use std::os::fd::{AsRawFd, RawFd};
use std::process::ExitCode;
use std::{env, io};

/// The greatest file descriptor of a standard stream.
const STANDARD_ERROR: RawFd = 2;

fn main(rt: HostRuntime) -> ExitCode {
    let _folders = (stand_in(&rt), stand_in(&rt), stand_in(&rt));
    let status = match arguments(&rt) {
        Ok(arguments) => run(&rt, arguments.get(1..).unwrap_or_default()),
        Err(error) => without_arguments(&rt, error),
    };
    ExitCode::from(status)
}

/// Opens `/` in place of a closed standard stream. Without it, the next file that opens gets the stream's descriptor, and
/// the stream's output. `/` always exists, and can't be read or written as a file.
fn stand_in(rt: &HostRuntime) -> Option<File> {
    match File::open(rt, "/") {
        Ok(folder) if folder.as_raw_fd() <= STANDARD_ERROR => Some(folder),
        _ => None,
    }
}

/// Does what these arguments, without the program's name, ask for, and returns the exit status.
fn run(rt: &HostRuntime, arguments: &[String]) -> u8 {
    let mut files = SystemFiles::new(rt);
    let mut output = FileSink::new(io::writer(rt));
    match asked(rt, arguments) {
        Ok(Asked::Nothing(text)) => refuse(rt, Ok(text)),
        Ok(Asked::Text(text)) => {
            let printed = print(text.as_str(), &mut output);
            end(rt, printed, &files, &output)
        }
        Ok(Asked::Run(run)) => {
            if run.explains {
                files = SystemFiles::that_keep(rt);
            }
            let status = run_asked(rt, &run, &mut files, &mut output);
            let _ = eprint!(rt; "{}", run.told);
            status
        }
        Err(_) => end(rt, Err(CommandError::Memory), &files, &output),
    }
}

/// What these arguments ask for.
fn asked<'a>(rt: &HostRuntime, arguments: &'a [String]) -> Result<Asked<'a>, AllocError>
    ensures { IfOk result (λ asked. (same : List ℕ) × Answers (map string_bytes arguments.now) same asked) }
{
    let same = same_files(rt, arguments)?;
    ask(rt.alloc(), arguments, &same)
}

/// Runs it, and returns the exit status.
fn run_asked(
    rt: &HostRuntime,
    run: &Run<'_>,
    files: &mut SystemFiles<'_>,
    output: &mut StdoutSink<'_, HostRuntime>,
) -> u8
    requires { HasFiles run.now.job }
{
    let ended = if run.explains {
        explain_job(rt.alloc(), run.job, files, output)
    } else {
        run_job(rt.alloc(), run.job, files, output)
    };
    end(rt, ended, files, output)
}

/// Complains of what has ended so, if it failed, and returns the exit status.
fn end(
    rt: &HostRuntime,
    ended: Result<Status, CommandError<'_>>,
    files: &SystemFiles<'_>,
    output: &StdoutSink<'_, HostRuntime>,
) -> u8 {
    let status = command_status(&Some(ended));
    complain(rt, status);
    if let Err(CommandError::Device(failure)) = ended {
        let reason = match failure {
            Failure::File(..) => files.reason(),
            Failure::Output => output.reason(),
        };
        print_failure(rt, failure, reason);
    }
    status
}

/// Prints a text.
fn print<'a, K: Sink>(text: &str, output: &mut K) -> Result<Status, CommandError<'a>> {
    match put_all(output, text.as_bytes()) {
        Ok(()) => Ok(Status::Done),
        Err(_) => Err(CommandError::Device(Failure::Output)),
    }
}

/// The arguments, the program's name first.
fn arguments(rt: &HostRuntime) -> io::Result<Vec<String>> {
    Ok(env::args(rt)?.collect(rt.alloc())?)
}

/// Complains that the arguments couldn't be read, and returns the exit status.
fn without_arguments(rt: &HostRuntime, error: io::Error) -> u8 {
    if error.kind() == ErrorKind::OutOfMemory {
        let status = exit_status(&Err(RunError::Memory));
        complain(rt, status);
        return status;
    }
    refuse(rt, complaint_of_bytes(rt.alloc()))
}

/// Complains of arguments that are wrong, and returns the exit status. If memory runs out, no more than the first
/// line is written.
fn refuse(rt: &HostRuntime, text: Result<String, AllocError>) -> u8 {
    match text {
        Ok(text) => {
            let _ = eprint!(rt; "{text}");
        }
        Err(_) => complain(rt, NO_RUN),
    }
    NO_RUN
}

/// Writes the complaint for an exit status, if it has one, to the standard error.
fn complain(rt: &HostRuntime, status: u8) {
    if let Some(line) = complaint(status) {
        let _ = eprintln!(rt; "{line}");
    }
}

/// Writes to the standard error what failed, and the reason, if it is known.
fn print_failure(rt: &HostRuntime, failure: Failure<'_>, reason: Option<io::Error>) {
    let name = Shown(failure.device());
    let call = failure.call();
    let _ = match reason {
        Some(reason) => eprintln!(rt; "dimacs: {name}: {call}: {reason}"),
        None => eprintln!(rt; "dimacs: {name}: {call}"),
    };
}

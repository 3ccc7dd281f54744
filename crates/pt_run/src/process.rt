ghost use Rattle.std.specs.Prelude.{◌≡◌, ◌⊎◌, IfErr, drop};
ghost use Rattle.std.specs.Process.{exit_status};
ghost use Rattle.pt_host.specs.Promises.{HasRisen};
ghost use Rattle.pt_run.specs.Output.{IsWritten, IsFrontWritten};
ghost use Rattle.pt_run.specs.Status.{exit_of, status_line};

use crate::program::run;
use crate::status::Status;
use crate::std_streams::{StdSink, StdSource};
use crate::streams::Sink;
use std::alloc::AllocError;
use std::process::ExitCode;
use std::{env, io};

// All words of the command line, the program's name first. Where one is not UTF-8, they are none that the program
// knows.
fn command_line(rt: &HostRuntime) -> Result<Vec<String>, Status>
    ensures err { IfErr result (λ status. (status ≡ Status.Usage) ⊎ (status ≡ Status.NoMemory)) }
{
    let args = match env::args(rt) {
        Ok(args) => args,
        Err(error) if error.kind() == io::ErrorKind::OutOfMemory => return Err(Status::NoMemory),
        Err(_) => return Err(Status::Usage),
    };
    args.collect(rt.alloc())
        .map_err(|_: AllocError| Status::NoMemory)
}

fn words_after_name(words: &[String]) -> &[String]
    ensures { result.now ≡ drop 1 words.now }
{
    match words {
        [_, rest @ ..] => rest,
        [] => words,
    }
}

// Runs the program over the command line and the standard streams.
fn run_on_streams(rt: &HostRuntime) -> Status {
    let words = match command_line(rt) {
        Ok(words) => words,
        Err(status) => return status,
    };
    let mut input = StdSource::new(rt.reader());
    let mut output = StdSink::new(io::writer(rt));
    run(
        rt.alloc(),
        words_after_name(words.as_slice()),
        &mut input,
        &mut output,
    )
}

/// The exit status of a process that ends so. Its line goes to standard error.
pub fn end_process<E: Sink>(status: Status, errors: &mut E) -> ExitCode
    ensures code { exit_status result ≡ exit_of status }
    ensures line { IsWritten (E.written errors.old) (status_line status) (E.written errors.new)
        ⊎ HasRisen (E.faults errors.old) (E.faults errors.new) }
    ensures no_more { IsFrontWritten (E.written errors.old) (status_line status) (E.written errors.new) }
{
    let _ = status.push_line(errors);
    ExitCode::from(status.exit_code())
}

/// The whole program: it ends with one of its statuses.
pub fn run_process(rt: &HostRuntime) -> ExitCode
    ensures { (status : Status) × (exit_status result ≡ exit_of status) }
{
    end_process(run_on_streams(rt), &mut StdSink::new(rt.stderr()))
}

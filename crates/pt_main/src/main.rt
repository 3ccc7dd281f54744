//! The program: reads a script of requests, runs it over a tree in memory and writes the report; or runs requests that
//! a seed gives, and counts what comes of them.
#![tactic(auto)]

use pt_run::run_process;
use std::process::ExitCode;

fn main(rt: HostRuntime) -> ExitCode {
    run_process(&rt)
}

//! Runs the scripts that standard input holds, and writes what comes of each.
//!
//! A line `== NAME` begins a case, and the lines up to the next one are its script. Words behind the name change the
//! case: with `cut` the last line feed is no part of the script, with `ends` the report is shown from its first
//! answer on. Out comes `== NAME` and then the report, where the run has one; where it is not done, a line follows
//! with the process' status and what the program says.
//!
//! Behind the last case a line `=== orders` asks for what comes of jobs in every order of their steps.
#![tactic(auto)]

mod case;
mod orders;
mod outcome;

use case::Case;
use orders::write_orders;
use outcome::Outcomes;
use std::alloc::{AllocError, Global};
use std::io::{self, Read, Write};
use std::process::ExitCode;

// What comes of each case of this text, in turn.
fn outcomes_of(alloc: Global, text: &[u8]) -> Result<Outcomes, AllocError> {
    let mut outcomes = Outcomes::new(alloc);
    let mut case = None;
    for line in text.split_inclusive(|byte| *byte == b'\n') {
        match line.strip_prefix(b"== ") {
            Some(header) => {
                outcomes.push(alloc, case)?;
                case = Some(Case::new(alloc, header)?);
            }
            None => match &mut case {
                Some(case) => case.push_line(line)?,
                None => outcomes.push_bad(line)?,
            },
        }
    }
    outcomes.push(alloc, case)?;
    Ok(outcomes)
}

// What comes of the cases, and the exit status that follows from it.
fn write_outcomes(rt: &impl Print, alloc: Global, cases: &[u8]) -> io::Result<ExitCode> {
    let outcomes = outcomes_of(alloc, cases)?;
    io::writer(rt).write_all(outcomes.as_slice())?;
    Ok(ExitCode::from(outcomes.exit_code()))
}

fn main(rt: HostRuntime) -> io::Result<ExitCode> {
    let mut text = Vec::new(rt.alloc());
    rt.reader().read_to_end(&mut text)?;
    let Some(cases) = text.as_slice().strip_suffix(b"=== orders\n") else {
        return write_outcomes(&rt, rt.alloc(), text.as_slice());
    };
    let code = write_outcomes(&rt, rt.alloc(), cases)?;
    println!(rt; "=== orders")?;
    write_orders(&rt, rt.alloc())?;
    Ok(code)
}

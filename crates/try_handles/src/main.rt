//! Makes the calls that lines name, of file handles and mounts, listings, paths and openings, maps and identities, over
//! trees in memory, and prints each line as it was read with what it is answered.
//!
//! A line `== NAME` begins a case, with everything new: one line `set seat UID GID CAPS` (0 0 511 where there is
//! none), tree lines (`mount 1 1 / 1` where there is none) and `fault` lines, all as a script has them, then calls.
//! `MountFds::new PREFIX` makes the case's table of mounts, the calls of `ReadDir` that make one make the case's one
//! reader, and those of `IdMap` and `XattrMap` its two maps, which begin without rules. Beside the calls of handles
//! stand the host's own as a report prints them, but those that change the seat, edits, and `seat`.
//!
//! `UnixCredentials::set`, `drop_effective_cap` and `ScopedUmask::new` open a scope, up to the line `restore` or the
//! end of the case: in it host calls, edits and `seat` alone may stand. At the end of a case the status of each
//! descriptor that is open is asked for and printed, and then the tree.
//!
//! A line that cannot be read, or may not stand where it does, is told as `bad line N` and is the last one: the
//! status is then 4.
#![tactic(auto)]

mod calls;
mod case;
mod hosts;
mod identities;
mod lines;
mod maps;
mod names;
mod scopes;
mod subject;

use std::io::{self, Read, Write};
use std::process::ExitCode;
use subject::{Ending, tell_cases};

fn main(rt: HostRuntime) -> io::Result<ExitCode> {
    let alloc = rt.alloc();
    let mut text = Vec::new(alloc);
    rt.reader().read_to_end(&mut text)?;
    let mut told = Vec::new(alloc);
    let ending = tell_cases(alloc, text.as_slice(), &mut told)?;
    io::writer(&rt).write_all(told.as_slice())?;
    match ending {
        Ending::Good => Ok(ExitCode::SUCCESS),
        Ending::Bad => Ok(ExitCode::from(4)),
    }
}

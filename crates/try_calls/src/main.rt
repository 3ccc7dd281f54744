//! Makes the host calls that lines name on trees in memory, and prints what each is answered; behind them the events
//! of sessions, in the same way.
//!
//! A line `== NAME` begins a case, with a new tree: the lines of a tree as a script has them, then `fault CALL
//! ERRNO`, `seat NAME UID GID CAPS` (a new seat, which makes the calls from here on; `root` is there), `as NAME` (an
//! earlier seat makes them), `who` (prints that seat), `edit` lines as a script has them, `list` (prints the tree)
//! and calls, as a report prints them. A part `%*N*B` of a line stands for N times the byte that B writes.
//!
//! Behind a line `=== events` each case has a session: a line `session LIMIT..` begins its tables, with a limit of
//! slots
//! for each class. Then come events, as a report prints them; `for FROM TO EVENT` makes the event with each number
//! from FROM to below TO in the place of
//! its `@`, and prints the first reply, the last one and how many were refusals; `tables` prints the tables, which
//! are printed at the end of each case too.
//!
//! An empty line and one that begins with `#` are passed over. What is no line, or may not stand where it does, is
//! printed behind `bad`.
#![tactic(auto)]

mod calls;
mod events;
mod subject;
mod trouble;

use std::io::{self, BufRead, BufReader, BufWriter, Write};
use subject::Subject;

fn main(rt: HostRuntime) -> io::Result<()> {
    let alloc = rt.alloc();
    let mut output = BufWriter::new(alloc, io::writer(&rt))?;
    let mut subject = Subject::calls(alloc)?;
    for line in BufReader::new(alloc, rt.reader())?.lines(alloc) {
        let mut told = Vec::new(alloc);
        subject.take_line(alloc, line?.as_str().as_bytes(), &mut told)?;
        output.write_all(told.as_slice())?;
    }
    let mut told = Vec::new(alloc);
    subject.finish(&mut told)?;
    output.write_all(told.as_slice())?;
    output.flush()
}

use crate::trouble::Trouble;
use crate::{calls, events};
use pt_text::push_text;
use std::alloc::{AllocError, Global};

/// The case whose lines come, of calls or of events.
#[derive(Drop)]
pub enum Subject {
    Calls(calls::Case),
    Events(events::Case),
}

// A line as it was given.
fn push_line(out: &mut Vec<u8>, line: &[u8]) -> Result<(), AllocError> {
    push_text(out, line)?;
    push_text(out, b"\n")
}

impl Subject {
    /// No case of calls, so that no line of one may stand.
    pub fn calls(alloc: Global) -> Result<Self, AllocError> {
        Ok(Subject::Calls(calls::Case::none(alloc)?))
    }

    // Cases of events come from here on.
    fn turn_to_events(&mut self, alloc: Global, out: &mut Vec<u8>) -> Result<(), AllocError> {
        self.finish(out)?;
        *self = Subject::Events(events::Case::none(alloc));
        Ok(())
    }

    // Ends the case, and begins another of the same kind.
    fn begin_case(&mut self, alloc: Global, out: &mut Vec<u8>) -> Result<(), AllocError> {
        self.finish(out)?;
        match self {
            Subject::Calls(case) => *case = calls::Case::new(alloc)?,
            Subject::Events(case) => *case = events::Case::none(alloc),
        }
        Ok(())
    }

    // A line of the case.
    fn take(&mut self, alloc: Global, line: &[u8], out: &mut Vec<u8>) -> Result<(), Trouble> {
        match self {
            Subject::Calls(case) => calls::take(alloc, case, line, out),
            Subject::Events(case) => events::take(case, line, out),
        }
    }

    // A line of the case, which is told where it is bad.
    fn take_or_tell(
        &mut self,
        alloc: Global,
        line: &[u8],
        out: &mut Vec<u8>,
    ) -> Result<(), AllocError> {
        match self.take(alloc, line, out) {
            Ok(()) => Ok(()),
            Err(Trouble::Memory) => Err(AllocError),
            Err(Trouble::Bad) => {
                push_text(out, b"bad ")?;
                push_line(out, line)
            }
        }
    }

    /// What a line does to the case, and what it tells, which is put behind `out`.
    pub fn take_line(
        &mut self,
        alloc: Global,
        line: &[u8],
        out: &mut Vec<u8>,
    ) -> Result<(), AllocError> {
        if line.is_empty() || line.starts_with(b"#") {
            return Ok(());
        }
        if line == b"=== events".as_slice() {
            self.turn_to_events(alloc, out)?;
            return push_line(out, line);
        }
        if line.starts_with(b"== ") {
            self.begin_case(alloc, out)?;
            return push_line(out, line);
        }
        self.take_or_tell(alloc, line, out)
    }

    /// What is left to tell at the end of a case.
    pub fn finish(&mut self, out: &mut Vec<u8>) -> Result<(), AllocError> {
        match self {
            Subject::Calls(case) => calls::settle(case, out),
            Subject::Events(case) => case.push_tables(out),
        }
    }
}

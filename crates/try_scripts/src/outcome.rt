use crate::case::Case;
use pt_run::{MemSink, MemSource, Status, run};
use std::alloc::{AllocError, Global};

/// What came of the cases so far, as text.
#[derive(Drop)]
pub struct Outcomes {
    text: Vec<u8>,
    // Memory was wanting somewhere.
    ran_out: bool,
}

impl Outcomes {
    pub fn new(alloc: Global) -> Self {
        Outcomes {
            text: Vec::new(alloc),
            ran_out: false,
        }
    }

    pub fn as_slice(&self) -> &[u8] {
        self.text.as_slice()
    }

    /// The exit status: 9, as the program's, where memory ran out in a case, else 0.
    pub fn exit_code(&self) -> u8 {
        if self.ran_out {
            Status::NoMemory.exit_code()
        } else {
            Status::Done.exit_code()
        }
    }

    /// A line that stands in no case.
    pub fn push_bad(&mut self, line: &[u8]) -> Result<(), AllocError> {
        self.text.extend_from_slice(b"in no case: ")?;
        self.text.extend_from_slice(line)
    }

    /// Runs a case, and appends its name and what came of it.
    pub fn push(&mut self, alloc: Global, case: Option<Case>) -> Result<(), AllocError> {
        let Some(case) = case else {
            return Ok(());
        };
        self.text.extend_from_slice(b"== ")?;
        self.text.extend_from_slice(case.name.as_slice())?;
        self.text.extend_from_slice(b"\n")?;
        if case.is_bad {
            return self.text.extend_from_slice(b"bad case\n");
        }
        self.push_run(alloc, case)
    }

    // The report of the script, where the run has one, and the line of a run that is not done, with the process'
    // status before it.
    fn push_run(&mut self, alloc: Global, case: Case) -> Result<(), AllocError> {
        let ends_alone = case.ends_alone;
        let words = vec![in alloc; String::from_str(alloc, "script")?]?;
        let mut input = MemSource::new(case.into_script(), Vec::new(alloc));
        let mut output = MemSink::new(alloc, Vec::new(alloc));
        let status = run(alloc, words.as_slice(), &mut input, &mut output);
        if matches!(status, Status::Done | Status::CredentialsLost) {
            self.push_report(output.as_slice(), ends_alone)?;
        }
        if status == Status::Done {
            return Ok(());
        }
        // A sink in memory fails where none is left.
        self.ran_out |= matches!(status, Status::NoMemory | Status::WriteFault);
        let line = format!(in alloc; "{}: {status}\n", status.exit_code())?;
        self.text.extend_from_slice(line.as_bytes())
    }

    // A report, or what it says behind its steps.
    fn push_report(&mut self, report: &[u8], ends_alone: bool) -> Result<(), AllocError> {
        self.ran_out |= tells_of_memory(report);
        let shown = if ends_alone {
            behind_steps(report)
        } else {
            report
        };
        self.text.extend_from_slice(shown)
    }
}

// What a report says behind its steps.
fn behind_steps(report: &[u8]) -> &[u8] {
    match report
        .windows(9)
        .position(|part| part == b"\nanswer 0".as_slice())
    {
        Some(place) => &report[place + 1..],
        None => report,
    }
}

// A reply or an answer of the report tells that memory ran out.
fn tells_of_memory(report: &[u8]) -> bool {
    let told = |word: &[u8]| report.windows(word.len()).any(|part| part == word);
    told(b" NoMemory") || told(b" NoCopy") || told(b" Refused Memory")
}

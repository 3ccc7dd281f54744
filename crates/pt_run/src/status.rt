ghost use Rattle.std.specs.Prelude.{◌≡◌, ◌≤◌, Some, OnOk, OnErr};
ghost use Rattle.pt_host.specs.Promises.{HasRisen};
ghost use Rattle.pt_run.specs.Output.{IsWritten, IsFrontWritten};
ghost use Rattle.pt_run.specs.Passing.{with_number};
ghost use Rattle.pt_run.specs.Status.{exit_of, message_of, is_done, status_line};

use crate::output::push_all;
use crate::streams::{Failed, Sink};
use itoa::Buffer;
use pt_host::Errno;
use std::fmt;

/// How the program ends.
#[derive(Clone, Copy, Debug, PartialEq, Eq)]
pub enum Status {
    Done,
    /// The words of the command line are none that the program knows.
    Usage,
    /// The script has more bytes than `MAX_SCRIPT`.
    TooLong,
    /// The first line, from 1, up to which the lines begin no script.
    BadScript(u32),
    /// The file system was refused with this error.
    BadConfig(Errno),
    ReadFault,
    WriteFault,
    /// The seat of a job could not be restored; the report is that of what is left.
    CredentialsLost,
    NoMemory,
}

impl Status {
    /// The exit status of the process.
    pub fn exit_code(self) -> u8
        ensures { result ≡ exit_of self }
    {
        match self {
            Status::Done => 0,
            Status::Usage => 2,
            Status::TooLong => 3,
            Status::BadScript(_) => 4,
            Status::BadConfig(_) => 5,
            Status::ReadFault => 6,
            Status::WriteFault => 7,
            Status::CredentialsLost => 8,
            Status::NoMemory => 9,
        }
    }

    // What it says, and the number behind that.
    fn message(self) -> (&'static str, Option<i64>)
        ensures { with_number result.0.now result.1 ≡ message_of self }
    {
        match self {
            Status::Done => ("", None),
            Status::Usage => ("usage: pt_main script | gen N SEED", None),
            Status::TooLong => ("script too long", None),
            Status::BadScript(line) => ("bad script at line ", Some(i64::from(line))),
            Status::BadConfig(errno) => ("bad configuration: os error ", Some(i64::from(errno.0))),
            Status::ReadFault => ("read fault", None),
            Status::WriteFault => ("write fault", None),
            Status::CredentialsLost => ("credentials lost", None),
            Status::NoMemory => ("no memory", None),
        }
    }

    // Writes what it says, for which it takes no memory.
    #[tactic(auto, using(crate::proofs::Outputs::written_behind, crate::proofs::Outputs::front_before))]
    fn push_message<O: Sink>(self, output: &mut O) -> Result<(), Failed>
        ensures ok { OnOk result (IsWritten (O.written output.old) (message_of self) (O.written output.new)) }
        ensures err { OnErr result (IsFrontWritten (O.written output.old) (message_of self) (O.written output.new)) }
        ensures fault { OnErr result (HasRisen (O.faults output.old) (O.faults output.new)) }
        ensures never_falls { O.faults output.old ≤ O.faults output.new }
    {
        let (text, number) = self.message();
        push_all(output, text.as_bytes())?;
        match number {
            Some(number) => push_all(output, Buffer::new().format(number).as_bytes()),
            None => Ok(()),
        }
    }

    fn is_done(self) -> bool
        ensures { result ≡ is_done self }
    {
        matches!(self, Status::Done)
    }

    /// Writes the line of it, which `Done` has not, and takes no memory for that.
    #[tactic(auto, using(crate::proofs::Outputs::written_behind))]
    pub fn push_line<O: Sink>(self, output: &mut O) -> Result<(), Failed>
        ensures ok { OnOk result (IsWritten (O.written output.old) (status_line self) (O.written output.new)) }
        ensures err { OnErr result (IsFrontWritten (O.written output.old) (status_line self) (O.written output.new)) }
        ensures fault { OnErr result (HasRisen (O.faults output.old) (O.faults output.new)) }
        ensures never_falls { O.faults output.old ≤ O.faults output.new }
    {
        if self.is_done() {
            return Ok(());
        }
        self.push_message(output)?;
        push_all(output, b"\n")
    }
}

/// What its line says.
impl fmt::Display for Status {
    ghost output = { λ status. Some (message_of status) };

    fn fmt<W: fmt::Write>(&self, f: &mut fmt::Formatter<W>) -> fmt::Result {
        match self.message() {
            (text, Some(number)) => write!(f, "{text}{number}"),
            (text, None) => f.write_str(text),
        }
    }
}

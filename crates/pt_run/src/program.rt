ghost use Rattle.std.specs.Prelude.{◌≡◌, ◌≢◌, ◌≤◌, ◌<◌, ◌↔◌, List, ℕ, length, map, string_bytes};
ghost use Rattle.pt_host.specs.Promises.{HasRisen};
ghost use Rattle.pt_host.specs.declared.ids.Errno.{Errno};
ghost use Rattle.pt_run.specs.Streams.{IsAtEnd, IsLonger};
ghost use Rattle.pt_run.specs.Determined.{DeterminesReport};
ghost use Rattle.pt_run.specs.Alike.{TellsRun};
ghost use Rattle.pt_run.specs.Output.{IsWritten, IsFrontWritten};
ghost use Rattle.pt_run.specs.Command.{AskFor};
ghost use Rattle.pt_run.specs.Counted.{IsCountOf, EndsCounted};
ghost use Rattle.pt_run.specs.Run.{IsReportOf, IsReportWith, IsNoReport, IsReportFrom, IsReadWith, IsNoReportFrom};
ghost use Rattle.pt_run.specs.Run.{WritesNone};

use crate::command::{Command, command_of};
use crate::input::{InputError, read_script};
use crate::make_counts::counts_of_generated;
use crate::make_report::report_of_script;
use crate::output::push_all;
use crate::status::Status;
use crate::streams::{Sink, Source};
use std::alloc::Global;

// Writes the report of the script that these bytes are.
fn write_report<O: Sink>(alloc: Global, bytes: &[u8], output: &mut O) -> Status
    requires { length bytes.now ≤ 16777216 }
    ensures done { result ≡ Status.Done → (report : List ℕ) × IsReportWith bytes.now Status.Done report
        × IsWritten (O.written output.old) report (O.written output.new) }
    ensures lost { result ≡ Status.CredentialsLost → (report : List ℕ)
        × IsReportWith bytes.now Status.CredentialsLost report
        × IsWritten (O.written output.old) report (O.written output.new) }
    ensures write_fault { result ≡ Status.WriteFault → (report : List ℕ) × IsReportOf bytes.now report
        × IsFrontWritten (O.written output.old) report (O.written output.new) }
    ensures write_fault_rose { result ≡ Status.WriteFault → HasRisen (O.faults output.old) (O.faults output.new) }
    ensures others { WritesNone result → IsNoReport bytes.now result }
    ensures nothing_written { WritesNone result → O.written output.new ≡ O.written output.old }
    ensures no_fault { result ≢ Status.WriteFault → O.faults output.new ≡ O.faults output.old }
    ensures never_falls { O.faults output.old ≤ O.faults output.new }
{
    let report = match report_of_script(alloc, bytes) {
        Ok(report) => report,
        Err(status) => return status,
    };
    match push_all(output, report.text.as_slice()) {
        Ok(()) => report.ends,
        Err(_) => Status::WriteFault,
    }
}

// Writes the counts of a run of so many jobs, which this seed gives.
fn write_counts<O: Sink>(alloc: Global, jobs: u32, seed: u64, output: &mut O) -> Status
    requires some { 0 < jobs }
    ensures done { result ≡ Status.Done → (lines : List ℕ) × IsCountOf jobs seed lines
        × IsWritten (O.written output.old) lines (O.written output.new) }
    ensures write_fault { result ≡ Status.WriteFault → (lines : List ℕ) × IsCountOf jobs seed lines
        × IsFrontWritten (O.written output.old) lines (O.written output.new) }
    ensures write_fault_rose { result ≡ Status.WriteFault → HasRisen (O.faults output.old) (O.faults output.new) }
    ensures ends { EndsCounted result }
    ensures nothing_written { WritesNone result → O.written output.new ≡ O.written output.old }
    ensures no_fault { result ≢ Status.WriteFault → O.faults output.new ≡ O.faults output.old }
{
    let lines = match counts_of_generated(alloc, jobs, seed) {
        Ok(lines) => lines,
        Err(_) => return Status::NoMemory,
    };
    match push_all(output, lines.as_slice()) {
        Ok(()) => Status::Done,
        Err(_) => Status::WriteFault,
    }
}

// Reads the script, runs it and writes the report.
fn run_script<I: Source, O: Sink>(alloc: Global, input: &mut I, output: &mut O) -> Status
    ensures done { result ≡ Status.Done → (report : List ℕ) × IsReadWith (I.left input.old) Status.Done report
        × IsWritten (O.written output.old) report (O.written output.new) }
    ensures lost_seat { result ≡ Status.CredentialsLost → (report : List ℕ)
        × IsReadWith (I.left input.old) Status.CredentialsLost report
        × IsWritten (O.written output.old) report (O.written output.new) }
    ensures read_whole { result ≡ Status.Done → IsAtEnd (I.left input.new) }
    ensures read_whole_lost { result ≡ Status.CredentialsLost → IsAtEnd (I.left input.new) }
    ensures usage { result ≢ Status.Usage }
    ensures too_long { result ≡ Status.TooLong → IsLonger 16777216 (I.left input.old) }
    ensures bad_script { (line : ℕ) → result ≡ Status.BadScript line →
        IsNoReportFrom (I.left input.old) (Status.BadScript line) }
    ensures bad_config { (errno : Errno) → result ≡ Status.BadConfig errno →
        IsNoReportFrom (I.left input.old) (Status.BadConfig errno) }
    ensures read_fault { result ≡ Status.ReadFault → HasRisen (I.faults input.old) (I.faults input.new) }
    ensures write_fault { result ≡ Status.WriteFault → (report : List ℕ) × IsReportFrom (I.left input.old) report
        × IsFrontWritten (O.written output.old) report (O.written output.new) }
    ensures write_fault_rose { result ≡ Status.WriteFault → HasRisen (O.faults output.old) (O.faults output.new) }
    ensures read_fault_told { result ≢ Status.ReadFault → I.faults input.new ≡ I.faults input.old }
    ensures write_fault_told { result ≢ Status.WriteFault → O.faults output.new ≡ O.faults output.old }
    ensures nothing_written { WritesNone result → O.written output.new ≡ O.written output.old }
{
    match read_script(alloc, input) {
        Ok(bytes) => write_report(alloc, bytes.as_slice(), output),
        Err(InputError::Fault) => Status::ReadFault,
        Err(InputError::TooLong) => Status::TooLong,
        Err(InputError::Memory) => Status::NoMemory,
    }
}

/// With the word `script` it reads the script, runs it and writes the report. With `gen N SEED` it reads nothing, runs
/// N jobs that the seed gives and writes what they count. Want of memory may end it at any time, as `NoMemory`.
#[tactic(auto, using(crate::proofs::Determined::only_from, crate::proofs::Told::told_from))]
pub fn run<I: Source, O: Sink>(
    alloc: Global,
    words: &[String],
    input: &mut I,
    output: &mut O,
) -> Status
    // With `script` the input was read to its end, and the report of one run of the script that it is stands in the
    // output; no seat was lost in that run.
    ensures done { AskFor (map string_bytes words.now) Command.Script → result ≡ Status.Done →
        (report : List ℕ) × IsReadWith (I.left input.old) Status.Done report
        × IsWritten (O.written output.old) report (O.written output.new) }
    // The same, of a run that lost a seat.
    ensures lost_seat { result ≡ Status.CredentialsLost → (report : List ℕ)
        × IsReadWith (I.left input.old) Status.CredentialsLost report
        × IsWritten (O.written output.old) report (O.written output.new) }
    // Where no reply and no answer of a run tells that memory ran out, what was read alone determines the report.
    ensures determined { DeterminesReport (I.left input.old) }
    // The bytes of a report tell its run, and of themselves whether they are the script's only report.
    ensures told { TellsRun (I.left input.old) }
    ensures read_whole { AskFor (map string_bytes words.now) Command.Script → result ≡ Status.Done →
        IsAtEnd (I.left input.new) }
    ensures read_whole_lost { result ≡ Status.CredentialsLost → IsAtEnd (I.left input.new) }

    // With `gen N SEED` the counts of one run of the jobs that the seed gives stand in the output.
    ensures counted { (jobs seed : ℕ) → AskFor (map string_bytes words.now) (Command.Generate jobs seed) →
        result ≡ Status.Done → (lines : List ℕ) × IsCountOf jobs seed lines
        × IsWritten (O.written output.old) lines (O.written output.new) }
    ensures counted_ends { (jobs seed : ℕ) → AskFor (map string_bytes words.now) (Command.Generate jobs seed) →
        EndsCounted result }
    // Only with `script` is anything read.
    ensures unread { (AskFor (map string_bytes words.now) Command.Script → ⊥) → input.new ≡ input.old }
    ensures usage { (result ≡ Status.Usage) ↔ ((command : Command) → AskFor (map string_bytes words.now) command → ⊥) }
    ensures too_long { result ≡ Status.TooLong → IsLonger 16777216 (I.left input.old) }
    ensures bad_script { (line : ℕ) → result ≡ Status.BadScript line →
        IsNoReportFrom (I.left input.old) (Status.BadScript line) }
    // A rule for ids that is set is refused; or the first call of the host, which makes the file system, was planned
    // to fail.
    ensures bad_config { (errno : Errno) → result ≡ Status.BadConfig errno →
        IsNoReportFrom (I.left input.old) (Status.BadConfig errno) }
    ensures read_fault { result ≡ Status.ReadFault → HasRisen (I.faults input.old) (I.faults input.new) }

    // A front of the report of one run stands in the output, or of its counts.
    ensures write_fault { AskFor (map string_bytes words.now) Command.Script → result ≡ Status.WriteFault →
        (report : List ℕ) × IsReportFrom (I.left input.old) report
        × IsFrontWritten (O.written output.old) report (O.written output.new) }
    ensures count_fault { (jobs seed : ℕ) → AskFor (map string_bytes words.now) (Command.Generate jobs seed) →
        result ≡ Status.WriteFault → (lines : List ℕ) × IsCountOf jobs seed lines
        × IsFrontWritten (O.written output.old) lines (O.written output.new) }
    ensures write_fault_rose { result ≡ Status.WriteFault → HasRisen (O.faults output.old) (O.faults output.new) }

    // A fault is told as what it is, and never as out of memory.
    ensures read_fault_told { result ≢ Status.ReadFault → I.faults input.new ≡ I.faults input.old }
    ensures write_fault_told { result ≢ Status.WriteFault → O.faults output.new ≡ O.faults output.old }

    ensures nothing_written { WritesNone result → O.written output.new ≡ O.written output.old }
{
    match command_of(words) {
        None => Status::Usage,
        Some(Command::Script) => run_script(alloc, input, output),
        Some(Command::Generate { jobs, seed }) => write_counts(alloc, jobs, seed, output),
    }
}

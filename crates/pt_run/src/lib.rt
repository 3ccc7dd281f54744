//! A run of a script, or of the jobs that a seed gives: the streams that are read from and written to, the report or
//! the counts, and how the program ends.
#![tactic(auto)]

mod command;
mod counts;
mod input;
mod laws;
mod make_counts;
mod make_report;
mod mem;
mod output;
mod process;
mod program;
mod report;
mod status;
mod std_streams;
mod streams;
mod table_lines;

pub use command::Command;
pub use input::{InputError, MAX_SCRIPT, read_script};
pub use laws::{report_determines_run, script_determines_report, seed_determines_counts};
pub use mem::{MemSink, MemSource};
pub use process::{end_process, run_process};
pub use program::run;
pub use status::Status;
pub use std_streams::{StdSink, StdSource};
pub use streams::{Failed, Sink, Source};

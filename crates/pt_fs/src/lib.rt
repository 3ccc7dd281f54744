//! The file system that takes its requests step by step, and `drive_into`, which runs many jobs over one host and one
//! file system in a given order, to their ends or to a lost seat, and writes each step down where it is made. `drive`
//! does so into a list.
#![tactic(auto)]

mod ends;
mod fs;
mod job;
mod jobs;
mod lost;
mod machine;
mod passthrough;
mod places;
mod record;
mod recorded;
mod room;
mod run;
mod schedule;
mod shared;
mod step;
mod trace;
mod turns;

pub use fs::SteppedFs;
pub use job::Job;
pub use passthrough::PassthroughFs;
pub use record::{Record, WrittenAct};
pub use recorded::{DriveIntoError, Left, drive_into};
pub use run::{DriveError, Driven, drive};
pub use trace::TraceStep;
pub use turns::{seats_follow, turns_are_determined};

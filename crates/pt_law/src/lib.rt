//! The laws of any disciplined run, whatever its jobs are for: contracts of functions that do nothing.
#![tactic(auto)]

mod course;
mod objects;
mod polite;
mod runs;
mod seating;
mod uses;

pub use course::{any_course, steps_told};
pub use objects::every_finding;
pub use polite::polite_guests;
pub use runs::{carried_descriptor, every_host, every_run, every_told_run};
pub use seating::{seats_in_runs, steps_seated};
pub use uses::{forgotten_nothing, forgotten_number, one_number, two_lookups};

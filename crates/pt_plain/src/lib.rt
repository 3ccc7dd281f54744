//! The file system without steps, and that jobs which run whole, one after another, are served by it: contracts of
//! functions that do nothing.
#![tactic(auto)]

mod plain;

pub use plain::whole_jobs_are_plain;

//! The plain file system with contents, and that jobs which run whole over the tree host, one after another, are
//! served by it: contracts of functions that do nothing.
#![tactic(auto)]

mod filled;

pub use filled::whole_jobs_are_filled;

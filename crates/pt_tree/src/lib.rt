//! A directory tree in memory that answers the calls of a host.
#![tactic(auto)]

mod host;
mod listing;
mod spec;
mod start;

pub use host::TreeHost;
pub use spec::{SpecError, TreeLine, TreeSpec};

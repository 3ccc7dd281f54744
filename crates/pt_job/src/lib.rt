//! The job of a file system: any request on its way, or an edit beside the requests; and one job taken whole.
#![tactic(auto)]

mod access;
mod body;
mod job;
mod laws;
mod serving;
mod state;
mod table;

pub use access::SessionAccess;
pub use body::AnyBody;
pub use job::AnyJob;
pub use laws::{
    jobs_are_determined, jobs_tend, no_memory_has_its_cause, requests_spare, requests_tend,
};
pub use serving::serve;
pub use state::JobState;

//! What each request owes: its tree is fit, what it refuses has its cause, and its entry names what its name led to.
//! Contracts of functions that do nothing.
#![tactic(auto)]

mod entry;
mod job;
mod run;
mod seats;
mod uses;

pub use entry::{create_opens, entry_opens};
pub use job::{asked_ends, each_request, edit_ends};
pub use run::all_answered;
pub use seats::asked_seated;
pub use uses::gone_number;

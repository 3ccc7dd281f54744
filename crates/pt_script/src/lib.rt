//! The grammar of scripts, and the parser that reads them: what is set, a tree, planned faults, jobs and the order of
//! their steps.
#![tactic(auto)]

mod edit;
mod id_rule;
mod jobs;
mod laws;
mod line;
mod name_rule;
mod new_objects;
mod scan;
mod script;
mod setting_line;
mod settings;
mod switches;
mod tree_line;

pub use edit::next_edit;
pub use id_rule::next_id_rule;
pub use jobs::{job_of, seat_of};
pub use laws::first_bad_line;
pub use line::{Line, PlannedFault, ScriptJob, next_fault, next_job, read_line};
pub use script::{ParseError, Script, parse};
pub use setting_line::next_identity;
pub use settings::{Identity, Setting, Settings};
pub use switches::{Switch, Switches};
pub use tree_line::next_tree_line;

//! What a call is refused for and what it changes, on nodes alone.
#![tactic(auto)]

pub mod attribute_checks;
pub mod contents;
pub mod edit_paths;
pub mod fd_paths;
pub mod name_checks;
pub mod node_edits;
pub mod opening_checks;
pub mod records;
pub mod rename_checks;

//! The store of a tree in memory, which answers the calls.
#![tactic(auto)]

pub mod answer;
pub mod attribute_calls;
pub mod building;
pub mod call_groups;
pub mod content_calls;
pub mod edits;
pub mod fd_path;
pub mod finding;
pub mod list_calls;
pub mod name_calls;
pub mod opening_calls;
pub mod plans;
pub mod rename_calls;
pub mod seat_calls;
pub mod store;

//! The nodes of a tree in memory: objects, names, attributes, permissions, openings, paths and numbers.
#![tactic(auto)]

pub mod attributes;
pub mod changes;
pub mod entries;
pub mod inodes;
pub mod links;
pub mod listing;
pub mod mounts;
pub mod names;
pub mod new_place;
pub mod node;
pub mod opening;
pub mod path;
pub mod permission;
pub mod reading;
pub mod slots;

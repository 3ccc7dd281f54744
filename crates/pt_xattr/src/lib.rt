//! Requests of extended attributes and of listings, by their parts.
#![tactic(auto)]

mod calls;
mod listed;
mod parts;
mod requests;
mod steps;

pub use parts::XattrFile;
pub use requests::{SetAsked, getxattr, listxattr, readdir, removexattr, setxattr};

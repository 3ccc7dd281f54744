//! The values of `pt_handles` in a line of a case: what its words are, and what is printed of an answer.
#![tactic(auto)]

mod answers;
mod fields;
mod trouble;

pub use answers::{
    push_equal, push_handle_error, push_handled, push_mount, push_mount_error, push_ok,
    push_openable, push_refusal, push_serial,
};
pub use fields::{
    end, last, next, next_errno, next_mount, next_mount_error, next_openable, next_serial,
};
pub use trouble::Trouble;

//! The words of a line of a script: its fields, one by one, and the requests that they ask for.
#![tactic(auto)]

mod attributes;
mod contents;
mod fields;
mod handles;
mod making;
mod naming;
mod numbers;
mod places;
mod request;
mod xattrs;

pub use fields::{
    LineError, end, next_bytes, next_errno, next_number, next_pairs, next_places, next_small,
    next_switch, next_word,
};
pub use places::Places;
pub use request::next_request;

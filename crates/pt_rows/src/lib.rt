//! Rows that are told apart by serials, found by keys while they are live, and stay for their pins.
#![tactic(auto)]

mod pinned;
mod rows;

pub use pinned::Pinned;
pub use rows::Rows;

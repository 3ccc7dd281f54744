//! The script that a seed gives: a guest that looks sixteen files up, forgets, tells and opens them, in any order.
#![tactic(auto)]

mod draws;
mod generated;

pub use draws::Draws;
pub use generated::{MAX_GENERATED, generate};

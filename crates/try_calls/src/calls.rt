mod case;
mod line;
mod long;
mod seats;

pub use case::Case;
pub use line::{settle, take};

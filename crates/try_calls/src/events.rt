mod case;
mod line;
mod many;

pub use case::Case;
pub use line::take;

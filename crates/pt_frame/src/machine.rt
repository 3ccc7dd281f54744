mod body;
mod framed;
mod giving;
mod going;
mod holding;
mod mode;

pub use body::{Body, ended};
pub use framed::Framed;
pub use holding::row_fd;

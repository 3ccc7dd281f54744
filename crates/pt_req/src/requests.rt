mod handles;
mod names;
mod session;

pub use handles::{open, opendir, read, release};
pub use names::{batch_forget, forget, lookup};
pub use session::{destroy, init, root};

//! What the guest asks and is answered, after the requests and replies of FUSE.
#![tactic(auto)]

mod answer;
mod directory;
mod entry;
mod flags;
mod forget;
mod length;
mod request;

pub use answer::{Answer, GetxattrReply, ListxattrReply, Refusal};
pub use directory::{DirEntries, DirEntry};
pub use entry::{Attr, Entry, Timeout};
pub use flags::{FsOptions, OpenOptions, SetattrValid, SetxattrFlags};
pub use forget::ForgetList;
pub use length::used_len;
pub use request::{Context, Extensions, Request, SecContext, SetattrIn};

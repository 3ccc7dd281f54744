//! Requests of names, attributes and contents, by their parts.
#![tactic(auto)]

mod calls;
mod grants;
mod parts;
mod replies;
mod requests;
mod steps;

pub use parts::{FileAsked, NamedHandle, ObjectAsked, or_refused, undone};
pub use requests::{
    CopyAsked, WriteAsked, access, copyfilerange, create, fallocate, flush, fsync, getattr, link,
    lseek, mkdir, mknod, readlink, rename, rmdir, setattr, statfs, symlink, syncfs, unlink, write,
};
pub use steps::{count_of, do_call};

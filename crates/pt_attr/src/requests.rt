mod attributes;
mod contents;
mod creating;
mod making;
mod names;

pub use attributes::{access, getattr, readlink, setattr, statfs};
pub use contents::{
    CopyAsked, WriteAsked, copyfilerange, fallocate, flush, fsync, lseek, syncfs, write,
};
pub use creating::create;
pub use making::{mkdir, mknod, symlink};
pub use names::{link, rename, rmdir, unlink};

ghost use Rattle.std.specs.Prelude.{◌≡◌, IfOk};

use crate::bytes::Bytes;
use std::alloc::{AllocError, Global};

/// A change that is made to a host's tree beside the requests. Paths begin at the root; no permission is asked.
#[derive(Debug, Drop)]
pub enum Edit {
    /// Takes a name away, as `unlink(2)`; an empty directory's too, as `rmdir(2)`.
    Unlink {
        path: Bytes,
    },
    /// `rename(2)`.
    Rename {
        old: Bytes,
        new: Bytes,
    },
    /// Makes a regular file that holds these bytes, as `open(2)` with `O_CREAT` and `O_EXCL`.
    File {
        path: Bytes,
        mode: u32,
        uid: u32,
        gid: u32,
        bytes: Bytes,
    },
    /// Makes an empty directory, as `mkdir(2)`.
    Dir {
        path: Bytes,
        mode: u32,
        uid: u32,
        gid: u32,
    },
    /// Gives a regular file new contents.
    Write {
        path: Bytes,
        bytes: Bytes,
    },
}

impl Edit {
    /// The same edit with bytes of its own.
    pub fn copy(&self, alloc: Global) -> Result<Edit, AllocError>
        ensures { IfOk result (λ copy. copy ≡ self.now) }
    {
        match self {
            Edit::Unlink { path } => {
                let path = path.copy(alloc)?;
                Ok(Edit::Unlink { path })
            }
            Edit::Rename { old, new } => {
                let old = old.copy(alloc)?;
                let new = new.copy(alloc)?;
                Ok(Edit::Rename { old, new })
            }
            Edit::File {
                path,
                mode,
                uid,
                gid,
                bytes,
            } => {
                let path = path.copy(alloc)?;
                let bytes = bytes.copy(alloc)?;
                Ok(Edit::File {
                    path,
                    mode: *mode,
                    uid: *uid,
                    gid: *gid,
                    bytes,
                })
            }
            Edit::Dir {
                path,
                mode,
                uid,
                gid,
            } => {
                let path = path.copy(alloc)?;
                Ok(Edit::Dir {
                    path,
                    mode: *mode,
                    uid: *uid,
                    gid: *gid,
                })
            }
            Edit::Write { path, bytes } => {
                let path = path.copy(alloc)?;
                let bytes = bytes.copy(alloc)?;
                Ok(Edit::Write { path, bytes })
            }
        }
    }
}

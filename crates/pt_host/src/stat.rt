use crate::ids::{ObjIds, Time};

/// The status of an object, as `statx(2)` tells it with its mount id.
#[derive(Clone, Copy, Debug)]
pub struct Stat {
    pub ids: ObjIds,
    pub mode: u32,
    pub nlink: u32,
    pub uid: u32,
    pub gid: u32,
    pub rdev: u32,
    pub size: u64,
    pub blksize: u32,
    pub blocks: u64,
    pub atime: Time,
    pub mtime: Time,
    pub ctime: Time,
}

/// The ported crate's name of a status with its mount id.
pub type StatExt = Stat;

/// The status of a file system, as `statvfs(3)` tells it.
#[derive(Clone, Copy, Debug)]
pub struct FsStat {
    /// In units of `frsize`, like `bfree` and `bavail`.
    pub blocks: u64,
    pub bfree: u64,
    /// What is free for those who are not privileged.
    pub bavail: u64,
    /// How many objects there can be.
    pub files: u64,
    pub ffree: u64,
    /// In bytes, like `frsize`.
    pub bsize: u32,
    /// The longest name, in bytes.
    pub namelen: u32,
    pub frsize: u32,
}

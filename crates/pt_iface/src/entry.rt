use pt_host::Time;

/// How long the guest may keep what it was told.
#[derive(Clone, Copy)]
pub struct Timeout {
    pub secs: u64,
    pub nanos: u32,
}

/// The attributes of an object, as `struct fuse_attr` has them.
#[derive(Clone, Copy)]
pub struct Attr {
    pub ino: u64,
    pub size: u64,
    pub blocks: u64,
    pub atime: Time,
    pub mtime: Time,
    pub ctime: Time,
    pub mode: u32,
    pub nlink: u32,
    pub uid: u32,
    pub gid: u32,
    pub rdev: u32,
    pub blksize: u32,
    /// `SUBMOUNT` where the object is the root of a mount that the guest may mount too, else 0.
    pub flags: u32,
}

impl Attr {
    /// `FUSE_ATTR_SUBMOUNT`.
    pub const SUBMOUNT: u32 = 1;
}

/// A number that was given to the guest, with the object's attributes, as `struct fuse_entry_out` has it.
#[derive(Clone, Copy)]
pub struct Entry {
    pub inode: u64,
    pub generation: u64,
    pub attr: Attr,
    pub attr_timeout: Timeout,
    pub entry_timeout: Timeout,
}

use crate::flags::{FsOptions, SetattrValid, SetxattrFlags};
use crate::forget::ForgetList;
use pt_host::Bytes;

/// Who asks, as the guest's kernel tells it.
#[derive(Clone, Copy)]
pub struct Context {
    pub uid: u32,
    pub gid: u32,
}

/// A security context for a new object: the extended attribute and its value, as `struct fuse_secctx` brings it.
#[derive(Drop)]
pub struct SecContext {
    pub name: Bytes,
    pub value: Bytes,
}

/// What a request that makes an object may bring beside, as `struct fuse_ext_header` announces it.
#[derive(Drop)]
pub struct Extensions {
    pub secctx: Option<SecContext>,
    /// A supplementary group of the guest's process, under which the object is made.
    pub sup_gid: Option<u32>,
}

/// New attributes, as `struct fuse_setattr_in` has them.
#[derive(Clone, Copy)]
pub struct SetattrIn {
    pub mode: u32,
    pub uid: u32,
    pub gid: u32,
    pub size: u64,
    /// Seconds since the epoch, taken as signed, like `mtime`.
    pub atime: u64,
    pub atimensec: u32,
    pub mtime: u64,
    pub mtimensec: u32,
}

/// What the guest asks: the messages of FUSE. Offsets, sizes and lengths are in bytes, modes are those of `inode(7)`,
/// and the flags of what opens or writes those of `open(2)`. `kill` says that set-id bits are to be cleared as for a
/// caller without CAP_FSETID.
#[derive(Drop)]
pub enum Request {
    /// Begins a session, `FUSE_INIT`.
    Init {
        capable: FsOptions,
    },
    /// Ends the session, `FUSE_DESTROY`.
    Destroy,
    /// Opens the shared directory and numbers it 1. No guest asks this: the daemon does.
    Root,
    /// Looks a name up in a directory, and gives its number once more, `FUSE_LOOKUP`.
    Lookup {
        parent: u64,
        name: Bytes,
    },
    /// Takes back so many of what was given of a number, `FUSE_FORGET`.
    Forget {
        inode: u64,
        count: u64,
    },
    /// The same for each number of a list, `FUSE_BATCH_FORGET`.
    BatchForget {
        list: ForgetList,
    },
    /// `FUSE_OPEN`.
    Open {
        inode: u64,
        kill: bool,
        flags: u32,
    },
    /// `FUSE_OPENDIR`.
    OpenDir {
        inode: u64,
        flags: u32,
    },
    /// Ends a handle of a file, `FUSE_RELEASE`.
    Release {
        inode: u64,
        handle: u64,
    },
    /// Ends a handle of a directory, `FUSE_RELEASEDIR`.
    ReleaseDir {
        inode: u64,
        handle: u64,
    },
    /// `FUSE_READ`.
    Read {
        inode: u64,
        handle: u64,
        size: u32,
        offset: u64,
    },
    /// `FUSE_WRITE`. A delayed write comes from the guest's page cache, and its flags are those of the handle.
    Write {
        inode: u64,
        handle: u64,
        offset: u64,
        bytes: Bytes,
        delayed: bool,
        kill: bool,
        flags: u32,
    },
    /// Makes a regular file and opens it, `FUSE_CREATE`.
    Create {
        parent: u64,
        name: Bytes,
        mode: u32,
        kill: bool,
        flags: u32,
        umask: u32,
        ext: Extensions,
    },
    /// Makes a directory, `FUSE_MKDIR`.
    Mkdir {
        parent: u64,
        name: Bytes,
        mode: u32,
        umask: u32,
        ext: Extensions,
    },
    /// Makes an object of the kind that the mode names, `FUSE_MKNOD`. `rdev` is a device number as `mknod(2)` takes it.
    Mknod {
        parent: u64,
        name: Bytes,
        mode: u32,
        rdev: u32,
        umask: u32,
        ext: Extensions,
    },
    /// Makes a symbolic link, `FUSE_SYMLINK`.
    Symlink {
        target: Bytes,
        parent: u64,
        name: Bytes,
        ext: Extensions,
    },
    /// Gives an object one more name, `FUSE_LINK`.
    Link {
        inode: u64,
        newparent: u64,
        newname: Bytes,
    },
    /// Takes a name of an object that is no directory away, `FUSE_UNLINK`.
    Unlink {
        parent: u64,
        name: Bytes,
    },
    /// Takes an empty directory away, `FUSE_RMDIR`.
    Rmdir {
        parent: u64,
        name: Bytes,
    },
    /// `FUSE_RENAME2`, with the flags of `renameat2(2)`.
    Rename {
        olddir: u64,
        oldname: Bytes,
        newdir: u64,
        newname: Bytes,
        flags: u32,
    },
    /// Tells the target of a symbolic link, `FUSE_READLINK`.
    Readlink {
        inode: u64,
    },
    /// Tells the status of the file system that holds the object, `FUSE_STATFS`.
    StatFs {
        inode: u64,
    },
    /// `FUSE_GETATTR`.
    GetAttr {
        inode: u64,
    },
    /// `FUSE_SETATTR`.
    SetAttr {
        inode: u64,
        handle: Option<u64>,
        valid: SetattrValid,
        attr: SetattrIn,
    },
    /// Asks for permission, `FUSE_ACCESS`, with the mask of `access(2)`.
    Access {
        inode: u64,
        mask: u32,
    },
    /// `FUSE_READDIR`. The offset is one that an entry told, or 0.
    ReadDir {
        inode: u64,
        handle: u64,
        size: u32,
        offset: u64,
    },
    /// A descriptor of the guest's for this handle was closed, `FUSE_FLUSH`.
    Flush {
        inode: u64,
        handle: u64,
    },
    /// `FUSE_FSYNC`. `datasync` leaves out what only `fsync(2)` writes.
    Fsync {
        inode: u64,
        handle: u64,
        datasync: bool,
    },
    /// The same for a handle of a directory, `FUSE_FSYNCDIR`.
    FsyncDir {
        inode: u64,
        handle: u64,
        datasync: bool,
    },
    /// Writes out the file system that holds the object, `FUSE_SYNCFS`.
    SyncFs {
        inode: u64,
    },
    /// `FUSE_FALLOCATE`, with the mode of `fallocate(2)`.
    Fallocate {
        inode: u64,
        handle: u64,
        mode: u32,
        offset: u64,
        length: u64,
    },
    /// `FUSE_LSEEK`, with the `whence` of `lseek(2)`. The offset is taken as signed.
    Lseek {
        inode: u64,
        handle: u64,
        offset: u64,
        whence: u32,
    },
    /// `FUSE_COPY_FILE_RANGE`, from the first handle to the second.
    CopyFileRange {
        inode: u64,
        handle: u64,
        offset: u64,
        inode2: u64,
        handle2: u64,
        offset2: u64,
        length: u64,
        flags: u64,
    },
    /// Sets an extended attribute, `FUSE_SETXATTR`, with the flags of `setxattr(2)`.
    SetXattr {
        inode: u64,
        name: Bytes,
        value: Bytes,
        flags: u32,
        extra: SetxattrFlags,
    },
    /// Tells an extended attribute, `FUSE_GETXATTR`, or its length where the size is 0.
    GetXattr {
        inode: u64,
        name: Bytes,
        size: u32,
    },
    /// Tells the names of the extended attributes, `FUSE_LISTXATTR`, or their length where the size is 0.
    ListXattr {
        inode: u64,
        size: u32,
    },
    /// `FUSE_REMOVEXATTR`.
    RemoveXattr {
        inode: u64,
        name: Bytes,
    },
    /// A message that this file system does not know, by its number.
    Other {
        opcode: u32,
    },
}

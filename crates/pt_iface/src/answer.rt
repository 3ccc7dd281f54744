use crate::directory::DirEntries;
use crate::entry::{Attr, Entry, Timeout};
use crate::flags::{FsOptions, OpenOptions};
use pt_host::{Bytes, Errno, FsStat};

/// What a request is answered.
#[derive(Drop)]
pub enum Answer {
    /// The guest waits for none.
    NoReply,
    /// A header alone, `struct fuse_out_header`.
    Done,
    /// What was agreed on, `struct fuse_init_out`.
    Inited(FsOptions),
    /// `struct fuse_entry_out`.
    Entry(Entry),
    /// A handle, `struct fuse_open_out`.
    Opened(u64, OpenOptions),
    /// `struct fuse_entry_out`, then `struct fuse_open_out` with the handle.
    Created(Entry, u64, OpenOptions),
    /// `struct fuse_attr_out`.
    Attr(Attr, Timeout),
    /// The bytes that were read.
    Read(Bytes),
    /// How many bytes were written, `struct fuse_write_out`.
    Wrote(u64),
    /// The target of a symbolic link.
    Link(Bytes),
    /// `struct fuse_statfs_out`.
    FsStat(FsStat),
    /// A `struct fuse_dirent` with its name for each entry.
    Listing(DirEntries),
    Xattr(GetxattrReply),
    Xattrs(ListxattrReply),
    /// A place in bytes, `struct fuse_lseek_out`.
    Offset(u64),
    /// An edit of the tree was made. No guest asks for one.
    Edited,
    /// An edit of the tree was refused.
    EditRefused(Errno),
    /// A header alone, with this error number.
    Refused(Errno),
    /// A header alone, with `ENOMEM`.
    NoMemory,
    /// The run ended before the request did, since another job lost its seat.
    Cut,
}

/// An extended attribute, or how long it is.
#[derive(Drop)]
pub enum GetxattrReply {
    Value(Bytes),
    /// In bytes, `struct fuse_getxattr_out`.
    Count(u32),
}

/// The names of an object's extended attributes, or how long they are together.
#[derive(Drop)]
pub enum ListxattrReply {
    /// Each ends with a NUL.
    Names(Bytes),
    /// In bytes, `struct fuse_getxattr_out`.
    Count(u32),
}

/// Why a method of the file system gave no answer.
#[derive(Clone, Copy, Debug)]
pub enum Refusal {
    Errno(Errno),
    Memory,
    /// The seat could not be restored: this is what the first restoring call was answered.
    Lost(Errno),
}

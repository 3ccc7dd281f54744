use crate::bytes::Bytes;
use crate::edit::Edit;
use crate::flags::{Caps, OpenFlags};
use crate::groups::GroupList;
use crate::handle::CFileHandle;
use crate::ids::{Fd, TimeSet};

/// A call of the host, whose bytes are borrowed.
#[derive(Drop)]
pub enum HostOp<'a> {
    /// `open(2)` of a path from the root.
    OpenRoot {
        path: &'a [u8],
        flags: OpenFlags,
    },
    /// `openat(2)` of a path, which begins at the descriptor where it is relative.
    OpenPath {
        fd: Fd,
        path: &'a [u8],
        flags: OpenFlags,
    },
    /// `openat(2)` of one name.
    OpenAt {
        fd: Fd,
        name: &'a [u8],
        flags: OpenFlags,
        mode: u32,
    },
    /// `open(2)` of what a descriptor is open on, by its link in `/proc`.
    Reopen {
        fd: Fd,
        flags: OpenFlags,
    },
    /// `open_by_handle_at(2)`, on the mount that the descriptor is on.
    OpenByHandle {
        fd: Fd,
        handle: &'a CFileHandle,
        flags: OpenFlags,
    },
    /// `close(2)`: the descriptor ends whatever is answered.
    Close {
        fd: Fd,
    },
    /// `statx(2)` of a descriptor.
    Stat {
        fd: Fd,
    },
    /// `name_to_handle_at(2)` of a descriptor.
    HandleOf {
        fd: Fd,
    },
    /// `fstatvfs(3)`.
    StatFs {
        fd: Fd,
    },
    /// `readlinkat(2)` of a descriptor.
    ReadLink {
        fd: Fd,
    },
    /// The path of what a descriptor is open on, by its link in `/proc`.
    FdPath {
        fd: Fd,
    },
    /// The text of `/proc/self/mountinfo`, as `proc(5)` has it.
    MountInfo,
    /// `mkdirat(2)`.
    MakeDir {
        fd: Fd,
        name: &'a [u8],
        mode: u32,
    },
    /// `mknodat(2)`.
    MakeNode {
        fd: Fd,
        name: &'a [u8],
        mode: u32,
        rdev: u32,
    },
    /// `linkat(2)` of what `from` is open on.
    MakeLink {
        from: Fd,
        fd: Fd,
        name: &'a [u8],
    },
    /// `symlinkat(2)`.
    SymLink {
        fd: Fd,
        name: &'a [u8],
        target: &'a [u8],
    },
    /// `unlinkat(2)`.
    Unlink {
        fd: Fd,
        name: &'a [u8],
    },
    /// `unlinkat(2)` with `AT_REMOVEDIR`.
    RemoveDir {
        fd: Fd,
        name: &'a [u8],
    },
    /// `renameat2(2)`.
    Rename {
        fd: Fd,
        name: &'a [u8],
        fd2: Fd,
        name2: &'a [u8],
        flags: u32,
    },
    /// `pread(2)`.
    ReadAt {
        fd: Fd,
        offset: u64,
        size: u32,
    },
    /// `pwritev2(2)`, with `RWF_APPEND` where `append` is set.
    WriteAt {
        fd: Fd,
        offset: u64,
        bytes: &'a [u8],
        append: bool,
    },
    /// `ftruncate(2)`.
    Truncate {
        fd: Fd,
        size: u64,
    },
    /// `fallocate(2)`.
    Allocate {
        fd: Fd,
        mode: u32,
        offset: u64,
        length: u64,
    },
    /// `lseek(2)`.
    Seek {
        fd: Fd,
        offset: i64,
        whence: u32,
    },
    /// `copy_file_range(2)`.
    CopyRange {
        fd: Fd,
        offset: u64,
        fd2: Fd,
        offset2: u64,
        length: u64,
        flags: u64,
    },
    /// `getdents64(2)`, from the offset on where there is one, and else from the descriptor's position.
    ListAt {
        fd: Fd,
        offset: Option<u64>,
        size: u32,
    },
    /// A copy of the descriptor is made and closed, by which a file system writes what it holds back.
    Flush {
        fd: Fd,
    },
    /// `fsync(2)`, or `fdatasync(2)` where `datasync` is set.
    Sync {
        fd: Fd,
        datasync: bool,
    },
    /// `syncfs(2)`.
    SyncFs {
        fd: Fd,
    },
    /// `fchmod(2)`. Here and below a call that goes `through` goes by the descriptor's link in `/proc`.
    ChMod {
        fd: Fd,
        through: bool,
        mode: u32,
    },
    /// `fchownat(2)` of a descriptor; 4294967295 leaves an id as it is.
    ChOwn {
        fd: Fd,
        uid: u32,
        gid: u32,
    },
    /// `utimensat(2)` of a descriptor.
    SetTimes {
        fd: Fd,
        through: bool,
        atime: TimeSet,
        mtime: TimeSet,
    },
    /// `setxattr(2)`.
    SetXattr {
        fd: Fd,
        through: bool,
        name: &'a [u8],
        value: &'a [u8],
        flags: u32,
    },
    /// `getxattr(2)`; with no size it tells how long the value is.
    GetXattr {
        fd: Fd,
        through: bool,
        name: &'a [u8],
        size: u32,
    },
    /// `listxattr(2)`; with no size it tells how long the list is.
    ListXattr {
        fd: Fd,
        through: bool,
        size: u32,
    },
    /// `removexattr(2)`.
    RemoveXattr {
        fd: Fd,
        through: bool,
        name: &'a [u8],
    },
    /// `setgroups(2)`.
    SetGroups {
        list: &'a [u32],
    },
    /// The same, to this group alone.
    SetGroup {
        group: u32,
    },
    /// `setegid(2)`.
    SetEgid {
        gid: u32,
    },
    /// `seteuid(2)`.
    SetEuid {
        uid: u32,
    },
    /// Makes capabilities effective, as `capset(2)`.
    RaiseCap {
        caps: Caps,
    },
    /// Makes capabilities not effective, as `capset(2)`.
    DropCap {
        caps: Caps,
    },
    /// `umask(2)`.
    SetUmask {
        mask: u32,
    },
    /// A change that somebody else makes to the tree. Whose seat it is called with does not matter.
    Edit(&'a Edit),
}

/// A call of the host that owns its bytes.
#[derive(Drop)]
pub enum KeptHostOp {
    OpenRoot {
        path: Bytes,
        flags: OpenFlags,
    },
    OpenPath {
        fd: Fd,
        path: Bytes,
        flags: OpenFlags,
    },
    OpenAt {
        fd: Fd,
        name: Bytes,
        flags: OpenFlags,
        mode: u32,
    },
    Reopen {
        fd: Fd,
        flags: OpenFlags,
    },
    OpenByHandle {
        fd: Fd,
        handle: CFileHandle,
        flags: OpenFlags,
    },
    Close {
        fd: Fd,
    },
    Stat {
        fd: Fd,
    },
    HandleOf {
        fd: Fd,
    },
    StatFs {
        fd: Fd,
    },
    ReadLink {
        fd: Fd,
    },
    FdPath {
        fd: Fd,
    },
    MountInfo,
    MakeDir {
        fd: Fd,
        name: Bytes,
        mode: u32,
    },
    MakeNode {
        fd: Fd,
        name: Bytes,
        mode: u32,
        rdev: u32,
    },
    MakeLink {
        from: Fd,
        fd: Fd,
        name: Bytes,
    },
    SymLink {
        fd: Fd,
        name: Bytes,
        target: Bytes,
    },
    Unlink {
        fd: Fd,
        name: Bytes,
    },
    RemoveDir {
        fd: Fd,
        name: Bytes,
    },
    Rename {
        fd: Fd,
        name: Bytes,
        fd2: Fd,
        name2: Bytes,
        flags: u32,
    },
    ReadAt {
        fd: Fd,
        offset: u64,
        size: u32,
    },
    WriteAt {
        fd: Fd,
        offset: u64,
        bytes: Bytes,
        append: bool,
    },
    Truncate {
        fd: Fd,
        size: u64,
    },
    Allocate {
        fd: Fd,
        mode: u32,
        offset: u64,
        length: u64,
    },
    Seek {
        fd: Fd,
        offset: i64,
        whence: u32,
    },
    CopyRange {
        fd: Fd,
        offset: u64,
        fd2: Fd,
        offset2: u64,
        length: u64,
        flags: u64,
    },
    ListAt {
        fd: Fd,
        offset: Option<u64>,
        size: u32,
    },
    Flush {
        fd: Fd,
    },
    Sync {
        fd: Fd,
        datasync: bool,
    },
    SyncFs {
        fd: Fd,
    },
    ChMod {
        fd: Fd,
        through: bool,
        mode: u32,
    },
    ChOwn {
        fd: Fd,
        uid: u32,
        gid: u32,
    },
    SetTimes {
        fd: Fd,
        through: bool,
        atime: TimeSet,
        mtime: TimeSet,
    },
    SetXattr {
        fd: Fd,
        through: bool,
        name: Bytes,
        value: Bytes,
        flags: u32,
    },
    GetXattr {
        fd: Fd,
        through: bool,
        name: Bytes,
        size: u32,
    },
    ListXattr {
        fd: Fd,
        through: bool,
        size: u32,
    },
    RemoveXattr {
        fd: Fd,
        through: bool,
        name: Bytes,
    },
    SetGroups {
        list: GroupList,
    },
    SetEgid {
        gid: u32,
    },
    SetEuid {
        uid: u32,
    },
    RaiseCap {
        caps: Caps,
    },
    DropCap {
        caps: Caps,
    },
    SetUmask {
        mask: u32,
    },
    Edit(Edit),
}

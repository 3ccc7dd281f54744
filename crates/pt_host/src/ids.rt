/// A file descriptor of the host.
#[derive(Clone, Copy, Debug, PartialEq, Eq)]
pub struct Fd(pub u32);

/// An error number of Linux on x86-64, as in `errno(3)`.
#[derive(Clone, Copy, Debug, PartialEq, Eq)]
pub struct Errno(pub i32);

impl Errno {
    pub const EPERM: Errno = Errno(1);

    pub const ENOENT: Errno = Errno(2);

    pub const EIO: Errno = Errno(5);

    pub const ENXIO: Errno = Errno(6);

    pub const E2BIG: Errno = Errno(7);

    pub const EBADF: Errno = Errno(9);

    pub const ENOMEM: Errno = Errno(12);

    pub const EACCES: Errno = Errno(13);

    pub const EBUSY: Errno = Errno(16);

    pub const EEXIST: Errno = Errno(17);

    pub const EXDEV: Errno = Errno(18);

    pub const ENOTDIR: Errno = Errno(20);

    pub const EISDIR: Errno = Errno(21);

    pub const EINVAL: Errno = Errno(22);

    pub const ENFILE: Errno = Errno(23);

    pub const EFBIG: Errno = Errno(27);

    pub const EROFS: Errno = Errno(30);

    pub const ERANGE: Errno = Errno(34);

    pub const ENAMETOOLONG: Errno = Errno(36);

    pub const ENOSYS: Errno = Errno(38);

    pub const ENOTEMPTY: Errno = Errno(39);

    pub const ELOOP: Errno = Errno(40);

    pub const ENODATA: Errno = Errno(61);

    pub const EPROTO: Errno = Errno(71);

    pub const EOVERFLOW: Errno = Errno(75);

    pub const EOPNOTSUPP: Errno = Errno(95);

    pub const ESTALE: Errno = Errno(116);
}

/// The id of a mount, as `statx(2)` tells it.
pub type MountId = u64;

/// A number by which the guest names an object.
pub type Inode = u64;

/// What tells objects that live apart: inode number, device and mount.
#[derive(Clone, Copy, Debug)]
pub struct ObjIds {
    pub ino: u64,
    pub dev: u64,
    pub mnt_id: u64,
}

/// A time since the epoch, in seconds and nanoseconds.
#[derive(Clone, Copy, Debug)]
pub struct Time {
    pub sec: i64,
    pub nsec: u32,
}

/// What `utimensat(2)` does with one of the times.
#[derive(Clone, Copy, Debug)]
pub enum TimeSet {
    /// It stays.
    Omit,
    /// It becomes the time of the call.
    Now,
    At(Time),
}

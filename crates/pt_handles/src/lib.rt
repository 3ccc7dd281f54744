//! What stands below the session beside a host's calls: the records of a listing, paths, and descriptors that are
//! opened anew.
#![tactic(auto)]

mod calls;
mod errnos;
mod error;
mod fd_path;
mod file_handle;
mod kind;
mod laws;
mod mount_cause;
mod mount_error;
mod mount_fd;
mod mount_fds;
mod mount_info;
mod mount_table;
mod openable;
mod opening;
mod padding;
mod path_error;
mod prefix;
mod read_dir;
mod record;
mod serializable;
mod text;

pub use errnos::{ebadf, einval, erofs};
pub use error::HandleError;
pub use fd_path::{get_path_by_fd, printable_fd};
pub use file_handle::{from_fd, from_fd_fail_hard, from_name_at, from_name_at_fail_hard};
pub use kind::is_safe_inode;
pub use laws::listings_have_one_reading;
pub use mount_cause::MountCause;
pub use mount_error::{MPRError, MPRResult, MountError};
pub use mount_fd::MountFd;
pub use mount_info::mount_root_in;
pub use mount_table::MountFds;
pub use openable::{FileOrHandle, OpenableFileHandle, to_openable};
pub use opening::{openat, openat_verbose, reopen_fd_through_proc};
pub use padding::strip_padding;
pub use path_error::{FdPathError, InodePathError};
pub use prefix::relative_path;
pub use read_dir::{DirEntryRef, DirectoryIterator, ReadDir, ReadDirError, is_listing};
pub use serializable::{EqualError, SerializableFileHandle};

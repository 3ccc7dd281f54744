//! Why a mount has no descriptor.

ghost use Rattle.std.specs.Prelude.{◌≡◌, false, ℕ, List, IfOk};
ghost use Rattle.pt_handles.specs.MountErrors.{errno_of_cause, description, blames_point};

use crate::text::{around, errno_text, from_string, text_of};
use pt_host::{Bytes, Errno};
use std::alloc::{AllocError, Global};

/// Why a mount has no descriptor. Those behind `NotListed` are of its mount point.
#[derive(Debug, Drop)]
pub enum MountCause {
    /// The list of mounts was not told, with the host's error.
    NotRead(Errno),
    /// The list of mounts is not UTF-8.
    NotUtf8,
    /// The list has no such mount.
    NotListed,
    /// The mount point has a NUL, first at this place.
    HasNul(u64),
    /// The mount point was not opened, with the host's error.
    NotOpened(Errno),
    /// Its status was not told, with the host's error.
    NoStatus(Errno),
    /// It is on the mount of this id.
    OtherMount(u64),
    /// It is neither a regular file nor a directory.
    OtherKind,
    /// It was not opened for reading, with the host's error.
    NotReopened(Errno),
    /// No one more can be counted.
    TooManyHolders,
    Memory,
}

impl MountCause {
    pub(crate) fn errno(&self) -> Errno
        ensures { result ≡ errno_of_cause self.now }
    {
        match self {
            MountCause::NotRead(errno)
            | MountCause::NotOpened(errno)
            | MountCause::NoStatus(errno)
            | MountCause::NotReopened(errno) => *errno,
            MountCause::NotListed | MountCause::HasNul(_) => Errno::EINVAL,
            MountCause::NotUtf8 | MountCause::OtherMount(_) | MountCause::OtherKind => Errno::EIO,
            MountCause::TooManyHolders => Errno::EOVERFLOW,
            MountCause::Memory => Errno::ENOMEM,
        }
    }

    /// Whether the mount point is known and to blame.
    pub(crate) fn blames_point(&self) -> bool
        ensures { result ≡ blames_point self.now }
    {
        match self {
            MountCause::HasNul(_)
            | MountCause::NotOpened(_)
            | MountCause::NoStatus(_)
            | MountCause::OtherMount(_)
            | MountCause::OtherKind
            | MountCause::NotReopened(_) => true,
            MountCause::NotRead(_)
            | MountCause::NotUtf8
            | MountCause::NotListed
            | MountCause::TooManyHolders
            | MountCause::Memory => false,
        }
    }

    /// How it is told where no mount point is to blame.
    fn plain_description(&self, alloc: Global, id: u64) -> Result<Bytes, AllocError>
        requires { blames_point self.now ≡ false }
        ensures { (point : List ℕ) → IfOk result (λ text. text ≡ description id point self.now) }
    {
        match self {
            MountCause::NotRead(errno) => {
                let front = "Failed to read /proc/self/mountinfo";
                let number = errno.0;
                let text = format!(in alloc; "{front}: os error {number}")?;
                Ok(from_string(text))
            }
            MountCause::NotUtf8 => {
                text_of(alloc, "Failed to read /proc/self/mountinfo: not UTF-8")
            }
            MountCause::NotListed => {
                let text = format!(in alloc; "Failed to find mount root for mount ID {id}")?;
                Ok(from_string(text))
            }
            MountCause::TooManyHolders => errno_text(alloc, Errno::EOVERFLOW),
            MountCause::Memory => errno_text(alloc, Errno::ENOMEM),
            _ => unreachable!(),
        }
    }

    /// How it is told of the mount of this id, whose mount point is this.
    pub(crate) fn description(
        &self,
        alloc: Global,
        id: u64,
        point: &[u8],
    ) -> Result<Bytes, AllocError>
        ensures { IfOk result (λ text. text ≡ description id point.now self.now) }
    {
        let (front, back) = match self {
            MountCause::HasNul(place) => {
                let back = format!(in alloc; "\" to a CString: nul byte at {place}")?;
                ("Failed to convert \"", back)
            }
            MountCause::NotOpened(errno) => {
                let number = errno.0;
                let back = format!(in alloc; "\": os error {number}")?;
                ("Failed to open mount point \"", back)
            }
            MountCause::NoStatus(errno) => {
                let number = errno.0;
                let back = format!(in alloc; "\": os error {number}")?;
                ("Failed to stat mount point \"", back)
            }
            MountCause::OtherMount(other) => {
                let back = format!(in alloc;
                    ") mount ID ({other}) does not match expected value ({id})"
                )?;
                ("Mount point's (", back)
            }
            MountCause::OtherKind => {
                let back = String::from_str(alloc, "\" is not a regular file or directory")?;
                ("Mount point \"", back)
            }
            MountCause::NotReopened(errno) => {
                let number = errno.0;
                let back = format!(in alloc; "\" for reading: os error {number}")?;
                ("Failed to reopen mount point \"", back)
            }
            _ => return self.plain_description(alloc, id),
        };
        around(alloc, front, point, back.as_str())
    }
}

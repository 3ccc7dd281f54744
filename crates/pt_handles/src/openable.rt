//! File handles with what they are opened by.

ghost use Rattle.std.specs.Prelude.{◌≡◌, Result};
ghost use Rattle.pt_host.specs.declared.op.KeptHostOp.TheVariants as call;
ghost use Rattle.pt_handles.specs.OneCall.{AsksOnce};
ghost use Rattle.pt_handles.specs.Opened.{IsOpened};
ghost use Rattle.pt_handles.specs.Reopening.{Reopens};
ghost use Rattle.pt_handles.specs.MountCalls.{Gets};
ghost use Rattle.pt_handles.specs.Openable.{openable_by};
ghost use Rattle.pt_handles.specs.declared.mount_fd.MountFd.{MountFd};
ghost use Rattle.pt_handles.specs.declared.mount_error.MountError.{MountError};

use crate::error::HandleError;
use crate::mount_error::MPRResult;
use crate::mount_fd::MountFd;
use crate::mount_table::MountFds;
use crate::opening::opened;
use pt_host::{Fd, FileHandle, Host, HostOp, HostReply, HostSeat, OpenFlags};

/// A file handle and a holder of its mount, which is to be given back to the table of mounts.
#[derive(Debug, Drop)]
pub struct OpenableFileHandle {
    pub handle: FileHandle,
    pub mount_fd: MountFd,
}

/// What an object is opened by.
#[derive(Debug, Drop)]
pub enum FileOrHandle {
    File(Fd),
    Handle(OpenableFileHandle),
}

impl OpenableFileHandle {
    pub fn inner(&self) -> &FileHandle
        ensures { result.now ≡ self.now.handle }
    {
        &self.handle
    }

    /// Opens what the handle stands for.
    pub fn open<H: Host>(
        &self,
        host: &mut H,
        seat: &mut HostSeat,
        flags: OpenFlags,
    ) -> Result<Fd, HandleError>
        ensures { AsksOnce H.does (call.OpenByHandle self.now.mount_fd.file self.now.handle.handle flags)
            (λ told. IsOpened told result) host.old seat.old host.new seat.new }
    {
        let op = HostOp::OpenByHandle {
            fd: self.mount_fd.file,
            handle: &self.handle.handle,
            flags,
        };
        opened(host, seat, &op)
    }
}

/// The handle with a holder of its mount.
pub fn to_openable<H: Host, F: FnOnce(&mut H, &mut HostSeat, Fd, OpenFlags) -> HostReply>(
    handle: &FileHandle,
    mounts: &mut MountFds,
    host: &mut H,
    seat: &mut HostSeat,
    reopen: F,
) -> MPRResult<OpenableFileHandle>
    requires callable { F.IsAlwaysCallable reopen }
    requires reopens { Reopens H.does F.FnOnce reopen }
    ensures { (mount : Result MountFd MountError)
        × Gets H.does handle.now.mnt_id mounts.old host.old seat.old mount mounts.new host.new seat.new
        × (result ≡ openable_by handle.now mount) }
{
    match mounts.get(host, seat, handle.mnt_id, reopen) {
        Ok(mount_fd) => Ok(OpenableFileHandle {
            handle: handle.copy(),
            mount_fd,
        }),
        Err(why) => Err(why),
    }
}

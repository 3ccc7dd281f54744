//! A holder of a mount's descriptor.

ghost use Rattle.std.specs.Prelude.{◌≡◌, List};
ghost use Rattle.std.specs.Option.{option_copied_mut};
ghost use Rattle.pt_host.specs.declared.op.KeptHostOp.TheVariants as call;
ghost use Rattle.pt_handles.specs.Calls.{CallMade, CallsLead};
ghost use Rattle.pt_handles.specs.OneCall.{AsksOnce};
ghost use Rattle.pt_handles.specs.Openable.{OpensOnMount, Joins, MakesHolder};
ghost use Rattle.pt_handles.specs.Left.{left_by, TellsMount};

use crate::calls::close;
use crate::error::HandleError;
use crate::mount_table::{Holding, MountFds};
use crate::opening::openat;
use bitflags::Flags;
use pt_host::{Errno, Fd, Host, HostOp, HostReply, HostSeat, HostValue, OpenFlags};
use std::alloc::AllocError;

/// One holder of a mount's descriptor. Where the mount has a row in a table, it is to be given back there.
#[derive(Debug, Drop)]
pub struct MountFd {
    pub mount_id: u64,
    pub file: Fd,
}

/// The mount of what a descriptor is open on.
fn mount_of<H: Host>(host: &mut H, seat: &mut HostSeat, fd: Fd) -> Result<u64, HandleError>
    ensures { AsksOnce H.does (call.Stat fd) (λ told. TellsMount told result)
        host.old seat.old host.new seat.new }
{
    match host.call(seat, &HostOp::Stat { fd }) {
        HostReply::Ok(HostValue::Stat(stat)) => Ok(stat.ids.mnt_id),
        HostReply::Ok(_) => unreachable!(),
        HostReply::Refused(errno) | HostReply::Fault(errno) => Err(HandleError::Host(errno)),
        HostReply::NoMemory => Err(HandleError::Memory),
    }
}

/// Opens a path, and asks for the mount that it is on.
fn open_on_mount<H: Host>(
    host: &mut H,
    seat: &mut HostSeat,
    dir: Fd,
    path: &[u8],
) -> Result<MountFd, HandleError>
    ensures { (made : List CallMade) × CallsLead H.does made host.old seat.old host.new seat.new
        × OpensOnMount dir path.now made result }
{
    let flags = OpenFlags::O_NOFOLLOW.union(OpenFlags::O_CLOEXEC);
    let file = openat(host, seat, dir, path, flags)?;
    match mount_of(host, seat, file) {
        Ok(mount_id) => Ok(MountFd { mount_id, file }),
        Err(why) => {
            close(host, seat, file);
            Err(why)
        }
    }
}

/// Puts a mount into the table, or one holder more of the row that it has there. Its own descriptor is then closed.
fn join<H: Host>(
    mounts: &mut MountFds,
    host: &mut H,
    seat: &mut HostSeat,
    mount: MountFd,
) -> Result<MountFd, HandleError>
    ensures { (closings : List CallMade) × CallsLead H.does closings host.old seat.old host.new seat.new
        × Joins mount mounts.old closings result mounts.new }
{
    let MountFd { mount_id, file } = mount;
    let joined = match mounts.hold(mount_id) {
        Holding::Held(held) => Ok(MountFd {
            mount_id,
            file: held,
        }),
        Holding::TooMany => Err(HandleError::Host(Errno::EOVERFLOW)),
        Holding::NoRow => match mounts.enter(mount_id, file) {
            Ok(()) => return Ok(MountFd { mount_id, file }),
            Err(AllocError) => Err(HandleError::Memory),
        },
    };
    close(host, seat, file);
    joined
}

impl MountFd {
    /// A holder of the mount that the path is on, which begins at the directory where it is relative. The mount is put
    /// into the table, if one is given. Its kind is not judged.
    pub fn new<H: Host>(
        mounts: Option<&mut MountFds>,
        host: &mut H,
        seat: &mut HostSeat,
        dir: Fd,
        path: &[u8],
    ) -> Result<MountFd, HandleError>
        ensures { (made : List CallMade) × CallsLead H.does made host.old seat.old host.new seat.new
            × MakesHolder (option_copied_mut mounts.entry) dir path.now made result (left_by mounts.exit) }
    {
        let mount = open_on_mount(host, seat, dir, path)?;
        match mounts {
            Some(mounts) => join(mounts, host, seat, mount),
            None => Ok(mount),
        }
    }

    pub fn file(&self) -> Fd
        ensures { result ≡ self.now.file }
    {
        self.file
    }

    pub fn mount_id(&self) -> u64
        ensures { result ≡ self.now.mount_id }
    {
        self.mount_id
    }
}

//! The file handle of an object, which a descriptor or a name leads to.

ghost use Rattle.std.specs.Prelude.{List};
ghost use Rattle.pt_host.specs.declared.op.KeptHostOp.TheVariants as call;
ghost use Rattle.pt_handles.specs.Calls.{CallMade, CallsLead};
ghost use Rattle.pt_handles.specs.OneCall.{AsksOnce};
ghost use Rattle.pt_handles.specs.Opened.{IsOpened};
ghost use Rattle.pt_handles.specs.FileHandles.{TellsHandle, TellsIfAny, AsksByName, path_only};

use crate::calls::close;
use crate::error::HandleError;
use crate::opening::opened;
use pt_host::{Errno, Fd, FileHandle, Host, HostOp, HostReply, HostSeat, HostValue, OpenFlags};

/// The file handle of what a descriptor is open on. That there is none is the host's refusal.
pub fn from_fd_fail_hard<H: Host>(
    host: &mut H,
    seat: &mut HostSeat,
    fd: Fd,
) -> Result<FileHandle, HandleError>
    ensures { AsksOnce H.does (call.HandleOf fd) (λ told. TellsHandle told result) host.old seat.old host.new seat.new }
{
    match host.call(seat, &HostOp::HandleOf { fd }) {
        HostReply::Ok(HostValue::Handle(handle)) => Ok(handle),
        HostReply::Ok(_other) => unreachable!(),
        HostReply::Refused(errno) | HostReply::Fault(errno) => Err(HandleError::Host(errno)),
        HostReply::NoMemory => Err(HandleError::Memory),
    }
}

/// The file handle of what a descriptor is open on, where there is one. Where there is none now, there never is.
pub fn from_fd<H: Host>(
    host: &mut H,
    seat: &mut HostSeat,
    fd: Fd,
) -> Result<Option<FileHandle>, HandleError>
    ensures { AsksOnce H.does (call.HandleOf fd) (λ told. TellsIfAny told result) host.old seat.old host.new seat.new }
{
    match from_fd_fail_hard(host, seat, fd) {
        Ok(handle) => Ok(Some(handle)),
        Err(HandleError::Host(Errno::EOPNOTSUPP | Errno::EOVERFLOW)) => Ok(None),
        Err(why) => Err(why),
    }
}

/// The file handle of what a name leads to. That there is none is the host's refusal.
pub fn from_name_at_fail_hard<H: Host>(
    host: &mut H,
    seat: &mut HostSeat,
    dir: Fd,
    name: &[u8],
) -> Result<FileHandle, HandleError>
    ensures { (made : List CallMade) × CallsLead H.does made host.old seat.old host.new seat.new
        × AsksByName TellsHandle dir name.now made result }
{
    let fd = open_name(host, seat, dir, name)?;
    let told = from_fd_fail_hard(host, seat, fd);
    close(host, seat, fd);
    told
}

/// The file handle of what a name leads to, where there is one. A name that is not opened is the host's refusal,
/// whatever its error.
pub fn from_name_at<H: Host>(
    host: &mut H,
    seat: &mut HostSeat,
    dir: Fd,
    name: &[u8],
) -> Result<Option<FileHandle>, HandleError>
    ensures { (made : List CallMade) × CallsLead H.does made host.old seat.old host.new seat.new
        × AsksByName TellsIfAny dir name.now made result }
{
    let fd = open_name(host, seat, dir, name)?;
    let told = from_fd(host, seat, fd);
    close(host, seat, fd);
    told
}

/// Opens a name path-only.
fn open_name<H: Host>(
    host: &mut H,
    seat: &mut HostSeat,
    dir: Fd,
    name: &[u8],
) -> Result<Fd, HandleError>
    ensures { AsksOnce H.does (call.OpenAt dir name.now path_only 0) (λ told. IsOpened told result)
        host.old seat.old host.new seat.new }
{
    let op = HostOp::OpenAt {
        fd: dir,
        name,
        flags: OpenFlags::PATH,
        mode: 0,
    };
    opened(host, seat, &op)
}

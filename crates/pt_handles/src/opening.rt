ghost use Rattle.std.specs.Prelude.{◌≡◌};
ghost use Rattle.pt_host.specs.Call.{call_of};
ghost use Rattle.pt_host.specs.declared.op.KeptHostOp.TheVariants as call;
ghost use Rattle.pt_handles.specs.OneCall.{AsksOnce};
ghost use Rattle.pt_handles.specs.Opened.{OpensFd, IsOpened, IsOpenedNaming, IsNamed, following};

use crate::error::HandleError;
use bitflags::Flags;
use pt_host::{Bytes, Errno, Fd, Host, HostOp, HostReply, HostSeat, HostValue, OpenFlags};
use std::alloc::Global;

/// Makes an opening.
pub(crate) fn opened<H: Host>(
    host: &mut H,
    seat: &mut HostSeat,
    op: &HostOp<'_>,
) -> Result<Fd, HandleError>
    requires { OpensFd (call_of op.now) }
    ensures { AsksOnce H.does (call_of op.now) (λ told. IsOpened told result) host.old seat.old host.new seat.new }
{
    match host.call(seat, op) {
        HostReply::Ok(HostValue::Fd(fd)) => Ok(fd),
        HostReply::Ok(_) => unreachable!(),
        HostReply::Refused(errno) | HostReply::Fault(errno) => Err(HandleError::Host(errno)),
        HostReply::NoMemory => Err(HandleError::Memory),
    }
}

/// Opens a path, which begins at the directory where it is relative.
pub fn openat<H: Host>(
    host: &mut H,
    seat: &mut HostSeat,
    dir: Fd,
    path: &[u8],
    flags: OpenFlags,
) -> Result<Fd, HandleError>
    ensures { AsksOnce H.does (call.OpenPath dir path.now flags) (λ told. IsOpened told result)
        host.old seat.old host.new seat.new }
{
    opened(
        host,
        seat,
        &HostOp::OpenPath {
            fd: dir,
            path,
            flags,
        },
    )
}

/// The error with the path beside it.
fn named(alloc: Global, errno: Errno, path: &[u8]) -> HandleError
    ensures { IsNamed errno path.now result }
{
    match Bytes::from_slice(alloc, path) {
        Ok(path) => HandleError::Named(errno, path),
        Err(_) => HandleError::Memory,
    }
}

/// The same, but a refusal tells the path too. Not for what is answered to a guest, which is told an error number
/// alone.
pub fn openat_verbose<H: Host>(
    alloc: Global,
    host: &mut H,
    seat: &mut HostSeat,
    dir: Fd,
    path: &[u8],
    flags: OpenFlags,
) -> Result<Fd, HandleError>
    ensures { AsksOnce H.does (call.OpenPath dir path.now flags) (λ told. IsOpenedNaming path.now told result)
        host.old seat.old host.new seat.new }
{
    match openat(host, seat, dir, path, flags) {
        Ok(fd) => Ok(fd),
        Err(HandleError::Host(errno)) => Err(named(alloc, errno, path)),
        Err(why) => Err(why),
    }
}

/// Opens what a descriptor is open on once more, with other flags. The link in `/proc/self/fd` has to be followed, so
/// `O_NOFOLLOW` is cleared.
pub fn reopen_fd_through_proc<H: Host>(
    host: &mut H,
    seat: &mut HostSeat,
    fd: Fd,
    flags: OpenFlags,
) -> Result<Fd, HandleError>
    ensures { AsksOnce H.does (call.Reopen fd (following flags)) (λ told. IsOpened told result)
        host.old seat.old host.new seat.new }
{
    let flags = flags.difference(OpenFlags::O_NOFOLLOW);
    opened(host, seat, &HostOp::Reopen { fd, flags })
}

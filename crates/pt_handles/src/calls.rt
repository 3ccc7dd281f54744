//! A call of a host that several functions make.

ghost use Rattle.pt_host.specs.declared.op.KeptHostOp.TheVariants as call;
ghost use Rattle.pt_host.specs.declared.reply.HostReply.{HostReply};

use pt_host::{Fd, Host, HostOp, HostSeat};

/// Closes a descriptor, whatever that is answered.
pub(crate) fn close<H: Host>(host: &mut H, seat: &mut HostSeat, fd: Fd)
    ensures { (told : HostReply) × H.does host.old seat.old (call.Close fd) told host.new seat.new }
{
    let _ = host.call(seat, &HostOp::Close { fd });
}

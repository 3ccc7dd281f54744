ghost use Rattle.pt_host.specs.Call.{call_of};
ghost use Rattle.pt_host.specs.SeatAnswer.{seat_answer};
ghost use Rattle.pt_store.specs.SeatCalls.{ToldBy};

use pt_host::{Errno, HostOp, HostReply, HostSeat};

/// One of the seat's own calls.
pub fn change_seat(seat: &mut HostSeat, op: &HostOp<'_>) -> HostReply
    ensures { ToldBy (seat_answer seat.old (call_of op.now)) result seat.new }
{
    match seat.answer(op) {
        Some(told) => told,
        None => HostReply::Refused(Errno::ENOSYS),
    }
}

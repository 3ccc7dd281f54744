ghost use Rattle.std.specs.Prelude.{◌≡◌, MatchOption, Some, None};
ghost use Rattle.pt_host.specs.Call.{call_of};
ghost use Rattle.pt_host.specs.SeatAnswer.{reply_of, seat_answer};

use crate::ids::Errno;
use crate::op::HostOp;
use crate::reply::{HostReply, HostValue};
use crate::seat::HostSeat;
use std::slice;

fn reply_of(done: Result<(), Errno>) -> HostReply
    ensures { result ≡ reply_of done }
{
    match done {
        Ok(()) => HostReply::Ok(HostValue::Unit),
        Err(errno) => HostReply::Refused(errno),
    }
}

impl HostSeat {
    /// Answers one of the seat's own calls. Any other call is none of its business.
    pub fn answer(&mut self, op: &HostOp<'_>) -> Option<HostReply>
        ensures { MatchOption result
            ((seat_answer self.old (call_of op.now) ≡ None) × (self.new ≡ self.old))
            (λ told. seat_answer self.old (call_of op.now) ≡ Some (told, self.new)) }
    {
        match op {
            HostOp::SetGroups { list } => Some(reply_of(self.set_groups(list))),
            HostOp::SetGroup { group } => Some(reply_of(self.set_groups(slice::from_ref(group)))),
            HostOp::SetEgid { gid } => Some(reply_of(self.set_egid(*gid))),
            HostOp::SetEuid { uid } => Some(reply_of(self.set_euid(*uid))),
            HostOp::RaiseCap { caps } => Some(reply_of(self.raise_cap(*caps))),
            HostOp::DropCap { caps } => {
                self.drop_cap(*caps);
                Some(HostReply::Ok(HostValue::Unit))
            }
            HostOp::SetUmask { mask } => {
                let old = self.set_umask(*mask);
                Some(HostReply::Ok(HostValue::Count(u64::from(old))))
            }
            _ => None,
        }
    }
}

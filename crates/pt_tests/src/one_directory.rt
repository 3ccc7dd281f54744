ghost use Rattle.std.specs.Prelude.{None};
ghost use Rattle.pt_host.specs.Call.{call_of};
ghost use Rattle.pt_host.specs.Contents.{no_contents};
ghost use Rattle.pt_host.specs.Seat.{IsStartingSeat};
ghost use Rattle.pt_host.specs.Promises.{IsAllowed, FailsFitly, IsPromised};

use pt_host::{Caps, Errno, Fd, Host, HostOp, HostReply, HostSeat, HostValue, ObjIds, Stat, Time};

/// A host with one directory, which is empty until an edit puts one file into it.
#[derive(Drop)]
pub struct OneDirectory {
    refuses: bool,
    has_file: bool,
}

impl OneDirectory {
    pub fn has_file(&self) -> bool {
        self.has_file
    }

    /// What it answers to a call that is not the seat's own.
    fn answer(&mut self, op: &HostOp<'_>) -> HostReply
        ensures allowed { IsAllowed 0 (call_of op.now) result 0 }
        ensures fails { FailsFitly (call_of op.now) result }
    {
        match op {
            HostOp::OpenRoot { .. } => {
                if self.refuses {
                    HostReply::Refused(Errno::EACCES)
                } else {
                    HostReply::Ok(HostValue::Fd(Fd(4)))
                }
            }
            HostOp::OpenAt { .. } => {
                if self.has_file {
                    HostReply::Ok(HostValue::Fd(Fd(5)))
                } else {
                    HostReply::Refused(Errno::ENOENT)
                }
            }
            HostOp::Stat { fd } => HostReply::Ok(HostValue::Stat(a_stat(u64::from(fd.0)))),
            HostOp::Close { .. } => HostReply::Ok(HostValue::Unit),
            HostOp::Edit(_) => {
                if self.has_file {
                    HostReply::Refused(Errno::EEXIST)
                } else {
                    self.has_file = true;
                    HostReply::Ok(HostValue::Unit)
                }
            }
            _ => HostReply::Refused(Errno::EACCES),
        }
    }
}

impl Host for OneDirectory {
    ghost tree = { λ host. None };

    ghost contents = { λ host. no_contents };

    ghost faults = { λ host. 0 };

    ghost does = { λ host seat call reply after seat_after. IsPromised 0 seat call reply 0 seat_after };

    #[tactic(auto, using(pt_law::proofs::Answering::plain))]
    fn call(&mut self, seat: &mut HostSeat, op: &HostOp<'_>) -> HostReply {
        match seat.answer(op) {
            Some(told) => told,
            None => self.answer(op),
        }
    }

    ghost promised = { λ host seat call reply after seat_after done. done };

    ghost lawful = { λ host seat call reply after seat_after done before told. cc };
}

fn a_stat(ino: u64) -> Stat {
    let never = Time { sec: 0, nsec: 0 };
    let ids = ObjIds {
        ino,
        dev: 1,
        mnt_id: 1,
    };
    Stat {
        ids,
        mode: 0o40755,
        nlink: 2,
        uid: 0,
        gid: 0,
        rdev: 0,
        size: 0,
        blksize: 4096,
        blocks: 0,
        atime: never,
        mtime: never,
        ctime: never,
    }
}

pub fn a_seat() -> HostSeat
    ensures { IsStartingSeat result }
{
    HostSeat::new(0, 0, Caps::ALL)
}

pub fn a_host(refuses: bool) -> OneDirectory {
    OneDirectory {
        refuses,
        has_file: false,
    }
}

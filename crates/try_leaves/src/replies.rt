//! A host that answers its calls, but for those of a seat's own, with one reply where that fits them.

ghost use Rattle.std.specs.Prelude.{◌≡◌, ◌≤◌, ℕ, List, None, true};
ghost use Rattle.pt_host.specs.Call.{call_of};
ghost use Rattle.pt_host.specs.Contents.{no_contents};
ghost use Rattle.pt_host.specs.Promises.{FailsFitly, FitsCall, IsAllowed, IsPromised, MayFault};
ghost use Rattle.pt_host.specs.Promises.{MayLackMemory};
ghost use Rattle.pt_host.specs.declared.ids.Errno.{Errno};
ghost use Rattle.pt_host.specs.declared.ids.Fd.{Fd};
ghost use Rattle.pt_host.specs.declared.reply.HostValue.TheVariants as value;

use pt_host::{Bytes, Errno, Fd, Host, HostOp, HostReply, HostSeat, HostValue};
use std::mem::replace;

/// What it answers.
#[derive(Drop)]
pub enum Planned {
    Bytes(Bytes),
    Fd(Fd),
    Refused(Errno),
    Fault(Errno),
    NoMemory,
}

/// The last call of its own: its name and its numbers.
#[derive(Clone, Copy, Debug)]
pub enum Asked {
    Nothing,
    OpenPath(u32, u32),
    Reopen(u32, u32),
    FdPath(u32),
    ListAt(u32, Option<u64>, u32),
    Other,
}

/// The reply, until it is given, and the last call with how many there were.
#[derive(Drop)]
pub struct OneReply {
    reply: Planned,
    pub asked: Asked,
    pub made: usize,
    faults: u64,
}

fn asked_by(op: &HostOp<'_>) -> Asked {
    match op {
        HostOp::OpenPath { fd, flags, .. } => Asked::OpenPath(fd.0, flags.0),
        HostOp::Reopen { fd, flags } => Asked::Reopen(fd.0, flags.0),
        HostOp::FdPath { fd } => Asked::FdPath(fd.0),
        HostOp::ListAt { fd, offset, size } => Asked::ListAt(fd.0, *offset, *size),
        _ => Asked::Other,
    }
}

/// Whether the call tells bytes where it is Ok.
fn tells_bytes(op: &HostOp<'_>) -> bool
    ensures fits { result ≡ true → (bytes : List ℕ) → FitsCall (call_of op.now) (value.Bytes bytes) }
    ensures fails { result ≡ true → (errno : Errno) → MayFault (call_of op.now) errno }
    ensures lacks { result ≡ true → MayLackMemory (call_of op.now) }
{
    matches!(op, HostOp::FdPath { .. } | HostOp::ListAt { .. })
}

/// Whether the call opens something.
fn opens(op: &HostOp<'_>) -> bool
    ensures fits { result ≡ true → (fd : Fd) → FitsCall (call_of op.now) (value.Fd fd) }
    ensures lacks { result ≡ true → MayLackMemory (call_of op.now) }
{
    matches!(op, HostOp::OpenPath { .. } | HostOp::Reopen { .. })
}

impl OneReply {
    pub fn new(reply: Planned) -> OneReply {
        OneReply {
            reply,
            asked: Asked::Nothing,
            made: 0,
            faults: 0,
        }
    }

    /// The planned reply where it fits the call, else a refusal.
    fn reply_to(&mut self, op: &HostOp<'_>) -> HostReply
        ensures falls { self.old.faults ≤ self.new.faults }
        ensures allowed { IsAllowed self.old.faults (call_of op.now) result self.new.faults }
        ensures fails { FailsFitly (call_of op.now) result }
    {
        match replace(&mut self.reply, Planned::Refused(Errno::EIO)) {
            Planned::Bytes(bytes) => {
                if tells_bytes(op) {
                    HostReply::Ok(HostValue::Bytes(bytes))
                } else {
                    HostReply::Refused(Errno::EIO)
                }
            }
            Planned::Fd(fd) => {
                if opens(op) {
                    HostReply::Ok(HostValue::Fd(fd))
                } else {
                    HostReply::Refused(Errno::EIO)
                }
            }
            Planned::Refused(errno) => HostReply::Refused(errno),
            Planned::Fault(errno) => {
                if tells_bytes(op) {
                    self.faults = self.faults.saturating_add(1);
                    HostReply::Fault(errno)
                } else {
                    HostReply::Refused(Errno::EIO)
                }
            }
            Planned::NoMemory => {
                if opens(op) || tells_bytes(op) {
                    HostReply::NoMemory
                } else {
                    HostReply::Refused(Errno::EIO)
                }
            }
        }
    }
}

impl Host for OneReply {
    ghost tree = { λ host. None };

    ghost contents = { λ host. no_contents };

    ghost faults = { λ host. host.faults };

    ghost does = { λ host seat call reply after seat_after.
        IsPromised host.faults seat call reply after.faults seat_after };

    fn call(&mut self, seat: &mut HostSeat, op: &HostOp<'_>) -> HostReply {
        if let Some(told) = seat.answer(op) {
            return told;
        }
        self.asked = asked_by(op);
        self.made = self.made.saturating_add(1);
        self.reply_to(op)
    }

    ghost promised = { λ host seat call reply after seat_after done. done };

    ghost lawful = { λ host seat call reply after seat_after done before told. cc };
}

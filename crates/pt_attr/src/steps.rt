//! The steps of requests of names, attributes and contents that no other request takes.

ghost use Rattle.std.specs.Prelude.{◌≡◌, ℕ, List, Result, IfOk, slice_get};
ghost use Rattle.pt_host.specs.Call.{call_of};
ghost use Rattle.pt_host.specs.declared.ids.Fd.{Fd};
ghost use Rattle.pt_host.specs.declared.stat.FsStat.{FsStat};
ghost use Rattle.pt_iface.specs.declared.answer.Answer.{Answer};
ghost use Rattle.pt_frame.specs.Machine.Walk.{HasBytes, Reads, bytes_in};
ghost use Rattle.pt_frame.specs.Tree.{RequestTree};
ghost use Rattle.pt_attr.specs.Steps.{count_of, do_call, make, read_link, stat_fs, try_open_at};

use crate::replies::{count_in, fs_stat_in, opened_in};
use pt_frame::{Act, ActReply, Asked, Heard, Stop, ask, bares};
use pt_host::{Bytes, Fd, FsStat, HostOp, HostReply, HostValue, OpenFlags};
use pt_iface::Answer;
use pt_req::ok_in;

/// Where a symbolic link leads, by the place of the reply that has it.
pub fn read_link<'a>(told: &'a [Heard], at: &mut usize, fd: Fd) -> Asked<'a, usize>
    ensures has { IfOk result (λ place. HasBytes told.now place) }
    ensures reads { (next : List ℕ → RequestTree) → Reads told.now at.old at.new result (read_link fd next)
        (λ place. next (bytes_in (slice_get told.now place))) }
{
    let place = *at;
    let reply = ask(told, at, Act::Host(HostOp::ReadLink { fd }))?;
    match reply {
        ActReply::Host(HostReply::Ok(HostValue::Bytes(_))) => Ok(place),
        _ => Err(Stop::Refuses(reply)),
    }
}

/// What is told of the file system that holds an object.
pub fn stat_fs<'a>(told: &'a [Heard], at: &mut usize, fd: Fd) -> Asked<'a, FsStat>
    ensures { (next : FsStat → RequestTree) → Reads told.now at.old at.new result (stat_fs fd next) next }
{
    let reply = ask(told, at, Act::Host(HostOp::StatFs { fd }))?;
    fs_stat_in(reply)
}

/// A call that tells nothing.
pub fn do_call<'a>(told: &'a [Heard], at: &mut usize, op: HostOp<'a>) -> Asked<'a, ()>
    ensures { (next : RequestTree) →
        Reads told.now at.old at.new result (do_call (call_of op.entry) next) (λ done. next) }
{
    let reply = ask(told, at, Act::Host(op))?;
    ok_in(reply)
}

/// An object is made, and the scopes that are open for that end, whatever is told.
pub fn make<'a>(told: &'a [Heard], at: &mut usize, making: HostOp<'a>) -> Asked<'a, ()>
    ensures { (next : RequestTree) →
        Reads told.now at.old at.new result (make (call_of making.entry) next) (λ done. next) }
{
    let reply = ask(told, at, Act::Host(making))?;
    bares(told, at)?;
    ok_in(reply)
}

/// A call that tells a number of bytes, or a place.
pub fn count_of<'a>(told: &'a [Heard], at: &mut usize, op: HostOp<'a>) -> Asked<'a, u64>
    ensures { (next : ℕ → RequestTree) →
        Reads told.now at.old at.new result (count_of (call_of op.entry) next) next }
{
    let reply = ask(told, at, Act::Host(op))?;
    count_in(reply)
}

/// A name in a directory is opened, or that is how the request is to be answered.
pub fn try_open_at<'a>(
    told: &'a [Heard],
    at: &mut usize,
    dir: Fd,
    name: &'a Bytes,
    flags: OpenFlags,
) -> Asked<'a, Result<Fd, Answer>>
    ensures { (next : Result Fd Answer → RequestTree) →
        Reads told.now at.old at.new result (try_open_at dir name.now flags next) next }
{
    let name = name.as_slice();
    let act = Act::Host(HostOp::OpenAt {
        fd: dir,
        name,
        flags,
        mode: 0,
    });
    let reply = ask(told, at, act)?;
    opened_in(reply)
}

//! Requests on contents, by the handles that they name.

ghost use Rattle.std.specs.Prelude.{◌≡◌};
ghost use Rattle.pt_frame.specs.Machine.Walk.{Reads};
ghost use Rattle.pt_frame.specs.Tree.{Gives};
ghost use Rattle.pt_req.specs.declared.begun.BegunSession.{BegunSession};
ghost use Rattle.pt_attr.specs.Contents.{appends, copyfilerange, fallocate, flush, fsync, lseek, syncfs, write};

use crate::calls::{seek_to, write_at};
use crate::steps::{count_of, do_call};
use pt_frame::{Asked, Heard, bares};
use pt_host::{Bytes, HostOp, HostSeat, OpenFlags};
use pt_iface::Answer;
use pt_req::{
    BegunSession, Plan, clear_capability, drops_fsetid, open_inode, pin_handle, placed,
    without_fsetid,
};

/// What is to be written, and where.
#[derive(Clone, Copy)]
pub struct WriteAsked<'a> {
    pub inode: u64,
    pub handle: u64,
    pub offset: u64,
    pub bytes: &'a Bytes,
    /// It comes from the guest's page cache.
    pub delayed: bool,
    /// Whether set-id bits are to go.
    pub kill: bool,
    pub flags: u32,
}

/// What is to be copied, from the first handle to the second.
#[derive(Clone, Copy)]
pub struct CopyAsked {
    pub inode: u64,
    pub handle: u64,
    pub offset: u64,
    pub inode2: u64,
    pub handle2: u64,
    pub offset2: u64,
    pub length: u64,
    pub flags: u64,
}

/// Whether a write appends: a delayed one has its place.
pub fn appends(delayed: bool, flags: u32) -> bool
    ensures { result ≡ appends delayed flags }
{
    !delayed && OpenFlags(flags).includes(OpenFlags::O_APPEND)
}

/// Bytes are written.
pub fn write<'a>(
    told: &'a [Heard],
    at: &mut usize,
    plan: &'a Plan,
    seat: &HostSeat,
    asked: WriteAsked<'a>,
) -> Asked<'a, Answer>
    ensures { (session : BegunSession) → Reads told.now at.old at.new result
        (write plan.now seat.now asked.entry.inode asked.entry.handle asked.entry.offset asked.entry.bytes.now
        asked.entry.delayed asked.entry.kill asked.entry.flags session) Gives }
{
    let drops = drops_fsetid(plan, seat, asked.kill);
    let append = appends(asked.delayed, asked.flags);
    placed(asked.offset)?;
    let fd = pin_handle(told, at, asked.handle, asked.inode)?;
    without_fsetid(told, at, drops)?;
    clear_capability(told, at, &plan.capability, fd, false)?;
    let op = write_at(fd, asked.offset, asked.bytes, append);
    let count = count_of(told, at, op)?;
    bares(told, at)?;
    Ok(Answer::Wrote(count))
}

/// Room is made for bytes, or is given back.
pub fn fallocate<'a>(
    told: &'a [Heard],
    at: &mut usize,
    inode: u64,
    handle: u64,
    mode: u32,
    offset: u64,
    length: u64,
) -> Asked<'a, Answer>
    ensures { (session : BegunSession) → Reads told.now at.old at.new result
        (fallocate inode handle mode offset length session) Gives }
{
    placed(offset)?;
    placed(length)?;
    let fd = pin_handle(told, at, handle, inode)?;
    let op = HostOp::Allocate {
        fd,
        mode,
        offset,
        length,
    };
    do_call(told, at, op)?;
    Ok(Answer::Done)
}

/// The place of a handle moves.
pub fn lseek<'a>(
    told: &'a [Heard],
    at: &mut usize,
    inode: u64,
    handle: u64,
    offset: u64,
    whence: u32,
) -> Asked<'a, Answer>
    ensures { (session : BegunSession) → Reads told.now at.old at.new result
        (lseek inode handle offset whence session) Gives }
{
    let fd = pin_handle(told, at, handle, inode)?;
    let op = seek_to(fd, offset, whence);
    let place = count_of(told, at, op)?;
    Ok(Answer::Offset(place))
}

/// Bytes are copied from the first handle to the second.
pub fn copyfilerange<'a>(told: &'a [Heard], at: &mut usize, asked: CopyAsked) -> Asked<'a, Answer>
    ensures { (session : BegunSession) → Reads told.now at.old at.new result
        (copyfilerange asked.inode asked.handle asked.offset asked.inode2 asked.handle2 asked.offset2 asked.length
        asked.flags session) Gives }
{
    placed(asked.offset)?;
    placed(asked.offset2)?;
    placed(asked.length)?;
    let from = pin_handle(told, at, asked.handle, asked.inode)?;
    let to = pin_handle(told, at, asked.handle2, asked.inode2)?;
    let op = HostOp::CopyRange {
        fd: from,
        offset: asked.offset,
        fd2: to,
        offset2: asked.offset2,
        length: asked.length,
        flags: asked.flags,
    };
    let count = count_of(told, at, op)?;
    Ok(Answer::Wrote(count))
}

/// The guest closed one of its descriptors for a handle.
pub fn flush<'a>(told: &'a [Heard], at: &mut usize, inode: u64, handle: u64) -> Asked<'a, Answer>
    ensures { (session : BegunSession) → Reads told.now at.old at.new result (flush inode handle session) Gives }
{
    let fd = pin_handle(told, at, handle, inode)?;
    do_call(told, at, HostOp::Flush { fd })?;
    Ok(Answer::Done)
}

/// What a handle is open on is written out, a file or a directory.
pub fn fsync<'a>(
    told: &'a [Heard],
    at: &mut usize,
    inode: u64,
    handle: u64,
    datasync: bool,
) -> Asked<'a, Answer>
    ensures { (session : BegunSession) →
        Reads told.now at.old at.new result (fsync inode handle datasync session) Gives }
{
    let fd = pin_handle(told, at, handle, inode)?;
    do_call(told, at, HostOp::Sync { fd, datasync })?;
    Ok(Answer::Done)
}

/// The file system that holds an object is written out.
pub fn syncfs<'a>(
    told: &'a [Heard],
    at: &mut usize,
    plan: &Plan,
    session: BegunSession,
    inode: u64,
) -> Asked<'a, Answer>
    ensures { Reads told.now at.old at.new result (syncfs plan.now inode session) Gives }
{
    let fd = open_inode(told, at, plan, session, inode, OpenFlags::O_NOFOLLOW.0)?;
    do_call(told, at, HostOp::SyncFs { fd })?;
    Ok(Answer::Done)
}

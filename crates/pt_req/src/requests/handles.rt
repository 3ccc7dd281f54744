//! Requests that open a number by a handle, read by it, and give it back.

ghost use Rattle.std.specs.Prelude.{◌≡◌};
ghost use Rattle.pt_frame.specs.Machine.Walk.{Reads};
ghost use Rattle.pt_frame.specs.Tree.{Gives};
ghost use Rattle.pt_req.specs.Requests.{open_file, open_dir, release, read};

use crate::begun::BegunSession;
use crate::parts::{do_open, open_options, placed};
use crate::plan::Plan;
use crate::steps::{pin_handle, read_at, release_handle};
use pt_frame::{Asked, Heard, Moved, Stop};
use pt_host::{HostSeat, OpenFlags};
use pt_iface::Answer;

/// What a number stands for is opened by a handle.
pub fn open<'a>(
    told: &'a [Heard],
    at: &mut usize,
    plan: &'a Plan,
    seat: &HostSeat,
    session: BegunSession,
    inode: u64,
    kill: bool,
    flags: u32,
) -> Asked<'a, Answer>
    ensures { Reads told.now at.old at.new result (open_file plan.now seat.now inode kill flags session) Gives }
{
    let options = open_options(&plan.config, flags);
    let handle = do_open(told, at, plan, seat, session, inode, kill, flags)?;
    Ok(Answer::Opened(handle, options))
}

/// A directory is opened by a handle.
pub fn opendir<'a>(
    told: &'a [Heard],
    at: &mut usize,
    plan: &'a Plan,
    seat: &HostSeat,
    session: BegunSession,
    inode: u64,
    flags: u32,
) -> Asked<'a, Answer>
    ensures { Reads told.now at.old at.new result (open_dir plan.now seat.now inode flags session) Gives }
{
    let flags = flags | OpenFlags::O_DIRECTORY.0;
    open(told, at, plan, seat, session, inode, false, flags)
}

/// The guest gives a handle back, of a file or of a directory.
pub fn release<'a>(
    told: &'a [Heard],
    at: &mut usize,
    session: BegunSession,
    inode: u64,
    handle: u64,
) -> Asked<'a, Answer>
    ensures { Reads told.now at.old at.new result (release inode handle session) Gives }
{
    release_handle(told, at, handle, inode)?;
    Ok(Answer::Done)
}

/// Bytes by a handle, which are moved out of the reply that has them.
pub fn read<'a>(
    told: &'a [Heard],
    at: &mut usize,
    session: BegunSession,
    inode: u64,
    handle: u64,
    size: u32,
    offset: u64,
) -> Asked<'a, Answer>
    ensures { Reads told.now at.old at.new result (read inode handle size offset session) Gives }
{
    placed(offset)?;
    let fd = pin_handle(told, at, handle, inode)?;
    let place = read_at(told, at, fd, offset, size)?;
    Err(Stop::Moves(Moved::Read, place))
}

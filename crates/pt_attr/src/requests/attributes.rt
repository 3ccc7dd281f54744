//! Requests on what a number stands for: its attributes, and what else is told of it.

ghost use Rattle.std.specs.Prelude.{◌≡◌};
ghost use Rattle.pt_frame.specs.Machine.Walk.{Reads};
ghost use Rattle.pt_frame.specs.Tree.{Gives};
ghost use Rattle.pt_req.specs.declared.begun.BegunSession.{BegunSession};
ghost use Rattle.pt_req.specs.Entries.{attr_of};
ghost use Rattle.pt_attr.specs.Access.{is_granted};
ghost use Rattle.pt_attr.specs.Requests.{access, allowed, getattr, readlink, statfs};
ghost use Rattle.pt_attr.specs.Setting.{setattr};

use crate::grants::is_granted;
use crate::parts::{
    file_by, file_set, set_mode, set_owner, set_size, set_times, sized, target_of, tell_attr,
};
use crate::steps::{read_link, stat_fs};
use pt_frame::{Asked, Heard, Moved, Stop};
use pt_host::{Errno, HostSeat, Stat};
use pt_iface::{Answer, Context, SetattrIn, SetattrValid};
use pt_req::{Plan, attr_of, resolve, stat};

/// The target of a symbolic link, which is moved out of the reply that has it.
pub fn readlink<'a>(told: &'a [Heard], at: &mut usize, inode: u64) -> Asked<'a, Answer>
    ensures { (session : BegunSession) → Reads told.now at.old at.new result (readlink inode session) Gives }
{
    let fd = file_by(told, at, inode)?;
    let place = read_link(told, at, fd)?;
    Err(Stop::Moves(Moved::Link, place))
}

/// The status of the file system that holds an object.
pub fn statfs<'a>(told: &'a [Heard], at: &mut usize, inode: u64) -> Asked<'a, Answer>
    ensures { (session : BegunSession) → Reads told.now at.old at.new result (statfs inode session) Gives }
{
    let fd = file_by(told, at, inode)?;
    let stat = stat_fs(told, at, fd)?;
    Ok(Answer::FsStat(stat))
}

/// The attributes of an object, and how long they may be kept.
pub fn getattr<'a>(told: &'a [Heard], at: &mut usize, plan: &Plan, inode: u64) -> Asked<'a, Answer>
    ensures { (session : BegunSession) →
        Reads told.now at.old at.new result (getattr plan.now inode session) Gives }
{
    tell_attr(told, at, plan, inode)
}

fn allowed(granted: bool) -> Answer
    ensures { result ≡ allowed granted }
{
    if granted {
        Answer::Done
    } else {
        Answer::Refused(Errno::EACCES)
    }
}

/// What is decided of these attributes.
fn decision(plan: &Plan, who: Context, mask: u32, stat: &Stat) -> Answer
    ensures { result ≡ allowed (is_granted who mask (attr_of plan.now stat.now 0)) }
{
    let attr = attr_of(plan, stat, 0);
    allowed(is_granted(who, mask, &attr))
}

/// Whether who asks may use an object so.
pub fn access<'a>(
    told: &'a [Heard],
    at: &mut usize,
    plan: &Plan,
    who: Context,
    inode: u64,
    mask: u32,
) -> Asked<'a, Answer>
    ensures { (session : BegunSession) →
        Reads told.now at.old at.new result (access plan.now who inode mask session) Gives }
{
    let fd = file_by(told, at, inode)?;
    let stat = stat(told, at, fd)?;
    Ok(decision(plan, who, mask, &stat))
}

/// Attributes are set in this order, up to the first refusal. What was set before it stays so.
pub fn setattr<'a>(
    told: &'a [Heard],
    at: &mut usize,
    plan: &'a Plan,
    seat: &HostSeat,
    inode: u64,
    handle: Option<u64>,
    valid: SetattrValid,
    attr: &SetattrIn,
) -> Asked<'a, Answer>
    ensures { (session : BegunSession) → Reads told.now at.old at.new result
        (setattr plan.now seat.now inode handle valid attr.now session) Gives }
{
    sized(valid, attr)?;
    let row = resolve(told, at, inode)?;
    let file = file_set(told, at, handle, valid, &row)?;
    let target = target_of(told, at, inode, handle, file)?;
    set_mode(told, at, valid, attr, target)?;
    set_owner(told, at, plan, valid, attr, file)?;
    set_size(told, at, plan, seat, valid, attr, target)?;
    set_times(told, at, valid, attr, target)?;
    tell_attr(told, at, plan, inode)
}

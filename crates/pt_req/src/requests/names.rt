//! Requests that give numbers, and take them back.

ghost use Rattle.std.specs.Prelude.{◌≡◌};
ghost use Rattle.pt_frame.specs.Machine.Walk.{Reads};
ghost use Rattle.pt_frame.specs.Tree.{Gives};
ghost use Rattle.pt_req.specs.Requests.{lookup, forget, batch_forget};

use crate::begun::BegunSession;
use crate::parts::{do_lookup, named};
use crate::plan::Plan;
use crate::steps::{forget_all, forget_one};
use pt_frame::{Asked, Heard};
use pt_host::Bytes;
use pt_iface::{Answer, ForgetList};

/// A name in a directory becomes an entry.
pub fn lookup<'a>(
    told: &'a [Heard],
    at: &mut usize,
    plan: &Plan,
    session: BegunSession,
    parent: u64,
    name: &'a Bytes,
) -> Asked<'a, Answer>
    ensures { Reads told.now at.old at.new result (lookup plan.now parent name.now session) Gives }
{
    named(name)?;
    let looked = do_lookup(told, at, plan, session, parent, name)?;
    Ok(Answer::Entry(looked.entry))
}

/// The guest forgets so much of a number.
pub fn forget<'a>(
    told: &'a [Heard],
    at: &mut usize,
    session: BegunSession,
    inode: u64,
    count: u64,
) -> Asked<'a, Answer>
    ensures { Reads told.now at.old at.new result (forget inode count session) Gives }
{
    forget_one(told, at, inode, count)?;
    Ok(Answer::NoReply)
}

/// And so much of many.
pub fn batch_forget<'a>(
    told: &'a [Heard],
    at: &mut usize,
    session: BegunSession,
    list: &'a ForgetList,
) -> Asked<'a, Answer>
    ensures { Reads told.now at.old at.new result (batch_forget list.now session) Gives }
{
    forget_all(told, at, list)?;
    Ok(Answer::NoReply)
}

//! Requests that take names away, give more of them, or move them.

ghost use Rattle.std.specs.Prelude.{◌≡◌};
ghost use Rattle.pt_frame.specs.Machine.Walk.{Reads};
ghost use Rattle.pt_frame.specs.Tree.{Gives};
ghost use Rattle.pt_req.specs.declared.begun.BegunSession.{BegunSession};
ghost use Rattle.pt_attr.specs.Requests.{link, rename, rmdir, unlink};

use crate::calls::{make_link, remove_dir, rename_name, unlink_name};
use crate::parts::{file_by, files_by};
use crate::steps::do_call;
use pt_frame::{Asked, Heard};
use pt_host::Bytes;
use pt_iface::Answer;
use pt_req::{BegunSession, Plan, do_lookup, named};

/// A name of what is no directory goes.
pub fn unlink<'a>(
    told: &'a [Heard],
    at: &mut usize,
    parent: u64,
    name: &'a Bytes,
) -> Asked<'a, Answer>
    ensures { (session : BegunSession) →
        Reads told.now at.old at.new result (unlink parent name.now session) Gives }
{
    named(name)?;
    let dir = file_by(told, at, parent)?;
    let op = unlink_name(dir, name);
    do_call(told, at, op)?;
    Ok(Answer::Done)
}

/// An empty directory goes.
pub fn rmdir<'a>(
    told: &'a [Heard],
    at: &mut usize,
    parent: u64,
    name: &'a Bytes,
) -> Asked<'a, Answer>
    ensures { (session : BegunSession) →
        Reads told.now at.old at.new result (rmdir parent name.now session) Gives }
{
    named(name)?;
    let dir = file_by(told, at, parent)?;
    let op = remove_dir(dir, name);
    do_call(told, at, op)?;
    Ok(Answer::Done)
}

/// An object gets one more name, which is then looked up.
pub fn link<'a>(
    told: &'a [Heard],
    at: &mut usize,
    plan: &Plan,
    session: BegunSession,
    inode: u64,
    newparent: u64,
    newname: &'a Bytes,
) -> Asked<'a, Answer>
    ensures { Reads told.now at.old at.new result (link plan.now inode newparent newname.now session) Gives }
{
    named(newname)?;
    let files = files_by(told, at, inode, newparent)?;
    let op = make_link(files.from, files.to, newname);
    do_call(told, at, op)?;
    let looked = do_lookup(told, at, plan, session, newparent, newname)?;
    Ok(Answer::Entry(looked.entry))
}

/// A name moves, or two are exchanged.
pub fn rename<'a>(
    told: &'a [Heard],
    at: &mut usize,
    olddir: u64,
    oldname: &'a Bytes,
    newdir: u64,
    newname: &'a Bytes,
    flags: u32,
) -> Asked<'a, Answer>
    ensures { (session : BegunSession) → Reads told.now at.old at.new result
        (rename olddir oldname.now newdir newname.now flags session) Gives }
{
    named(oldname)?;
    named(newname)?;
    let files = files_by(told, at, olddir, newdir)?;
    let op = rename_name(files.from, oldname, files.to, newname, flags);
    do_call(told, at, op)?;
    Ok(Answer::Done)
}

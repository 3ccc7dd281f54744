//! Requests that make an object that is no regular file.

ghost use Rattle.std.specs.Prelude.{◌≡◌};
ghost use Rattle.pt_frame.specs.Machine.Walk.{Reads};
ghost use Rattle.pt_frame.specs.Tree.{Gives};
ghost use Rattle.pt_attr.specs.Making.{asked_of, mkdir, mknod, symlink};

use crate::calls::{make_dir, make_node, make_symlink, remove_dir, unlink_name};
use crate::parts::{ObjectAsked, make_object, targeted};
use pt_frame::{Asked, Heard};
use pt_host::{Bytes, HostSeat};
use pt_iface::Answer;
use pt_req::{BegunSession, Plan, file_of, host_label, named, resolve};

/// A directory is made.
pub fn mkdir<'a>(
    told: &'a [Heard],
    at: &mut usize,
    plan: &'a Plan,
    seat: &HostSeat,
    session: BegunSession,
    asked: ObjectAsked<'a>,
    mode: u32,
) -> Asked<'a, Answer>
    ensures { Reads told.now at.old at.new result (mkdir plan.now seat.now (asked_of asked.entry) mode session) Gives }
{
    named(asked.name)?;
    let row = resolve(told, at, asked.parent)?;
    let label = host_label(told, at, plan, session.agreed, &asked.ext.secctx)?;
    let dir = file_of(&row.form)?;
    let making = make_dir(dir, asked.name, mode);
    let undoing = remove_dir(dir, asked.name);
    make_object(
        told, at, plan, seat, session, asked, label, dir, making, undoing,
    )
}

/// What the mode says is made.
pub fn mknod<'a>(
    told: &'a [Heard],
    at: &mut usize,
    plan: &'a Plan,
    seat: &HostSeat,
    session: BegunSession,
    asked: ObjectAsked<'a>,
    mode: u32,
    rdev: u32,
) -> Asked<'a, Answer>
    ensures { Reads told.now at.old at.new result
        (mknod plan.now seat.now (asked_of asked.entry) mode rdev session) Gives }
{
    named(asked.name)?;
    let row = resolve(told, at, asked.parent)?;
    let label = host_label(told, at, plan, session.agreed, &asked.ext.secctx)?;
    let dir = file_of(&row.form)?;
    let making = make_node(dir, asked.name, mode, rdev);
    let undoing = unlink_name(dir, asked.name);
    make_object(
        told, at, plan, seat, session, asked, label, dir, making, undoing,
    )
}

/// A symbolic link is made.
pub fn symlink<'a>(
    told: &'a [Heard],
    at: &mut usize,
    plan: &'a Plan,
    seat: &HostSeat,
    session: BegunSession,
    asked: ObjectAsked<'a>,
    target: &'a Bytes,
) -> Asked<'a, Answer>
    ensures { Reads told.now at.old at.new result
        (symlink plan.now seat.now (asked_of asked.entry) target.now session) Gives }
{
    named(asked.name)?;
    targeted(target)?;
    let row = resolve(told, at, asked.parent)?;
    let label = host_label(told, at, plan, session.agreed, &asked.ext.secctx)?;
    let dir = file_of(&row.form)?;
    let making = make_symlink(dir, asked.name, target);
    let undoing = unlink_name(dir, asked.name);
    make_object(
        told, at, plan, seat, session, asked, label, dir, making, undoing,
    )
}

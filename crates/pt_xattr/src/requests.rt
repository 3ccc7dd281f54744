//! The requests of extended attributes and of listings.

ghost use Rattle.pt_frame.specs.Machine.Walk.{Reads};
ghost use Rattle.pt_frame.specs.Tree.{Gives};
ghost use Rattle.pt_xattr.specs.Listed.{entries_of};
ghost use Rattle.pt_xattr.specs.Requests.{getxattr, listed_from, listing, listxattr, readdir, removexattr, setxattr};

use crate::calls::{list_at, remove_xattr, set_xattr};
use crate::listed::{entries_in, no_entries};
use crate::parts::{
    allowed, allowed_to_read, kills_sgid, list_told, nul_free, sgid_killed, value_told, with_xattr,
    xattr_file,
};
use crate::steps::bytes_lent;
use pt_attr::do_call;
use pt_frame::{Asked, Heard, Moved, Product, Stop, kept_entries};
use pt_handles::is_listing;
use pt_host::{Bytes, Errno};
use pt_iface::{Answer, SetxattrFlags};
use pt_req::{BegunSession, Plan, clear_capability, host_name, pin_handle, placed, resolve};

/// An attribute that is to be set.
#[derive(Clone, Copy)]
pub struct SetAsked<'a> {
    pub inode: u64,
    pub name: &'a Bytes,
    pub value: &'a Bytes,
    pub flags: u32,
    pub extra: SetxattrFlags,
}

/// An extended attribute is set.
pub fn setxattr<'a>(
    told: &'a [Heard],
    at: &mut usize,
    plan: &'a Plan,
    session: BegunSession,
    asked: SetAsked<'a>,
) -> Asked<'a, Answer>
    ensures { Reads told.now at.old at.new result
        (setxattr plan.now asked.entry.inode asked.entry.name.now asked.entry.value.now asked.entry.flags
        asked.entry.extra session) Gives }
{
    with_xattr(plan)?;
    nul_free(asked.name)?;
    let row = resolve(told, at, asked.inode)?;
    let found = host_name(told, at, plan, session.agreed, asked.name)?;
    let name = allowed(found)?;
    let kills = kills_sgid(session.agreed, asked.extra, name);
    let file = xattr_file(told, at, plan, session, &row, asked.inode)?;
    clear_capability(told, at, &plan.capability, file.fd, file.through)?;
    sgid_killed(told, at, kills, file)?;
    let op = set_xattr(file, name, asked.value, asked.flags);
    do_call(told, at, op)?;
    Ok(Answer::Done)
}

/// One is told, or how long it is.
pub fn getxattr<'a>(
    told: &'a [Heard],
    at: &mut usize,
    plan: &'a Plan,
    session: BegunSession,
    inode: u64,
    name: &'a Bytes,
    size: u32,
) -> Asked<'a, Answer>
    ensures { Reads told.now at.old at.new result (getxattr plan.now inode name.now size session) Gives }
{
    with_xattr(plan)?;
    nul_free(name)?;
    let found = host_name(told, at, plan, session.agreed, name)?;
    let named = allowed_to_read(found)?;
    let row = resolve(told, at, inode)?;
    let file = xattr_file(told, at, plan, session, &row, inode)?;
    value_told(told, at, file, named, size)
}

/// The names of all are told, or how long they are together.
pub fn listxattr<'a>(
    told: &'a [Heard],
    at: &mut usize,
    plan: &'a Plan,
    session: BegunSession,
    inode: u64,
    size: u32,
) -> Asked<'a, Answer>
    ensures { Reads told.now at.old at.new result (listxattr plan.now inode size session) Gives }
{
    with_xattr(plan)?;
    let row = resolve(told, at, inode)?;
    let file = xattr_file(told, at, plan, session, &row, inode)?;
    list_told(told, at, plan, session.agreed, file, size)
}

/// One goes.
pub fn removexattr<'a>(
    told: &'a [Heard],
    at: &mut usize,
    plan: &'a Plan,
    session: BegunSession,
    inode: u64,
    name: &'a Bytes,
) -> Asked<'a, Answer>
    ensures { Reads told.now at.old at.new result (removexattr plan.now inode name.now session) Gives }
{
    with_xattr(plan)?;
    nul_free(name)?;
    let row = resolve(told, at, inode)?;
    let found = host_name(told, at, plan, session.agreed, name)?;
    let named = allowed(found)?;
    let file = xattr_file(told, at, plan, session, &row, inode)?;
    let op = remove_xattr(file, named);
    do_call(told, at, op)?;
    Ok(Answer::Done)
}

/// The entries of a listing, which are made where they are not kept yet.
fn listing<'a>(
    told: &'a [Heard],
    at: &mut usize,
    plan: &Plan,
    bytes: &'a Bytes,
) -> Asked<'a, Answer>
    ensures { Reads told.now at.old at.new result (listing (entries_of bytes.now)) Gives }
{
    if !is_listing(bytes.as_slice()) {
        return Err(Stop::Gives(Answer::Refused(Errno::EIO)));
    }
    let place = *at;
    let made = kept_entries(told, at)?;
    if made {
        return Err(Stop::Moves(Moved::Listing, place));
    }
    match entries_in(plan, bytes) {
        Ok(entries) => Err(Stop::Makes(Product::Entries(entries))),
        Err(_) => Err(Stop::GivesUp),
    }
}

fn listed_from<'a>(
    told: &'a [Heard],
    at: &mut usize,
    plan: &Plan,
    inode: u64,
    handle: u64,
    size: u32,
    offset: u64,
) -> Asked<'a, Answer>
    ensures { Reads told.now at.old at.new result (listed_from inode handle size offset) Gives }
{
    placed(offset)?;
    let fd = pin_handle(told, at, handle, inode)?;
    let op = list_at(fd, offset, size);
    let bytes = bytes_lent(told, at, op)?;
    listing(told, at, plan, bytes)
}

/// Entries of a directory from an offset on, as many as go into the size.
#[tactic(auto, using(pt_frame::proofs::Reading::here), unfolding(crate::specs::Requests::readdir))]
pub fn readdir<'a>(
    told: &'a [Heard],
    at: &mut usize,
    plan: &Plan,
    session: BegunSession,
    inode: u64,
    handle: u64,
    size: u32,
    offset: u64,
) -> Asked<'a, Answer>
    ensures { Reads told.now at.old at.new result (readdir inode handle size offset session) Gives }
{
    if size == 0 {
        return Ok(Answer::Listing(no_entries(plan)));
    }
    listed_from(told, at, plan, inode, handle, size, offset)
}

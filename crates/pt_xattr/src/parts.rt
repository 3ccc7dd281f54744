//! The parts of requests of extended attributes.

ghost use Rattle.std.specs.Prelude.{◌≡◌, ◌==◌, true, false, ℕ, List, Result};
ghost use Rattle.std.specs.List.{list_any};
ghost use Rattle.pt_host.specs.declared.ids.Errno.{Errno};
ghost use Rattle.pt_iface.specs.declared.answer.Answer.TheVariants as answer;
ghost use Rattle.pt_iface.specs.declared.answer.GetxattrReply.TheVariants as xattr;
ghost use Rattle.pt_iface.specs.declared.answer.ListxattrReply.TheVariants as xattrs;
ghost use Rattle.pt_frame.specs.Machine.Walk.{Reads};
ghost use Rattle.pt_frame.specs.Tree.{RequestTree, Gives};
ghost use Rattle.pt_frame.specs.declared.told.Heard.{Heard};
ghost use Rattle.pt_req.specs.Attributes.{name_seen};
ghost use Rattle.pt_req.specs.Parts.{file_of, open_inode};
ghost use Rattle.pt_xattr.specs.Parts.{allowed, allowed_to_read, as_missing, counted, file_by, kills_sgid, list_length};
ghost use Rattle.pt_xattr.specs.Parts.{list_told, list_whole, names_made, nul_free, sgid_killed, value_length};
ghost use Rattle.pt_xattr.specs.Parts.{value_told, value_whole, with_xattr, without_sgid, xattr_file};

use crate::calls::{get_xattr, list_xattr};
use crate::listed::names_told;
use crate::steps::{bytes_at, bytes_lent};
use pt_attr::{count_of, do_call};
use pt_frame::{Asked, Heard, Moved, Product, Stop, kept_bytes};
use pt_host::{Bytes, Errno, Fd, HostOp};
use pt_iface::{Answer, GetxattrReply, ListxattrReply, SetxattrFlags};
use pt_req::{BegunSession, Plan, can_open, file_of, open_inode, stat};
use pt_session::{Negotiated, Resolved, RowForm};

/// What an attribute is asked by, through its link in `/proc` or not.
#[derive(Clone, Copy)]
pub struct XattrFile {
    pub fd: Fd,
    pub through: bool,
}

/// What an attribute's owner is opened with, `O_RDONLY | O_NONBLOCK`.
const FLAGS: u32 = 0o4000;

/// Refused where the guest may not use extended attributes.
#[tactic(auto, using(pt_frame::proofs::Reading::gives, pt_frame::proofs::Reading::rest), unfolding(crate::specs::Parts::with_xattr))]
pub fn with_xattr<'a>(plan: &Plan) -> Asked<'a, ()>
    ensures { (told : List Heard) (at : ℕ) (next : RequestTree) →
        Reads told at at result (with_xattr plan.now next) (λ done. next) }
{
    if plan.config.xattr {
        Ok(())
    } else {
        Err(Stop::Gives(Answer::Refused(Errno::ENOSYS)))
    }
}

fn has_nul(name: &[u8]) -> bool
    ensures { result ≡ list_any (λ byte. byte == 0) name.now }
{
    name.iter().any(|byte| *byte == 0)
}

/// A name with a NUL is refused.
#[tactic(auto, using(pt_frame::proofs::Reading::gives, pt_frame::proofs::Reading::rest), unfolding(crate::specs::Parts::nul_free))]
pub fn nul_free<'a>(name: &Bytes) -> Asked<'a, ()>
    ensures { (told : List Heard) (at : ℕ) (next : RequestTree) →
        Reads told at at result (nul_free name.now next) (λ done. next) }
{
    if has_nul(name.as_slice()) {
        return Err(Stop::Gives(Answer::Refused(Errno::EINVAL)));
    }
    Ok(())
}

/// A name that the guest may use; else the request is refused.
#[tactic(auto, using(pt_frame::proofs::Reading::gives, pt_frame::proofs::Reading::here), unfolding(crate::specs::Parts::allowed))]
pub fn allowed<'a>(name: Result<&'a Bytes, Errno>) -> Asked<'a, &'a Bytes>
    ensures { (told : List Heard) (at : ℕ) (next : List ℕ → RequestTree) →
        Reads told at at result (allowed (name_seen name.entry) next) (λ name. next name.now) }
{
    match name {
        Ok(name) => Ok(name),
        Err(errno) => Err(Stop::Gives(Answer::Refused(errno))),
    }
}

fn as_missing(errno: Errno) -> Errno
    ensures { result ≡ as_missing errno }
{
    if errno.0 == Errno::EPERM.0 {
        Errno::ENODATA
    } else {
        errno
    }
}

/// The same where it is read: one that the guest may not use is as one that is not there.
#[tactic(auto, using(pt_frame::proofs::Reading::gives, pt_frame::proofs::Reading::here), unfolding(crate::specs::Parts::allowed_to_read))]
pub fn allowed_to_read<'a>(name: Result<&'a Bytes, Errno>) -> Asked<'a, &'a Bytes>
    ensures { (told : List Heard) (at : ℕ) (next : List ℕ → RequestTree) →
        Reads told at at result (allowed_to_read (name_seen name.entry) next) (λ name. next name.now) }
{
    match name {
        Ok(name) => Ok(name),
        Err(errno) => Err(Stop::Gives(Answer::Refused(as_missing(errno)))),
    }
}

fn opened_file<'a>(
    told: &'a [Heard],
    at: &mut usize,
    plan: &Plan,
    session: BegunSession,
    number: u64,
) -> Asked<'a, XattrFile>
    ensures { (next : XattrFile → RequestTree) → Reads told.now at.old at.new result
        (open_inode plan.now session number 2048 (λ fd. next (file_by false fd))) next }
{
    let fd = open_inode(told, at, plan, session, number, FLAGS)?;
    Ok(XattrFile { fd, through: false })
}

fn own_file<'a>(form: &RowForm) -> Asked<'a, XattrFile>
    ensures { (told : List Heard) (at : ℕ) (next : XattrFile → RequestTree) →
        Reads told at at result (file_of form.now (λ fd. next (file_by true fd))) next }
{
    let fd = file_of(form)?;
    Ok(XattrFile { fd, through: true })
}

/// What an attribute of an object is asked by: a regular file or a directory is opened anew, and of any other the
/// descriptor serves that stands for it.
#[tactic(auto, unfolding(crate::specs::Parts::xattr_file))]
pub fn xattr_file<'a>(
    told: &'a [Heard],
    at: &mut usize,
    plan: &Plan,
    session: BegunSession,
    row: &Resolved,
    number: u64,
) -> Asked<'a, XattrFile>
    ensures { (next : XattrFile → RequestTree) → Reads told.now at.old at.new result
        (xattr_file plan.now session row.now number next) next }
{
    if can_open(row.mode) {
        opened_file(told, at, plan, session, number)
    } else {
        own_file(&row.form)
    }
}

/// Permissions without the set-group-id bit.
fn without_sgid(mode: u32) -> u32
    ensures { result ≡ without_sgid mode }
{
    if mode / 0o2000 % 2 == 1 {
        mode % 0o10000 - 0o2000
    } else {
        mode % 0o10000
    }
}

/// Whether an access control list that is set takes the bit.
pub fn kills_sgid(agreed: Negotiated, extra: SetxattrFlags, name: &Bytes) -> bool
    ensures { result ≡ kills_sgid agreed extra name.now }
{
    let access: &[u8] = b"system.posix_acl_access";
    agreed.posix_acl
        && extra.includes(SetxattrFlags::SETXATTR_ACL_KILL_SGID)
        && name.as_slice() == access
}

fn sgid_taken<'a>(told: &'a [Heard], at: &mut usize, file: XattrFile) -> Asked<'a, ()>
    ensures { (next : RequestTree) →
        Reads told.now at.old at.new result (sgid_killed true file next) (λ done. next) }
{
    let stat = stat(told, at, file.fd)?;
    let op = HostOp::ChMod {
        fd: file.fd,
        through: file.through,
        mode: without_sgid(stat.mode),
    };
    do_call(told, at, op)?;
    Ok(())
}

/// The bit goes, if it is to go.
#[tactic(auto, using(pt_frame::proofs::Reading::rest))]
pub fn sgid_killed<'a>(
    told: &'a [Heard],
    at: &mut usize,
    kills: bool,
    file: XattrFile,
) -> Asked<'a, ()>
    ensures { (next : RequestTree) →
        Reads told.now at.old at.new result (sgid_killed kills file next) (λ done. next) }
{
    if kills {
        sgid_taken(told, at, file)
    } else {
        Ok(())
    }
}

fn value_count(count: u64) -> Answer
    ensures { result ≡ counted count (answer.Xattr (xattr.Count count)) }
{
    if count <= u64::from(u32::MAX) {
        Answer::Xattr(GetxattrReply::Count(count as u32))
    } else {
        Answer::Refused(Errno::EOVERFLOW)
    }
}

fn list_count(count: u64) -> Answer
    ensures { result ≡ counted count (answer.Xattrs (xattrs.Count count)) }
{
    if count <= u64::from(u32::MAX) {
        Answer::Xattrs(ListxattrReply::Count(count as u32))
    } else {
        Answer::Refused(Errno::EOVERFLOW)
    }
}

fn value_length<'a>(
    told: &'a [Heard],
    at: &mut usize,
    file: XattrFile,
    name: &'a Bytes,
    size: u32,
) -> Asked<'a, Answer>
    ensures { Reads told.now at.old at.new result (value_length file name.now size) Gives }
{
    let op = get_xattr(file, name, size);
    let count = count_of(told, at, op)?;
    Ok(value_count(count))
}

fn value_whole<'a>(
    told: &'a [Heard],
    at: &mut usize,
    file: XattrFile,
    name: &'a Bytes,
    size: u32,
) -> Asked<'a, Answer>
    ensures { Reads told.now at.old at.new result (value_whole file name.now size) Gives }
{
    let op = get_xattr(file, name, size);
    let place = bytes_at(told, at, op)?;
    Err(Stop::Moves(Moved::Xattr, place))
}

/// The value of an attribute, or where no size is asked for how long it is.
#[tactic(auto, unfolding(crate::specs::Parts::value_told))]
pub fn value_told<'a>(
    told: &'a [Heard],
    at: &mut usize,
    file: XattrFile,
    name: &'a Bytes,
    size: u32,
) -> Asked<'a, Answer>
    ensures { Reads told.now at.old at.new result (value_told file name.now size) Gives }
{
    if size == 0 {
        value_length(told, at, file, name, size)
    } else {
        value_whole(told, at, file, name, size)
    }
}

/// The names that the guest is told of a list, which are made where they are not kept yet.
fn names_made<'a>(
    told: &'a [Heard],
    at: &mut usize,
    plan: &Plan,
    agreed: Negotiated,
    list: &'a Bytes,
) -> Asked<'a, Answer>
    ensures { Reads told.now at.old at.new result (names_made plan.now agreed list.now) Gives }
{
    let place = *at;
    let before = kept_bytes(told, at)?;
    match before {
        Some(_) => Err(Stop::Moves(Moved::Xattrs, place)),
        None => match names_told(plan, agreed, list.as_slice()) {
            Ok(names) => Err(Stop::Makes(Product::Bytes(names))),
            Err(_) => Err(Stop::GivesUp),
        },
    }
}

fn list_length<'a>(
    told: &'a [Heard],
    at: &mut usize,
    file: XattrFile,
    size: u32,
) -> Asked<'a, Answer>
    ensures { Reads told.now at.old at.new result (list_length file size) Gives }
{
    let op = list_xattr(file, size);
    let count = count_of(told, at, op)?;
    Ok(list_count(count))
}

fn list_whole<'a>(
    told: &'a [Heard],
    at: &mut usize,
    plan: &Plan,
    agreed: Negotiated,
    file: XattrFile,
    size: u32,
) -> Asked<'a, Answer>
    ensures { Reads told.now at.old at.new result (list_whole plan.now agreed file size) Gives }
{
    let op = list_xattr(file, size);
    let list = bytes_lent(told, at, op)?;
    names_made(told, at, plan, agreed, list)
}

/// The names of all, or how long they are together.
#[tactic(auto, unfolding(crate::specs::Parts::list_told))]
pub fn list_told<'a>(
    told: &'a [Heard],
    at: &mut usize,
    plan: &Plan,
    agreed: Negotiated,
    file: XattrFile,
    size: u32,
) -> Asked<'a, Answer>
    ensures { Reads told.now at.old at.new result (list_told plan.now agreed file size) Gives }
{
    if size == 0 {
        list_length(told, at, file, size)
    } else {
        list_whole(told, at, plan, agreed, file, size)
    }
}

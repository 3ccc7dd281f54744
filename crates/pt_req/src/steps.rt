//! One step of a request each: what it asks, and what it reads of the reply.

ghost use Rattle.std.specs.Prelude.{◌≡◌, ℕ, [], ◌∷◌, List, Option, IfOk, slice_get};
ghost use Rattle.std.specs.Option.{option_copied};
ghost use Rattle.pt_host.specs.Call.{call_of};
ghost use Rattle.pt_host.specs.declared.ids.Fd.{Fd};
ghost use Rattle.pt_host.specs.declared.stat.Stat.{Stat};
ghost use Rattle.pt_tables.specs.declared.reply.Resolved.{Resolved};
ghost use Rattle.pt_iface.specs.declared.answer.Answer.{Answer};
ghost use Rattle.pt_frame.specs.Machine.Walk.{HasBytes, Reads, bytes_in};
ghost use Rattle.pt_frame.specs.Tree.{RequestTree};
ghost use Rattle.pt_req.specs.Steps.{begin, clear, resolve, open_root, open_at, reopen, open_scope, try_call};
ghost use Rattle.pt_req.specs.Steps.{make_at, stat, read_at, set_xattr, drop_xattr, claim, take_fd, draw_node, draw_handle};
ghost use Rattle.pt_req.specs.Steps.{insert, insert_root, insert_handle, pin_handle, forget_all, release_handle};
ghost use Rattle.pt_req.specs.declared.begun.BegunSession.{BegunSession};
ghost use Rattle.pt_req.specs.declared.replies.Made.{Made};

use crate::begun::BegunSession;
use crate::replies::{
    Made, began_in, claimed_in, cleared_in, done_in, drawn_in, fd_in, gone_in, inserted_in,
    made_in, numbered_in, ok_in, pinned_in, refused_in, resolved_in, stat_in, taken_in, tried_in,
};
use pt_frame::{Act, ActReply, Asked, Heard, Hold, Stop, ask, bares, open};
use pt_host::{Bytes, Fd, FileHandle, HostOp, HostReply, HostValue, ObjIds, OpenFlags, Stat};
use pt_iface::{Answer, ForgetList};
use pt_session::{Claim, Event, Negotiated, NewHandle, NewRoot, NewRow, Resolved, RowForm};

/// The session goes on, as it stands.
pub fn begin<'a>(told: &'a [Heard], at: &mut usize) -> Asked<'a, BegunSession>
    ensures { (next : BegunSession → RequestTree) → Reads told.now at.old at.new result (begin next) next }
{
    let reply = ask(told, at, Act::Event(Event::Begin))?;
    began_in(reply)
}

/// The session begins anew: its era.
pub fn clear<'a>(told: &'a [Heard], at: &mut usize) -> Asked<'a, u64>
    ensures { (next : ℕ → RequestTree) → Reads told.now at.old at.new result (clear next) next }
{
    let reply = ask(told, at, Act::Event(Event::Clear))?;
    cleared_in(reply)
}

/// A number is looked up in the tables.
pub fn resolve<'a>(told: &'a [Heard], at: &mut usize, number: u64) -> Asked<'a, Resolved>
    ensures { (next : Resolved → RequestTree) → Reads told.now at.old at.new result (resolve number next) next }
{
    let reply = ask(told, at, Act::Event(Event::Resolve { number }))?;
    resolved_in(reply)
}

/// A path of the host is opened.
pub fn open_root<'a>(
    told: &'a [Heard],
    at: &mut usize,
    path: &'a Bytes,
    flags: OpenFlags,
) -> Asked<'a, Fd>
    ensures { (next : Fd → RequestTree) → Reads told.now at.old at.new result (open_root path.now flags next) next }
{
    let reply = ask(
        told,
        at,
        Act::Host(HostOp::OpenRoot {
            path: path.as_slice(),
            flags,
        }),
    )?;
    fd_in(reply)
}

/// A name in a directory is opened.
pub fn open_at<'a>(
    told: &'a [Heard],
    at: &mut usize,
    dir: Fd,
    name: &'a Bytes,
    flags: OpenFlags,
) -> Asked<'a, Fd>
    ensures { (next : Fd → RequestTree) → Reads told.now at.old at.new result (open_at dir name.now flags next) next }
{
    let reply = ask(
        told,
        at,
        Act::Host(HostOp::OpenAt {
            fd: dir,
            name: name.as_slice(),
            flags,
            mode: 0,
        }),
    )?;
    fd_in(reply)
}

/// What a descriptor is open on is opened anew.
pub fn reopen<'a>(told: &'a [Heard], at: &mut usize, fd: Fd, flags: OpenFlags) -> Asked<'a, Fd>
    ensures { (next : Fd → RequestTree) → Reads told.now at.old at.new result (reopen fd flags next) next }
{
    let reply = ask(told, at, Act::Host(HostOp::Reopen { fd, flags }))?;
    fd_in(reply)
}

/// A call on the seat: where it is Ok its scope is open.
pub fn open_scope<'a>(
    told: &'a [Heard],
    at: &mut usize,
    op: HostOp<'a>,
    scope: Hold,
) -> Asked<'a, ()>
    ensures { (next : RequestTree) →
        Reads told.now at.old at.new result (open_scope (call_of op.entry) scope next) (λ done. next) }
{
    let reply = open(told, at, op, scope)?;
    ok_in(reply)
}

/// A call that the host may refuse.
pub fn try_call<'a>(told: &'a [Heard], at: &mut usize, op: HostOp<'a>) -> Asked<'a, ()>
    ensures { (next : RequestTree) →
        Reads told.now at.old at.new result (try_call (call_of op.entry) next) (λ done. next) }
{
    let reply = ask(told, at, Act::Host(op))?;
    tried_in(reply)
}

/// What a descriptor is open on is looked at.
pub fn stat<'a>(told: &'a [Heard], at: &mut usize, fd: Fd) -> Asked<'a, Stat>
    ensures { (next : Stat → RequestTree) → Reads told.now at.old at.new result (stat fd next) next }
{
    let reply = ask(told, at, Act::Host(HostOp::Stat { fd }))?;
    stat_in(reply)
}

/// An extended attribute of what a descriptor is open on is set; where that is refused, the answer that it makes.
pub fn set_xattr<'a>(
    told: &'a [Heard],
    at: &mut usize,
    fd: Fd,
    through: bool,
    name: &'a Bytes,
    value: &'a Bytes,
    flags: u32,
) -> Asked<'a, Option<Answer>>
    ensures { (next : Option Answer → RequestTree) →
        Reads told.now at.old at.new result (set_xattr fd through name.now value.now flags next) next }
{
    let name = name.as_slice();
    let value = value.as_slice();
    let act = Act::Host(HostOp::SetXattr {
        fd,
        through,
        name,
        value,
        flags,
    });
    let reply = ask(told, at, act)?;
    refused_in(reply)
}

/// An extended attribute of what a descriptor is open on goes, where it is there.
pub fn drop_xattr<'a>(
    told: &'a [Heard],
    at: &mut usize,
    fd: Fd,
    through: bool,
    name: &'a Bytes,
) -> Asked<'a, ()>
    ensures { (next : RequestTree) →
        Reads told.now at.old at.new result (drop_xattr fd through name.now next) (λ done. next) }
{
    let reply = ask(
        told,
        at,
        Act::Host(HostOp::RemoveXattr {
            fd,
            through,
            name: name.as_slice(),
        }),
    )?;
    gone_in(reply)
}

/// A file is made, and the scopes that are open for that end, whatever is told.
pub fn make_at<'a>(
    told: &'a [Heard],
    at: &mut usize,
    dir: Fd,
    name: &'a Bytes,
    flags: OpenFlags,
    mode: u32,
    may_be: bool,
) -> Asked<'a, Made>
    ensures { (next : Made → RequestTree) →
        Reads told.now at.old at.new result (make_at dir name.now flags mode may_be next) next }
{
    let name = name.as_slice();
    let act = Act::Host(HostOp::OpenAt {
        fd: dir,
        name,
        flags,
        mode,
    });
    let reply = ask(told, at, act)?;
    bares(told, at)?;
    made_in(reply, may_be)
}

/// Bytes from an offset on, by the place of the reply that has them.
pub fn read_at<'a>(
    told: &'a [Heard],
    at: &mut usize,
    fd: Fd,
    offset: u64,
    size: u32,
) -> Asked<'a, usize>
    ensures has { IfOk result (λ place. HasBytes told.now place) }
    ensures reads { (next : List ℕ → RequestTree) → Reads told.now at.old at.new result (read_at fd offset size next)
        (λ place. next (bytes_in (slice_get told.now place))) }
{
    let place = *at;
    let reply = ask(told, at, Act::Host(HostOp::ReadAt { fd, offset, size }))?;
    match reply {
        ActReply::Host(HostReply::Ok(HostValue::Bytes(_))) => Ok(place),
        _ => Err(Stop::Refuses(reply)),
    }
}

/// An object's number is given once more, where it has one.
pub fn claim<'a>(
    told: &'a [Heard],
    at: &mut usize,
    session: BegunSession,
    handle: Option<&'a FileHandle>,
    ids: ObjIds,
) -> Asked<'a, Option<u64>>
    ensures { (next : Option ℕ → RequestTree) →
        Reads told.now at.old at.new result (claim session (option_copied handle.entry) ids next) next }
{
    let claim = Claim {
        era: session.era,
        handle,
        ids,
    };
    let reply = ask(told, at, Act::Event(Event::Claim(claim)))?;
    claimed_in(reply)
}

/// The newest descriptor is counted among those that are open for the guest.
pub fn take_fd<'a>(told: &'a [Heard], at: &mut usize) -> Asked<'a, ()>
    ensures { (next : RequestTree) → Reads told.now at.old at.new result (take_fd next) (λ done. next) }
{
    let reply = ask(told, at, Act::Event(Event::TakeFd { class: 0 }))?;
    taken_in(reply)
}

/// A number is drawn that was never given.
pub fn draw_node<'a>(told: &'a [Heard], at: &mut usize) -> Asked<'a, u64>
    ensures { (next : ℕ → RequestTree) → Reads told.now at.old at.new result (draw_node next) next }
{
    let reply = ask(told, at, Act::Event(Event::DrawNode))?;
    drawn_in(reply)
}

/// A handle is drawn that was never given.
pub fn draw_handle<'a>(told: &'a [Heard], at: &mut usize) -> Asked<'a, u64>
    ensures { (next : ℕ → RequestTree) → Reads told.now at.old at.new result (draw_handle next) next }
{
    let reply = ask(told, at, Act::Event(Event::DrawHandle))?;
    drawn_in(reply)
}

/// What was opened is numbered: by this number, or by that of another request, which was faster.
pub fn insert<'a>(
    told: &'a [Heard],
    at: &mut usize,
    session: BegunSession,
    fresh: u64,
    form: RowForm,
    stat: Stat,
) -> Asked<'a, u64>
    ensures { (next : ℕ → RequestTree) →
        Reads told.now at.old at.new result (insert session fresh form stat next) next }
{
    let new = NewRow {
        era: session.era,
        number: fresh,
        form,
        ids: stat.ids,
        mode: stat.mode,
        class: 0,
    };
    let reply = ask(told, at, Act::Event(Event::Insert(new)))?;
    numbered_in(reply)
}

/// What was opened becomes the root; what is agreed on is said with it, or left.
pub fn insert_root<'a>(
    told: &'a [Heard],
    at: &mut usize,
    session: BegunSession,
    form: RowForm,
    stat: Stat,
    agreed: Option<Negotiated>,
) -> Asked<'a, ()>
    ensures { (next : RequestTree) →
        Reads told.now at.old at.new result (insert_root session form stat agreed next) (λ done. next) }
{
    let new = NewRoot {
        era: session.era,
        form,
        ids: stat.ids,
        mode: stat.mode,
        negotiated: agreed,
    };
    let reply = ask(told, at, Act::Event(Event::InsertRoot(new)))?;
    inserted_in(reply)
}

/// What was opened gets its handle.
pub fn insert_handle<'a>(
    told: &'a [Heard],
    at: &mut usize,
    session: BegunSession,
    handle: u64,
    number: u64,
    fd: Fd,
) -> Asked<'a, ()>
    ensures { (next : RequestTree) →
        Reads told.now at.old at.new result (insert_handle session handle number fd next) (λ done. next) }
{
    let new = NewHandle {
        era: session.era,
        handle,
        number,
        fd,
        class: 0,
    };
    let reply = ask(told, at, Act::Event(Event::InsertHandle(new)))?;
    inserted_in(reply)
}

/// A handle is looked up in the tables: its descriptor, whose row is pinned now.
pub fn pin_handle<'a>(told: &'a [Heard], at: &mut usize, handle: u64, number: u64) -> Asked<'a, Fd>
    ensures { (next : Fd → RequestTree) → Reads told.now at.old at.new result (pin_handle handle number next) next }
{
    let reply = ask(told, at, Act::Event(Event::PinHandle { handle, number }))?;
    pinned_in(reply)
}

/// Of these numbers so much is taken back.
pub fn forget_all<'a>(told: &'a [Heard], at: &mut usize, list: &'a ForgetList) -> Asked<'a, ()>
    ensures { (next : RequestTree) → Reads told.now at.old at.new result (forget_all list.now next) (λ done. next) }
{
    let reply = ask(
        told,
        at,
        Act::Event(Event::Forget {
            list: list.as_slice(),
        }),
    )?;
    done_in(reply)
}

/// Of this number so much is taken back.
pub fn forget_one<'a>(told: &'a [Heard], at: &mut usize, number: u64, count: u64) -> Asked<'a, ()>
    ensures { (next : RequestTree) →
        Reads told.now at.old at.new result (forget_all ((number, count) ∷ []) next) (λ done. next) }
{
    let reply = ask(told, at, Act::Event(Event::ForgetOne { number, count }))?;
    done_in(reply)
}

/// A handle ends.
pub fn release_handle<'a>(
    told: &'a [Heard],
    at: &mut usize,
    handle: u64,
    number: u64,
) -> Asked<'a, ()>
    ensures { (next : RequestTree) →
        Reads told.now at.old at.new result (release_handle handle number next) (λ done. next) }
{
    let reply = ask(told, at, Act::Event(Event::Release { handle, number }))?;
    done_in(reply)
}

//! A file is made in a directory, or one whose name is there is opened.

ghost use Rattle.std.specs.Prelude.{◌≡◌, ℕ, List};
ghost use Rattle.pt_frame.specs.Machine.Walk.{Reads};
ghost use Rattle.pt_frame.specs.Tree.{RequestTree};
ghost use Rattle.pt_frame.specs.declared.told.Heard.{Heard};
ghost use Rattle.pt_host.specs.Call.{call_of};
ghost use Rattle.pt_host.specs.declared.op.KeptHostOp.TheVariants as call;
ghost use Rattle.pt_req.specs.Attributes.{label_seen, name_seen};
ghost use Rattle.pt_req.specs.Steps.{or_refused};
ghost use Rattle.pt_attr.specs.declared.parts.creating.NamedHandle.{NamedHandle};
ghost use Rattle.pt_attr.specs.Creating.{are_same, asked_of, if_same, kept_with, undone, labelled, labelled_by};
ghost use Rattle.pt_attr.specs.Creating.{new_file, old_file, made_file, make_file, takes_old};

use pt_frame::{Asked, Heard, Stop};
use pt_host::{Bytes, Errno, Fd, HostOp, HostSeat, ObjIds, OpenFlags};
use pt_iface::{Answer, Context, Entry, Extensions};
use pt_req::{
    BegunSession, Label, Made, Plan, as_asker, asker_of, do_lookup, do_open, handled, make_at,
    making_flags, set_xattr, stat, try_call, umask_of, under_umask,
};

/// What `create` asks, with the flags of `open(2)`, and who asks it.
#[derive(Clone, Copy)]
pub struct FileAsked<'a> {
    pub who: Context,
    pub parent: u64,
    pub name: &'a Bytes,
    pub mode: u32,
    /// Whether set-id bits are to go of a file that is there.
    pub kill: bool,
    pub flags: u32,
    /// The bits that the mode loses, where the guest leaves its umask to the host.
    pub umask: u32,
    pub ext: &'a Extensions,
}

/// An entry, and a handle on its object.
#[derive(Clone, Copy)]
pub struct NamedHandle {
    pub entry: Entry,
    pub handle: u64,
}

fn are_same(one: ObjIds, other: ObjIds) -> bool
    ensures { result ≡ are_same one other }
{
    one.ino == other.ino && one.dev == other.dev && one.mnt_id == other.mnt_id
}

/// The name leads to what was made, or is stale.
#[tactic(auto, using(pt_frame::proofs::Reading::gives, pt_frame::proofs::Reading::rest), unfolding(crate::specs::Creating::if_same))]
pub fn if_same<'a>(made: ObjIds, found: ObjIds) -> Asked<'a, ()>
    ensures { (told : List Heard) (at : ℕ) (next : RequestTree) →
        Reads told at at result (if_same made found next) (λ done. next) }
{
    if are_same(made, found) {
        return Ok(());
    }
    Err(Stop::Gives(Answer::Refused(Errno::ESTALE)))
}

/// What was made goes again by this call, whatever the host says of it, and so the request is answered.
pub fn undone<'a>(
    told: &'a [Heard],
    at: &mut usize,
    undoing: HostOp<'a>,
    last: Answer,
) -> Asked<'a, ()>
    ensures { (next : RequestTree) →
        Reads told.now at.old at.new result (undone (call_of undoing.entry) last) (λ done. next) }
{
    try_call(told, at, undoing)?;
    Err(Stop::Gives(last))
}

#[tactic(auto, using(pt_frame::proofs::Reading::rest))]
pub fn or_refused<'a>(
    told: &'a [Heard],
    at: &mut usize,
    undoing: HostOp<'a>,
    refused: Option<Answer>,
) -> Asked<'a, ()>
    ensures { (next : RequestTree) → Reads told.now at.old at.new result
        (or_refused (undone (call_of undoing.entry)) next refused) (λ done. next) }
{
    match refused {
        None => Ok(()),
        Some(last) => undone(told, at, undoing, last),
    }
}

/// What was made gets this extended attribute; where that is refused, it goes again.
fn kept_with<'a>(
    told: &'a [Heard],
    at: &mut usize,
    fd: Fd,
    undoing: HostOp<'a>,
    name: &'a Bytes,
    value: &'a Bytes,
) -> Asked<'a, ()>
    ensures { (next : RequestTree) → Reads told.now at.old at.new result
        (kept_with fd (call_of undoing.entry) name.now value.now next) (λ done. next) }
{
    let refused = set_xattr(told, at, fd, false, name, value, 0)?;
    or_refused(told, at, undoing, refused)
}

/// Its context of security is one, unless the guest may not use that.
#[tactic(auto, using(pt_frame::proofs::Reading::rest))]
fn labelled_by<'a>(
    told: &'a [Heard],
    at: &mut usize,
    fd: Fd,
    undoing: HostOp<'a>,
    value: &'a Bytes,
    name: Result<&'a Bytes, Errno>,
) -> Asked<'a, ()>
    ensures { (next : RequestTree) → Reads told.now at.old at.new result
        (labelled_by fd (call_of undoing.entry) value.now (name_seen name.entry) next) (λ done. next) }
{
    match name {
        Err(errno) => undone(told, at, undoing, Answer::Refused(errno)),
        Ok(name) => kept_with(told, at, fd, undoing, name, value),
    }
}

/// What was made gets the context that the guest brings for it, if it does.
#[tactic(auto, using(pt_frame::proofs::Reading::rest))]
pub fn labelled<'a>(
    told: &'a [Heard],
    at: &mut usize,
    fd: Fd,
    undoing: HostOp<'a>,
    label: Option<Label<'a>>,
) -> Asked<'a, ()>
    ensures { (next : RequestTree) → Reads told.now at.old at.new result
        (labelled fd (call_of undoing.entry) (label_seen label.entry) next) (λ done. next) }
{
    match label {
        None => Ok(()),
        Some(label) => labelled_by(told, at, fd, undoing, label.value, label.name),
    }
}

/// A file that was made gets it, or its name goes again.
fn file_labelled<'a>(
    told: &'a [Heard],
    at: &mut usize,
    asked: FileAsked<'a>,
    label: Option<Label<'a>>,
    dir: Fd,
    fd: Fd,
) -> Asked<'a, ()>
    ensures { (next : RequestTree) → Reads told.now at.old at.new result
        (labelled fd (call.Unlink dir (asked_of asked.entry).name) (label_seen label.entry) next) (λ done. next) }
{
    let name = asked.name.as_slice();
    let undoing = HostOp::Unlink { fd: dir, name };
    labelled(told, at, fd, undoing, label)
}

/// A file that was made gets its context, its name is looked up, and its own descriptor gets the handle.
fn new_file<'a>(
    told: &'a [Heard],
    at: &mut usize,
    plan: &Plan,
    session: BegunSession,
    asked: FileAsked<'a>,
    label: Option<Label<'a>>,
    dir: Fd,
    fd: Fd,
) -> Asked<'a, NamedHandle>
    ensures { (next : NamedHandle → RequestTree) → Reads told.now at.old at.new result
        (new_file plan.now session (asked_of asked.entry) (label_seen label.entry) dir fd next) next }
{
    let made = stat(told, at, fd)?;
    file_labelled(told, at, asked, label, dir, fd)?;
    let looked = do_lookup(told, at, plan, session, asked.parent, asked.name)?;
    if_same(made.ids, looked.ids)?;
    let entry = looked.entry;
    let handle = handled(told, at, session, entry.inode, fd)?;
    Ok(NamedHandle { entry, handle })
}

/// A file that was there: its name is looked up, and what has its number is opened.
fn old_file<'a>(
    told: &'a [Heard],
    at: &mut usize,
    plan: &'a Plan,
    seat: &HostSeat,
    session: BegunSession,
    asked: FileAsked<'a>,
) -> Asked<'a, NamedHandle>
    ensures { (next : NamedHandle → RequestTree) → Reads told.now at.old at.new result
        (old_file plan.now seat.now session (asked_of asked.entry) next) next }
{
    let looked = do_lookup(told, at, plan, session, asked.parent, asked.name)?;
    let entry = looked.entry;
    let handle = do_open(
        told,
        at,
        plan,
        seat,
        session,
        entry.inode,
        asked.kill,
        asked.flags,
    )?;
    Ok(NamedHandle { entry, handle })
}

fn made_file<'a>(
    told: &'a [Heard],
    at: &mut usize,
    plan: &'a Plan,
    seat: &HostSeat,
    session: BegunSession,
    asked: FileAsked<'a>,
    label: Option<Label<'a>>,
    dir: Fd,
    made: Made,
) -> Asked<'a, NamedHandle>
    ensures { (next : NamedHandle → RequestTree) → Reads told.now at.old at.new result
        (made_file plan.now seat.now session (asked_of asked.entry) (label_seen label.entry) dir made next) next }
{
    match made {
        Made::New(fd) => new_file(told, at, plan, session, asked, label, dir, fd),
        Made::Old => old_file(told, at, plan, seat, session, asked),
    }
}

/// Whether the guest takes a file that is there.
fn takes_old(flags: u32) -> bool
    ensures { result ≡ takes_old flags }
{
    !OpenFlags(flags).includes(OpenFlags::O_EXCL)
}

/// As whoever asks a file is made in a directory; one that is there may be opened in its place.
pub fn make_file<'a>(
    told: &'a [Heard],
    at: &mut usize,
    plan: &'a Plan,
    seat: &HostSeat,
    session: BegunSession,
    asked: FileAsked<'a>,
    label: Option<Label<'a>>,
    dir: Fd,
) -> Asked<'a, NamedHandle>
    ensures { (next : NamedHandle → RequestTree) → Reads told.now at.old at.new result
        (make_file plan.now seat.now session (asked_of asked.entry) (label_seen label.entry) dir next) next }
{
    let asker = asker_of(plan, session, asked.who, asked.ext.sup_gid);
    let flags = making_flags(asked.flags);
    let may_be = takes_old(asked.flags);
    let umask = umask_of(session, Some(asked.umask));
    as_asker(told, at, seat, asker)?;
    under_umask(told, at, umask)?;
    let made = make_at(told, at, dir, asked.name, flags, asked.mode, may_be)?;
    made_file(told, at, plan, seat, session, asked, label, dir, made)
}

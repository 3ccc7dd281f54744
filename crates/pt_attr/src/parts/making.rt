//! An object is made under a name, gets its context of security, and becomes an entry.

ghost use Rattle.std.specs.Prelude.{◌≡◌, ℕ, List, Option};
ghost use Rattle.std.specs.List.{list_any};
ghost use Rattle.pt_frame.specs.Machine.Walk.{Reads};
ghost use Rattle.pt_frame.specs.Tree.{RequestTree, Gives};
ghost use Rattle.pt_frame.specs.declared.told.Heard.{Heard};
ghost use Rattle.pt_host.specs.Call.{call_of};
ghost use Rattle.pt_iface.specs.declared.answer.Answer.{Answer};
ghost use Rattle.pt_req.specs.Attributes.{label_seen, name_seen};
ghost use Rattle.pt_attr.specs.Making.{asked_of, is_nul, kept_at, label_at, labelled_at, make_object, set_by_name};
ghost use Rattle.pt_attr.specs.Making.{set_opened, targeted};

use crate::parts::creating::{or_refused, undone};
use crate::steps::{make, try_open_at};
use pt_frame::{Asked, Heard, Stop, brackets, shuts};
use pt_host::{Bytes, Errno, Fd, HostOp, HostSeat, OpenFlags};
use pt_iface::{Answer, Context, Extensions};
use pt_req::{
    BegunSession, Label, Plan, as_asker, asker_of, do_lookup, set_xattr, umask_of, under_umask,
};

/// Where an object is to be made, and who asks it.
#[derive(Clone, Copy)]
pub struct ObjectAsked<'a> {
    pub who: Context,
    pub parent: u64,
    pub name: &'a Bytes,
    /// The bits that its mode loses, where the guest leaves its umask to the host. A symbolic link has none.
    pub umask: Option<u32>,
    pub ext: &'a Extensions,
}

fn is_nul(byte: u8) -> bool
    ensures { result ≡ is_nul byte }
{
    byte == 0
}

fn has_nul(bytes: &[u8]) -> bool
    ensures { result ≡ list_any is_nul bytes.now }
{
    bytes.iter().any(|byte| is_nul(*byte))
}

/// A symbolic link's target has no NUL.
#[tactic(auto, using(pt_frame::proofs::Reading::gives, pt_frame::proofs::Reading::rest), unfolding(crate::specs::Making::targeted))]
pub fn targeted<'a>(target: &Bytes) -> Asked<'a, ()>
    ensures { (told : List Heard) (at : ℕ) (next : RequestTree) →
        Reads told at at result (targeted target.now next) (λ done. next) }
{
    if has_nul(target.as_slice()) {
        return Err(Stop::Gives(Answer::Refused(Errno::EINVAL)));
    }
    Ok(())
}

/// An extended attribute is set by a descriptor that only stands for its object, where that was had.
#[tactic(auto, using(pt_frame::proofs::Reading::here))]
fn set_opened<'a>(
    told: &'a [Heard],
    at: &mut usize,
    attribute: &'a Bytes,
    value: &'a Bytes,
    opened: Result<Fd, Answer>,
) -> Asked<'a, Option<Answer>>
    ensures { (next : Option Answer → RequestTree) →
        Reads told.now at.old at.new result (set_opened attribute.now value.now opened next) next }
{
    match opened {
        Ok(fd) => set_xattr(told, at, fd, true, attribute, value, 0),
        Err(last) => Ok(Some(last)),
    }
}

/// And by the name of its object, in a bracket.
fn set_by_name<'a>(
    told: &'a [Heard],
    at: &mut usize,
    dir: Fd,
    name: &'a Bytes,
    attribute: &'a Bytes,
    value: &'a Bytes,
) -> Asked<'a, Option<Answer>>
    ensures { (next : Option Answer → RequestTree) →
        Reads told.now at.old at.new result (set_by_name dir name.now attribute.now value.now next) next }
{
    brackets(told, at)?;
    let opened = try_open_at(told, at, dir, name, OpenFlags::PATH)?;
    let refused = set_opened(told, at, attribute, value, opened)?;
    shuts(told, at, false)?;
    Ok(refused)
}

/// What was made under a name gets this extended attribute; where that is refused, its name goes again.
fn kept_at<'a>(
    told: &'a [Heard],
    at: &mut usize,
    dir: Fd,
    name: &'a Bytes,
    undoing: HostOp<'a>,
    attribute: &'a Bytes,
    value: &'a Bytes,
) -> Asked<'a, ()>
    ensures { (next : RequestTree) → Reads told.now at.old at.new result
        (kept_at dir name.now (call_of undoing.entry) attribute.now value.now next) (λ done. next) }
{
    let refused = set_by_name(told, at, dir, name, attribute, value)?;
    or_refused(told, at, undoing, refused)
}

/// Its context of security is one, unless the guest may not use that.
#[tactic(auto, using(pt_frame::proofs::Reading::rest))]
fn label_at<'a>(
    told: &'a [Heard],
    at: &mut usize,
    dir: Fd,
    name: &'a Bytes,
    undoing: HostOp<'a>,
    value: &'a Bytes,
    attribute: Result<&'a Bytes, Errno>,
) -> Asked<'a, ()>
    ensures { (next : RequestTree) → Reads told.now at.old at.new result
        (label_at dir name.now (call_of undoing.entry) value.now (name_seen attribute.entry) next) (λ done. next) }
{
    match attribute {
        Err(errno) => undone(told, at, undoing, Answer::Refused(errno)),
        Ok(attribute) => kept_at(told, at, dir, name, undoing, attribute, value),
    }
}

/// It gets the one that the guest brings for it, if it does.
#[tactic(auto, using(pt_frame::proofs::Reading::rest))]
fn labelled_at<'a>(
    told: &'a [Heard],
    at: &mut usize,
    dir: Fd,
    name: &'a Bytes,
    undoing: HostOp<'a>,
    label: Option<Label<'a>>,
) -> Asked<'a, ()>
    ensures { (next : RequestTree) → Reads told.now at.old at.new result
        (labelled_at dir name.now (call_of undoing.entry) (label_seen label.entry) next) (λ done. next) }
{
    match label {
        None => Ok(()),
        Some(label) => label_at(told, at, dir, name, undoing, label.value, label.name),
    }
}

/// As whoever asks it is made in a directory by the first call; where its context is refused, it goes by the second.
pub fn make_object<'a>(
    told: &'a [Heard],
    at: &mut usize,
    plan: &Plan,
    seat: &HostSeat,
    session: BegunSession,
    asked: ObjectAsked<'a>,
    label: Option<Label<'a>>,
    dir: Fd,
    making: HostOp<'a>,
    undoing: HostOp<'a>,
) -> Asked<'a, Answer>
    ensures { Reads told.now at.old at.new result (make_object plan.now seat.now session (asked_of asked.entry)
        (label_seen label.entry) dir (call_of making.entry) (call_of undoing.entry)) Gives }
{
    let asker = asker_of(plan, session, asked.who, asked.ext.sup_gid);
    let umask = umask_of(session, asked.umask);
    as_asker(told, at, seat, asker)?;
    under_umask(told, at, umask)?;
    make(told, at, making)?;
    labelled_at(told, at, dir, asked.name, undoing, label)?;
    let looked = do_lookup(told, at, plan, session, asked.parent, asked.name)?;
    Ok(Answer::Entry(looked.entry))
}

//! What is read of a reply, one function a kind of reply. Any other is answered as a refusal.

ghost use Rattle.std.specs.Prelude.{◌≡◌, ℕ, List, Option};
ghost use Rattle.pt_host.specs.declared.ids.Fd.{Fd};
ghost use Rattle.pt_host.specs.declared.stat.Stat.{Stat};
ghost use Rattle.pt_tables.specs.declared.reply.Resolved.{Resolved};
ghost use Rattle.pt_iface.specs.declared.answer.Answer.{Answer};
ghost use Rattle.pt_frame.specs.Machine.Walk.{Reads};
ghost use Rattle.pt_frame.specs.Tree.{RequestTree, on};
ghost use Rattle.pt_frame.specs.declared.told.Heard.{Heard};
ghost use Rattle.pt_req.specs.Steps.{began_in, cleared_in, resolved_in, fd_in, ok_in, tried_in, is_there, made_in};
ghost use Rattle.pt_req.specs.Steps.{stat_in, refused_in, claimed_in, taken_in, drawn_in, numbered_in, inserted_in};
ghost use Rattle.pt_req.specs.Steps.{pinned_in, done_in, is_gone, gone_in};
ghost use Rattle.pt_req.specs.declared.begun.BegunSession.{BegunSession};
ghost use Rattle.pt_req.specs.declared.replies.Made.{Made};

use crate::begun::BegunSession;
use pt_frame::{ActReply, Asked, Stop};
use pt_host::{Errno, Fd, HostReply, HostValue, Stat};
use pt_iface::Answer;
use pt_session::{EventReply, Resolved};

/// What came of a call that makes a file.
#[derive(Clone, Copy)]
pub enum Made {
    New(Fd),
    /// Its name was there.
    Old,
}

#[tactic(auto, using(pt_frame::proofs::Reading::judged, pt_frame::proofs::Reading::judged_refused))]
pub fn began_in<'a>(reply: &'a ActReply) -> Asked<'a, BegunSession>
    ensures { (told : List Heard) (at : ℕ) (next : BegunSession → RequestTree) →
        Reads told at at result (on began_in next reply.now) next }
{
    match reply {
        ActReply::Event(EventReply::Began { era, negotiated }) => Ok(BegunSession {
            era: *era,
            agreed: *negotiated,
        }),
        _ => Err(Stop::Refuses(reply)),
    }
}

#[tactic(auto, using(pt_frame::proofs::Reading::judged, pt_frame::proofs::Reading::judged_refused))]
pub fn cleared_in<'a>(reply: &'a ActReply) -> Asked<'a, u64>
    ensures { (told : List Heard) (at : ℕ) (next : ℕ → RequestTree) →
        Reads told at at result (on cleared_in next reply.now) next }
{
    match reply {
        ActReply::Event(EventReply::Cleared { era, .. }) => Ok(*era),
        _ => Err(Stop::Refuses(reply)),
    }
}

#[tactic(auto, using(pt_frame::proofs::Reading::judged, pt_frame::proofs::Reading::judged_refused))]
pub fn resolved_in<'a>(reply: &'a ActReply) -> Asked<'a, Resolved>
    ensures { (told : List Heard) (at : ℕ) (next : Resolved → RequestTree) →
        Reads told at at result (on resolved_in next reply.now) next }
{
    match reply {
        ActReply::Event(EventReply::Resolved(resolved)) => Ok(resolved.copy()),
        _ => Err(Stop::Refuses(reply)),
    }
}

#[tactic(auto, using(pt_frame::proofs::Reading::judged, pt_frame::proofs::Reading::judged_refused))]
pub fn fd_in<'a>(reply: &'a ActReply) -> Asked<'a, Fd>
    ensures { (told : List Heard) (at : ℕ) (next : Fd → RequestTree) →
        Reads told at at result (on fd_in next reply.now) next }
{
    match reply {
        ActReply::Host(HostReply::Ok(HostValue::Fd(fd))) => Ok(*fd),
        _ => Err(Stop::Refuses(reply)),
    }
}

#[tactic(auto, using(pt_frame::proofs::Reading::judged, pt_frame::proofs::Reading::judged_refused))]
pub fn ok_in<'a>(reply: &'a ActReply) -> Asked<'a, ()>
    ensures { (told : List Heard) (at : ℕ) (next : RequestTree) →
        Reads told at at result (on ok_in (λ done. next) reply.now) (λ done. next) }
{
    match reply {
        ActReply::Host(HostReply::Ok(_)) => Ok(()),
        _ => Err(Stop::Refuses(reply)),
    }
}

#[tactic(auto, using(pt_frame::proofs::Reading::judged, pt_frame::proofs::Reading::judged_refused))]
pub fn tried_in<'a>(reply: &'a ActReply) -> Asked<'a, ()>
    ensures { (told : List Heard) (at : ℕ) (next : RequestTree) →
        Reads told at at result (on tried_in (λ done. next) reply.now) (λ done. next) }
{
    match reply {
        ActReply::Host(_) => Ok(()),
        _ => Err(Stop::Refuses(reply)),
    }
}

#[tactic(auto, using(pt_frame::proofs::Reading::judged, pt_frame::proofs::Reading::judged_refused))]
pub fn stat_in<'a>(reply: &'a ActReply) -> Asked<'a, Stat>
    ensures { (told : List Heard) (at : ℕ) (next : Stat → RequestTree) →
        Reads told at at result (on stat_in next reply.now) next }
{
    match reply {
        ActReply::Host(HostReply::Ok(HostValue::Stat(stat))) => Ok(*stat),
        _ => Err(Stop::Refuses(reply)),
    }
}

#[tactic(auto, using(pt_frame::proofs::Reading::judged, pt_frame::proofs::Reading::judged_refused))]
pub fn refused_in<'a>(reply: &'a ActReply) -> Asked<'a, Option<Answer>>
    ensures { (told : List Heard) (at : ℕ) (next : Option Answer → RequestTree) →
        Reads told at at result (on refused_in next reply.now) next }
{
    match reply {
        ActReply::Host(HostReply::Ok(_)) => Ok(None),
        ActReply::Host(HostReply::Refused(errno)) => Ok(Some(Answer::Refused(*errno))),
        ActReply::Host(HostReply::Fault(errno)) => Ok(Some(Answer::Refused(*errno))),
        ActReply::Host(HostReply::NoMemory) => Ok(Some(Answer::NoMemory)),
        ActReply::NoCopy => Ok(Some(Answer::NoMemory)),
        _ => Err(Stop::Refuses(reply)),
    }
}

#[tactic(auto, using(pt_frame::proofs::Reading::judged, pt_frame::proofs::Reading::judged_refused))]
pub fn claimed_in<'a>(reply: &'a ActReply) -> Asked<'a, Option<u64>>
    ensures { (told : List Heard) (at : ℕ) (next : Option ℕ → RequestTree) →
        Reads told at at result (on claimed_in next reply.now) next }
{
    match reply {
        ActReply::Event(EventReply::Claimed(given)) => Ok(Some(given.number)),
        ActReply::Event(EventReply::Absent) => Ok(None),
        _ => Err(Stop::Refuses(reply)),
    }
}

#[tactic(auto, using(pt_frame::proofs::Reading::judged, pt_frame::proofs::Reading::judged_refused))]
pub fn taken_in<'a>(reply: &'a ActReply) -> Asked<'a, ()>
    ensures { (told : List Heard) (at : ℕ) (next : RequestTree) →
        Reads told at at result (on taken_in (λ done. next) reply.now) (λ done. next) }
{
    match reply {
        ActReply::Event(EventReply::Taken) => Ok(()),
        _ => Err(Stop::Refuses(reply)),
    }
}

#[tactic(auto, using(pt_frame::proofs::Reading::judged, pt_frame::proofs::Reading::judged_refused))]
pub fn drawn_in<'a>(reply: &'a ActReply) -> Asked<'a, u64>
    ensures { (told : List Heard) (at : ℕ) (next : ℕ → RequestTree) →
        Reads told at at result (on drawn_in next reply.now) next }
{
    match reply {
        ActReply::Event(EventReply::Drawn { number }) => Ok(*number),
        _ => Err(Stop::Refuses(reply)),
    }
}

#[tactic(auto, using(pt_frame::proofs::Reading::judged, pt_frame::proofs::Reading::judged_refused))]
pub fn numbered_in<'a>(reply: &'a ActReply) -> Asked<'a, u64>
    ensures { (told : List Heard) (at : ℕ) (next : ℕ → RequestTree) →
        Reads told at at result (on numbered_in next reply.now) next }
{
    match reply {
        ActReply::Event(EventReply::Inserted { number }) => Ok(*number),
        ActReply::Event(EventReply::Found(given)) => Ok(given.number),
        _ => Err(Stop::Refuses(reply)),
    }
}

#[tactic(auto, using(pt_frame::proofs::Reading::judged, pt_frame::proofs::Reading::judged_refused))]
pub fn inserted_in<'a>(reply: &'a ActReply) -> Asked<'a, ()>
    ensures { (told : List Heard) (at : ℕ) (next : RequestTree) →
        Reads told at at result (on inserted_in (λ done. next) reply.now) (λ done. next) }
{
    match reply {
        ActReply::Event(EventReply::Inserted { .. }) => Ok(()),
        _ => Err(Stop::Refuses(reply)),
    }
}

#[tactic(auto, using(pt_frame::proofs::Reading::judged, pt_frame::proofs::Reading::judged_refused))]
pub fn pinned_in<'a>(reply: &'a ActReply) -> Asked<'a, Fd>
    ensures { (told : List Heard) (at : ℕ) (next : Fd → RequestTree) →
        Reads told at at result (on pinned_in next reply.now) next }
{
    match reply {
        ActReply::Event(EventReply::Pinned { fd, .. }) => Ok(*fd),
        _ => Err(Stop::Refuses(reply)),
    }
}

#[tactic(auto, using(pt_frame::proofs::Reading::judged, pt_frame::proofs::Reading::judged_refused))]
pub fn done_in<'a>(reply: &'a ActReply) -> Asked<'a, ()>
    ensures { (told : List Heard) (at : ℕ) (next : RequestTree) →
        Reads told at at result (on done_in (λ done. next) reply.now) (λ done. next) }
{
    match reply {
        ActReply::Event(EventReply::Done { .. }) => Ok(()),
        _ => Err(Stop::Refuses(reply)),
    }
}

/// Whether an attribute went, or was not there, or the host has none at all.
fn is_gone(reply: &ActReply) -> bool
    ensures { result ≡ is_gone reply.now }
{
    match reply {
        ActReply::Host(HostReply::Ok(_)) => true,
        ActReply::Host(HostReply::Refused(errno) | HostReply::Fault(errno)) => {
            errno.0 == Errno::ENODATA.0 || errno.0 == Errno::EOPNOTSUPP.0
        }
        _ => false,
    }
}

#[tactic(auto, using(pt_frame::proofs::Reading::judged, pt_frame::proofs::Reading::judged_refused))]
pub fn gone_in<'a>(reply: &'a ActReply) -> Asked<'a, ()>
    ensures { (told : List Heard) (at : ℕ) (next : RequestTree) →
        Reads told at at result (on gone_in (λ done. next) reply.now) (λ done. next) }
{
    if is_gone(reply) {
        return Ok(());
    }
    Err(Stop::Refuses(reply))
}

/// Whether it was answered that the name is there.
fn is_there(reply: &ActReply) -> bool
    ensures { result ≡ is_there reply.now }
{
    match reply {
        ActReply::Host(HostReply::Refused(errno) | HostReply::Fault(errno)) => {
            errno.0 == Errno::EEXIST.0
        }
        _ => false,
    }
}

#[tactic(auto, using(pt_frame::proofs::Reading::judged, pt_frame::proofs::Reading::judged_refused))]
pub fn made_in<'a>(reply: &'a ActReply, may_be: bool) -> Asked<'a, Made>
    ensures { (told : List Heard) (at : ℕ) (next : Made → RequestTree) →
        Reads told at at result (on (made_in may_be) next reply.now) next }
{
    match reply {
        ActReply::Host(HostReply::Ok(HostValue::Fd(fd))) => Ok(Made::New(*fd)),
        _ => {
            if is_there(reply) && may_be {
                return Ok(Made::Old);
            }
            Err(Stop::Refuses(reply))
        }
    }
}

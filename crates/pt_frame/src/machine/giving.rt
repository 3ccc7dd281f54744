ghost use Rattle.std.specs.Prelude.{◌≡◌, ℕ, Some, None};
ghost use Rattle.pt_frame.specs.Deed.{deed_of};
ghost use Rattle.pt_frame.specs.Frame.{giving};
ghost use Rattle.pt_frame.specs.Held.{is_scope};
ghost use Rattle.pt_frame.specs.Past.{or_first};
ghost use Rattle.pt_frame.specs.Replies.{closings_in, event_refusal, refusal, fault_if, restored, passes_with};
ghost use Rattle.pt_frame.specs.Replies.{taken_in};

use crate::act::{Act, ActReply};
use crate::finish::Finish;
use crate::hold::{Hold, Taken};
use pt_host::{Errno, HostOp, HostReply, HostSeat};
use pt_iface::Answer;
use pt_session::{Event, EventRefusal, EventReply};

/// What gives a hold back. A scope goes back to what the seat was as the job began.
pub fn giving<'a>(hold: Hold, seat: &'a HostSeat) -> Act<'a>
    ensures { deed_of result ≡ giving seat.now hold }
{
    match hold {
        Hold::Pin { row, .. } => Act::Event(Event::Unpin { row }),
        Hold::HandlePin { row, .. } => Act::Event(Event::UnpinHandle { row }),
        Hold::Fd(fd) => Act::Host(HostOp::Close { fd }),
        Hold::Slot { class } => Act::Event(Event::GiveFd { class }),
        Hold::Count { era, number } => Act::Event(Event::GiveBack { era, number }),
        Hold::Groups => Act::Host(HostOp::SetGroups {
            list: seat.groups.as_slice(),
        }),
        Hold::EffectiveGid => Act::Host(HostOp::SetEgid { gid: seat.eff_gid }),
        Hold::EffectiveUid => Act::Host(HostOp::SetEuid { uid: seat.eff_uid }),
        Hold::Dropped(caps) => Act::Host(HostOp::RaiseCap { caps }),
        Hold::Umask => Act::Host(HostOp::SetUmask { mask: seat.umask }),
    }
}

/// Whether it is a scope, which ends with its call.
pub fn is_scope(hold: Hold) -> bool
    ensures { result ≡ is_scope hold }
{
    match hold {
        Hold::Pin { .. }
        | Hold::HandlePin { .. }
        | Hold::Fd(_)
        | Hold::Slot { .. }
        | Hold::Count { .. } => false,
        Hold::Groups | Hold::EffectiveGid | Hold::EffectiveUid | Hold::Dropped(_) | Hold::Umask =>
            true,
    }
}

/// How many closings follow.
pub fn closings_in(act: &Act<'_>, reply: &ActReply) -> u64
    ensures { result ≡ closings_in (deed_of act.now) reply.now }
{
    match (act, reply) {
        (Act::Event(Event::Unpin { .. }), ActReply::Event(EventReply::Done { closings })) => {
            *closings
        }
        (
            Act::Event(Event::Forget { .. } | Event::ForgetOne { .. }),
            ActReply::Event(EventReply::Done { closings }),
        ) => *closings,
        (Act::Event(Event::GiveBack { .. }), ActReply::Event(EventReply::Done { closings })) => {
            *closings
        }
        (Act::Event(Event::UnpinHandle { .. }), ActReply::Event(EventReply::Done { closings })) => {
            *closings
        }
        (Act::Event(Event::Release { .. }), ActReply::Event(EventReply::Done { closings })) => {
            *closings
        }
        (Act::Event(Event::Clear), ActReply::Event(EventReply::Cleared { closings, .. })) => {
            *closings
        }
        _ => 0,
    }
}

/// How a refused event is answered.
fn event_refusal(refused: EventRefusal) -> Answer
    ensures { result ≡ event_refusal refused }
{
    match refused {
        EventRefusal::NotLive | EventRefusal::Overtaken => Answer::Refused(Errno::EBADF),
        EventRefusal::NoSlot => Answer::Refused(Errno::ENFILE),
        EventRefusal::Last => Answer::Refused(Errno::EOVERFLOW),
        EventRefusal::Live => Answer::Refused(Errno::EIO),
        EventRefusal::Memory => Answer::NoMemory,
    }
}

/// How a reply that was not the awaited one is answered.
pub fn refusal(reply: &ActReply) -> Answer
    ensures { result ≡ refusal reply.now }
{
    match reply {
        ActReply::Event(EventReply::Refused(refused)) => event_refusal(*refused),
        ActReply::Event(_) => Answer::Refused(Errno::EIO),
        ActReply::Host(HostReply::Refused(errno)) => Answer::Refused(*errno),
        ActReply::Host(HostReply::Fault(errno)) => Answer::Refused(*errno),
        ActReply::Host(HostReply::NoMemory) => Answer::NoMemory,
        ActReply::Host(HostReply::Ok(_)) => Answer::Refused(Errno::EIO),
        ActReply::NoCopy => Answer::NoMemory,
    }
}

/// What a step was answered that was to restore the seat, where it did not.
pub fn fault_if(restores: bool, reply: &ActReply) -> Option<Errno>
    ensures { result ≡ fault_if restores reply.now }
{
    match reply {
        ActReply::Host(HostReply::Refused(errno)) if restores => Some(*errno),
        ActReply::Host(HostReply::Fault(errno)) if restores => Some(*errno),
        _ => None,
    }
}

/// The first loss is kept.
pub fn or_first(fault: Option<Errno>, lost: Option<Errno>) -> Option<Errno>
    ensures { result ≡ or_first fault lost }
{
    match (fault, lost) {
        (None, lost) => lost,
        (Some(errno), None) => Some(errno),
        (Some(_), Some(first)) => Some(first),
    }
}

/// The first loss is told, but a job that is cut is answered so.
pub fn restored(last: Finish, fault: Option<Errno>) -> Finish
    ensures { result ≡ restored last fault }
{
    match (last, fault) {
        (last, None) => last,
        (Finish::Lost(first), Some(_)) => Finish::Lost(first),
        (Finish::Answer(Answer::Cut), Some(_)) => Finish::Answer(Answer::Cut),
        (Finish::Answer(_), Some(errno)) => Finish::Lost(errno),
    }
}

/// Whether the last hold passes to the asker with this answer.
pub fn passes_with(last: &Answer) -> bool
    ensures { result ≡ passes_with last.now }
{
    matches!(last, Answer::Entry(_) | Answer::Created(..))
}

/// What a closing brought.
pub fn taken_in(reply: &ActReply) -> Taken
    ensures { result ≡ taken_in reply.now }
{
    match reply {
        ActReply::Event(EventReply::Closing(first)) => Taken::Fd {
            fd: first.fd,
            slot: first.slot,
            class: first.class,
        },
        _ => Taken::Nothing,
    }
}

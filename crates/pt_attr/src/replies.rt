//! What is read of a reply, one function a kind of reply. Any other is answered as a refusal.

ghost use Rattle.std.specs.Prelude.{◌≡◌, ℕ, List, Result};
ghost use Rattle.pt_host.specs.declared.ids.Fd.{Fd};
ghost use Rattle.pt_host.specs.declared.stat.FsStat.{FsStat};
ghost use Rattle.pt_iface.specs.declared.answer.Answer.{Answer};
ghost use Rattle.pt_frame.specs.Machine.Walk.{Reads};
ghost use Rattle.pt_frame.specs.Tree.{RequestTree, on};
ghost use Rattle.pt_frame.specs.declared.told.Heard.{Heard};
ghost use Rattle.pt_attr.specs.Steps.{count_in, fs_stat_in, opened_in};

use pt_frame::{ActReply, Asked, Stop};
use pt_host::{Fd, FsStat, HostReply, HostValue};
use pt_iface::Answer;

#[tactic(auto, using(pt_frame::proofs::Reading::judged, pt_frame::proofs::Reading::judged_refused))]
pub fn fs_stat_in<'a>(reply: &'a ActReply) -> Asked<'a, FsStat>
    ensures { (told : List Heard) (at : ℕ) (next : FsStat → RequestTree) →
        Reads told at at result (on fs_stat_in next reply.now) next }
{
    match reply {
        ActReply::Host(HostReply::Ok(HostValue::FsStat(stat))) => Ok(*stat),
        _ => Err(Stop::Refuses(reply)),
    }
}

#[tactic(auto, using(pt_frame::proofs::Reading::judged, pt_frame::proofs::Reading::judged_refused))]
pub fn count_in<'a>(reply: &'a ActReply) -> Asked<'a, u64>
    ensures { (told : List Heard) (at : ℕ) (next : ℕ → RequestTree) →
        Reads told at at result (on count_in next reply.now) next }
{
    match reply {
        ActReply::Host(HostReply::Ok(HostValue::Count(count))) => Ok(*count),
        _ => Err(Stop::Refuses(reply)),
    }
}

#[tactic(auto, using(pt_frame::proofs::Reading::judged, pt_frame::proofs::Reading::judged_refused))]
pub fn opened_in<'a>(reply: &'a ActReply) -> Asked<'a, Result<Fd, Answer>>
    ensures { (told : List Heard) (at : ℕ) (next : Result Fd Answer → RequestTree) →
        Reads told at at result (on opened_in next reply.now) next }
{
    match reply {
        ActReply::Host(HostReply::Ok(HostValue::Fd(fd))) => Ok(Ok(*fd)),
        ActReply::Host(HostReply::Refused(errno)) => Ok(Err(Answer::Refused(*errno))),
        ActReply::Host(HostReply::Fault(errno)) => Ok(Err(Answer::Refused(*errno))),
        ActReply::Host(HostReply::NoMemory) => Ok(Err(Answer::NoMemory)),
        ActReply::NoCopy => Ok(Err(Answer::NoMemory)),
        _ => Err(Stop::Refuses(reply)),
    }
}

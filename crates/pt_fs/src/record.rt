ghost use Rattle.std.specs.Prelude.{◌≡◌, ◌≤◌, ◌+◌, ◌-◌, ◌++◌, ◌∷◌, [], ℕ, length, vec_capacity};
ghost use Rattle.std.specs.Prelude.{IfOk, OnOk, OnErr};
ghost use Rattle.pt_frame.specs.Deed.{MayFailToCopy, deed_of};
ghost use Rattle.pt_frame.specs.declared.act.ActReply.TheVariants as told;
ghost use Rattle.pt_frame.specs.declared.act.KeptAct.{KeptAct};
ghost use Rattle.pt_fs.specs.Recorded.{noted};
ghost use Rattle.pt_fs.specs.Trace.{IsShown};
ghost use Rattle.pt_fs.specs.declared.record.WrittenAct.TheVariants as written;
ghost use Rattle.pt_fs.specs.declared.trace.TraceStep.{TraceStep};

use crate::trace::TraceStep;
use pt_frame::{Act, ActReply, KeptAct};
use std::alloc::{AllocError, Global};

/// How an act stands in a record.
#[derive(Clone, Copy)]
pub enum WrittenAct {
    /// As it is.
    Whole,
    /// Without its bytes, which could not be copied: then it is not to be made.
    NoCopy,
}

/// Where the steps of a run are written down, each behind those before it: first what is to be done, and then what
/// that was answered.
pub trait Record {
    /// From this record, this step written down leaves that record.
    ghost wrote: { Self → TraceStep → Self → Type 0 };

    /// From this record, this act of this job leaves that one, in which its reply is still to be written.
    ghost wrote_act: { Self → ℕ → KeptAct → Self → Type 0 };

    /// From this record, a step that could not be written down leaves that one.
    ghost unwritten: { Self → Self → Type 0 };

    /// For how many steps more it has room, at least.
    ghost room: { Self → ℕ };

    /// Writes down what a job is to do, without its bytes where the record has to have them for itself and they cannot
    /// be copied.
    fn write_act(
        &mut self,
        alloc: Global,
        job: u32,
        act: &Act<'_>,
    ) -> Result<WrittenAct, AllocError>
        ensures wrote { IfOk result (λ how. wrote_act self.old job (noted how (deed_of act.now)) self.new) }
        ensures uncopied { IfOk result (λ how. how ≡ written.NoCopy → MayFailToCopy (deed_of act.now)) }
        ensures room { OnOk result (room self.old ≤ room self.new + 1) }
        ensures unwritten { OnErr result (unwritten self.old self.new) }
        ensures full { OnErr result (room self.old ≡ 0) };

    /// Writes down what the last act was answered. The reply that it leaves is for the job; where the record has to
    /// have its bytes for itself, and they cannot be copied, both are told so.
    fn write_reply(&mut self, alloc: Global, reply: &mut ActReply) -> Result<(), AllocError>
        requires begun { (before : Self) × (job : ℕ) × (act : KeptAct) × wrote_act before job act self.old }
        ensures wrote { OnOk result ((before : Self) (job : ℕ) (act : KeptAct) → wrote_act before job act self.old →
            wrote before (record { job = job; act = act; reply = reply.new }) self.new) }
        ensures shown { IsShown reply.old reply.new }
        ensures room { OnOk result (room self.old ≤ room self.new) }
        ensures unwritten { OnErr result ((before : Self) (job : ℕ) (act : KeptAct) →
            wrote_act before job act self.old → unwritten before self.new) }
        ensures full { OnErr result ((before : Self) (job : ℕ) (act : KeptAct) → wrote_act before job act self.old →
            room before ≡ 0) };
}

/// The reply once more, with bytes of its own. Where they cannot be copied, both tell that.
fn told_twice(alloc: Global, reply: &mut ActReply) -> ActReply
    ensures same { result ≡ reply.new }
    ensures shown { IsShown reply.old reply.new }
{
    match reply.copy(alloc) {
        Ok(copy) => copy,
        Err(_) => {
            *reply = ActReply::NoCopy;
            ActReply::NoCopy
        }
    }
}

/// A list of steps.
impl Record for Vec<TraceStep> {
    ghost wrote = { λ steps step longer.
        (longer.items ≡ steps.items ++ step ∷ []) × (vec_capacity steps ≤ vec_capacity longer) };

    ghost wrote_act = { λ steps job act longer.
        (longer.items ≡ steps.items ++ record { job = job; act = act; reply = told.NoCopy } ∷ [])
        × (vec_capacity steps ≤ vec_capacity longer) };

    ghost unwritten = { λ steps same. same.items ≡ steps.items };

    ghost room = { λ steps. vec_capacity steps - length steps.items };

    fn write_act(
        &mut self,
        alloc: Global,
        job: u32,
        act: &Act<'_>,
    ) -> Result<WrittenAct, AllocError> {
        self.reserve(1)?;
        let (act, how) = match act.keep(alloc) {
            Ok(act) => (act, WrittenAct::Whole),
            Err(_) => (KeptAct::NoCopy, WrittenAct::NoCopy),
        };
        self.push_reserved(TraceStep {
            job,
            act,
            reply: ActReply::NoCopy,
        });
        Ok(how)
    }

    fn write_reply(&mut self, alloc: Global, reply: &mut ActReply) -> Result<(), AllocError> {
        let copy = told_twice(alloc, reply);
        let last = self.len() - 1;
        self[last].reply = copy;
        Ok(())
    }
}

ghost use Rattle.std.specs.Prelude.{◌≡◌, Some, IfOk, OnErr};
ghost use Rattle.pt_frame.specs.Deed.{deed_of, kept_deed_of, MayFailToCopy, HoldsReplyBytes};

use pt_host::{HostOp, HostReply, KeptHostOp};
use pt_session::{Event, EventReply, KeptEvent};
use std::alloc::{AllocError, Global};

/// One step: an event of the tables, or a call of the host.
#[derive(Drop)]
pub enum Act<'a> {
    Event(Event<'a>),
    Host(HostOp<'a>),
}

/// An act that owns its bytes, or word that it could not be copied and was not made.
#[derive(Drop)]
pub enum KeptAct {
    Event(KeptEvent),
    Host(KeptHostOp),
    NoCopy,
}

/// What a step was answered.
#[derive(Drop)]
pub enum ActReply {
    Event(EventReply),
    Host(HostReply),
    /// The act or its reply could not be copied for the trace.
    NoCopy,
}

/// What a job wants.
#[derive(Drop)]
pub enum Want<'a> {
    Step(Act<'a>),
    Finished,
}

impl<'a> Act<'a> {
    /// The same act with bytes of its own.
    pub fn keep(&self, alloc: Global) -> Result<KeptAct, AllocError>
        ensures ok { IfOk result (λ kept. kept_deed_of kept ≡ Some (deed_of self.now)) }
        ensures err { OnErr result (MayFailToCopy (deed_of self.now)) }
    {
        match self {
            Act::Event(event) => match event.keep(alloc) {
                Ok(kept) => Ok(KeptAct::Event(kept)),
                Err(error) => Err(error),
            },
            Act::Host(op) => match op.keep(alloc) {
                Ok(kept) => Ok(KeptAct::Host(kept)),
                Err(error) => Err(error),
            },
        }
    }
}

impl ActReply {
    /// The same reply with bytes of its own. Only a host's bytes take memory.
    pub fn copy(&self, alloc: Global) -> Result<ActReply, AllocError>
        ensures ok { IfOk result (λ copy. copy ≡ self.now) }
        ensures err { OnErr result (HoldsReplyBytes self.now) }
    {
        match self {
            ActReply::Event(reply) => Ok(ActReply::Event(reply.copy())),
            ActReply::Host(reply) => match reply.copy(alloc) {
                Ok(copy) => Ok(ActReply::Host(copy)),
                Err(error) => Err(error),
            },
            ActReply::NoCopy => Ok(ActReply::NoCopy),
        }
    }
}

ghost use Rattle.std.specs.Prelude.{◌≡◌, IfOk, OnErr};
ghost use Rattle.pt_host.specs.Reply.{ValueHoldsBytes, ReplyHoldsBytes};

use crate::bytes::Bytes;
use crate::handle::FileHandle;
use crate::ids::{Errno, Fd};
use crate::stat::{FsStat, Stat};
use std::alloc::{AllocError, Global};

/// What a call that succeeds tells.
#[derive(Debug, Drop)]
pub enum HostValue {
    Unit,
    Fd(Fd),
    Stat(Stat),
    Handle(FileHandle),
    FsStat(FsStat),
    Bytes(Bytes),
    Count(u64),
}

/// What the host answers to a call.
#[derive(Debug, Drop)]
pub enum HostReply {
    Ok(HostValue),
    /// A definite refusal.
    Refused(Errno),
    /// A failure that the host counts.
    Fault(Errno),
    NoMemory,
}

impl HostValue {
    pub fn copy(&self, alloc: Global) -> Result<HostValue, AllocError>
        ensures ok { IfOk result (λ copy. copy ≡ self.now) }
        ensures err { OnErr result (ValueHoldsBytes self.now) }
    {
        match self {
            HostValue::Unit => Ok(HostValue::Unit),
            HostValue::Fd(fd) => Ok(HostValue::Fd(*fd)),
            HostValue::Stat(stat) => Ok(HostValue::Stat(*stat)),
            HostValue::Handle(handle) => Ok(HostValue::Handle(handle.copy())),
            HostValue::FsStat(stat) => Ok(HostValue::FsStat(*stat)),
            HostValue::Bytes(bytes) => match bytes.copy(alloc) {
                Ok(copy) => Ok(HostValue::Bytes(copy)),
                Err(error) => Err(error),
            },
            HostValue::Count(count) => Ok(HostValue::Count(*count)),
        }
    }
}

impl HostReply {
    /// The same reply with bytes of its own. Only bytes take memory.
    pub fn copy(&self, alloc: Global) -> Result<HostReply, AllocError>
        ensures ok { IfOk result (λ copy. copy ≡ self.now) }
        ensures err { OnErr result (ReplyHoldsBytes self.now) }
    {
        match self {
            HostReply::Ok(value) => match value.copy(alloc) {
                Ok(copy) => Ok(HostReply::Ok(copy)),
                Err(error) => Err(error),
            },
            HostReply::Refused(errno) => Ok(HostReply::Refused(*errno)),
            HostReply::Fault(errno) => Ok(HostReply::Fault(*errno)),
            HostReply::NoMemory => Ok(HostReply::NoMemory),
        }
    }
}

//! The step of requests of extended attributes and of listings that no other request takes.

ghost use Rattle.std.specs.Prelude.{◌≡◌, ℕ, List, IfOk, slice_get};
ghost use Rattle.pt_host.specs.Call.{call_of};
ghost use Rattle.pt_frame.specs.Machine.Walk.{HasBytes, Reads, bytes_in};
ghost use Rattle.pt_frame.specs.Tree.{RequestTree};
ghost use Rattle.pt_xattr.specs.Steps.{bytes_told};

use pt_frame::{Act, ActReply, Asked, Heard, Stop, ask};
use pt_host::{Bytes, HostOp, HostReply, HostValue};

/// A call that tells bytes, by the place of the reply that has them.
pub fn bytes_at<'a>(told: &'a [Heard], at: &mut usize, op: HostOp<'a>) -> Asked<'a, usize>
    ensures has { IfOk result (λ place. HasBytes told.now place) }
    ensures reads { (next : List ℕ → RequestTree) →
        Reads told.now at.old at.new result (bytes_told (call_of op.entry) next)
        (λ place. next (bytes_in (slice_get told.now place))) }
{
    let place = *at;
    let reply = ask(told, at, Act::Host(op))?;
    match reply {
        ActReply::Host(HostReply::Ok(HostValue::Bytes(_))) => Ok(place),
        _ => Err(Stop::Refuses(reply)),
    }
}

/// The same, and the bytes are lent.
pub fn bytes_lent<'a>(told: &'a [Heard], at: &mut usize, op: HostOp<'a>) -> Asked<'a, &'a Bytes>
    ensures { (next : List ℕ → RequestTree) →
        Reads told.now at.old at.new result (bytes_told (call_of op.entry) next) (λ bytes. next bytes.now) }
{
    let reply = ask(told, at, Act::Host(op))?;
    match reply {
        ActReply::Host(HostReply::Ok(HostValue::Bytes(bytes))) => Ok(bytes),
        _ => Err(Stop::Refuses(reply)),
    }
}

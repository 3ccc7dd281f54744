ghost use Rattle.std.specs.Prelude.{◌≡◌, [], ◌∷◌, List, IfOk, IfSome, OnOk, OnErr};
ghost use Rattle.pt_host.specs.declared.op.KeptHostOp.TheVariants as call;
ghost use Rattle.pt_host.specs.declared.reply.HostReply.{HostReply};
ghost use Rattle.pt_host.specs.declared.seat.HostSeat.{HostSeat};
ghost use Rattle.pt_host.specs.Promises.{HasRisen};
ghost use Rattle.pt_creds.specs.Calls.{CallMade, CallsLead};
ghost use Rattle.pt_creds.specs.Caps.{Drops, SeatDropped, IsDroppedFrom};
ghost use Rattle.pt_creds.specs.Setting.{Restores};

use crate::calls::make;
use crate::error::CredError;
use pt_host::{Caps, Host, HostOp, HostSeat};
use std::marker::Model;

/// A capability that is not effective until it is restored, which has to be done.
pub struct ScopedCaps {
    cap: Caps,
}

impl Model for ScopedCaps {
    ghost use Rattle.pt_host.specs.declared.flags.Caps.{Caps};

    ghost Value = { Caps };

    ghost view = { λ scope. scope.cap };
}

/// Makes a capability not effective. None where it is not effective, or, of several, not all of them are.
pub fn drop_effective_cap<H: Host>(
    host: &mut H,
    seat: &mut HostSeat,
    cap: Caps,
) -> Result<Option<ScopedCaps>, CredError>
    requires caps { seat.old.eff_caps ≡ seat.old.perm_caps }
    ensures made { (made : List CallMade) × CallsLead H.does made host.old seat.old host.new seat.new
        × Drops seat.old cap made result }
    ensures seat { SeatDropped seat.old cap seat.new result }
    ensures guard { IfOk result (λ scope. IfSome scope (λ scope. IsDroppedFrom seat.old scope seat.new)) }
{
    let is_effective = seat.eff_caps.0 & cap.0 == cap.0;
    if !is_effective {
        return Ok(None);
    }
    match make(host, seat, &HostOp::DropCap { caps: cap }) {
        Ok(()) => Ok(Some(ScopedCaps { cap })),
        Err(errno) => Err(CredError::Host(errno)),
    }
}

impl ScopedCaps {
    /// Makes it effective again.
    pub fn restore<H: Host>(self, host: &mut H, seat: &mut HostSeat) -> Result<(), CredError>
        requires { (before : HostSeat) × IsDroppedFrom before self seat.old }
        ensures made { (told : HostReply) × H.does host.old seat.old (call.RaiseCap self) told host.new seat.new
            × Restores (record { asked = call.RaiseCap self; told = told } ∷ []) result }
        ensures back { OnOk result ((before : HostSeat) → IsDroppedFrom before self seat.old → seat.new ≡ before) }
        ensures lost { OnErr result (HasRisen (H.faults host.old) (H.faults host.new)) }
    {
        let ScopedCaps { cap } = self;
        match make(host, seat, &HostOp::RaiseCap { caps: cap }) {
            Ok(()) => Ok(()),
            Err(errno) => Err(CredError::Lost(errno)),
        }
    }
}

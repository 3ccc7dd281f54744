ghost use Rattle.std.specs.Prelude.{◌≡◌};
ghost use Rattle.pt_frame.specs.Machine.Walk.{Reads};
ghost use Rattle.pt_frame.specs.Tree.{RequestTree};
ghost use Rattle.pt_req.specs.Capability.{drops_fsetid, without_fsetid, capability_cleared, cleared_if};

use crate::plan::Plan;
use crate::steps::{drop_xattr, open_scope};
use pt_frame::{Asked, Heard, Hold};
use pt_host::{Bytes, Caps, Fd, HostOp, HostSeat};

/// Whether a call is to be made without the capability by which a file keeps its set-id bits.
pub fn drops_fsetid(plan: &Plan, seat: &HostSeat, kill: bool) -> bool
    ensures { result ≡ drops_fsetid plan.now seat.now kill }
{
    plan.config.killpriv_v2 && kill && seat.eff_caps.includes(Caps::FSETID)
}

/// Without it, where it is to be dropped, up to the end of the scopes.
#[tactic(auto, using(pt_frame::proofs::Reading::rest))]
pub fn without_fsetid<'a>(told: &'a [Heard], at: &mut usize, drops: bool) -> Asked<'a, ()>
    ensures { (next : RequestTree) →
        Reads told.now at.old at.new result (without_fsetid drops next) (λ done. next) }
{
    if drops {
        let caps = Caps::FSETID;
        open_scope(told, at, HostOp::DropCap { caps }, Hold::Dropped(caps))
    } else {
        Ok(())
    }
}

/// The attribute goes by which a file has capabilities, where rules make its name this other one.
#[tactic(auto, using(pt_frame::proofs::Reading::rest))]
pub fn clear_capability<'a>(
    told: &'a [Heard],
    at: &mut usize,
    name: &'a Option<Bytes>,
    fd: Fd,
    through: bool,
) -> Asked<'a, ()>
    ensures { (next : RequestTree) →
        Reads told.now at.old at.new result (capability_cleared name.now fd through next) (λ done. next) }
{
    match name {
        None => Ok(()),
        Some(name) => drop_xattr(told, at, fd, through, name),
    }
}

/// It goes of a file that an opening emptied.
#[tactic(auto, using(pt_frame::proofs::Reading::rest))]
pub fn clear_if<'a>(
    told: &'a [Heard],
    at: &mut usize,
    emptied: bool,
    name: &'a Option<Bytes>,
    fd: Fd,
) -> Asked<'a, ()>
    ensures { (next : RequestTree) →
        Reads told.now at.old at.new result (cleared_if emptied name.now fd next) (λ done. next) }
{
    if emptied {
        clear_capability(told, at, name, fd, false)
    } else {
        Ok(())
    }
}

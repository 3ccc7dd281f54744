ghost use Rattle.std.specs.Prelude.{◌≡◌};
ghost use Rattle.pt_frame.specs.Machine.Walk.{Reads};
ghost use Rattle.pt_frame.specs.Tree.{RequestTree};
ghost use Rattle.pt_req.specs.Asker.{group_of, asker_of, group_set, egid_set, euid_set, cap_raised, taken_on};
ghost use Rattle.pt_req.specs.Asker.{as_asker, umask_of, under_umask};

use crate::begun::BegunSession;
use crate::plan::Plan;
use crate::steps::{open_scope, try_call};
use pt_creds::{CredSteps, UnixCredentials};
use pt_frame::{Asked, Heard, Hold, Stop};
use pt_host::{Caps, Errno, HostOp, HostSeat};
use pt_iface::{Answer, Context};

/// The group that the guest tells, by the host's id: it may tell none, or one that is forbidden.
fn group_of(plan: &Plan, group: Option<u32>) -> Option<Option<u32>>
    ensures { result ≡ group_of plan.now group }
{
    match group {
        None => Some(None),
        Some(group) => match plan.gid_map.map_guest(group) {
            Ok(id) => Some(Some(id)),
            Err(_) => None,
        },
    }
}

/// Who asks, by the host's ids; none where one of them is forbidden.
pub fn asker_of(
    plan: &Plan,
    session: BegunSession,
    who: Context,
    group: Option<u32>,
) -> Option<UnixCredentials>
    ensures { result ≡ asker_of plan.now session who group }
{
    let uid = plan.uid_map.map_guest(who.uid).ok()?;
    let gid = plan.gid_map.map_guest(who.gid).ok()?;
    let group = group_of(plan, group)?;
    Some(UnixCredentials::new(uid, gid).supplementary_gid(session.agreed.sup_group, group))
}

/// The group is set, if there is one to set.
#[tactic(auto, using(pt_frame::proofs::Reading::rest))]
fn group_set<'a>(told: &'a [Heard], at: &mut usize, group: Option<u32>) -> Asked<'a, ()>
    ensures { (next : RequestTree) → Reads told.now at.old at.new result (group_set group next) (λ done. next) }
{
    match group {
        None => Ok(()),
        Some(group) => open_scope(told, at, HostOp::SetGroup { group }, Hold::Groups),
    }
}

/// The effective gid likewise.
#[tactic(auto, using(pt_frame::proofs::Reading::rest))]
fn egid_set<'a>(told: &'a [Heard], at: &mut usize, egid: Option<u32>) -> Asked<'a, ()>
    ensures { (next : RequestTree) → Reads told.now at.old at.new result (egid_set egid next) (λ done. next) }
{
    match egid {
        None => Ok(()),
        Some(gid) => open_scope(told, at, HostOp::SetEgid { gid }, Hold::EffectiveGid),
    }
}

/// The effective uid likewise.
#[tactic(auto, using(pt_frame::proofs::Reading::rest))]
fn euid_set<'a>(told: &'a [Heard], at: &mut usize, euid: Option<u32>) -> Asked<'a, ()>
    ensures { (next : RequestTree) → Reads told.now at.old at.new result (euid_set euid next) (λ done. next) }
{
    match euid {
        None => Ok(()),
        Some(uid) => open_scope(told, at, HostOp::SetEuid { uid }, Hold::EffectiveUid),
    }
}

/// A capability is raised, if it is to be, and done without where that is refused.
#[tactic(auto, using(pt_frame::proofs::Reading::rest))]
fn cap_raised<'a>(told: &'a [Heard], at: &mut usize, raise: bool) -> Asked<'a, ()>
    ensures { (next : RequestTree) → Reads told.now at.old at.new result (cap_raised raise next) (λ done. next) }
{
    if raise {
        let caps = Caps::DAC_OVERRIDE;
        try_call(told, at, HostOp::RaiseCap { caps })
    } else {
        Ok(())
    }
}

/// The umask that counts: that of who asks, where access control lists were agreed on.
pub fn umask_of(session: BegunSession, umask: Option<u32>) -> Option<u32>
    ensures { result ≡ umask_of session umask }
{
    if session.agreed.posix_acl {
        umask
    } else {
        None
    }
}

/// A umask is set, if there is one to set.
#[tactic(auto, using(pt_frame::proofs::Reading::rest))]
pub fn under_umask<'a>(told: &'a [Heard], at: &mut usize, umask: Option<u32>) -> Asked<'a, ()>
    ensures { (next : RequestTree) →
        Reads told.now at.old at.new result (under_umask umask next) (λ done. next) }
{
    match umask {
        None => Ok(()),
        Some(mask) => open_scope(told, at, HostOp::SetUmask { mask }, Hold::Umask),
    }
}

/// An identity is taken on by these steps.
fn taken_on<'a>(told: &'a [Heard], at: &mut usize, steps: CredSteps) -> Asked<'a, ()>
    ensures { (next : RequestTree) → Reads told.now at.old at.new result (taken_on steps next) (λ done. next) }
{
    group_set(told, at, steps.groups)?;
    egid_set(told, at, steps.egid)?;
    euid_set(told, at, steps.euid)?;
    cap_raised(told, at, steps.raise)
}

/// The identity of who asks is taken on from this seat, unless it is forbidden.
#[tactic(auto, using(pt_frame::proofs::Reading::gives))]
pub fn as_asker<'a>(
    told: &'a [Heard],
    at: &mut usize,
    seat: &HostSeat,
    asker: Option<UnixCredentials>,
) -> Asked<'a, ()>
    ensures { (next : RequestTree) →
        Reads told.now at.old at.new result (as_asker seat.now asker next) (λ done. next) }
{
    match asker {
        None => Err(Stop::Gives(Answer::Refused(Errno::EPERM))),
        Some(asker) => taken_on(told, at, asker.steps(seat)),
    }
}

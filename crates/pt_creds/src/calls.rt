ghost use Rattle.std.specs.Prelude.{◌≡◌, List};
ghost use Rattle.pt_host.specs.Call.{call_of};
ghost use Rattle.pt_host.specs.Promises.{MayLackMemory};
ghost use Rattle.pt_host.specs.declared.reply.HostReply.{HostReply};
ghost use Rattle.pt_creds.specs.Calls.{CallMade, CallsLead, asked_in};
ghost use Rattle.pt_creds.specs.Guard.{euid_calls, egid_calls, groups_calls};
ghost use Rattle.pt_creds.specs.Steps.{raise_calls};
ghost use Rattle.pt_creds.specs.Progress.{IsOutcome, Plays, FitsSeat};

use pt_host::{Caps, Errno, Groups, Host, HostOp, HostReply, HostSeat};

/// Makes one call that tells nothing, and hands on why it was not Ok.
pub(crate) fn make<H: Host>(host: &mut H, seat: &mut HostSeat, op: &HostOp<'_>) -> Result<(), Errno>
    requires { MayLackMemory (call_of op.now) → ⊥ }
    ensures { (told : HostReply) × H.does host.old seat.old (call_of op.now) told host.new seat.new
        × IsOutcome told result }
{
    match host.call(seat, op) {
        HostReply::Ok(_) => Ok(()),
        HostReply::Refused(errno) | HostReply::Fault(errno) => Err(errno),
        HostReply::NoMemory => unreachable!(),
    }
}

/// Sets the effective uid, if there is one to set.
pub(crate) fn set_euid<H: Host>(
    host: &mut H,
    seat: &mut HostSeat,
    uid: Option<u32>,
) -> Result<(), Errno>
    ensures { Plays H.does (euid_calls uid) host.old seat.old host.new seat.new result }
{
    match uid {
        Some(uid) => make(host, seat, &HostOp::SetEuid { uid }),
        None => Ok(()),
    }
}

/// Sets the effective gid, if there is one to set.
pub(crate) fn set_egid<H: Host>(
    host: &mut H,
    seat: &mut HostSeat,
    gid: Option<u32>,
) -> Result<(), Errno>
    ensures { Plays H.does (egid_calls gid) host.old seat.old host.new seat.new result }
{
    match gid {
        Some(gid) => make(host, seat, &HostOp::SetEgid { gid }),
        None => Ok(()),
    }
}

/// Sets the groups, if there are any to set.
pub(crate) fn set_groups<H: Host>(
    host: &mut H,
    seat: &mut HostSeat,
    groups: Option<Groups>,
) -> Result<(), Errno>
    ensures played { Plays H.does (groups_calls groups) host.old seat.old host.new seat.new result }
    ensures fits { FitsSeat groups }
{
    match groups {
        Some(groups) => {
            let list = groups.as_slice();
            make(host, seat, &HostOp::SetGroups { list })
        }
        None => Ok(()),
    }
}

/// Makes `DAC_OVERRIDE` effective, if that is wanted.
pub(crate) fn raise_if<H: Host>(host: &mut H, seat: &mut HostSeat, raise: bool) -> Result<(), Errno>
    ensures { Plays H.does (raise_calls raise) host.old seat.old host.new seat.new result }
{
    if raise {
        let caps = Caps::DAC_OVERRIDE;
        make(host, seat, &HostOp::RaiseCap { caps })
    } else {
        Ok(())
    }
}

ghost use Rattle.std.specs.Prelude.{◌+◌, ◌≤◌, ◌≡◌, true, false, Some, None, IfOk, OnOk, OnErr};
ghost use Rattle.pt_host.specs.Call.{call_of};
ghost use Rattle.pt_frame.specs.Deed.{deed_of};
ghost use Rattle.pt_frame.specs.Grammar.{is_end};
ghost use Rattle.pt_frame.specs.declared.act.KeptAct.{KeptAct};
ghost use Rattle.pt_job.specs.Access.{HasSpare};
ghost use Rattle.pt_job.specs.Machine.Job.{owes, is_finished, lost_of};
ghost use Rattle.pt_fs.specs.Shared.{Shares};
ghost use Rattle.pt_fs.specs.Stepped.{CallsFrom, MadeWanted, Stepped};
ghost use Rattle.pt_fs.specs.Trace.{MadeFromBy};
ghost use Rattle.pt_fs.specs.declared.trace.TraceStep.{TraceStep};

use crate::job::JobId;
use crate::machine::{Machine, no_seat};
use crate::record::{Record, WrittenAct};
use crate::shared::Run;
use pt_frame::{Act, ActReply, Want};
use pt_host::{Errno, Host, HostOp, HostReply, HostSeat};
use pt_job::SessionAccess;
use std::alloc::AllocError;

/// Makes one call of a job that has this seat, or none.
fn call_from<H: Host>(host: &mut H, seat: &mut Option<HostSeat>, op: &HostOp<'_>) -> HostReply
    ensures { CallsFrom H.does (call_of op.now) result host.old seat.old host.new seat.new }
{
    match seat {
        Some(seat) => host.call(seat, op),
        None => host.call(&mut no_seat(), op),
    }
}

/// Makes one act of a job that has this seat, or none. An event of the tables needs no seat, so none is looked at.
#[inline(always)]
fn make_from<A: SessionAccess, H: Host>(
    host: &mut H,
    access: &mut A,
    seat: &mut Option<HostSeat>,
    act: &Act<'_>,
) -> ActReply
    requires { HasSpare (A.spare_of access.old) 1 }
    ensures { MadeFromBy H.does A.makes (Some (deed_of act.now)) result host.old seat.old access.old host.new seat.new
        access.new }
{
    match act {
        Act::Event(event) => ActReply::Event(access.event(event)),
        Act::Host(op) => ActReply::Host(call_from(host, seat, op)),
    }
}

/// Makes what the job is to do, writes it down, and has what it was told lie in `reply`. Where the record has no room
/// for it, it is made all the same. An act that could not be copied is not.
#[inline(always)]
fn make_wanted<H: Host, R: Record>(
    run: &mut Run<'_, '_, H, R>,
    id: JobId,
    machine: &Machine,
    start: &HostSeat,
    seat: &mut Option<HostSeat>,
    reply: &mut ActReply,
) -> Result<(), AllocError>
    requires going { is_end (owes run.old.plan.now start.now machine.now.state) ≡ false }
    ensures shares { Shares run.old run.new }
    ensures made { (act : KeptAct) × OnOk result
        (R.wrote run.old.writer.now (record { job = id.0; act = act; reply = reply.new }) run.new.writer.now)
        × MadeWanted H.does (owes run.old.plan.now start.now machine.now.state) run.old.host.now seat.old
        run.old.session.now act reply.new run.new.host.now seat.new run.new.session.now }
    ensures room { OnOk result (R.room run.old.writer.now ≤ R.room run.new.writer.now + 1) }
    ensures unwritten { OnErr result (R.unwritten run.old.writer.now run.new.writer.now) }
    ensures full { OnErr result (R.room run.old.writer.now ≡ 0) }
{
    match machine.state.want(run.plan, start) {
        Want::Finished => Ok(()),
        Want::Step(act) => match run.writer.write_act(run.alloc, id.0, &act) {
            Ok(WrittenAct::Whole) => {
                *reply = make_from(run.host, run.session, seat, &act);
                run.writer.write_reply(run.alloc, reply)
            }
            Ok(WrittenAct::NoCopy) => {
                *reply = ActReply::NoCopy;
                run.writer.write_reply(run.alloc, reply)
            }
            Err(error) => {
                *reply = make_from(run.host, run.session, seat, &act);
                Err(error)
            }
        },
    }
}

/// What the job's last step lost of its seat, which a restoring step alone can.
fn lost_by(restored: bool, machine: &Machine) -> Option<Errno>
    ensures unmarked { restored ≡ false → result ≡ None }
    ensures marked { restored ≡ true → result ≡ lost_of machine.now.state }
{
    if restored { machine.state.lost() } else { None }
}

/// Takes the next step of a job that began with this seat and has that one now, writes it down, and tells what it
/// lost of the seat.
pub fn advance<H: Host, R: Record>(
    run: &mut Run<'_, '_, H, R>,
    id: JobId,
    machine: &mut Machine,
    start: &HostSeat,
    seat: &mut Option<HostSeat>,
) -> Result<Option<Errno>, AllocError>
    requires unfinished { is_finished machine.old.state ≡ false }
    requires going { is_end (owes run.old.plan.now start.now machine.old.state) ≡ false }
    ensures shares { Shares run.old run.new }
    ensures stepped { (step : TraceStep) × OnOk result (R.wrote run.old.writer.now step run.new.writer.now)
        × Stepped H.does run.old.plan.now start.now id.0 run.old.host.now seat.old machine.old run.old.session.now step
        run.new.host.now seat.new machine.new run.new.session.now }
    ensures told { IfOk result (λ lost. lost_of machine.old.state ≡ None → lost_of machine.new.state ≡ lost) }
    ensures room { OnOk result (R.room run.old.writer.now ≤ R.room run.new.writer.now + 1) }
    ensures unwritten { OnErr result (R.unwritten run.old.writer.now run.new.writer.now) }
    ensures full { OnErr result (R.room run.old.writer.now ≡ 0) }
{
    let mut reply = ActReply::NoCopy;
    let written = make_wanted(run, id, machine, start, seat, &mut reply);
    let restored = machine.state.restoring();
    machine.state.take(run.plan, reply, start);
    let lost = lost_by(restored, machine);
    match written {
        Ok(()) => Ok(lost),
        Err(error) => Err(error),
    }
}

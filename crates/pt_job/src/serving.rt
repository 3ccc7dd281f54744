//! One job, taken whole: whoever runs a job with no other step between its own uses this loop.

ghost use Rattle.std.specs.Prelude.{◌≡◌, false, None, Some};
ghost use Rattle.pt_frame.specs.Deed.{deed_of};
ghost use Rattle.pt_frame.specs.Grammar.{is_end};
ghost use Rattle.pt_frame.specs.Made.{MadeBy};
ghost use Rattle.pt_job.specs.Machine.Job.{owes};
ghost use Rattle.pt_job.specs.Machine.Serving.{IsPlain, MadeNext};
ghost use Rattle.pt_job.specs.Served.{Served};

use crate::access::SessionAccess;
use crate::job::AnyJob;
use pt_frame::{Act, ActReply, Finish, Want};
use pt_host::{Host, HostSeat};
use pt_req::Plan;

/// Makes one act, over an access that has room for any event.
fn make<A: SessionAccess, H: Host>(
    access: &mut A,
    host: &mut H,
    seat: &mut HostSeat,
    act: &Act<'_>,
) -> ActReply
    requires room { A.spare_of access.old ≡ None }
    ensures made { MadeBy H.does A.makes (Some (deed_of act.now)) result host.old seat.old access.old host.new seat.new
        access.new }
    ensures plain { IsPlain result }
    ensures room { A.spare_of access.new ≡ None }
{
    match act {
        Act::Event(event) => ActReply::Event(access.event(event)),
        Act::Host(op) => ActReply::Host(host.call(seat, op)),
    }
}

/// Makes what the job wants next, which began with the seat `start`.
fn make_next<A: SessionAccess, H: Host>(
    plan: &Plan,
    access: &mut A,
    host: &mut H,
    start: &HostSeat,
    seat: &mut HostSeat,
    job: &AnyJob,
) -> ActReply
    requires unfinished { is_end (owes plan.now start.now job.now) ≡ false }
    requires room { A.spare_of access.old ≡ None }
    ensures made { MadeNext H.does A.makes (owes plan.now start.now job.now) result host.old seat.old access.old
        host.new seat.new access.new }
    ensures room { A.spare_of access.new ≡ None }
{
    match job.want(plan, start) {
        Want::Step(act) => make(access, host, seat, &act),
        Want::Finished => ActReply::NoCopy,
    }
}

/// Takes the steps of a job that begins with this seat, until it is finished. It is not cut; where it loses the seat, it
/// tells what the first step was told that was to restore it.
pub fn serve<A: SessionAccess, H: Host>(
    plan: &Plan,
    access: &mut A,
    host: &mut H,
    seat: &mut HostSeat,
    mut job: AnyJob,
) -> Finish
    requires room { A.spare_of access.old ≡ None }
    ensures served { Served H.does A.makes (owes plan.now seat.old job) host.old seat.old access.old result host.new
        seat.new access.new }
    ensures room { A.spare_of access.new ≡ None }
{
    let start = seat.copy();
    while !job.is_finished() {
        let reply = make_next(plan, access, host, &start, seat, &job);
        job.take(plan, reply, &start);
    }
    job.finish()
}

ghost use Rattle.std.specs.Prelude.{◌≡◌, true};
ghost use Rattle.pt_host.specs.declared.seat.HostSeat.{HostSeat};
ghost use Rattle.pt_frame.specs.Grammar.{End};
ghost use Rattle.pt_job.specs.Machine.Job.{owes, is_finished, lost_of};
ghost use Rattle.pt_req.specs.declared.plan.Plan.{Plan};
ghost use Rattle.pt_job.specs.Pattern.{Requests};
ghost use Rattle.pt_fs.specs.Jobs.{asked_of, no_seat};
ghost use Rattle.pt_fs.specs.Laid.{StaysAsIs};
ghost use Rattle.pt_fs.specs.Running.{Goes, Waits};

use crate::job::{Job, JobId};
use pt_frame::Finish;
use pt_host::{Caps, Errno, Groups, HostSeat};
use pt_iface::{Context, Request};
use pt_job::AnyJob;

/// A job on its way.
#[derive(Drop)]
pub struct Machine {
    pub id: JobId,
    pub state: AnyJob,
}

/// A job that has ended.
#[derive(Drop)]
pub struct Over {
    pub last: Finish,
    /// What was lost of its seat, also where the job was cut.
    pub lost: Option<Errno>,
}

/// The seat that an edit's call is handed.
pub fn no_seat() -> HostSeat
    ensures { result ≡ no_seat }
{
    HostSeat {
        real_uid: 0,
        eff_uid: 0,
        saved_uid: 0,
        real_gid: 0,
        eff_gid: 0,
        saved_gid: 0,
        groups: Groups::new(),
        eff_caps: Caps(0),
        perm_caps: Caps(0),
        umask: 0,
    }
}

/// The machine of a request that has made no step.
fn begun_request(id: JobId, who: Context, request: Request) -> Machine
    ensures id { result.id.0 ≡ id.0 }
    ensures stays { StaysAsIs (Waits (Requests who request)) (Goes result.state) }
{
    let state = AnyJob::begin(who, request);
    Machine { id, state }
}

/// The machine of a job that has made no step. The root is opened by the daemon itself.
pub fn begun(id: JobId, job: Job) -> Machine
    ensures id { result.id.0 ≡ id.0 }
    ensures stays { StaysAsIs (Waits (asked_of job)) (Goes result.state) }
{
    match job {
        Job::Request(who, _, request) => begun_request(id, who, request),
        Job::OpenRoot(_) => begun_request(id, Context { uid: 0, gid: 0 }, Request::Root),
        Job::Edit(edit) => {
            let state = AnyJob::edit(edit);
            Machine { id, state }
        }
    }
}

/// What is left of a job that has finished.
pub fn ended(machine: Machine) -> Over
    requires { is_finished machine.state ≡ true }
    ensures left { (plan : Plan) (seat : HostSeat) → owes plan seat machine.state ≡ End result.last }
    ensures lost { result.lost ≡ lost_of machine.state }
{
    let Machine { id: _id, state } = machine;
    let lost = state.lost();
    let last = state.finish();
    Over { last, lost }
}

ghost use Rattle.std.specs.Prelude.{◌≡◌};
ghost use Rattle.pt_script.specs.Jobs.{job_of, seat_of};

use crate::line::ScriptJob;
use crate::settings::Identity;
use pt_fs::Job;
use pt_host::HostSeat;
use pt_iface::Request;

/// The seat that begins as this.
pub fn seat_of(who: Identity) -> HostSeat
    ensures { result ≡ seat_of who }
{
    HostSeat::new(who.uid, who.gid, who.caps)
}

/// The job of a job's line, which begins as this.
pub fn job_of(who: Identity, line: ScriptJob) -> Job
    ensures { result ≡ job_of (seat_of who) line }
{
    match line {
        ScriptJob::Request(_, Request::Root) => Job::OpenRoot(seat_of(who)),
        ScriptJob::Request(context, request) => Job::Request(context, seat_of(who), request),
        ScriptJob::Edit(edit) => Job::Edit(edit),
    }
}

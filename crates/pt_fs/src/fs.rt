ghost use Rattle.std.specs.Prelude.{◌≡◌, ◌≤◌, [], ◌∷◌, None, IfOk, IfErr};
ghost use Rattle.pt_host.specs.declared.ids.Fd.{Fd};
ghost use Rattle.pt_host.specs.declared.seat.HostSeat.{HostSeat};
ghost use Rattle.pt_tables.specs.Change.{change_of};
ghost use Rattle.pt_tables.specs.Happens.{Happens};
ghost use Rattle.pt_tables.specs.Tables.{Tables};
ghost use Rattle.pt_job.specs.Machine.Job.{owes, steps_bound, inserts_left, lost_of};
ghost use Rattle.pt_job.specs.Pattern.{grammar_of, bound_of, most_inserted};
ghost use Rattle.pt_req.specs.declared.plan.Plan.{Plan};

use pt_host::Fd;
use pt_iface::{Context, Request};
use pt_job::AnyJob;
use pt_req::Plan;
use pt_session::{Event, EventReply, Session};
use std::alloc::Global;

/// A file system whose requests are taken step by step.
pub trait SteppedFs {
    /// Its checked configuration.
    ghost plan_of: { Self → Plan };

    /// Its tables.
    ghost tables: { Self → Tables };

    /// The descriptor of the host's root.
    ghost root: { Self → Fd };

    /// Begins a request. Where memory ran out the request is handed back.
    fn start(&self, alloc: Global, who: Context, request: Request) -> Result<AnyJob, Request>
        ensures left { IfOk result (λ job. (seat : HostSeat) →
            owes (plan_of self.now) seat job ≡ grammar_of (plan_of self.now) seat who request) }
        ensures bound { IfOk result (λ job. steps_bound job ≤ bound_of request) }
        ensures inserts { IfOk result (λ job. inserts_left job ≤ most_inserted) }
        ensures lost { IfOk result (λ job. lost_of job ≡ None) }
        ensures back { IfErr result (λ back. back ≡ request) };

    /// Makes one event of the tables.
    fn event(&mut self, event: &Event<'_>) -> EventReply
        ensures happens { Happens (tables self.old) (change_of event.now) result (tables self.new) }
        ensures plan { plan_of self.new ≡ plan_of self.old }
        ensures root { root self.new ≡ root self.old };

    /// The descriptors that it keeps open.
    fn keep_fds(&self) -> [Fd; 1]
        ensures { result ≡ root self.now ∷ [] };

    /// The checked configuration, which no call changes.
    fn plan(&self) -> &Plan
        ensures { result.now ≡ plan_of self.now };

    fn session(&self) -> &Session
        ensures { result.now ≡ tables self.now };

    /// Puts these tables in, and hands out those that stood.
    fn replace_session(&mut self, session: Session) -> Session
        ensures out { result ≡ tables self.old }
        ensures in_place { tables self.new ≡ session }
        ensures plan { plan_of self.new ≡ plan_of self.old }
        ensures root { root self.new ≡ root self.old };
}

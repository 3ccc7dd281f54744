ghost use Rattle.std.specs.Prelude.{◌≡◌, ◌+◌, ◌*◌, ◌<◌, ◌≤◌, true, false, IfOk, IfErr, None};
ghost use Rattle.pt_frame.specs.Frame.{cut};
ghost use Rattle.pt_frame.specs.Grammar.{End, IsChosen, IsDo, IsSettled, Wants, after, is_end, owed_by, restores};
ghost use Rattle.pt_frame.specs.Grammar.{told_closings, told_inserted, events_first, told_slots};
ghost use Rattle.pt_frame.specs.Machine.Job.{owes, steps_left, steps_bound, own_left, events_left, inserts_left};
ghost use Rattle.pt_frame.specs.Machine.Job.{is_finished, restores_now};
ghost use Rattle.pt_frame.specs.Machine.Left.{IsTold};
ghost use Rattle.pt_frame.specs.Past.{lost_after};
ghost use Rattle.pt_host.specs.declared.seat.HostSeat.{HostSeat};
ghost use Rattle.pt_frame.specs.Machine.Room.{most_rows};
ghost use Rattle.pt_req.specs.declared.plan.Plan.{Plan};
ghost use Rattle.pt_job.specs.Machine.Body.{any_acts, any_tree};
ghost use Rattle.pt_job.specs.Pattern.{grammar_of, bound_of, most_inserted};
ghost use Rattle.pt_job.specs.Requests.{IsNumbering};

use crate::body::AnyBody;
use pt_frame::{ActReply, Finish, Framed, Want};
use pt_host::{Errno, HostSeat};
use pt_iface::{Context, Request};
use pt_req::Plan;
use std::alloc::Global;
use std::marker::Model;

/// A request of sessions, numbers or handles on its way. All calls of one job are given one plan, and the seat with
/// which the job began.
#[derive(Drop)]
pub struct JobState {
    framed: Framed<AnyBody>,
}

impl Model for JobState {
    ghost use Rattle.pt_frame.specs.Machine.Job.{Job};
    ghost use Rattle.pt_job.specs.declared.body.AnyBody.{AnyBody};

    ghost Value = { Job AnyBody };

    ghost view = { λ job. job.framed };
}

impl JobState {
    /// A job that has made no step. An `Err`, which gives the request back, says that memory ran out; these requests
    /// take none.
    pub fn start(
        _alloc: Global,
        _plan: &Plan,
        who: Context,
        request: Request,
    ) -> Result<JobState, Request>
        requires { IsNumbering request }
        ensures left { IfOk result (λ job. (plan : Plan) (seat : HostSeat) →
            owes seat job.at (any_tree job.body plan seat) ≡ grammar_of plan seat who request) }
        ensures bound { IfOk result (λ job. steps_bound job.at (any_acts job.body) ≤ bound_of request) }
        ensures events { IfOk result (λ job. events_left job.at (any_acts job.body) ≤ bound_of request) }
        ensures inserts { IfOk result (λ job. inserts_left job.at most_rows ≤ most_inserted) }
        ensures lost { IfOk result (λ job. job.at.lost ≡ None) }
        ensures back { IfErr result (λ back. back ≡ request) }
    {
        let framed = Framed::start(AnyBody { who, request });
        Ok(JobState { framed })
    }

    /// What it wants next, which takes no memory.
    pub fn want<'a>(&'a self, plan: &'a Plan, seat: &'a HostSeat) -> Want<'a>
        ensures { Wants (owes seat.now self.now.at (any_tree self.now.body plan.now seat.now)) result }
    {
        self.framed.want(plan, seat)
    }

    /// Goes on from the reply of the step that was wanted.
    pub fn take(&mut self, plan: &Plan, reply: ActReply, seat: &HostSeat)
        requires { is_finished self.old.at ≡ false }
        ensures left { IsChosen
            (after reply (owes seat.now self.old.at (any_tree self.old.body plan.now seat.now)))
            (owes seat.now self.new.at (any_tree self.new.body plan.now seat.now)) }
        ensures lost { self.new.at.lost ≡ lost_after self.old.at.lost (restores_now self.old.at) reply }
        ensures fewer { steps_left self.new.at (any_acts self.new.body)
            < steps_left self.old.at (any_acts self.old.body) }
        ensures within { steps_bound self.new.at (any_acts self.new.body) + 1
            ≤ steps_bound self.old.at (any_acts self.old.body)
            + 3 * told_closings (owes seat.now self.old.at (any_tree self.old.body plan.now seat.now)) reply }
        ensures own { own_left self.new.at (any_acts self.new.body)
            ≤ own_left self.old.at (any_acts self.old.body) }
        ensures slot { events_left self.new.at (any_acts self.new.body)
            ≤ own_left self.new.at (any_acts self.new.body) + 1 }
        ensures events { events_left self.new.at (any_acts self.new.body)
            + events_first (owes seat.now self.old.at (any_tree self.old.body plan.now seat.now))
            ≤ events_left self.old.at (any_acts self.old.body)
            + told_slots (owes seat.now self.old.at (any_tree self.old.body plan.now seat.now)) reply }
        ensures inserts { inserts_left self.new.at most_rows
            + told_inserted (owes seat.now self.old.at (any_tree self.old.body plan.now seat.now)) reply
            ≤ inserts_left self.old.at most_rows }
    {
        self.framed.take(plan, reply, seat);
    }

    pub fn is_finished(&self) -> bool
        ensures result { result ≡ is_finished self.now.at }
        ensures end { (plan : Plan) (seat : HostSeat) →
            is_end (owes seat self.now.at (any_tree self.now.body plan seat)) ≡ result }
    {
        self.framed.is_finished()
    }

    /// Makes it want only the end of its open scopes, the closings that it owes and its holds; it then finishes with
    /// the answer `Cut`.
    pub fn cut(&mut self)
        requires { is_finished self.old.at ≡ false }
        ensures left { (plan : Plan) (seat : HostSeat) →
            owes seat self.new.at (any_tree self.new.body plan seat)
            ≡ cut seat (owed_by (owes seat self.old.at (any_tree self.old.body plan seat))) }
        ensures stood { (plan : Plan) (seat : HostSeat) →
            IsDo (owes seat self.old.at (any_tree self.old.body plan seat)) }
        ensures lost { self.new.at.lost ≡ self.old.at.lost }
        ensures bound { steps_bound self.new.at (any_acts self.new.body)
            ≤ steps_bound self.old.at (any_acts self.old.body) }
        ensures inserts { inserts_left self.new.at most_rows ≡ 0 }
    {
        self.framed.cut();
    }

    /// What the first refused restoring step was answered, also where the job was cut.
    pub fn lost(&self) -> Option<Errno>
        ensures { result ≡ self.now.at.lost }
    {
        self.framed.lost()
    }

    /// Whether the wanted step is to restore the seat.
    pub fn restoring(&self) -> bool
        ensures result { result ≡ restores_now self.now.at }
        ensures restores { (plan : Plan) (seat : HostSeat) →
            result ≡ restores (owes seat self.now.at (any_tree self.now.body plan seat)) }
        ensures unfinished { result ≡ true → is_finished self.now.at ≡ false }
        ensures settled { (plan : Plan) (seat : HostSeat) →
            IsSettled (owes seat self.now.at (any_tree self.now.body plan seat)) }
    {
        self.framed.restoring()
    }

    /// How it ends. A seat that was lost is told, but where the job was cut.
    pub fn finish(self) -> Finish
        requires { is_finished self.at ≡ true }
        ensures left { (plan : Plan) (seat : HostSeat) →
            owes seat self.at (any_tree self.body plan seat) ≡ End result }
        ensures lost { IsTold result self.at.lost }
    {
        self.framed.finish()
    }
}

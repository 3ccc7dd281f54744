ghost use Rattle.std.specs.Prelude.{◌≡◌, ◌+◌, ◌*◌, ◌^◌, ◌<◌, ◌≤◌, true, false, IfOk, IfErr, None};
ghost use Rattle.pt_host.specs.declared.seat.HostSeat.{HostSeat};
ghost use Rattle.pt_req.specs.declared.plan.Plan.{Plan};

use crate::body::AnyBody;
use pt_frame::{ActReply, Editing, Finish, Framed, Want};
use pt_host::{Edit, Errno, HostSeat};
use pt_iface::{Context, Request};
use pt_req::Plan;
use std::alloc::Global;

/// A request on its way, or an edit. All calls of one job are given one plan, and the seat with which the job began.
#[derive(Drop)]
pub struct AnyJob {
    work: Work,
}

/// What the job does.
#[derive(Drop)]
enum Work {
    Request(Framed<AnyBody>),
    Edit(Editing),
}

#[tactic(auto, unfolding(crate::specs::Machine::Job::work_of))]
impl AnyJob {
    ghost use Rattle.pt_frame.specs.Edit.{edit_grammar};
    ghost use Rattle.pt_frame.specs.Frame.{cut};
    ghost use Rattle.pt_frame.specs.Grammar.{End, IsChosen, IsDo, IsSettled, Wants, after, is_end, owed_by, restores};
    ghost use Rattle.pt_frame.specs.Grammar.{told_closings, told_inserted, events_first, told_slots};
    ghost use Rattle.pt_frame.specs.Machine.Left.{IsTold};
    ghost use Rattle.pt_frame.specs.Past.{lost_after};
    ghost use Rattle.pt_job.specs.Machine.Job.{owes, steps_left, steps_bound, inserts_left, is_finished, lost_of};
    ghost use Rattle.pt_job.specs.Machine.Job.{own_left, events_left, restores_now};
    ghost use Rattle.pt_job.specs.Pattern.{grammar_of, bound_of, most_inserted};

    /// A job that has made no step. No request of today takes memory for it.
    pub fn begin(who: Context, request: Request) -> AnyJob
        ensures left { (plan : Plan) (seat : HostSeat) →
            owes plan seat result ≡ grammar_of plan seat who request }
        ensures going { is_finished result ≡ false }
        ensures fewer { steps_left result ≤ 2 ^ 66 * bound_of request }
        ensures bound { steps_bound result ≤ bound_of request }
        ensures events { events_left result ≤ bound_of request }
        ensures inserts { inserts_left result ≤ most_inserted }
        ensures lost { lost_of result ≡ None }
    {
        let work = Work::Request(Framed::start(AnyBody { who, request }));
        AnyJob { work }
    }

    /// The same, where memory may run out: an `Err`, which gives the request back, would say so.
    pub fn start(
        _alloc: Global,
        _plan: &Plan,
        who: Context,
        request: Request,
    ) -> Result<AnyJob, Request>
        ensures left { IfOk result (λ job. (plan : Plan) (seat : HostSeat) →
            owes plan seat job ≡ grammar_of plan seat who request) }
        ensures bound { IfOk result (λ job. steps_bound job ≤ bound_of request) }
        ensures events { IfOk result (λ job. events_left job ≤ bound_of request) }
        ensures inserts { IfOk result (λ job. inserts_left job ≤ most_inserted) }
        ensures lost { IfOk result (λ job. lost_of job ≡ None) }
        ensures back { IfErr result (λ back. back ≡ request) }
    {
        Ok(AnyJob::begin(who, request))
    }

    /// An edit that has not been made, which is one step.
    pub fn edit(edit: Edit) -> AnyJob
        ensures left { (plan : Plan) (seat : HostSeat) → owes plan seat result ≡ edit_grammar edit }
        ensures going { is_finished result ≡ false }
        ensures fewer { steps_left result ≡ 1 }
        ensures bound { steps_bound result ≡ 1 }
        ensures events { events_left result ≡ 0 }
        ensures inserts { inserts_left result ≡ 0 }
        ensures lost { lost_of result ≡ None }
    {
        let work = Work::Edit(Editing::Asks(edit));
        AnyJob { work }
    }

    /// What it wants next, which takes no memory.
    pub fn want<'a>(&'a self, plan: &'a Plan, seat: &'a HostSeat) -> Want<'a>
        ensures { Wants (owes plan.now seat.now self.now) result }
    {
        match &self.work {
            Work::Request(framed) => framed.want(plan, seat),
            Work::Edit(editing) => editing.want(),
        }
    }

    /// Goes on from the reply of the step that was wanted.
    pub fn take(&mut self, plan: &Plan, reply: ActReply, seat: &HostSeat)
        requires { is_finished self.old ≡ false }
        ensures left { IsChosen (after reply (owes plan.now seat.now self.old)) (owes plan.now seat.now self.new) }
        ensures lost { lost_of self.new ≡ lost_after (lost_of self.old) (restores_now self.old) reply }
        ensures fewer { steps_left self.new < steps_left self.old }
        ensures within { steps_bound self.new + 1
            ≤ steps_bound self.old + 3 * told_closings (owes plan.now seat.now self.old) reply }
        ensures own { own_left self.new ≤ own_left self.old }
        ensures slot { events_left self.new ≤ own_left self.new + 1 }
        ensures events { events_left self.new + events_first (owes plan.now seat.now self.old)
            ≤ events_left self.old + told_slots (owes plan.now seat.now self.old) reply }
        ensures inserts { inserts_left self.new + told_inserted (owes plan.now seat.now self.old) reply
            ≤ inserts_left self.old }
    {
        match &mut self.work {
            Work::Request(framed) => framed.take(plan, reply, seat),
            Work::Edit(editing) => editing.take(&reply),
        }
    }

    pub fn is_finished(&self) -> bool
        ensures result { result ≡ is_finished self.now }
        ensures end { (plan : Plan) (seat : HostSeat) → is_end (owes plan seat self.now) ≡ result }
    {
        match &self.work {
            Work::Request(framed) => framed.is_finished(),
            Work::Edit(editing) => editing.is_finished(),
        }
    }

    /// Makes it want only the end of its open scopes, the closings that it owes and its holds; it then finishes with
    /// the answer `Cut`.
    pub fn cut(&mut self)
        requires { is_finished self.old ≡ false }
        ensures left { (plan : Plan) (seat : HostSeat) →
            owes plan seat self.new ≡ cut seat (owed_by (owes plan seat self.old)) }
        ensures stood { (plan : Plan) (seat : HostSeat) → IsDo (owes plan seat self.old) }
        ensures lost { lost_of self.new ≡ lost_of self.old }
        ensures bound { steps_bound self.new ≤ steps_bound self.old }
        ensures inserts { inserts_left self.new ≡ 0 }
    {
        match &mut self.work {
            Work::Request(framed) => framed.cut(),
            Work::Edit(editing) => editing.cut(),
        }
    }

    /// What the first refused restoring step was answered, also where the job was cut.
    pub fn lost(&self) -> Option<Errno>
        ensures { result ≡ lost_of self.now }
    {
        match &self.work {
            Work::Request(framed) => framed.lost(),
            Work::Edit(_) => None,
        }
    }

    /// Whether the wanted step is to restore the seat.
    pub fn restoring(&self) -> bool
        ensures result { result ≡ restores_now self.now }
        ensures restores { (plan : Plan) (seat : HostSeat) → result ≡ restores (owes plan seat self.now) }
        ensures unfinished { result ≡ true → is_finished self.now ≡ false }
        ensures settled { (plan : Plan) (seat : HostSeat) → IsSettled (owes plan seat self.now) }
    {
        match &self.work {
            Work::Request(framed) => framed.restoring(),
            Work::Edit(_) => false,
        }
    }

    /// How it ends. A seat that was lost is told, but where the job was cut.
    pub fn finish(self) -> Finish
        requires { is_finished self ≡ true }
        ensures left { (plan : Plan) (seat : HostSeat) → owes plan seat self ≡ End result }
        ensures lost { IsTold result (lost_of self) }
    {
        match self.work {
            Work::Request(framed) => framed.finish(),
            Work::Edit(editing) => editing.finish(),
        }
    }
}

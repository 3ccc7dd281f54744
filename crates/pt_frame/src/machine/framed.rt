ghost use Rattle.std.specs.Prelude.{◌≡◌, ◌⊎◌, ◌+◌, ◌-◌, ◌*◌, ◌<◌, ◌≤◌, ℕ, [], true, false, Some, None, length, List};
ghost use Rattle.std.specs.Prelude.{Bool, Option};
ghost use Rattle.pt_host.specs.declared.ids.Errno.{Errno};
ghost use Rattle.pt_host.specs.declared.seat.HostSeat.{HostSeat};
ghost use Rattle.pt_frame.specs.Frame.{closings};
ghost use Rattle.pt_frame.specs.Grammar.{IsChosen, after, told_closings, told_inserted};
ghost use Rattle.pt_frame.specs.Past.{lost_after};
ghost use Rattle.pt_frame.specs.Tree.{RequestTree};
ghost use Rattle.pt_frame.specs.Deed.{deed_of};
ghost use Rattle.pt_frame.specs.Machine.Left.{mode_left, mode_counts, is_over, is_ready, is_giving_scope, Stays};
ghost use Rattle.pt_frame.specs.Machine.Left.{Tells};
ghost use Rattle.pt_frame.specs.Machine.Room.{acts_spent, most_holds, most_rows, room_spent, rows_spent};
ghost use Rattle.pt_frame.specs.Machine.Walk.{IsStop, asking, deed_in, walk};
ghost use Rattle.pt_frame.specs.declared.told.Heard.{Heard};
ghost use Rattle.pt_frame.specs.declared.machine.mode.Mode.TheVariants.{Body as in_body};

use crate::act::{Act, ActReply, Want};
use crate::asking::Stop;
use crate::finish::Finish;
use crate::hold::{Holds, Taken};
use crate::machine::body::Body;
use crate::machine::giving::{fault_if, giving, or_first, taken_in};
use crate::machine::going::{body_stepped, hold_given};
use crate::machine::mode::{Mode, end_of, go_to, is_giving_scope, is_over, passes_at};
use crate::marks::Marks;
use crate::told::Told;
use pt_host::{Errno, HostOp, HostSeat};
use pt_iface::Answer;
use pt_session::Event;
use std::marker::Model;

/// A request on its way: its body, and what the frame owes. All calls of one job are given one plan, and the seat
/// with which the job began.
#[derive(Drop)]
pub struct Framed<B: Body> {
    // What each step asks for lies side by side.
    closings: u64,
    taken: Taken,
    lost: Option<Errno>,
    mode: Mode,
    body: B,
    marks: Marks,
    holds: Holds,
    told: Told,
}

impl<B: Body> Model for Framed<B> {
    ghost use Rattle.std.specs.Prelude.{◌≡◌, ◌+◌, ◌-◌, ◌≤◌, true, length};
    ghost use Rattle.pt_frame.specs.Machine.Job.{Job};
    ghost use Rattle.pt_frame.specs.Machine.Left.{mode_counts, is_ready, Stays, Tells};
    ghost use Rattle.pt_frame.specs.Machine.Room.{acts_spent, most_holds, room_spent};

    ghost Value = { Job B };

    ghost view = { λ framed. record {
      body = framed.body;
      at = record {
        told = framed.told;
        mode = framed.mode;
        holds = framed.holds;
        marks = framed.marks;
        closings = framed.closings;
        taken = framed.taken;
        lost = framed.lost;
      };
    } };

    ghost invariant = { λ framed.
        (length framed.holds + length framed.marks
        + mode_counts framed.mode (most_holds - room_spent framed.told) ≤ most_holds)
        × (is_ready framed.mode framed.holds framed.marks ≡ true)
        × Tells framed.mode framed.lost
        × Stays framed.mode (B.acts framed.body - acts_spent framed.told) (length framed.told) };
}

/// The act at which a request stops.
fn wanted<'a>(stop: Stop<'a>) -> Act<'a>
    ensures { (told : List Heard) (tree : RequestTree) → IsStop told tree stop.entry →
        deed_of result ≡ deed_in (asking tree) }
{
    match stop {
        Stop::Wants(act) => act,
        Stop::Opens(act, _scope) => act,
        Stop::Gives(_last) => Act::Event(Event::Begin),
        Stop::Moves(_what, _place) => Act::Event(Event::Begin),
        Stop::Refuses(_reply) => Act::Event(Event::Begin),
        Stop::Bares => Act::Event(Event::Begin),
        Stop::Brackets => Act::Event(Event::Begin),
        Stop::Shuts(_passes) => Act::Event(Event::Begin),
        Stop::Makes(_product) => Act::Event(Event::Begin),
        Stop::GivesUp => Act::Event(Event::Begin),
    }
}

/// After the reply to what this mode wanted: how many closings it told.
fn moved<B: Body>(
    mode: &mut Mode,
    body: &B,
    told: &mut Told,
    holds: &mut Holds,
    marks: &mut Marks,
    plan: &B::Plan,
    reply: ActReply,
    seat: &HostSeat,
) -> u64
    requires going { is_over mode.old holds.old ≡ false }
    requires ready { is_ready mode.old holds.old marks.old ≡ true }
    requires room { length holds.old + length marks.old + mode_counts mode.old (most_holds - room_spent told.old)
        ≤ most_holds }
    requires stays { Stays mode.old (B.acts body.now - acts_spent told.old) (length told.old) }
    ensures left { IsChosen (after reply (mode_left seat.now mode.old
        (walk (B.tree body.now plan.now seat.now) told.old) holds.old marks.old))
        (closings result holds.new (mode_left seat.now mode.new
        (walk (B.tree body.now plan.now seat.now) told.new) holds.new marks.new)) }
    ensures told { result ≡ told_closings (mode_left seat.now mode.old
        (walk (B.tree body.now plan.now seat.now) told.old) holds.old marks.old) reply }
    ensures fewer { length holds.new + mode_counts mode.new (B.acts body.now - acts_spent told.new)
        < length holds.old + mode_counts mode.old (B.acts body.now - acts_spent told.old) }
    ensures rows { mode_counts mode.new (most_rows - rows_spent told.new) + told_inserted (mode_left seat.now mode.old
        (walk (B.tree body.now plan.now seat.now) told.old) holds.old marks.old) reply
        ≤ mode_counts mode.old (most_rows - rows_spent told.old) }
    ensures room { length holds.new + length marks.new + mode_counts mode.new (most_holds - room_spent told.new)
        ≤ most_holds }
    ensures ready { is_ready mode.new holds.new marks.new ≡ true }
    ensures stays { Stays mode.new (B.acts body.now - acts_spent told.new) (length told.new) }
    ensures tells { (lost : Option Errno) → Tells mode.old lost →
        Tells mode.new (lost_after lost (is_giving_scope mode.old holds.old) reply) }
{
    match mode {
        Mode::Body => body_stepped(mode, body, told, holds, marks, plan, reply, seat),
        _ => hold_given(mode, body, told, holds, marks, plan, &reply, seat),
    }
}

impl<B: Body> Framed<B> {
    ghost use Rattle.pt_frame.specs.Frame.{cut};
    ghost use Rattle.pt_frame.specs.Grammar.{End, IsDo, IsSettled, Wants, owed_by, is_end, restores, events_first};
    ghost use Rattle.pt_frame.specs.Grammar.{told_slots};
    ghost use Rattle.pt_frame.specs.Tree.{grammar_of_tree};
    ghost use Rattle.pt_frame.specs.Machine.Walk.{IsAsks};
    ghost use Rattle.pt_frame.specs.Machine.Job.{owes, steps_left, steps_bound, own_left, events_left, inserts_left};
    ghost use Rattle.pt_frame.specs.Machine.Job.{is_finished, restores_now};
    ghost use Rattle.pt_frame.specs.Machine.Left.{IsTold};

    /// A job that has made no step.
    pub fn start(body: B) -> Self
        ensures body { result.body ≡ body }
        ensures left { (seat : HostSeat) (tree : RequestTree) → IsAsks tree →
            owes seat result.at tree ≡ grammar_of_tree seat tree }
        ensures bound { (acts : ℕ) → steps_bound result.at acts ≡ acts }
        ensures own { (acts : ℕ) → own_left result.at acts ≡ acts }
        ensures events { (acts : ℕ) → events_left result.at acts ≡ acts }
        ensures inserts { (inserts : ℕ) → inserts_left result.at inserts ≡ inserts }
        ensures lost { result.at.lost ≡ None }
    {
        Framed {
            body,
            mode: Mode::Body,
            holds: Holds::new(),
            marks: Marks::new(),
            told: Told::new(),
            closings: 0,
            taken: Taken::Nothing,
            lost: None,
        }
    }

    /// What it wants next, which takes no memory.
    pub fn want<'a>(&'a self, plan: &'a B::Plan, seat: &'a HostSeat) -> Want<'a>
        ensures { Wants (owes seat.now self.now.at (B.tree self.now.body plan.now seat.now)) result }
    {
        match self.taken {
            Taken::Fd { fd, .. } => return Want::Step(Act::Host(HostOp::Close { fd })),
            Taken::Slot { class } => return Want::Step(Act::Event(Event::GiveFd { class })),
            Taken::Nothing => {}
        }
        if self.closings > 0 {
            return Want::Step(Act::Event(Event::TakeClosing));
        }
        if let Mode::Body = &self.mode {
            return Want::Step(wanted(self.body.run(plan, seat, self.told.as_slice())));
        }
        match self.holds.next(passes_at(&self.mode)) {
            None => Want::Finished,
            Some(hold) => Want::Step(giving(hold, seat)),
        }
    }

    /// Goes on from the reply of the act that was wanted.
    #[tactic(auto, using(crate::proofs::Counting::first_most))]
    pub fn take(&mut self, plan: &B::Plan, reply: ActReply, seat: &HostSeat)
        requires { is_finished self.old.at ≡ false }
        ensures body { self.new.body ≡ self.old.body }
        ensures left { IsChosen
            (after reply (owes seat.now self.old.at (B.tree self.old.body plan.now seat.now)))
            (owes seat.now self.new.at (B.tree self.new.body plan.now seat.now)) }
        ensures lost { self.new.at.lost ≡ lost_after self.old.at.lost (restores_now self.old.at) reply }
        ensures fewer { steps_left self.new.at (B.acts self.new.body)
            < steps_left self.old.at (B.acts self.old.body) }
        ensures within { steps_bound self.new.at (B.acts self.new.body) + 1
            ≤ steps_bound self.old.at (B.acts self.old.body)
            + 3 * told_closings (owes seat.now self.old.at (B.tree self.old.body plan.now seat.now)) reply }
        ensures own { own_left self.new.at (B.acts self.new.body) ≤ own_left self.old.at (B.acts self.old.body) }
        ensures slot { events_left self.new.at (B.acts self.new.body)
            ≤ own_left self.new.at (B.acts self.new.body) + 1 }
        ensures events { events_left self.new.at (B.acts self.new.body)
            + events_first (owes seat.now self.old.at (B.tree self.old.body plan.now seat.now))
            ≤ events_left self.old.at (B.acts self.old.body)
            + told_slots (owes seat.now self.old.at (B.tree self.old.body plan.now seat.now)) reply }
        ensures inserts { inserts_left self.new.at most_rows
            + told_inserted (owes seat.now self.old.at (B.tree self.old.body plan.now seat.now)) reply
            ≤ inserts_left self.old.at most_rows }
    {
        match self.taken {
            Taken::Fd { slot, class, .. } => {
                self.taken = if slot {
                    Taken::Slot { class }
                } else {
                    Taken::Nothing
                };
                return;
            }
            Taken::Slot { .. } => {
                self.taken = Taken::Nothing;
                return;
            }
            Taken::Nothing => {}
        }
        if self.closings > 0 {
            self.closings -= 1;
            self.taken = taken_in(&reply);
            return;
        }
        let restores = is_giving_scope(&self.mode, &self.holds);
        self.lost = or_first(fault_if(restores, &reply), self.lost);
        let closings = moved(
            &mut self.mode,
            &self.body,
            &mut self.told,
            &mut self.holds,
            &mut self.marks,
            plan,
            reply,
            seat,
        );
        self.closings = closings;
    }

    pub fn is_finished(&self) -> bool
        ensures result { result ≡ is_finished self.now.at }
        ensures end { (plan : B.Plan) (seat : HostSeat) →
            is_end (owes seat self.now.at (B.tree self.now.body plan seat)) ≡ result }
    {
        match self.taken {
            Taken::Nothing => {}
            _ => return false,
        }
        if self.closings > 0 {
            return false;
        }
        is_over(&self.mode, &self.holds)
    }

    /// Leaves out all but what is owed.
    pub fn cut(&mut self)
        requires { is_finished self.old.at ≡ false }
        ensures body { self.new.body ≡ self.old.body }
        ensures left { (plan : B.Plan) (seat : HostSeat) →
            owes seat self.new.at (B.tree self.new.body plan seat)
            ≡ cut seat (owed_by (owes seat self.old.at (B.tree self.old.body plan seat))) }
        ensures stood { (plan : B.Plan) (seat : HostSeat) →
            IsDo (owes seat self.old.at (B.tree self.old.body plan seat)) }
        ensures lost { self.new.at.lost ≡ self.old.at.lost }
        ensures bound { (acts : ℕ) → steps_bound self.new.at acts ≤ steps_bound self.old.at acts }
        ensures inserts { (inserts : ℕ) → inserts_left self.new.at inserts ≡ 0 }
    {
        go_to(&mut self.mode, Mode::Leave(Finish::Answer(Answer::Cut)));
    }

    /// What the first refused restoring step was answered, also where the job was cut.
    pub fn lost(&self) -> Option<Errno>
        ensures { result ≡ self.now.at.lost }
    {
        self.lost
    }

    /// Whether the wanted step is to restore the seat.
    pub fn restoring(&self) -> bool
        ensures result { result ≡ restores_now self.now.at }
        ensures restores { (plan : B.Plan) (seat : HostSeat) →
            result ≡ restores (owes seat self.now.at (B.tree self.now.body plan seat)) }
        ensures unfinished { result ≡ true → is_finished self.now.at ≡ false }
        ensures settled { (plan : B.Plan) (seat : HostSeat) →
            IsSettled (owes seat self.now.at (B.tree self.now.body plan seat)) }
    {
        match self.taken {
            Taken::Nothing => {}
            _ => return false,
        }
        if self.closings > 0 {
            return false;
        }
        is_giving_scope(&self.mode, &self.holds)
    }

    /// How it ends. A seat that was lost is told, but where the job was cut.
    pub fn finish(self) -> Finish
        requires { is_finished self.at ≡ true }
        ensures left { (plan : B.Plan) (seat : HostSeat) →
            owes seat self.at (B.tree self.body plan seat) ≡ End result }
        ensures lost { IsTold result self.at.lost }
    {
        end_of(self.mode)
    }
}

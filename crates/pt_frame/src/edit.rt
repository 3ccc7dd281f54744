ghost use Rattle.std.specs.Prelude.{◌≡◌, ◌+◌, true, false};
ghost use Rattle.pt_host.specs.declared.seat.HostSeat.{HostSeat};
ghost use Rattle.pt_frame.specs.Edit.{edit_answer, edit_left, edit_steps, is_edit_over};
ghost use Rattle.pt_frame.specs.Frame.{cut};
ghost use Rattle.pt_frame.specs.Grammar.{End, Wants, after, owed_by};

use crate::act::{Act, ActReply, Want};
use crate::finish::Finish;
use pt_host::{Edit, HostOp, HostReply};
use pt_iface::Answer;

/// An edit on its way.
#[derive(Drop)]
pub enum Editing {
    /// It is not made yet.
    Asks(Edit),
    Ends(Answer),
}

/// How an edit is answered.
fn edit_answer(reply: &ActReply) -> Answer
    ensures { result ≡ edit_answer reply.now }
{
    match reply {
        ActReply::Host(HostReply::Ok(_)) => Answer::Edited,
        ActReply::Host(HostReply::Refused(errno) | HostReply::Fault(errno)) => {
            Answer::EditRefused(*errno)
        }
        _ => Answer::NoMemory,
    }
}

impl Editing {
    pub fn want(&self) -> Want<'_>
        ensures { Wants (edit_left self.now) result }
    {
        match self {
            Editing::Asks(edit) => Want::Step(Act::Host(HostOp::Edit(edit))),
            Editing::Ends(_) => Want::Finished,
        }
    }

    /// Goes on from the reply of the step that was wanted.
    pub fn take(&mut self, reply: &ActReply)
        requires { is_edit_over self.old ≡ false }
        ensures left { edit_left self.new ≡ after reply.now (edit_left self.old) }
        ensures steps { edit_steps self.new + 1 ≡ edit_steps self.old }
    {
        *self = Editing::Ends(edit_answer(reply));
    }

    pub fn is_finished(&self) -> bool
        ensures { result ≡ is_edit_over self.now }
    {
        matches!(self, Editing::Ends(_))
    }

    /// Leaves the edit out.
    pub fn cut(&mut self)
        requires { is_edit_over self.old ≡ false }
        ensures left { (seat : HostSeat) → edit_left self.new ≡ cut seat (owed_by (edit_left self.old)) }
        ensures steps { edit_steps self.new ≡ 0 }
    {
        *self = Editing::Ends(Answer::Cut);
    }

    pub fn finish(self) -> Finish
        requires { is_edit_over self ≡ true }
        ensures { edit_left self ≡ End result }
    {
        match self {
            Editing::Ends(answer) => Finish::Answer(answer),
            Editing::Asks(_) => Finish::Answer(Answer::NoMemory),
        }
    }
}

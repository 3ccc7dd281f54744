ghost use Rattle.std.specs.Prelude.{◌≡◌, OnOk, OnErr};
ghost use Rattle.pt_host.specs.Call.{call_of};
ghost use Rattle.pt_host.specs.declared.op.KeptHostOp.TheVariants as call;
ghost use Rattle.pt_host.specs.declared.reply.HostReply.TheVariants as reply;
ghost use Rattle.pt_host.specs.declared.seat.HostSeat.{HostSeat};
ghost use Rattle.pt_store.specs.StoreState.{IsKeptBy, numbers_of, state_of};
ghost use Rattle.pt_rules.specs.State.{counted};
ghost use Rattle.pt_rules.specs.Does.{Answers, AnswersCall, ComesTo};
ghost use Rattle.pt_rules.specs.Faults.{
  after_failing,
  failure,
  failure_of,
  faulted,
  is_errno,
  past_plan,
  planned,
};
ghost use Rattle.pt_rules.specs.Table.{outcome};

use crate::seat_calls::change_seat;
use crate::store::Store;
use pt_host::{Edit, Errno, HostOp, HostReply, HostSeat};
use std::alloc::AllocError;

fn is_errno(one: Errno, other: Errno) -> bool
    ensures { result ≡ is_errno one other }
{
    one.0 == other.0
}

/// With what a call fails for which this error is planned.
fn failure(op: &HostOp<'_>, errno: Errno) -> Option<Errno>
    ensures { result ≡ failure (call_of op.now) errno }
{
    match op {
        HostOp::SetUmask { .. } => None,
        HostOp::HandleOf { .. } => {
            if is_errno(errno, Errno::EOPNOTSUPP) || is_errno(errno, Errno::EOVERFLOW) {
                Some(Errno::EIO)
            } else {
                Some(errno)
            }
        }
        HostOp::RemoveXattr { .. } => {
            if is_errno(errno, Errno::ENODATA) || is_errno(errno, Errno::EOPNOTSUPP) {
                Some(Errno::EIO)
            } else {
                Some(errno)
            }
        }
        _ => Some(errno),
    }
}

impl Store {
    /// Answers a call on the tree or the seat, which is not counted yet.
    fn answer(&mut self, seat: &mut HostSeat, op: &HostOp<'_>) -> HostReply
        requires { IsKeptBy self.old }
        ensures answers { ComesTo (state_of self.old) seat.old (call_of op.now)
            (outcome (state_of self.old) (numbers_of self.old) seat.old (call_of op.now)) result
            (state_of self.new) seat.new }
        ensures kept { IsKeptBy self.new }
    {
        match *op {
            HostOp::OpenRoot { .. }
            | HostOp::OpenPath { .. }
            | HostOp::OpenAt { .. }
            | HostOp::Reopen { .. }
            | HostOp::OpenByHandle { .. }
            | HostOp::Close { .. } => self.answer_opening(seat, op),
            HostOp::Stat { .. }
            | HostOp::HandleOf { .. }
            | HostOp::StatFs { .. }
            | HostOp::ReadLink { .. }
            | HostOp::FdPath { .. }
            | HostOp::MountInfo => self.answer_telling(seat, op),
            HostOp::MakeDir { .. }
            | HostOp::MakeNode { .. }
            | HostOp::MakeLink { .. }
            | HostOp::SymLink { .. }
            | HostOp::Unlink { .. }
            | HostOp::RemoveDir { .. }
            | HostOp::Rename { .. } => self.answer_on_names(seat, op),
            HostOp::ReadAt { .. }
            | HostOp::WriteAt { .. }
            | HostOp::Truncate { .. }
            | HostOp::Allocate { .. }
            | HostOp::Seek { .. }
            | HostOp::CopyRange { .. }
            | HostOp::ListAt { .. }
            | HostOp::Flush { .. }
            | HostOp::Sync { .. }
            | HostOp::SyncFs { .. } => self.answer_on_contents(seat, op),
            HostOp::ChMod { .. }
            | HostOp::ChOwn { .. }
            | HostOp::SetTimes { .. }
            | HostOp::SetXattr { .. }
            | HostOp::GetXattr { .. }
            | HostOp::ListXattr { .. }
            | HostOp::RemoveXattr { .. } => self.answer_on_attributes(seat, op),
            HostOp::SetGroups { .. }
            | HostOp::SetGroup { .. }
            | HostOp::SetEgid { .. }
            | HostOp::SetEuid { .. }
            | HostOp::RaiseCap { .. }
            | HostOp::DropCap { .. }
            | HostOp::SetUmask { .. } => change_seat(seat, op),
            HostOp::Edit(edit) => self.edit(edit),
        }
    }

    /// A call that fails still closes the descriptor that it is to close.
    fn close_failing(&mut self, op: &HostOp<'_>)
        requires { IsKeptBy self.old }
        ensures state { state_of self.new ≡ after_failing (state_of self.old) (call_of op.now) }
        ensures kept { IsKeptBy self.new }
    {
        if let HostOp::Close { fd } = op {
            let _ = self.close(*fd);
        }
    }

    /// The call fails as planned.
    fn fail(&mut self, op: &HostOp<'_>, errno: Errno) -> HostReply
        requires { IsKeptBy self.old }
        ensures told { result ≡ reply.Fault errno }
        ensures state { state_of self.new ≡ faulted (after_failing (state_of self.old) (call_of op.now)) }
        ensures kept { IsKeptBy self.new }
    {
        self.close_failing(op);
        self.faults = self.faults.saturating_add(1);
        HostReply::Fault(errno)
    }

    /// The failure that is planned for this call.
    fn failure_of(&self, op: &HostOp<'_>) -> Option<Errno>
        requires { IsKeptBy self.now }
        ensures { result ≡ failure_of (state_of self.now) (call_of op.now) }
    {
        match self.plans.get(self.calls + 1) {
            None => None,
            Some(errno) => failure(op, errno),
        }
    }

    /// Counts the call, up to where a time in seconds ends; what was planned for it has had its turn.
    fn count(&mut self)
        requires { IsKeptBy self.old }
        ensures counts { state_of self.new ≡ counted (past_plan (state_of self.old)) }
        ensures kept { IsKeptBy self.new }
    {
        self.plans.remove(self.calls + 1);
        self.calls = self.calls.saturating_add(1).min(i64::MAX as u64);
    }

    /// Answers a call as planned, or else by the table.
    fn answer_or_fail(&mut self, seat: &mut HostSeat, op: &HostOp<'_>) -> HostReply
        requires { IsKeptBy self.old }
        ensures answers { AnswersCall (failure_of (state_of self.old) (call_of op.now)) (state_of self.old)
            (numbers_of self.old) seat.old (call_of op.now) result (state_of self.new) seat.new }
        ensures kept { IsKeptBy self.new }
    {
        match self.failure_of(op) {
            Some(errno) => self.fail(op, errno),
            None => self.answer(seat, op),
        }
    }

    /// The same of an edit, for which no seat matters.
    fn edit_or_fail(&mut self, edit: &Edit) -> HostReply
        requires { IsKeptBy self.old }
        ensures answers { (seat : HostSeat) →
            AnswersCall (failure_of (state_of self.old) (call.Edit edit.now)) (state_of self.old)
            (numbers_of self.old) seat (call.Edit edit.now) result (state_of self.new) seat }
        ensures kept { IsKeptBy self.new }
    {
        let op = HostOp::Edit(edit);
        match self.failure_of(&op) {
            Some(errno) => self.fail(&op, errno),
            None => self.edit(edit),
        }
    }

    /// Answers a call and counts it.
    pub fn call(&mut self, seat: &mut HostSeat, op: &HostOp<'_>) -> HostReply
        requires { IsKeptBy self.old }
        ensures answers { Answers (state_of self.old) seat.old (call_of op.now) result (state_of self.new) seat.new }
        ensures kept { IsKeptBy self.new }
    {
        let reply = self.answer_or_fail(seat, op);
        self.count();
        reply
    }

    /// Makes an edit and counts it.
    pub fn make_edit(&mut self, edit: &Edit) -> HostReply
        requires { IsKeptBy self.old }
        ensures answers { (seat : HostSeat) →
            Answers (state_of self.old) seat (call.Edit edit.now) result (state_of self.new) seat }
        ensures kept { IsKeptBy self.new }
    {
        let reply = self.edit_or_fail(edit);
        self.count();
        reply
    }

    /// The call of this number, from 1 since the host was made, is to fail; one that was answered is not.
    pub fn plan(&mut self, call: u64, errno: Errno) -> Result<(), AllocError>
        requires { IsKeptBy self.old }
        ensures ok { OnOk result (state_of self.new ≡ planned (state_of self.old) call errno) }
        ensures err { OnErr result (state_of self.new ≡ state_of self.old) }
        ensures kept { IsKeptBy self.new }
    {
        if call > self.calls {
            self.plans.insert(call, errno)?;
        }
        Ok(())
    }
}

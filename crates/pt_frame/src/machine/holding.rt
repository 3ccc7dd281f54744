ghost use Rattle.std.specs.Prelude.{◌≡◌, ◌+◌, ◌≤◌, ◌<◌, ℕ, length};
ghost use Rattle.pt_host.specs.Call.{call_of};
ghost use Rattle.pt_host.specs.Sorts.{OpensWith};
ghost use Rattle.pt_host.specs.declared.flags.OpenFlags.{OpenFlags};
ghost use Rattle.pt_tables.specs.Change.{change_of};
ghost use Rattle.pt_frame.specs.Deed.{deed_of, Calls, Changes};
ghost use Rattle.pt_frame.specs.Held.{held, held_called, laid, row_fd, fd_in, is_some_fd, is_same_fd, closed};
ghost use Rattle.pt_frame.specs.Held.{slotted};
ghost use Rattle.pt_frame.specs.Held.{unslotted, handed, handed_of};
ghost use Rattle.pt_frame.specs.Machine.Left.{held_by};
ghost use Rattle.pt_frame.specs.Machine.Brings.{deed_brings, act_brings};
ghost use Rattle.pt_frame.specs.Machine.Room.{most_holds};
ghost use Rattle.pt_frame.specs.declared.act.ActReply.TheVariants as told;

use crate::act::{Act, ActReply};
use crate::hold::{Hold, Holds};
use crate::machine::giving::is_scope;
use pt_host::{Fd, HostOp, HostReply, HostValue};
use pt_session::{Event, EventReply, RowForm};

/// The descriptor by which a row's object is kept, where it is kept by one.
pub fn row_fd(form: &RowForm) -> Option<Fd>
    ensures { result ≡ row_fd form.now }
{
    match form {
        RowForm::File(fd) => Some(*fd),
    }
}

fn is_fd(hold: Hold, fd: Fd) -> bool
    ensures { result ≡ is_same_fd fd (fd_in hold) }
{
    match hold {
        Hold::Fd(same) => same.0 == fd.0,
        _ => false,
    }
}

fn is_any_fd(hold: Hold) -> bool
    ensures { result ≡ is_some_fd (fd_in hold) }
{
    matches!(hold, Hold::Fd(_))
}

/// A new hold lies under the open scopes.
fn lay(hold: Hold, holds: &mut Holds)
    requires { length holds.old < most_holds }
    ensures laid { holds.new ≡ laid hold holds.old }
    ensures length { length holds.new ≡ length holds.old + 1 }
{
    match holds.pop() {
        Some(top) if is_scope(top) => {
            lay(hold, holds);
            holds.push(top);
        }
        Some(top) => {
            holds.push(top);
            holds.push(hold);
        }
        None => holds.push(hold),
    }
}

/// The descriptor is held no more.
fn close(fd: Fd, holds: &mut Holds)
    requires { length holds.old ≤ most_holds }
    ensures closed { holds.new ≡ closed fd holds.old }
    ensures length { length holds.new ≤ length holds.old }
{
    match holds.pop() {
        Some(top) if is_fd(top, fd) => {}
        Some(top) => {
            close(fd, holds);
            holds.push(top);
        }
        None => {}
    }
}

/// A slot of this class lies under the newest descriptor.
fn slot(class: u32, holds: &mut Holds)
    requires { length holds.old < most_holds }
    ensures slotted { holds.new ≡ slotted class holds.old }
    ensures length { length holds.new ≡ length holds.old + 1 }
{
    match holds.pop() {
        Some(top) if is_any_fd(top) => {
            holds.push(Hold::Slot { class });
            holds.push(top);
        }
        Some(top) => {
            slot(class, holds);
            holds.push(top);
        }
        None => holds.push(Hold::Slot { class }),
    }
}

fn unslot(holds: &mut Holds)
    requires { length holds.old ≤ most_holds }
    ensures unslotted { holds.new ≡ unslotted holds.old }
    ensures length { length holds.new ≤ length holds.old }
{
    match holds.pop() {
        Some(Hold::Slot { .. }) => {}
        Some(top) => holds.push(top),
        None => {}
    }
}

/// The tables took the descriptor and its slot.
fn hand(fd: Fd, holds: &mut Holds)
    requires { length holds.old ≤ most_holds }
    ensures handed { holds.new ≡ handed fd holds.old }
    ensures length { length holds.new ≤ length holds.old }
{
    match holds.pop() {
        Some(top) if is_fd(top, fd) => unslot(holds),
        Some(top) => {
            hand(fd, holds);
            holds.push(top);
        }
        None => {}
    }
}

fn hand_form(form: &RowForm, holds: &mut Holds)
    requires { length holds.old ≤ most_holds }
    ensures handed { holds.new ≡ handed_of (row_fd form.now) holds.old }
    ensures length { length holds.new ≤ length holds.old }
{
    if let Some(fd) = row_fd(form) {
        hand(fd, holds);
    }
}

/// What is held after an opening.
fn hold_opened(reply: &ActReply, holds: &mut Holds)
    requires { length holds.old < most_holds }
    ensures held { (flags : OpenFlags) → holds.new ≡ held_called (OpensWith flags) reply.now holds.old }
    ensures length { length holds.new ≤ length holds.old + 1 }
{
    if let ActReply::Host(HostReply::Ok(HostValue::Fd(fd))) = reply {
        lay(Hold::Fd(*fd), holds);
    }
}

/// What is held after a call of a body.
fn hold_called(op: &HostOp<'_>, reply: &ActReply, holds: &mut Holds)
    requires { length holds.old + deed_brings (Calls (call_of op.now)) ≤ most_holds }
    ensures held { holds.new ≡ held (Calls (call_of op.now)) reply.now holds.old }
    ensures length { length holds.new ≤ length holds.old + deed_brings (Calls (call_of op.now)) }
{
    match op {
        HostOp::OpenRoot { .. } => hold_opened(reply, holds),
        HostOp::OpenPath { .. } => hold_opened(reply, holds),
        HostOp::OpenAt { .. } => hold_opened(reply, holds),
        HostOp::Reopen { .. } => hold_opened(reply, holds),
        HostOp::OpenByHandle { .. } => hold_opened(reply, holds),
        HostOp::Close { fd } => close(*fd, holds),
        _ => {}
    }
}

/// What is held after an event of a body.
fn hold_changed(event: &Event<'_>, reply: &EventReply, holds: &mut Holds)
    requires { length holds.old + deed_brings (Changes (change_of event.now)) ≤ most_holds }
    ensures held { holds.new ≡ held (Changes (change_of event.now)) (told.Event reply.now) holds.old }
    ensures length { length holds.new ≤ length holds.old + deed_brings (Changes (change_of event.now)) }
{
    match (event, reply) {
        (Event::Resolve { .. }, EventReply::Resolved(resolved)) => {
            let fd = row_fd(&resolved.form);
            lay(
                Hold::Pin {
                    row: resolved.row,
                    fd,
                },
                holds,
            );
        }
        (Event::TakeFd { class }, EventReply::Taken) => slot(*class, holds),
        (Event::Claim(claim), EventReply::Claimed(given)) => {
            lay(
                Hold::Count {
                    era: claim.era,
                    number: given.number,
                },
                holds,
            );
        }
        (Event::Insert(new), EventReply::Inserted { number }) => {
            hand_form(&new.form, holds);
            lay(
                Hold::Count {
                    era: new.era,
                    number: *number,
                },
                holds,
            );
        }
        (Event::Insert(new), EventReply::Found(given)) => {
            lay(
                Hold::Count {
                    era: new.era,
                    number: given.number,
                },
                holds,
            );
        }
        (Event::InsertRoot(new), EventReply::Inserted { .. }) => hand_form(&new.form, holds),
        (Event::InsertHandle(new), EventReply::Inserted { .. }) => hand(new.fd, holds),
        (Event::PinHandle { .. }, EventReply::Pinned { row, fd }) => {
            lay(Hold::HandlePin { row: *row, fd: *fd }, holds);
        }
        _ => {}
    }
}

/// What is held after an act of a body, which may open a scope.
pub fn hold(act: &Act<'_>, opens: Option<Hold>, reply: &ActReply, holds: &mut Holds)
    requires { length holds.old + act_brings (deed_of act.now) opens ≤ most_holds }
    ensures held { holds.new ≡ held_by (deed_of act.now) opens reply.now holds.old }
    ensures length { length holds.new ≤ length holds.old + act_brings (deed_of act.now) opens }
{
    if let Some(scope) = opens {
        if let ActReply::Host(HostReply::Ok(_)) = reply {
            holds.push(scope);
        }
        return;
    }
    match (act, reply) {
        (Act::Host(op), reply) => hold_called(op, reply, holds),
        (Act::Event(event), ActReply::Event(reply)) => hold_changed(event, reply, holds),
        _ => {}
    }
}

//! How a request goes on between two acts: marks are passed, and what is owed at them is given back.

ghost use Rattle.std.specs.Prelude.{◌≡◌, ◌≢◌, ◌+◌, ◌-◌, ◌<◌, ◌≤◌, ℕ, List, length, true, false, Some, None, Option};
ghost use Rattle.std.specs.Prelude.{IfNone, IfSome};
ghost use Rattle.pt_host.specs.declared.ids.Errno.{Errno};
ghost use Rattle.pt_host.specs.declared.seat.HostSeat.{HostSeat};
ghost use Rattle.pt_frame.specs.Frame.{closings};
ghost use Rattle.pt_frame.specs.Deed.{deed_of};
ghost use Rattle.pt_frame.specs.Grammar.{IsChosen, after, told_closings, told_inserted};
ghost use Rattle.pt_frame.specs.Replies.{closings_in};
ghost use Rattle.pt_frame.specs.Past.{lost_after, or_first};
ghost use Rattle.pt_frame.specs.Tree.{RequestTree, framed};
ghost use Rattle.pt_frame.specs.Machine.Left.{Stays, Tells, given_left, is_giving_scope, is_over, is_ready};
ghost use Rattle.pt_frame.specs.Machine.Left.{held_by, mode_counts, mode_left, passes_at};
ghost use Rattle.pt_frame.specs.Machine.Room.{acts_spent, most_holds, most_rows, room_spent, rows_spent};
ghost use Rattle.pt_frame.specs.Machine.Ahead.{IsAhead, WasHeard, stop_may};
ghost use Rattle.pt_frame.specs.Machine.Enters.{Enters, Gave, Passes};
ghost use Rattle.pt_frame.specs.Machine.Brings.{act_brings, act_may, holds_in};
ghost use Rattle.pt_frame.specs.Machine.Walk.{IsStop, asking, elsewhere, walk};
ghost use Rattle.pt_frame.specs.declared.machine.mode.Mode.TheVariants.{Body as in_body};
ghost use Rattle.pt_frame.specs.declared.told.Heard.{Heard};

use crate::act::{Act, ActReply};
use crate::asking::Stop;
use crate::finish::Finish;
use crate::hold::{Hold, Holds};
use crate::machine::body::Body;
use crate::machine::giving::{closings_in, fault_if, giving, is_scope, refusal};
use crate::machine::holding::hold;
use crate::machine::mode::{Mode, answered, go_to, is_above, lost, passes_at, take_next, tops};
use crate::marks::Marks;
use crate::product::Product;
use crate::told::{Brings, Heard, Moved, Told, act_may};
use pt_host::{Errno, HostSeat};
use pt_iface::Answer;
use std::mem;

/// What comes next of a request, without what it lends.
#[derive(Drop)]
pub enum Ahead {
    Act,
    Gives(Answer),
    Moves(Moved, usize),
    Bares,
    Brackets,
    Shuts(bool),
    /// A refusal is answered so.
    Refuses(Answer),
    /// It made this.
    Makes(Product),
    GivesUp,
}

/// The same of where a request stops.
fn comes_next(stop: Stop<'_>) -> Ahead
    ensures { (told : List Heard) (tree : RequestTree) → IsStop told tree stop.entry → IsAhead told tree result }
{
    match stop {
        Stop::Wants(_act) => Ahead::Act,
        Stop::Opens(_act, _scope) => Ahead::Act,
        Stop::Gives(answer) => Ahead::Gives(answer),
        Stop::Moves(what, place) => Ahead::Moves(what, place),
        Stop::Refuses(reply) => Ahead::Refuses(refusal(reply)),
        Stop::Bares => Ahead::Bares,
        Stop::Brackets => Ahead::Brackets,
        Stop::Shuts(passes) => Ahead::Shuts(passes),
        Stop::Makes(product) => Ahead::Makes(product),
        Stop::GivesUp => Ahead::GivesUp,
    }
}

/// Passes the mark that comes next where nothing is to be given back at it, and keeps what was made; else tells how the
/// request goes on.
fn marked<B: Body>(
    body: &B,
    told: &mut Told,
    holds: &Holds,
    marks: &mut Marks,
    plan: &B::Plan,
    seat: &HostSeat,
) -> Option<Mode>
    requires room { length holds.now + length marks.old + (most_holds - room_spent told.old) ≤ most_holds }
    ensures some { IfSome result (λ mode. Enters seat.now (B.tree body.now plan.now seat.now) (B.acts body.now)
        holds.now told.old marks.old mode told.new marks.new) }
    ensures none { IfNone result (Passes seat.now (B.tree body.now plan.now seat.now) holds.now told.old marks.old
        told.new marks.new) }
{
    match comes_next(body.run(plan, seat, told.as_slice())) {
        Ahead::Act => Some(Mode::Body),
        Ahead::Gives(answer) => Some(answered(answer, holds)),
        Ahead::Moves(what, place) => Some(answered(told.answer(what, place), holds)),
        Ahead::Refuses(answer) => Some(Mode::Leave(Finish::Answer(answer))),
        Ahead::Bares => {
            if tops(holds) {
                return Some(Mode::Bares);
            }
            told.push(Heard::Bares);
            None
        }
        Ahead::Brackets => {
            marks.push(holds.len());
            told.push(Heard::Brackets);
            None
        }
        Ahead::Shuts(passes) => {
            if is_above(passes, holds, marks) {
                return Some(Mode::Shuts(passes));
            }
            marks.pop();
            told.push(Heard::Shuts);
            None
        }
        Ahead::Makes(product) => {
            told.push(Heard::Kept(product));
            None
        }
        Ahead::GivesUp => Some(Mode::Leave(Finish::Answer(Answer::NoMemory))),
    }
}

/// Passes the marks that come next, up to one at which something is to be given back, to an act, or to the end.
fn entered<B: Body>(
    body: &B,
    told: &mut Told,
    holds: &Holds,
    marks: &mut Marks,
    plan: &B::Plan,
    seat: &HostSeat,
) -> Mode
    requires room { length holds.now + length marks.old + (most_holds - room_spent told.old) ≤ most_holds }
    ensures { Enters seat.now (B.tree body.now plan.now seat.now) (B.acts body.now) holds.now told.old marks.old result
        told.new marks.new }
{
    match marked(body, told, holds, marks, plan, seat) {
        Some(mode) => mode,
        None => entered(body, told, holds, marks, plan, seat),
    }
}

/// After a hold was given back at a mark.
fn passed<B: Body>(
    mode: &mut Mode,
    body: &B,
    told: &mut Told,
    holds: &Holds,
    marks: &mut Marks,
    plan: &B::Plan,
    seat: &HostSeat,
)
    requires other { mode.old ≢ in_body }
    requires some { passes_at mode.old ≡ true → 0 < length holds.now }
    requires room { length holds.now + length marks.old + mode_counts mode.old (most_holds - room_spent told.old)
        ≤ most_holds }
    requires stays { Stays mode.old (B.acts body.now - acts_spent told.old) (length told.old) }
    ensures enters { (lost : Option Errno) → Tells mode.old lost → Gave seat.now
        (B.tree body.now plan.now seat.now) (B.acts body.now) holds.now mode.old told.old marks.old
        lost mode.new told.new marks.new }
{
    match mode {
        Mode::Bares if !tops(holds) => {
            told.push(Heard::Bares);
            go_to(mode, entered(body, told, holds, marks, plan, seat));
        }
        Mode::Shuts(passes) if !is_above(*passes, holds, marks) => {
            marks.pop();
            told.push(Heard::Shuts);
            go_to(mode, entered(body, told, holds, marks, plan, seat));
        }
        _ => {}
    }
}

/// After the hold was given back that this mode gives back next: how many closings the reply told.
pub fn hold_given<B: Body>(
    mode: &mut Mode,
    body: &B,
    told: &mut Told,
    holds: &mut Holds,
    marks: &mut Marks,
    plan: &B::Plan,
    reply: &ActReply,
    seat: &HostSeat,
) -> u64
    requires other { mode.old ≢ in_body }
    requires going { is_over mode.old holds.old ≡ false }
    requires ready { is_ready mode.old holds.old marks.old ≡ true }
    requires room { length holds.old + length marks.old + mode_counts mode.old (most_holds - room_spent told.old)
        ≤ most_holds }
    requires stays { Stays mode.old (B.acts body.now - acts_spent told.old) (length told.old) }
    ensures left { after reply.now (mode_left seat.now mode.old
        (walk (B.tree body.now plan.now seat.now) told.old) holds.old marks.old)
        ≡ closings result holds.new (mode_left seat.now mode.new
        (walk (B.tree body.now plan.now seat.now) told.new) holds.new marks.new) }
    ensures told { result ≡ told_closings (mode_left seat.now mode.old
        (walk (B.tree body.now plan.now seat.now) told.old) holds.old marks.old) reply.now }
    ensures inserted { told_inserted (mode_left seat.now mode.old
        (walk (B.tree body.now plan.now seat.now) told.old) holds.old marks.old) reply.now ≡ 0 }
    ensures ready { is_ready mode.new holds.new marks.new ≡ true }
    ensures tells { (lost : Option Errno) → Tells mode.old lost →
        Tells mode.new (lost_after lost (is_giving_scope mode.old holds.old) reply.now) }
    ensures fewer { length holds.new + 1 ≡ length holds.old }
    ensures acts { mode_counts mode.new (B.acts body.now - acts_spent told.new)
        ≤ mode_counts mode.old (B.acts body.now - acts_spent told.old) }
    ensures stays { Stays mode.new (B.acts body.now - acts_spent told.new) (length told.new) }
    ensures rows { mode_counts mode.new (most_rows - rows_spent told.new)
        ≤ mode_counts mode.old (most_rows - rows_spent told.old) }
    ensures room { length holds.new + length marks.new + mode_counts mode.new (most_holds - room_spent told.new)
        ≤ most_holds }
{
    match take_next(passes_at(mode), holds) {
        None => 0,
        Some(hold) => {
            let fault = fault_if(is_scope(hold), reply);
            let count = closings_in(&giving(hold, seat), reply);
            match fault {
                Some(errno) => {
                    let given = mem::replace(mode, Mode::Body);
                    go_to(mode, lost(given, errno));
                }
                None => passed(mode, body, told, holds, marks, plan, seat),
            }
            count
        }
    }
}

/// The reply to an act is held: how many closings it told, and what such an act may bring.
fn stepped(act: &Act<'_>, opens: Option<Hold>, reply: &ActReply, holds: &mut Holds) -> (u64, Brings)
    requires { length holds.old + act_brings (deed_of act.now) opens ≤ most_holds }
    ensures closings { result.0 ≡ closings_in (deed_of act.now) reply.now }
    ensures may { result.1 ≡ act_may (deed_of act.now) opens }
    ensures held { holds.new ≡ held_by (deed_of act.now) opens reply.now holds.old }
    ensures length { length holds.new ≤ length holds.old + act_brings (deed_of act.now) opens }
{
    let closings = closings_in(act, reply);
    let may = match opens {
        Some(_) => Brings::Hold,
        None => act_may(act),
    };
    hold(act, opens, reply, holds);
    (closings, may)
}

/// The same where a request stops at an act.
fn hear(stop: &Stop<'_>, reply: &ActReply, holds: &mut Holds) -> Option<(u64, Brings)>
    requires { length holds.old + holds_in (stop_may stop.now) ≤ most_holds }
    ensures some { IfSome result (λ it. (told : List Heard) (tree : RequestTree) → IsStop told tree stop.now →
        WasHeard tree reply.now holds.old holds.new it.0 it.1) }
    ensures none { IfNone result ((told : List Heard) (tree : RequestTree) → IsStop told tree stop.now →
        asking tree ≡ elsewhere) }
    ensures same { IfNone result (holds.new ≡ holds.old) }
{
    match stop {
        Stop::Wants(act) => Some(stepped(act, None, reply, holds)),
        Stop::Opens(act, scope) => Some(stepped(act, Some(*scope), reply, holds)),
        _ => None,
    }
}

/// The same of a request that was told all this.
fn hear_of<B: Body>(
    body: &B,
    told: &Told,
    plan: &B::Plan,
    reply: &ActReply,
    seat: &HostSeat,
    holds: &mut Holds,
) -> Option<(u64, Brings)>
    requires { length holds.old + (most_holds - room_spent told.now) ≤ most_holds }
    ensures some { IfSome result (λ it. WasHeard (walk (B.tree body.now plan.now seat.now) told.now) reply.now
        holds.old holds.new it.0 it.1) }
    ensures none { IfNone result (asking (walk (B.tree body.now plan.now seat.now) told.now) ≡ elsewhere) }
    ensures same { IfNone result (holds.new ≡ holds.old) }
{
    let stop = body.run(plan, seat, told.as_slice());
    hear(&stop, reply, holds)
}

/// After a step of the body: how many closings the reply told.
#[inline(always)]
pub fn body_stepped<B: Body>(
    mode: &mut Mode,
    body: &B,
    told: &mut Told,
    holds: &mut Holds,
    marks: &mut Marks,
    plan: &B::Plan,
    reply: ActReply,
    seat: &HostSeat,
) -> u64
    requires room { length holds.old + length marks.old + (most_holds - room_spent told.old) ≤ most_holds }
    requires act { 1 ≤ B.acts body.now - acts_spent told.old }
    ensures left { IsChosen (after reply (framed seat.now
        (asking (walk (B.tree body.now plan.now seat.now) told.old)) holds.old marks.old))
        (closings result holds.new (mode_left seat.now mode.new
        (walk (B.tree body.now plan.now seat.now) told.new) holds.new marks.new)) }
    ensures told { result ≡ told_closings (framed seat.now
        (asking (walk (B.tree body.now plan.now seat.now) told.old)) holds.old marks.old) reply }
    ensures fewer { length holds.new + mode_counts mode.new (B.acts body.now - acts_spent told.new)
        < length holds.old + (B.acts body.now - acts_spent told.old) }
    ensures rows { mode_counts mode.new (most_rows - rows_spent told.new) + told_inserted (framed seat.now
        (asking (walk (B.tree body.now plan.now seat.now) told.old)) holds.old marks.old) reply
        ≤ most_rows - rows_spent told.old }
    ensures room { length holds.new + length marks.new + mode_counts mode.new (most_holds - room_spent told.new)
        ≤ most_holds }
    ensures ready { is_ready mode.new holds.new marks.new ≡ true }
    ensures stays { Stays mode.new (B.acts body.now - acts_spent told.new) (length told.new) }
    ensures tells { Tells mode.new None }
{
    match hear_of(body, told, plan, &reply, seat, holds) {
        None => {
            go_to(mode, Mode::Leave(Finish::Answer(refusal(&reply))));
            0
        }
        Some((closings, may)) => {
            told.push(Heard::Reply { reply, may });
            go_to(mode, entered(body, told, holds, marks, plan, seat));
            closings
        }
    }
}

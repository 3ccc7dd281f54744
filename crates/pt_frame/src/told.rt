ghost use Rattle.std.specs.Prelude.{◌≡◌, ◌<◌, ◌≤◌, ◌++◌, ◌∷◌, [], length, slice_get};
ghost use Rattle.pt_host.specs.Call.{call_of};
ghost use Rattle.pt_host.specs.Sorts.{sort_of};
ghost use Rattle.pt_tables.specs.Change.{change_of};
ghost use Rattle.pt_frame.specs.Deed.{deed_of};
ghost use Rattle.pt_frame.specs.Machine.Brings.{brings_of, change_brings, is_same, sort_brings};
ghost use Rattle.pt_frame.specs.Machine.Room.{most_told};
ghost use Rattle.pt_frame.specs.Machine.Walk.{HasFor, moved_in};

use crate::act::{Act, ActReply};
use crate::product::Product;
use arrayvec::ArrayVec;
use pt_host::{HostOp, HostReply, HostValue};
use pt_iface::{Answer, GetxattrReply, ListxattrReply};
use pt_session::Event;
use std::marker::Model;

/// What a step may bring, whatever it is told: something to give back, a row of the tables, both, or neither.
#[derive(Clone, Copy)]
pub enum Brings {
    Nothing,
    Hold,
    Row,
    RowAndHold,
}

/// One thing that a request was told: the reply to a step, with what such a step may bring, or that a mark was passed.
/// What it made is kept here, so that its acts can borrow it.
#[derive(Drop)]
pub enum Heard {
    Reply { reply: ActReply, may: Brings },
    /// The open scopes ended.
    Bares,
    /// A bracket began.
    Brackets,
    /// A bracket ended.
    Shuts,
    /// What it made.
    Kept(Product),
}

impl Default for Heard {
    fn default() -> Self {
        Heard::Bares
    }
}

/// The answer that the bytes of a reply make, or what the request made.
#[derive(Clone, Copy)]
pub enum Moved {
    Read,
    Link,
    Xattr,
    Xattrs,
    Listing,
}

/// All that a request was told, in order.
#[derive(Drop)]
pub struct Told {
    kept: ArrayVec<Heard, 32>,
}

impl Model for Told {
    ghost use Rattle.std.specs.Prelude.{List};
    ghost use Rattle.pt_frame.specs.declared.told.Heard.{Heard};

    ghost Value = { List Heard };

    ghost view = { λ told. told.kept.items };
}

impl Told {
    pub fn new() -> Self
        ensures { result ≡ [] }
    {
        Told {
            kept: ArrayVec::new(),
        }
    }

    pub fn as_slice(&self) -> &[Heard]
        ensures { result.now ≡ self.now }
    {
        self.kept.as_slice()
    }

    pub fn push(&mut self, heard: Heard)
        requires { length self.old < most_told }
        ensures { self.new ≡ self.old ++ heard ∷ [] }
    {
        self.kept.push(heard);
    }

    /// The answer that what was told at this place makes, which is moved out of it.
    pub fn answer(&mut self, what: Moved, place: usize) -> Answer
        requires { HasFor what self.old place }
        ensures { result ≡ moved_in what (slice_get self.old place) }
    {
        match self.kept.swap_pop(place) {
            Some(
                Heard::Reply {
                    reply: ActReply::Host(HostReply::Ok(HostValue::Bytes(bytes))),
                    ..
                },
            ) => match what {
                Moved::Read => Answer::Read(bytes),
                Moved::Link => Answer::Link(bytes),
                Moved::Xattr => Answer::Xattr(GetxattrReply::Value(bytes)),
                Moved::Xattrs => Answer::Xattrs(ListxattrReply::Names(bytes)),
                Moved::Listing => Answer::NoMemory,
            },
            Some(Heard::Kept(Product::Bytes(bytes))) => match what {
                Moved::Read => Answer::Read(bytes),
                Moved::Link => Answer::Link(bytes),
                Moved::Xattr => Answer::Xattr(GetxattrReply::Value(bytes)),
                Moved::Xattrs => Answer::Xattrs(ListxattrReply::Names(bytes)),
                Moved::Listing => Answer::NoMemory,
            },
            Some(Heard::Kept(Product::Entries(entries))) => match what {
                Moved::Listing => Answer::Listing(entries),
                _ => Answer::NoMemory,
            },
            _ => Answer::NoMemory,
        }
    }
}

/// Whether both may bring the same.
pub fn is_same(one: Brings, other: Brings) -> bool
    ensures { result ≡ is_same one other }
{
    match (one, other) {
        (Brings::Nothing, Brings::Nothing) => true,
        (Brings::Hold, Brings::Hold) => true,
        (Brings::Row, Brings::Row) => true,
        (Brings::RowAndHold, Brings::RowAndHold) => true,
        _ => false,
    }
}

/// What an event may bring.
fn event_may(event: &Event<'_>) -> Brings
    ensures { result ≡ change_brings (change_of event.now) }
{
    match event {
        Event::Resolve { .. } | Event::Claim(_) | Event::TakeFd { .. } | Event::PinHandle { .. } =>
            { Brings::Hold }
        Event::Insert(_) => Brings::RowAndHold,
        Event::InsertRoot(_) | Event::InsertHandle(_) => Brings::Row,
        _ => Brings::Nothing,
    }
}

/// What a call may bring.
fn call_may(op: &HostOp<'_>) -> Brings
    ensures { result ≡ sort_brings (sort_of (call_of op.now)) }
{
    match op {
        HostOp::OpenRoot { .. }
        | HostOp::OpenPath { .. }
        | HostOp::OpenAt { .. }
        | HostOp::Reopen { .. }
        | HostOp::OpenByHandle { .. } => Brings::Hold,
        _ => Brings::Nothing,
    }
}

/// What an act may bring.
pub fn act_may(act: &Act<'_>) -> Brings
    ensures { result ≡ brings_of (deed_of act.now) }
{
    match act {
        Act::Event(event) => event_may(event),
        Act::Host(op) => call_may(op),
    }
}
